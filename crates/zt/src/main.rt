//! `zt` reads a script from standard input and prints its transcript: for each line its refusal by
//! name or every message that the gateways send, then three totals. With the words `make N` it
//! carries out a script of its own instead, in which N sessions come and go, and prints the totals
//! alone.
#![tactic(auto)]

use std::env;
use std::io::ErrorKind;
use std::process::ExitCode;
use zt_fabric::tool;
use zt_streams::{StdSink, StdSource};

// The status of a run that ran out of memory, and of words that ask for nothing that the program
// does.
const NO_MEMORY: u8 = 5;

const UNKNOWN_WORDS: u8 = 64;

fn main(rt: HostRuntime) -> ExitCode {
    let alloc = rt.alloc();
    let args = match env::args(&rt) {
        Ok(args) => args,
        Err(error) if error.kind() == ErrorKind::OutOfMemory => return ExitCode::from(NO_MEMORY),
        // A word that isn't UTF-8.
        Err(_) => return ExitCode::from(UNKNOWN_WORDS),
    };
    let words: Result<Vec<String>, _> = args.skip(1).collect(alloc);
    let Ok(words) = words else {
        return ExitCode::from(NO_MEMORY);
    };
    let mut source = StdSource::new(&rt);
    let mut sink = StdSink::new(&rt);
    ExitCode::from(tool(alloc, words.as_slice(), &mut source, &mut sink))
}
