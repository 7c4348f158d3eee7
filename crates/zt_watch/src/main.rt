//! `zt_watch WORKERS POLLS [KEY]` reads a script of one gateway from standard input, lets that many
//! workers carry out its lines at the same time, and beside them a monitor polls that many times
//! which tokens are alive, and once more when they have ended: those that match KEY, or without one
//! all. It prints the transcript of the lines in the order in which they were carried out, the
//! monitor's among them under the number 0, and then what each poll found.
#![tactic(auto)]

use std::env;
use std::io::ErrorKind;
use std::process::ExitCode;
use zt_streams::{StdSink, StdSource};
use zt_watch_tool::watch_tool;

// The status of a run that ran out of memory, and of words that ask for nothing that the program
// does.
const NO_MEMORY: u8 = 5;

const UNKNOWN_WORDS: u8 = 64;

fn main(rt: HostRuntime) -> ExitCode {
    let alloc = rt.alloc();
    let args = match env::args(&rt) {
        Ok(args) => args,
        Err(error) if error.kind() == ErrorKind::OutOfMemory => return ExitCode::from(NO_MEMORY),
        // A word that isn't UTF-8.
        Err(_) => return ExitCode::from(UNKNOWN_WORDS),
    };
    let words: Result<Vec<String>, _> = args.skip(1).collect(alloc);
    let Ok(words) = words else {
        return ExitCode::from(NO_MEMORY);
    };
    let mut source = StdSource::new(&rt);
    let mut sink = StdSink::new(&rt);
    ExitCode::from(watch_tool(&rt, alloc, words.as_slice(), &mut source, &mut sink))
}
