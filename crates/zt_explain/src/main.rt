//! `zt_explain` reads a script, a line `---` and the transcript that another implementation printed
//! for the script from standard input, and says in a line for each rule that it breaks what is
//! wrong, and how many they are.
#![tactic(auto)]

use std::env;
use std::io::ErrorKind;
use std::process::ExitCode;
use zt_explaining::explain_tool;
use zt_streams::{StdSink, StdSource};

// The status of a run that ran out of memory, and of words that ask for nothing that the program
// does.
const NO_MEMORY: u8 = 7;

const UNKNOWN_WORDS: u8 = 64;

fn main(rt: HostRuntime) -> ExitCode {
    let alloc = rt.alloc();
    let args = match env::args(&rt) {
        Ok(args) => args,
        Err(error) if error.kind() == ErrorKind::OutOfMemory => return ExitCode::from(NO_MEMORY),
        // A word that isn't UTF-8.
        Err(_) => return ExitCode::from(UNKNOWN_WORDS),
    };
    let words: Result<Vec<String>, _> = args.skip(1).collect(alloc);
    let Ok(words) = words else {
        return ExitCode::from(NO_MEMORY);
    };
    let mut source = StdSource::new(&rt);
    let mut sink = StdSink::new(&rt);
    ExitCode::from(explain_tool(alloc, words.as_slice(), &mut source, &mut sink))
}
