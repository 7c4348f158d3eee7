//! Streams of bytes: where a script comes from, where a transcript goes, and a script cut into its
//! lines in whatever pieces it comes.
#![tactic(auto)]

mod memory;
mod outside;
mod pieces;
mod reading;
mod standard;

pub use memory::{CountingSink, MemorySink, MemorySource};
pub use outside::{Failed, Sink, Source, write_all};
pub use pieces::{Feeder, lines_in_pieces};
pub use reading::{SCRIPT_BYTES, Script, ScriptError, read_script};
pub use standard::{StdSink, StdSource};
