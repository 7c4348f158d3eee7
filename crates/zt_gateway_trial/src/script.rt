// The script, and its lines.
use crate::fault::{Fault, TRIES};
use std::alloc::Global;
use zt_streams::{SCRIPT_BYTES, Source};

const PIECE_BYTES: usize = 4096;

// Adds a piece, again where that ran out of memory.
fn add_again(script: &mut Vec<u8>, piece: &[u8]) -> Result<(), Fault> {
    for _ in 0..TRIES {
        if script.extend_from_slice(piece).is_ok() {
            return Ok(());
        }
    }
    Err(Fault::Memory)
}

// Adds what the source gives up to its end.
fn read_all<S: Source>(script: &mut Vec<u8>, source: &mut S) -> Result<(), Fault> {
    let mut piece = [0u8; PIECE_BYTES];
    for _ in 0..=SCRIPT_BYTES {
        let Ok(count) = source.read(&mut piece) else {
            return Err(Fault::Read);
        };
        if count == 0 {
            return Ok(());
        }
        add_again(script, &piece[..count])?;
        if script.len() > SCRIPT_BYTES {
            break;
        }
    }
    Err(Fault::TooLong)
}

/// The whole script that the source gives.
pub fn script_again<S: Source>(alloc: Global, source: &mut S) -> Result<Vec<u8>, Fault> {
    let mut script = Vec::new(alloc);
    read_all(&mut script, source)?;
    Ok(script)
}

/// The first line without its line feed, and what is behind it.
pub fn next_line(script: &[u8]) -> (&[u8], &[u8]) {
    match script.iter().position(|byte| *byte == b'\n') {
        Some(end) => (&script[..end], &script[end + 1..]),
        None => (script, &[]),
    }
}
