// Steps that are made again where they ran out of memory.
ghost use Rattle.std.specs.Prelude.{IfOk, IsTrue};
ghost use Rattle.zt_laws.specs.Sound.{HasFirstIds};
ghost use Rattle.zt_protocol.specs.Plain.{plain_line};

use crate::fault::{Fault, TRIES};
use std::alloc::Global;
use zt_keys::{Key, Memory};
use zt_lines::read_line;
use zt_links::Fabric;
use zt_protocol::{Entry, Line, LineError};

// Whether the first ids that a line names are at least 1. Those of lines that are read are.
fn has_first_ids<K: Key>(line: &Line<K>) -> bool
    ensures { IsTrue result → HasFirstIds (plain_line line.now) }
{
    match line {
        Line::Session { first, .. } | Line::Face { first, .. } => *first > 0,
        Line::Link { first, back, .. } => *first > 0 && *back > 0,
        _ => true,
    }
}

/// The line that the bytes spell.
pub fn line_again<K: Key>(alloc: Global, bytes: &[u8]) -> Result<Line<K>, Fault>
    ensures { IfOk result (λ line. HasFirstIds (plain_line line)) }
{
    for _ in 0..TRIES {
        match read_line(alloc, bytes) {
            Ok(line) if has_first_ids(&line) => return Ok(line),
            Err(LineError::Memory) => {}
            _ => return Err(Fault::BadLine),
        }
    }
    Err(Fault::Memory)
}

/// The entry of the line, which is carried out.
pub fn step_again<K: Key>(fabric: &mut Fabric<K>, line: &Line<K>) -> Result<Entry<K>, Fault>
    requires { HasFirstIds (plain_line line.now) }
{
    for _ in 0..TRIES {
        match fabric.step_line(line) {
            Ok(entry) => return Ok(entry),
            Err(Memory) => {}
        }
    }
    Err(Fault::Memory)
}
