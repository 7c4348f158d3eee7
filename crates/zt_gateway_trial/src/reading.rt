// Lines as calls on a gateway.
ghost use Rattle.std.specs.Prelude.{IfOk, IsTrue};
ghost use Rattle.zt_laws.specs.Sound.{CallHasFirstIds};
ghost use Rattle.zt_protocol.specs.Plain.{plain_call};

use crate::fault::{Fault, TRIES};
use std::alloc::Global;
use zt_keys::Key;
use zt_lines::read_line;
use zt_protocol::{Call, Line, LineError};

/// The line that the bytes spell.
pub fn line_again<K: Key>(alloc: Global, bytes: &[u8]) -> Result<Line<K>, Fault> {
    for _ in 0..TRIES {
        match read_line(alloc, bytes) {
            Ok(line) => return Ok(line),
            Err(LineError::Memory) => {}
            Err(_) => return Err(Fault::BadLine),
        }
    }
    Err(Fault::Memory)
}

// Whether a call that opens a face has a first id that is at least 1. Those that are read have.
fn has_first_ids<K: Key>(call: &Call<K>) -> bool
    ensures { IsTrue result → CallHasFirstIds (plain_call call.now) }
{
    match call {
        Call::NewSession { first } | Call::NewTransport { first, .. } => *first > 0,
        _ => true,
    }
}

// The call that a line makes on the gateway, which is the script's first one.
fn call_in<K: Key>(line: Line<K>) -> Option<Call<K>> {
    match line {
        Line::Session { gateway: 1, first } => Some(Call::NewSession { first }),
        Line::Face {
            gateway: 1,
            mode,
            zid,
            region,
            bound,
            first,
        } => Some(Call::NewTransport {
            zid,
            whatami: mode,
            region,
            remote_bound: bound,
            first,
        }),
        Line::Speak { call } => Some(call),
        Line::Moment { gateway: 1, now } => Some(Call::Expire { now }),
        Line::Trees {
            gateway: 1,
            region,
            table,
        } => Some(Call::SetTrees { region, table }),
        _ => None,
    }
}

/// The call that a line makes on the gateway.
pub fn call_of<K: Key>(line: Line<K>) -> Result<Call<K>, Fault>
    ensures { IfOk result (λ call. CallHasFirstIds (plain_call call)) }
{
    match call_in(line) {
        Some(call) if has_first_ids(&call) => Ok(call),
        _ => Err(Fault::BadLine),
    }
}
