//! A whole script, up to the most that is read of one.
ghost use Rattle.std.specs.Prelude.{◌≡◌, ◌<◌, ◌≤◌, ◌↔◌, ◌++◌, ◌+◌, false, IsTrue, OnOk, take};
ghost use Rattle.std.specs.Prelude.{length, vec_len, IfOk, IfSome, Err};
ghost use Rattle.zt_streams.specs.Streams.{HasRisen, Spends, TakesFront};
ghost use Rattle.std.specs.Io.KnownBytes.{IsAtEnd};

use crate::outside::Source;
use std::alloc::{AllocError, Global};

/// The most bytes that are read of a script.
pub const SCRIPT_BYTES: usize = 1_048_576;

const PIECE_BYTES: usize = 4096;

/// What was read of a script.
#[derive(Drop)]
pub struct Script {
    /// The text, or its first `SCRIPT_BYTES` bytes.
    pub bytes: Vec<u8>,
    /// Whether there is more of it than that.
    pub longer: bool,
}

/// Why no script was read.
#[derive(Clone, Copy, PartialEq, Eq, Debug)]
pub enum ScriptError {
    /// The source failed.
    Fault,
    /// Memory ran out.
    Memory,
}

/// Reads a script to its end, or until it is known to be longer than `SCRIPT_BYTES`. `Fault` comes
/// only where the source's count of faults rose. After an error what was read is lost. The source
/// is read at most 1,048,577 times.
pub fn read_script<S: Source>(alloc: Global, source: &mut S) -> Result<Script, ScriptError>
    // Where the source tells its bytes.
    ensures text { IfOk result (λ script. IfSome (S.left source.old) (λ text.
        script.bytes.items ≡ take SCRIPT_BYTES text)) }
    ensures longer { IfOk result (λ script. IfSome (S.left source.old) (λ text.
        IsTrue script.longer ↔ (SCRIPT_BYTES < length text))) }
    ensures end { IfOk result (λ script. script.longer ≡ false → IsAtEnd (S.left source.new)) }
    ensures spent { Spends (S.left source.old) (S.left source.new) }

    // At every source.
    ensures taken { IfOk result (λ script.
        TakesFront SCRIPT_BYTES (S.left source.old)
        (S.left source.new) script.bytes.items script.longer) }
    ensures bound { IfOk result (λ script. vec_len script.bytes ≤ SCRIPT_BYTES) }
    ensures full { IfOk result
        (λ script. IsTrue script.longer → vec_len script.bytes ≡ SCRIPT_BYTES) }
    ensures fault { result ≡ Err ScriptError.Fault
        → HasRisen (S.faults source.old) (S.faults source.new) }
    ensures calm { (result ≡ Err ScriptError.Fault → ⊥)
        → S.faults source.new ≡ S.faults source.old }
    ensures count { S.faults source.old ≤ S.faults source.new }
    ensures reads { S.reads source.new ≤ S.reads source.old + (SCRIPT_BYTES + 1) }
{
    let mut bytes = Vec::new(alloc);
    let mut piece = [0u8; PIECE_BYTES];
    loop {
        let Ok(count) = source.read(&mut piece) else {
            return Err(ScriptError::Fault);
        };
        if count == 0 {
            return Ok(Script {
                bytes,
                longer: false,
            });
        }
        let Ok(longer) = take_piece(&mut bytes, &piece[..count]) else {
            return Err(ScriptError::Memory);
        };
        if longer {
            return Ok(Script {
                bytes,
                longer: true,
            });
        }
    }
}

// Adds what of the piece there is room for, and answers whether that isn't all.
fn take_piece(bytes: &mut Vec<u8>, piece: &[u8]) -> Result<bool, AllocError>
    requires { vec_len bytes.old ≤ SCRIPT_BYTES }
    ensures added { OnOk result
        (bytes.new.items ≡ take SCRIPT_BYTES (bytes.old.items ++ piece.now)) }
    ensures whole { IfOk result
        (λ longer. longer ≡ false → bytes.new.items ≡ bytes.old.items ++ piece.now) }
    ensures longer { IfOk result
        (λ longer. IsTrue longer ↔ (SCRIPT_BYTES < length (bytes.old.items ++ piece.now))) }
    ensures bound { OnOk result (vec_len bytes.new ≤ SCRIPT_BYTES) }
    ensures full { IfOk result (λ longer. IsTrue longer → vec_len bytes.new ≡ SCRIPT_BYTES) }
    ensures grown { IfOk result
        (λ longer. longer ≡ false → vec_len bytes.new ≡ vec_len bytes.old + length piece.now) }
{
    let room = SCRIPT_BYTES - bytes.len();
    bytes.extend_from_slice(&piece[..room.min(piece.len())])?;
    Ok(room < piece.len())
}
