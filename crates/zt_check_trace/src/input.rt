//! A whole input, up to the most that is read of one.
ghost use Rattle.std.specs.Prelude.{◌≡◌, ◌<◌, ◌≤◌, ◌↔◌, ◌++◌, ◌+◌, false, IsTrue, OnOk, take};
ghost use Rattle.std.specs.Prelude.{length, vec_len, IfOk, Err};
ghost use Rattle.zt_streams.specs.Streams.{HasRisen, TakesFront};
ghost use Rattle.std.specs.Io.KnownBytes.{IsAtEnd};

use std::alloc::{AllocError, Global};
use zt_streams::Source;

/// The most bytes that are read of an input.
pub const INPUT_BYTES: usize = 16_777_216;

const CHUNK_BYTES: usize = 65_536;

/// What was read of an input.
#[derive(Drop)]
pub struct Input {
    /// The text, or its first `INPUT_BYTES` bytes.
    pub bytes: Vec<u8>,
    /// Whether there is more of it than that.
    pub longer: bool,
}

/// Why no input was read.
#[derive(Clone, Copy, PartialEq, Eq, Debug)]
pub enum InputError {
    /// The source failed.
    Fault,
    /// Memory ran out.
    Memory,
}

/// Reads an input to its end, or until it is known to be longer than `INPUT_BYTES`. `Fault` comes
/// exactly where the source's count of faults changes, which then rises. After an error what was
/// read is lost. The source is read at most 16,777,217 times.
pub fn read_input<S: Source>(alloc: Global, source: &mut S) -> Result<Input, InputError>
    ensures taken { IfOk result (λ input.
        TakesFront INPUT_BYTES (S.left source.old) (S.left source.new) input.bytes.items
        input.longer) }
    ensures end { IfOk result (λ input. input.longer ≡ false → IsAtEnd (S.left source.new)) }
    ensures bound { IfOk result (λ input. vec_len input.bytes ≤ INPUT_BYTES) }
    ensures fault { result ≡ Err InputError.Fault
        → HasRisen (S.faults source.old) (S.faults source.new) }
    ensures calm { (result ≡ Err InputError.Fault → ⊥)
        → S.faults source.new ≡ S.faults source.old }
    ensures count { S.faults source.old ≤ S.faults source.new }
    ensures reads { S.reads source.new ≤ S.reads source.old + (INPUT_BYTES + 1) }
{
    let mut bytes = Vec::new(alloc);
    let mut chunk = [0u8; CHUNK_BYTES];
    loop {
        let Ok(count) = source.read(&mut chunk) else {
            return Err(InputError::Fault);
        };
        if count == 0 {
            return Ok(Input {
                bytes,
                longer: false,
            });
        }
        let Ok(longer) = take_chunk(&mut bytes, &chunk[..count]) else {
            return Err(InputError::Memory);
        };
        if longer {
            return Ok(Input {
                bytes,
                longer: true,
            });
        }
    }
}

// Adds what of the chunk there is room for, and answers whether that isn't all.
fn take_chunk(bytes: &mut Vec<u8>, chunk: &[u8]) -> Result<bool, AllocError>
    requires { vec_len bytes.old ≤ INPUT_BYTES }
    ensures added { OnOk result
        (bytes.new.items ≡ take INPUT_BYTES (bytes.old.items ++ chunk.now)) }
    ensures whole { IfOk result
        (λ longer. longer ≡ false → bytes.new.items ≡ bytes.old.items ++ chunk.now) }
    ensures longer { IfOk result
        (λ longer. IsTrue longer ↔ (INPUT_BYTES < length (bytes.old.items ++ chunk.now))) }
    ensures bound { OnOk result (vec_len bytes.new ≤ INPUT_BYTES) }
    ensures grown { IfOk result
        (λ longer. longer ≡ false → vec_len bytes.new ≡ vec_len bytes.old + length chunk.now) }
{
    let room = INPUT_BYTES - bytes.len();
    bytes.extend_from_slice(&chunk[..room.min(chunk.len())])?;
    Ok(room < chunk.len())
}
