// Keys as bytes.
ghost use Rattle.std.specs.Prelude.{◌≡◌, ◌++◌, IfErr, IfOk, Some, drop, length, nat_le};
ghost use Rattle.std.specs.Prelude.{if◌then◌else◌};
ghost use Rattle.zt_engine.specs.Keys.{IsUnread, key_in};

use crate::status::{BAD_KEY, OUT_OF_MEMORY};
use std::alloc::Global;
use zt_keys::{Key, KeyError};

// The key that the bytes spell, or the status of a call with them.
#[tactic(auto, unfolding(crate::specs::Keys::key_in))]
pub(crate) fn key_in<K: Key>(alloc: Global, bytes: &[u8]) -> Result<K, u32>
    ensures read { IfOk result (λ key. key_in K.reading bytes.now ≡ Some key) }
    ensures unread { IfErr result (IsUnread K.reading bytes.now) }
{
    let Ok(text) = std::str::from_utf8(bytes) else {
        return Err(BAD_KEY);
    };
    match K::read(alloc, text) {
        Ok(key) => Ok(key),
        Err(KeyError::Memory) => Err(OUT_OF_MEMORY),
        Err(_) => Err(BAD_KEY),
    }
}

// Writes a text to the front of a buffer, where it has room, and its length. Answers whether it
// had.
pub(crate) fn put_text(text: &[u8], out: &mut [u8], written: &mut usize) -> bool
    ensures fits { result ≡ nat_le (length text.now) (length out.old) }
    ensures out { out.new
        ≡ (if result then text.now ++ drop (length text.now) out.old else out.old) }
    ensures written { written.new ≡ length text.now }
{
    *written = text.len();
    if out.len() < text.len() {
        return false;
    }
    out[..text.len()].copy_from_slice(text);
    true
}
