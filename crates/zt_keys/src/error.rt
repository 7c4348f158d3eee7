// The errors of keys.
ghost use Rattle.std.specs.Prelude.{◌≡◌};
ghost use Rattle.zt_keys.specs.declared.error.KeyError.TheVariants as variant;

use std::alloc::{AllocError, AllocFailed};

/// Memory ran out. A call that answers this has changed nothing unless its own text says otherwise.
#[derive(Clone, Copy, PartialEq, Eq, Debug)]
pub struct Memory;

impl From<AllocError> for Memory {
    fn from(_error: AllocError) -> Memory {
        Memory
    }
}

impl<T: Drop> From<AllocFailed<T>> for Memory {
    fn from(_error: AllocFailed<T>) -> Memory {
        Memory
    }
}

/// Why a text was not read as a key.
#[derive(Clone, Copy, PartialEq, Eq, Debug)]
pub enum KeyError {
    /// The text has no byte.
    Empty,
    /// A chunk is empty or has a byte or a wildcard where none may stand; the first such chunk
    /// begins at this byte.
    BadChunk(usize),
    /// A `**` is followed at once by `**` or `*`; the first such `**` begins at this byte.
    NotCanonical(usize),
    /// Memory ran out; the text may be a key.
    Memory,
}

impl From<AllocError> for KeyError {
    ghost from_gives = { λ _ error. error ≡ variant.Memory };

    fn from(_error: AllocError) -> KeyError {
        KeyError::Memory
    }
}

impl<T: Drop> From<AllocFailed<T>> for KeyError {
    ghost from_gives = { λ _ error. error ≡ variant.Memory };

    fn from(_error: AllocFailed<T>) -> KeyError {
        KeyError::Memory
    }
}

impl From<Memory> for KeyError {
    ghost from_gives = { λ _ error. error ≡ variant.Memory };

    fn from(_error: Memory) -> KeyError {
        KeyError::Memory
    }
}
