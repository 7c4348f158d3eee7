// Of which kinds a text's chunks are.
ghost use Rattle.std.specs.Prelude.{◌≡◌, ◌<◌, get_or};
ghost use Rattle.zt_keys.specs.Kinds.{kind_of, kinds_after, kinds_of, other_kinds};
ghost use Rattle.zt_keys.specs.Parts.{part_of};

use crate::walk::{is_double, is_single, next_chunk};

// The byte at a place, or 0 where none is there.
fn byte_at(chunk: &[u8], place: usize) -> u64
    ensures byte { result ≡ get_or chunk.now place 0 }
    ensures small { result < 256 }
{
    match chunk.get(place) {
        Some(byte) => u64::from(*byte),
        None => 0,
    }
}

// One of 64 kinds, by the length of the chunk and its last two bytes: cheap to find, and mostly
// another one where names end in numbers.
fn kind_of(chunk: &[u8]) -> u64
    ensures kind { result ≡ kind_of chunk.now }
    ensures few { result < 64 }
{
    let len = chunk.len();
    let last = byte_at(chunk, len.saturating_sub(1));
    let before = byte_at(chunk, len.saturating_sub(2));
    (len as u64 + 11 * last + 23 * before) % 64
}

// All bits but that of the chunk's kind.
fn other_kinds(chunk: &[u8]) -> u64
    ensures { result ≡ other_kinds chunk.now }
{
    u64::MAX - (1 << kind_of(chunk))
}

// The kinds with that of one chunk more, unless it is a wildcard.
fn kinds_with(kinds: u64, chunk: &[u8]) -> u64
    ensures { result ≡ kinds_after kinds (part_of chunk.now) }
{
    if is_double(chunk) || is_single(chunk) {
        return kinds;
    }
    kinds & other_kinds(chunk)
}

// A number whose bits say of which kinds the chunks without wildcards are: 0 where some chunk is of
// the kind.
#[tactic(auto, unfolding(crate::specs::Kinds::kinds_of))]
pub(crate) fn kinds_of(text: &[u8]) -> u64
    ensures { result ≡ kinds_of text.now }
{
    let mut rest = text;
    let mut kinds = u64::MAX;
    while !rest.is_empty() {
        let (chunk, after) = next_chunk(rest);
        kinds = kinds_with(kinds, chunk);
        rest = after;
    }
    kinds
}
