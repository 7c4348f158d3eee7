// The numbers of a text's chunks, by which keys with wildcards are found.
ghost use Rattle.std.specs.Prelude.{◌≡◌, ◌++◌, None, IfOk, OnOk};
ghost use Rattle.zt_keys.specs.Numbers.{next_numbers, numbers_from, pair_number, part_number};
ghost use Rattle.zt_keys.specs.Parts.{part_of};
ghost use Rattle.zt_keys.specs.Walking.{walked};

use crate::numbers::hash_of;
use crate::walk::{is_double, is_single, next_chunk};
use std::alloc::{AllocError, Global};

// An odd number whose bits are well mixed.
const MIX: u64 = 11400714819323198485;

// Room for so many numbers is made at first: most texts have no more.
const ROOM: usize = 8;

// The number of two chunks that stand side by side.
#[tactic(auto, unfolding(crate::specs::Numbers::pair_number))]
fn pair_number(first: u64, second: u64) -> u64
    ensures { result ≡ pair_number first second }
{
    first.wrapping_mul(MIX).wrapping_add(second)
}

// The number of a chunk, or `None` for `*` and `**`.
fn chunk_number(chunk: &[u8]) -> Option<u64>
    ensures { result ≡ part_number (part_of chunk.now) }
{
    if is_double(chunk) || is_single(chunk) {
        return None;
    }
    Some(hash_of(chunk))
}

// What a chunk adds behind the one before it: its number, and that of the two.
fn push_numbers(
    numbers: &mut Vec<u64>,
    before: Option<u64>,
    number: Option<u64>,
) -> Result<(), AllocError>
    ensures { OnOk result (numbers.new.items ≡ numbers.old.items ++ next_numbers before number) }
{
    let Some(number) = number else {
        return Ok(());
    };
    numbers.push(number)?;
    if let Some(before) = before {
        numbers.push(pair_number(before, number))?;
    }
    Ok(())
}

// The numbers of the text's chunks that have no wildcard, each followed by that of the chunk and
// the one before it, if that has none either.
pub(crate) fn text_numbers(alloc: Global, text: &[u8]) -> Result<Vec<u64>, AllocError>
    ensures { IfOk result (λ numbers. numbers.items ≡ numbers_from None (walked text.now)) }
{
    let mut numbers = Vec::with_capacity(alloc, ROOM)?;
    let mut rest = text;
    let mut before = None;
    while !rest.is_empty() {
        let (chunk, after) = next_chunk(rest);
        let number = chunk_number(chunk);
        push_numbers(&mut numbers, before, number)?;
        before = number;
        rest = after;
    }
    Ok(numbers)
}
