//! The entries of a claimed transcript.
ghost use Rattle.std.specs.Prelude.{◌≡◌, IfOk};
ghost use Rattle.std.specs.Option.{option_map};
ghost use Rattle.zt_keys.specs.Key.{OneSpelling};
ghost use Rattle.zt_protocol.specs.Plain.{plain_entry};
ghost use Rattle.zt_check_trace.specs.Entries.{FindsAccepted, FindsEntry, FindsHead};
ghost use Rattle.zt_check_trace.specs.Entries.{FindsRefused};

use crate::messages::{stand_in_order, take_messages};
use crate::names::refusal_named;
use crate::parts::{begins_with_mark, first_line};
use itoa::Buffer;
use std::alloc::Global;
use zt_fields::behind;
use zt_keys::{Key, Memory};
use zt_protocol::{Entry, Refusal};

// Whether the line of this number is accepted, or why not, by the first line of its entry. None
// exactly where that is no first line of this number.
fn head_of(line: &[u8], number: u64) -> Option<Result<(), Refusal>>
    ensures { FindsHead number line.now result }
{
    let Ok(line) = str::from_utf8(line) else {
        return None;
    };
    let mut buffer = Buffer::new();
    let outcome = behind(line, buffer.format(number))?;
    if outcome == " ok" {
        return Some(Ok(()));
    }
    let name = behind(outcome, " refused ")?;
    let refusal = refusal_named(name)?;
    Some(Err(refusal))
}

// The entry of an accepted line, whose messages stand at the front of a text, and what is behind
// it. None exactly where no messages in order of face stand so.
fn accepted<K: Key>(alloc: Global, text: &[u8]) -> Result<Option<(Entry<K>, &[u8])>, Memory>
    requires spelling { OneSpelling K.reading K.printed }
    ensures { IfOk result (λ found. FindsAccepted K.printed text.now
        (option_map (λ x. (plain_entry x.0, x.1.now)) found)) }
{
    let Some((sents, rest)) = take_messages(alloc, text)? else {
        return Ok(None);
    };
    if !stand_in_order(&sents) {
        return Ok(None);
    }
    Ok(Some((Entry { outcome: Ok(sents) }, rest)))
}

// The entry of a refused line, and what is behind it. None exactly where a line of a message is.
fn refused<K>(refusal: Refusal, text: &[u8]) -> Option<(Entry<K>, &[u8])>
    ensures { FindsRefused refusal text.now
        (option_map (λ x. (plain_entry x.0, x.1.now)) result) }
{
    if begins_with_mark(text) {
        return None;
    }
    Some((
        Entry {
            outcome: Err(refusal),
        },
        text,
    ))
}

/// The entry at the front of a claimed transcript, which is that of the line of this number, and
/// what is behind it. A line that begins with `>` belongs to the entry before it.
///
/// None exactly where no entry of this number stands there in the printed form, with its messages
/// in order of face.
pub fn next_entry<K: Key>(
    alloc: Global,
    text: &[u8],
    number: u64,
) -> Result<Option<(Entry<K>, &[u8])>, Memory>
    requires spelling { OneSpelling K.reading K.printed }
    ensures { IfOk result (λ found. FindsEntry K.printed number text.now
        (option_map (λ x. (plain_entry x.0, x.1.now)) found)) }
{
    let Some((line, behind)) = first_line(text) else {
        return Ok(None);
    };
    match head_of(line, number) {
        Some(Ok(())) => accepted(alloc, behind),
        Some(Err(refusal)) => Ok(refused(refusal, behind)),
        None => Ok(None),
    }
}
