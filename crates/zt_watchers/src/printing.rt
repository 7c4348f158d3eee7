// The printed text of polls.
ghost use Rattle.std.specs.Prelude.{◌≡◌, ◌++◌, map, codes, decimal, string_bytes, OnOk};
ghost use Rattle.std.specs.List.{flat_map};
ghost use Rattle.zt_protocol.specs.Refusal.{name_of};
ghost use Rattle.zt_watchers.specs.Text.{key_line, plain_poll, poll_text, polls_text};

use crate::polls::{Found, Poll};
use itoa::Buffer;
use zt_keys::{Key, Memory};
use zt_protocol::Refusal;

// Adds the line of a key behind its mark.
fn put_key<K: Key>(text: &mut String, mark: &str, key: &K) -> Result<(), Memory>
    ensures { OnOk result (string_bytes text.new
        ≡ string_bytes text.old ++ key_line K.printed mark.now key.now) }
{
    text.push_str(mark)?;
    key.print_to(text)?;
    text.push_str("\n")?;
    Ok(())
}

// Adds the lines of keys.
fn put_keys<K: Key>(text: &mut String, mark: &str, keys: &[K]) -> Result<(), Memory>
    ensures { OnOk result (string_bytes text.new
        ≡ string_bytes text.old ++ flat_map (key_line K.printed mark.now) keys.now) }
{
    for key in keys {
        put_key(text, mark, key)?;
    }
    Ok(())
}

// Adds what begins the line of a poll.
fn put_place(text: &mut String, place: u64) -> Result<(), Memory>
    ensures { OnOk result (string_bytes text.new
        ≡ string_bytes text.old ++ (codes "poll " ++ decimal place)) }
{
    text.push_str("poll ")?;
    let mut buffer = Buffer::new();
    text.push_str(buffer.format(place))?;
    Ok(())
}

// Adds what a poll found.
fn put_found<K: Key>(text: &mut String, found: &Found<K>) -> Result<(), Memory>
    ensures { OnOk result (string_bytes text.new ≡ string_bytes text.old ++ (codes "\n"
        ++ (flat_map (key_line K.printed (codes "+ ")) found.now.joined.items
        ++ flat_map (key_line K.printed (codes "- ")) found.now.left.items))) }
{
    text.push_str("\n")?;
    put_keys(text, "+ ", found.joined.as_slice())?;
    put_keys(text, "- ", found.left.as_slice())
}

// Adds why a poll was refused.
fn put_refusal(text: &mut String, refusal: Refusal) -> Result<(), Memory>
    ensures { OnOk result (string_bytes text.new
        ≡ string_bytes text.old ++ (codes " refused " ++ (name_of refusal ++ codes "\n"))) }
{
    text.push_str(" refused ")?;
    text.push_str(refusal.name())?;
    text.push_str("\n")?;
    Ok(())
}

// Adds the lines of a poll.
fn put_poll<K: Key>(text: &mut String, poll: &Poll<K>) -> Result<(), Memory>
    ensures { OnOk result (string_bytes text.new
        ≡ string_bytes text.old ++ poll_text K.printed (plain_poll poll.now)) }
{
    put_place(text, poll.place)?;
    match &poll.outcome {
        Ok(found) => put_found(text, found),
        Err(refusal) => put_refusal(text, *refusal),
    }
}

/// Adds the lines of polls, in their order: of each `poll PLACE`, then `+ KEY` for each key that
/// joined the table and `- KEY` for each that left it; or `poll PLACE refused NAME`. Where
/// memory runs out, a part of the lines may have been added.
pub fn write_polls<K: Key>(text: &mut String, polls: &[Poll<K>]) -> Result<(), Memory>
    ensures { OnOk result (string_bytes text.new
        ≡ string_bytes text.old ++ polls_text K.printed (map plain_poll polls.now)) }
{
    for poll in polls {
        put_poll(text, poll)?;
    }
    Ok(())
}
