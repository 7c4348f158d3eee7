// The words of sentences: each is appended to a text.
ghost use Rattle.std.specs.Prelude.{◌≡◌, ◌++◌, decimal, string_bytes, OnOk};
ghost use Rattle.zt_fields.specs.Spellings.{mode_text};
ghost use Rattle.zt_protocol.specs.Refusal.{name_of};
ghost use Rattle.zt_breaks.specs.Sentences.{ask_text, face_text, quoted, region_text};

use crate::breaks::FaceNumber;
use itoa::Buffer;
use zt_keys::{Key, Memory};
use zt_protocol::Refusal;
use zt_region::{Region, WhatAmI};

/// Appends a text.
pub(crate) fn put(out: &mut String, text: &str) -> Result<(), Memory>
    ensures { OnOk result (string_bytes out.new ≡ string_bytes out.old ++ text.now) }
{
    out.push_str(text)?;
    Ok(())
}

/// Appends a number.
pub(crate) fn put_number(out: &mut String, number: u128) -> Result<(), Memory>
    ensures { OnOk result (string_bytes out.new ≡ string_bytes out.old ++ decimal number) }
{
    let mut buffer = Buffer::new();
    out.push_str(buffer.format(number))?;
    Ok(())
}

/// Appends a key in quotes.
pub(crate) fn put_key<K: Key>(out: &mut String, key: &K) -> Result<(), Memory>
    ensures { OnOk result
        (string_bytes out.new ≡ string_bytes out.old ++ quoted (K.printed key.now)) }
{
    put(out, "`")?;
    key.print_to(out)?;
    put(out, "`")
}

/// Appends the name of a refusal in quotes.
pub(crate) fn put_refusal(out: &mut String, refusal: Refusal) -> Result<(), Memory>
    ensures { OnOk result
        (string_bytes out.new ≡ string_bytes out.old ++ quoted (name_of refusal)) }
{
    put(out, "`")?;
    put(out, refusal.name())?;
    put(out, "`")
}

fn mode_name(mode: WhatAmI) -> &'static str
    ensures { result.now ≡ mode_text mode }
{
    match mode {
        WhatAmI::Router => "router",
        WhatAmI::Peer => "peer",
        WhatAmI::Client => "client",
    }
}

/// Appends a region, as a script spells it.
pub(crate) fn put_region(out: &mut String, region: Region) -> Result<(), Memory>
    ensures { OnOk result (string_bytes out.new ≡ string_bytes out.old ++ region_text region) }
{
    match region {
        Region::North => put(out, "north"),
        Region::Local => put(out, "local"),
        Region::South { id, mode } => {
            put_numbered(out, "south", u128::from(id), "-")?;
            put(out, mode_name(mode))
        }
    }
}

// Appends two numbers, each behind a text.
fn put_pair(
    out: &mut String,
    before: &str,
    one: u128,
    between: &str,
    two: u128,
) -> Result<(), Memory>
    ensures { OnOk result (string_bytes out.new ≡ string_bytes out.old
        ++ (before.now ++ (decimal one ++ (between.now ++ decimal two)))) }
{
    put_numbered(out, before, one, between)?;
    put_number(out, two)
}

/// Appends two numbers, each behind a text, and a text behind them.
pub(crate) fn put_two(
    out: &mut String,
    before: &str,
    one: u128,
    between: &str,
    two: u128,
    behind: &str,
) -> Result<(), Memory>
    ensures { OnOk result (string_bytes out.new ≡ string_bytes out.old
        ++ (before.now ++ (decimal one ++ (between.now ++ (decimal two ++ behind.now))))) }
{
    put_pair(out, before, one, between, two)?;
    put(out, behind)
}

/// Appends a face with its gateway.
pub(crate) fn put_face(out: &mut String, at: FaceNumber) -> Result<(), Memory>
    ensures { OnOk result (string_bytes out.new ≡ string_bytes out.old ++ face_text at) }
{
    put_pair(
        out,
        "face ",
        u128::from(at.face),
        " of gateway ",
        u128::from(at.gateway),
    )
}

// Appends a number between two texts, and a face behind them.
fn put_numbered_face(
    out: &mut String,
    before: &str,
    number: u128,
    between: &str,
    at: FaceNumber,
) -> Result<(), Memory>
    ensures { OnOk result (string_bytes out.new ≡ string_bytes out.old
        ++ (before.now ++ (decimal number ++ (between.now ++ face_text at)))) }
{
    put_numbered(out, before, number, between)?;
    put_face(out, at)
}

/// Appends an interest with its face.
pub(crate) fn put_ask(out: &mut String, at: FaceNumber, interest: u32) -> Result<(), Memory>
    ensures { OnOk result (string_bytes out.new ≡ string_bytes out.old ++ ask_text at interest) }
{
    put_numbered_face(out, "interest ", u128::from(interest), " of ", at)
}

/// Appends a text between two others.
pub(crate) fn put_named(
    out: &mut String,
    before: &str,
    name: &str,
    behind: &str,
) -> Result<(), Memory>
    ensures { OnOk result (string_bytes out.new
        ≡ string_bytes out.old ++ (before.now ++ (name.now ++ behind.now))) }
{
    put(out, before)?;
    put(out, name)?;
    put(out, behind)
}

/// Appends a number between two texts.
pub(crate) fn put_numbered(
    out: &mut String,
    before: &str,
    number: u128,
    behind: &str,
) -> Result<(), Memory>
    ensures { OnOk result (string_bytes out.new
        ≡ string_bytes out.old ++ (before.now ++ (decimal number ++ behind.now))) }
{
    put(out, before)?;
    put_number(out, number)?;
    put(out, behind)
}

/// Appends a key in quotes between two texts.
pub(crate) fn put_keyed<K: Key>(
    out: &mut String,
    before: &str,
    key: &K,
    behind: &str,
) -> Result<(), Memory>
    ensures { OnOk result (string_bytes out.new
        ≡ string_bytes out.old ++ (before.now ++ (quoted (K.printed key.now) ++ behind.now))) }
{
    put(out, before)?;
    put_key(out, key)?;
    put(out, behind)
}

/// Appends the name of a refusal in quotes between two texts.
pub(crate) fn put_refused(
    out: &mut String,
    before: &str,
    refusal: Refusal,
    behind: &str,
) -> Result<(), Memory>
    ensures { OnOk result (string_bytes out.new
        ≡ string_bytes out.old ++ (before.now ++ (quoted (name_of refusal) ++ behind.now))) }
{
    put(out, before)?;
    put_refusal(out, refusal)?;
    put(out, behind)
}
