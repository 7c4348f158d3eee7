// The printed text. The private functions add to a text, and leave a part of what they add where
// memory runs out.
ghost use Rattle.std.specs.Prelude.{◌≡◌, ◌+◌, ◌<◌, ◌≤◌, ◌++◌, ◌^◌, ◌∷◌, [], take, decimal, IsUtf8, codes};
ghost use Rattle.std.specs.Prelude.{OnOk, OnErr, IfOk, is_ok, if◌then◌else◌, string_bytes};
ghost use Rattle.std.specs.List.{AllByRecursion, flat_map};
ghost use Rattle.std.specs.Option.{option_copied};
ghost use Rattle.arrayvec.specs.ArrayString.{array_string_len};
ghost use Rattle.zt_protocol.specs.Plain.{plain_entry};
ghost use Rattle.zt_protocol.specs.Refusal.{name_of};
ghost use Rattle.zt_text.specs.Text.{Begins, spaced, key_fields};
ghost use Rattle.zt_text.specs.Sent.{EntryFits, SentFits};
ghost use Rattle.zt_text.specs.Text.{sent_text, entry_text, report_text};

use crate::heads::{ROOM, put_digits, put_front};
use arrayvec::ArrayString;
use itoa::Buffer;
use std::alloc::Global;
use zt_keys::{Key, Memory};
use zt_protocol::{Entry, Refusal, Report, Sent};

// Adds what the head holds, and the key.
#[inline(always)]
fn put_key<K: Key>(
    out: &mut String,
    head: &mut ArrayString<ROOM>,
    key: Option<&K>,
) -> Result<(), Memory>
    requires { array_string_len head.old < ROOM }
    ensures ok { OnOk result (string_bytes out.new
        ≡ string_bytes out.old
        ++ (head.old.bytes ++ spaced (key_fields K.printed (option_copied key.entry)))) }
    ensures begun { Begins (string_bytes out.old) (string_bytes out.new) }
{
    let Some(key) = key else {
        out.push_str(head.as_str())?;
        return Ok(());
    };
    head.push(' ');
    out.push_str(head.as_str())?;
    key.print_to(out)?;
    Ok(())
}

// Adds a message, behind what the head holds, and leaves in the head the end of its line.
fn put_sent<K: Key>(
    out: &mut String,
    head: &mut ArrayString<ROOM>,
    sent: &Sent<K>,
) -> Result<(), Memory>
    requires { array_string_len head.old ≤ 40 }
    ensures ok { OnOk result (string_bytes out.new ++ head.new.bytes
        ≡ string_bytes out.old ++ (head.old.bytes ++ sent_text K.printed sent.now)) }
    ensures room { OnOk result (array_string_len head.new ≤ 40) }
    ensures begun { Begins (string_bytes out.old) (string_bytes out.new) }
    ensures fit { SentFits sent.now }
{
    let key = put_front(head, sent);
    put_key(out, head, key)?;
    head.clear();
    head.push('\n');
    Ok(())
}

fn put_all<K: Key>(
    out: &mut String,
    head: &mut ArrayString<ROOM>,
    sents: &[Sent<K>],
) -> Result<(), Memory>
    requires { array_string_len head.old ≤ 40 }
    ensures ok { OnOk result (string_bytes out.new ++ head.new.bytes
        ≡ string_bytes out.old
        ++ (head.old.bytes ++ flat_map (sent_text K.printed) sents.now)) }
    ensures begun { Begins (string_bytes out.old) (string_bytes out.new) }
    ensures fit { OnOk result (AllByRecursion SentFits sents.now) }
{
    for sent in sents {
        put_sent(out, head, sent)?;
    }
    Ok(())
}

// The head holds the number of the line.
fn put_sents<K: Key>(
    out: &mut String,
    head: &mut ArrayString<ROOM>,
    sents: &[Sent<K>],
) -> Result<(), Memory>
    requires { array_string_len head.old ≤ 20 }
    ensures ok { OnOk result (string_bytes out.new
        ≡ string_bytes out.old ++ (head.old.bytes ++ (codes " ok\n"
        ++ flat_map (sent_text K.printed) sents.now))) }
    ensures err { OnErr result (Begins (string_bytes out.old) (string_bytes out.new)) }
    ensures fit { OnOk result (AllByRecursion SentFits sents.now) }
{
    head.push_str(" ok\n");
    put_all(out, head, sents)?;
    out.push_str(head.as_str())?;
    Ok(())
}

// The head holds the number of the line.
fn put_refusal(
    out: &mut String,
    head: &mut ArrayString<ROOM>,
    refusal: Refusal,
) -> Result<(), Memory>
    requires { array_string_len head.old ≤ 20 }
    ensures ok { OnOk result (string_bytes out.new
        ≡ string_bytes out.old ++ (head.old.bytes
        ++ (spaced (codes "refused" ∷ name_of refusal ∷ []) ++ 10 ∷ []))) }
    ensures err { OnErr result (Begins (string_bytes out.old) (string_bytes out.new)) }
{
    head.push_str(" refused ");
    out.push_str(head.as_str())?;
    out.push_str(refusal.name())?;
    out.push('\n')?;
    Ok(())
}

fn put_entry<K: Key>(out: &mut String, line: u64, entry: &Entry<K>) -> Result<(), Memory>
    ensures ok { OnOk result (string_bytes out.new
        ≡ string_bytes out.old ++ entry_text K.printed line (plain_entry entry.now)) }
    ensures err { OnErr result (Begins (string_bytes out.old) (string_bytes out.new)) }
    ensures fit { OnOk result (EntryFits (plain_entry entry.now)) }
{
    let mut head = ArrayString::<ROOM>::new();
    put_digits(&mut head, line);
    match &entry.outcome {
        Ok(sents) => put_sents(out, &mut head, sents),
        Err(refusal) => put_refusal(out, &mut head, *refusal),
    }
}

fn put_report(out: &mut String, report: &Report) -> Result<(), Memory>
    ensures ok { OnOk result (string_bytes out.new
        ≡ string_bytes out.old ++ report_text report.now) }
    ensures err { OnErr result (Begins (string_bytes out.old) (string_bytes out.new)) }
{
    let mut buffer = Buffer::new();
    out.push_str("total ")?;
    out.push_str(buffer.format(report.lines))?;
    out.push(' ')?;
    out.push_str(buffer.format(report.messages))?;
    out.push(' ')?;
    out.push_str(buffer.format(report.refusals))?;
    out.push('\n')?;
    Ok(())
}

// Takes back what a failed call added behind the first `before` bytes.
fn undo(out: &mut String, before: usize)
    requires { IsUtf8 (take before (string_bytes out.old)) }
    ensures { string_bytes out.new ≡ take before (string_bytes out.old) }
{
    out.truncate(before);
}

/// Appends an entry, with the number of its line. Its numbers and the line's are within their types,
/// so that the text tells it apart from others.
///
/// After an error `out` is as before.
pub fn write_entry<K: Key>(out: &mut String, line: u64, entry: &Entry<K>) -> Result<(), Memory>
    ensures text { string_bytes out.new
        ≡ (if is_ok result then string_bytes out.old
        ++ entry_text K.printed line (plain_entry entry.now) else string_bytes out.old) }
    ensures fit { OnOk result (EntryFits (plain_entry entry.now)) }
    ensures number { line < 2 ^ 64 }
{
    let before = out.len();
    let result = put_entry(out, line, entry);
    if result.is_err() {
        undo(out, before);
    }
    result
}

/// Appends the report, a transcript's last line.
///
/// After an error `out` is as before.
pub fn write_report(out: &mut String, report: &Report) -> Result<(), Memory>
    ensures { string_bytes out.new
        ≡ (if is_ok result then string_bytes out.old ++ report_text report.now
        else string_bytes out.old) }
{
    let before = out.len();
    let result = put_report(out, report);
    if result.is_err() {
        undo(out, before);
    }
    result
}

/// The text of an entry, with the number of its line.
pub fn print_entry<K: Key>(alloc: Global, line: u64, entry: &Entry<K>) -> Result<String, Memory>
    ensures { IfOk result (λ text. string_bytes text
        ≡ entry_text K.printed line (plain_entry entry.now)) }
{
    let mut text = String::new(alloc);
    write_entry(&mut text, line, entry)?;
    Ok(text)
}

/// The text of the report.
pub fn print_report(alloc: Global, report: &Report) -> Result<String, Memory>
    ensures { IfOk result (λ text. string_bytes text ≡ report_text report.now) }
{
    let mut text = String::new(alloc);
    write_report(&mut text, report)?;
    Ok(text)
}
