// What of an entry isn't in the printed form.
use itoa::Buffer;
use memchr::memchr;
use std::alloc::Global;
use zt_breaks::{Finding, Form, Row};
use zt_check_trace::refusal_named;
use zt_fields::behind;
use zt_keys::{Key, Memory};
use zt_protocol::{LineError, Refusal, Report};
use zt_text::{print_report, read_sent};

// The most characters that are shown of a row.
const SHOWN: usize = 80;

// The front of a row, as it is shown.
fn shown(alloc: Global, bytes: &[u8]) -> Result<String, Memory> {
    let mut text = String::new(alloc);
    let Ok(row) = str::from_utf8(bytes) else {
        text.push_str("bytes that are no UTF-8")?;
        return Ok(text);
    };
    for letter in row.chars().take(SHOWN) {
        text.push(letter)?;
    }
    Ok(text)
}

// The first row of a text, without its line feed, and what is behind it.
fn first_row(text: &[u8]) -> (&[u8], Option<&[u8]>) {
    match memchr(b'\n', text) {
        Some(end) => (&text[..end], Some(&text[end + 1..])),
        None => (text, None),
    }
}

// The first row of a text, as it is shown.
fn row_at(alloc: Global, text: &[u8]) -> Result<Row, Memory> {
    let (row, behind) = first_row(text);
    if behind.is_some() {
        return Ok(Row::Line(shown(alloc, row)?));
    }
    if row.is_empty() {
        return Ok(Row::Missing);
    }
    Ok(Row::Unended(shown(alloc, row)?))
}

// The finding that the first row of a text isn't in the printed form.
fn misprinted<K: Key>(
    alloc: Global,
    text: &[u8],
    number: u128,
    form: Form,
) -> Result<Finding<K>, Memory> {
    let row = row_at(alloc, text)?;
    Ok(Finding::Misprinted { number, row, form })
}

// Whether the row begins the entry of an accepted line of this number, or of a refused one; None
// where it begins none.
fn head_of(row: &[u8], line: u64) -> Option<bool> {
    let Ok(text) = str::from_utf8(row) else {
        return None;
    };
    let mut buffer = Buffer::new();
    let outcome = behind(text, buffer.format(line))?;
    if outcome == " ok" {
        return Some(true);
    }
    let refusal = refusal_named(behind(outcome, " refused ")?);
    if refusal.is_some() { Some(false) } else { None }
}

// The face of the message that a row prints. None where it prints none.
fn face_of<K: Key>(alloc: Global, row: &[u8]) -> Result<Option<u32>, Memory> {
    match read_sent::<K>(alloc, row) {
        Ok(sent) => Ok(Some(sent.face)),
        Err(LineError::NotUtf8 | LineError::NotInGrammar) => Ok(None),
        Err(LineError::Memory) => Err(Memory),
    }
}

// What is wrong of the messages at the front of a text. Each row has a byte at least.
fn misprinted_message<K: Key>(
    alloc: Global,
    text: &[u8],
    number: u128,
) -> Result<Finding<K>, Memory> {
    let mut rest = text;
    let mut number = number;
    let mut last = 0;
    for _ in 0..text.len() {
        let (row, behind) = first_row(rest);
        let Some(behind) = behind else {
            break;
        };
        let Some(face) = face_of::<K>(alloc, row)? else {
            break;
        };
        if face < last {
            return misprinted(alloc, rest, number, Form::Order { face: last });
        }
        last = face;
        rest = behind;
        number = number.saturating_add(1);
    }
    misprinted(alloc, rest, number, Form::Message)
}

/// What is wrong of the entry that stands at the front of a text as that of a line, whose first
/// cause of refusal is given; the text begins at the transcript's row of the number.
pub(crate) fn misprinted_entry<K: Key>(
    alloc: Global,
    text: &[u8],
    number: u128,
    line: u64,
    cause: Option<Refusal>,
) -> Result<Finding<K>, Memory> {
    let (row, behind) = first_row(text);
    let (Some(accepted), Some(behind)) = (head_of(row, line), behind) else {
        return misprinted(alloc, text, number, Form::Head { line, cause });
    };
    let next = number.saturating_add(1);
    if accepted {
        return misprinted_message(alloc, behind, next);
    }
    misprinted(alloc, behind, next, Form::NoMessage)
}

/// What is wrong of the text behind the last entry, which begins at the transcript's row of the
/// number. None where the totals stand there, and no more.
pub(crate) fn misprinted_totals<K: Key>(
    alloc: Global,
    text: &[u8],
    number: u128,
    report: Report,
) -> Result<Option<Finding<K>>, Memory> {
    let totals = print_report(alloc, &report)?;
    if text == totals.as_bytes() {
        return Ok(None);
    }
    let form = Form::Totals(report);
    match text.strip_prefix(totals.as_bytes()) {
        Some(more) => Ok(Some(misprinted(alloc, more, number.saturating_add(1), form)?)),
        None => Ok(Some(misprinted(alloc, text, number, form)?)),
    }
}
