// Entries in print.
use crate::fault::{Fault, TRIES};
use std::alloc::Global;
use zt_keys::{Key, Memory};
use zt_protocol::Entry;
use zt_streams::{Sink, write_all};
use zt_text::write_entry;

// The entry of the line of this number, and the number of the face that it makes.
fn try_entry<K: Key>(
    alloc: Global,
    line: u64,
    made: Option<u32>,
    entry: &Entry<K>,
) -> Result<String, Memory> {
    let mut text = String::new(alloc);
    write_entry(&mut text, line, entry)?;
    if let Some(face) = made {
        let made = format!(in alloc; "# face {face}\n")?;
        text.push_str(made.as_str())?;
    }
    Ok(text)
}

/// The text of an entry, and of the number of the face that its line makes.
pub fn entry_again<K: Key>(
    alloc: Global,
    line: u64,
    made: Option<u32>,
    entry: &Entry<K>,
) -> Result<String, Fault> {
    for _ in 0..TRIES {
        if let Ok(text) = try_entry(alloc, line, made, entry) {
            return Ok(text);
        }
    }
    Err(Fault::Memory)
}

/// Writes the text.
pub fn put<T: Sink>(sink: &mut T, text: &str) -> Result<(), Fault> {
    match write_all(sink, text.as_bytes()) {
        Ok(()) => Ok(()),
        Err(_) => Err(Fault::Write),
    }
}
