// Entries and totals in print.
use crate::fault::{Fault, TRIES};
use zt_keys::Key;
use zt_protocol::{Entry, Report};
use zt_streams::{Sink, write_all};
use zt_text::{write_entry, write_report};

/// Adds the entry of the line of this number.
pub fn entry_again<K: Key>(text: &mut String, line: u64, entry: &Entry<K>) -> Result<(), Fault> {
    for _ in 0..TRIES {
        if write_entry(text, line, entry).is_ok() {
            return Ok(());
        }
    }
    Err(Fault::Memory)
}

/// Adds the totals.
pub fn report_again(text: &mut String, report: &Report) -> Result<(), Fault> {
    for _ in 0..TRIES {
        if write_report(text, report).is_ok() {
            return Ok(());
        }
    }
    Err(Fault::Memory)
}

/// Writes the text, which is then empty.
pub fn put<T: Sink>(sink: &mut T, text: &mut String) -> Result<(), Fault> {
    if write_all(sink, text.as_bytes()).is_err() {
        return Err(Fault::Write);
    }
    text.clear();
    Ok(())
}
