//! A transcript's text: entries and the report as they are printed, and message lines read back.
#![tactic(auto)]

mod heads;
mod laws;
mod printing;
mod sent;

pub use laws::{numbered_texts_tell_entries_apart, printing_is_read, texts_tell_transcripts_apart};
pub use printing::{print_entry, print_report, write_entry, write_report};
pub use sent::read_sent;
