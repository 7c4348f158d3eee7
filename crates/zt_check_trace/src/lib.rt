//! What a judge of transcripts reads: a script, a line `---`, and the transcript that another
//! implementation claims for it.
#![tactic(auto)]

mod entries;
mod input;
mod messages;
mod names;
mod parts;
mod script;

pub use entries::next_entry;
pub use input::{INPUT_BYTES, Input, InputError, read_input};
pub use names::refusal_named;
pub use parts::cut;
pub use script::{LinesError, read_lines};
