//! Calls that are dealt to workers, who make them at the same time on a gateway that they share.
//! Each has a pass of its own, and the journal tells in which order the calls were made.
#![tactic(auto)]

mod dealing;
mod gate;
mod ordering;
mod sharing;
mod working;

pub use dealing::{Job, deal};
pub use gate::{Gate, NoGate};
pub use sharing::{journal_of, journal_with_lines};
pub use working::{Done, Worker, work_all};
