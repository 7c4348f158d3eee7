//! A monitor beside workers: its session stands behind the lines that open faces, it polls on a
//! thread of its own while the workers make their calls, and once more when they have ended. Its
//! calls stand in the one journal, under the number 0. Its polls are printed behind the rest: the
//! place of each in the journal, and the keys that its table gained and lost there, or why it was
//! refused.
#![tactic(auto)]

mod ending;
mod monitoring;
mod polling;
mod polls;
mod printing;
mod sharing;
mod watching;

pub use polls::{Found, Poll};
pub use printing::write_polls;
pub use sharing::journal_beside;
pub use watching::Watched;
