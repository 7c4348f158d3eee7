//! A judge of foreign transcripts: whether what another implementation printed for a script is a
//! transcript of it, and if not, the first line at which it isn't.
//!
//! That each clause is decided rightly is proved: the printed form, whether a line is refused exactly
//! by its cause, whether faces keep what they should, and whether asks are answered what they ask for
//! and get their finals. So a text holds exactly where it is that of a faithful transcript whose asks
//! are answered and finished as is promised (`clauses_are_the_promises`).
#![tactic(auto)]

mod checking;
mod judging;
mod laws;
mod program;
mod turns;
mod verdict;

pub use checking::check;
pub use judging::judge;
pub use laws::{a_claim_has_one_verdict, clauses_are_the_promises};
pub use program::check_tool;
pub use verdict::{CheckError, Clause, Verdict, print_verdict};
