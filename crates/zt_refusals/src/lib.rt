//! Why a call is refused.
#![tactic(auto)]

mod asking;
mod declaring;
mod dictionary;
mod making;
mod opening;
mod questions;
mod refusing;
mod regions;
mod spending;
mod tables;
mod undeclaring;

pub use making::cause_of_making;
pub use refusing::{cause_of, spends_ids};
pub use regions::{has_region, is_north_taken};
