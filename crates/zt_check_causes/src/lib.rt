//! Why a call is refused, by the rows that the claimed transcript has shown of its gateway: all
//! causes, in the order in which the definitions try them; and whether faces may have too few ids
//! left, by what could be drawn for them at the most.
//!
//! It stands on the definitions and on the rows, and shares no code with the gateway that is judged.
#![tactic(auto)]

mod asking;
mod by_id;
mod calls;
mod closing;
mod declaring;
mod dictionary;
mod entities;
mod expressions;
mod found;
mod hats;
mod left;
mod opening;
mod questions;
mod regions;
mod tables;

pub use calls::call_cause;
pub use hats::{fits, has_one_north};
pub use left::may_lack_ids;
pub use questions::is_north;
pub use regions::{is_north_taken, is_region_of};
