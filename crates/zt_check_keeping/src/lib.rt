//! What faces keep after a turn of a claimed transcript: only visible tokens that they seek, and all
//! admitted ones that are owed to them.
//!
//! Both are decided from what the turn changes, given that they held before it. It stands on the
//! definitions, and shares no code with the gateway that is judged.
#![tactic(auto)]

mod breaking;
mod changed;
mod heard;
mod keeping;
mod owing;
mod seeking;
mod seen;
mod showing;
mod tokens;

pub use changed::{Changed, changed_by};
pub use heard::{Heard, heard_by};
pub use keeping::{keeps_no_less, keeps_no_more};
pub use seen::{has_tokens, is_about, is_seen, sees};
