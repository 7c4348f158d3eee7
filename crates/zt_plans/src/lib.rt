//! The script that workers carry out, read whole before any of it is carried out: the settings of
//! its one gateway, the lines that open faces, and the calls that speak for a face or close one.
#![tactic(auto)]

mod plan;
mod reading;

pub use plan::{Numbered, Plan};
pub use reading::read_plan;
