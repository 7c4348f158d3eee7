//! Why lines are refused, by what the claimed transcript has shown so far: all causes of a line, in
//! the order in which the definitions try them. That too few ids are left is a cause by what the line
//! could draw at the most.
//!
//! It stands on the definitions and on the fabric that is shown, and shares no code with the gateway
//! that is judged.
#![tactic(auto)]

mod ends;
mod lines;
mod links;
mod loops;
mod refused;

pub use lines::line_cause;
pub use refused::is_refused_by_cause;
