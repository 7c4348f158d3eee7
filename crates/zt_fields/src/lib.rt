//! Fields of a line, and the values that they spell.
//!
//! A line is read from left to right: what is left of it is the text behind the last space, or
//! nothing behind its end. Each reader takes a field, or a part of one, off the front of what is
//! left.
#![tactic(auto)]

mod fields;
mod numbers;
mod parts;
mod spelled;
mod values;

pub use fields::{
    behind, end_at, field_at, first_field, first_part, nothing_left, optional_at, optional_part,
};
pub use parts::{
    direction_at, first_at, flag_at, key_at, optional_key_at, optional_value_at, value_at,
};
pub use spelled::Spelled;
