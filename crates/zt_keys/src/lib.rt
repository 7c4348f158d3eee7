//! Keys: the trait that every type of keys meets, with its laws, and Zenoh's key expressions.
#![tactic(auto)]

mod anchor;
mod check;
mod chunk_numbers;
mod error;
mod expr;
mod key;
mod kinds;
mod numbers;
mod shared;
mod spelling;
mod walk;

pub use anchor::Anchor;
pub use error::{KeyError, Memory};
pub use expr::KeyExpr;
pub use key::Key;
pub use spelling::key_expressions_have_one_spelling;
