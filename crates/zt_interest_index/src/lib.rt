//! An index of the interests of faces, by the key of what is asked for: which faces hold an
//! interest in an expression. It knows keys and the numbers of faces and interests, and no gateway.
//!
//! The interests in one key are kept together. A key with wildcards stands, besides, at one of the
//! numbers of its chunks (`Key::numbers`): at the one where the fewest stood when it came. A key
//! without wildcards has each number that a key has which matches it, so it looks at its numbers
//! alone, and at the keys that have none.
#![tactic(auto)]

mod holdings;
mod index;
mod keyed;
mod wild_keys;
mod wilds;

pub use holdings::Holdings;
pub use index::InterestIndex;
