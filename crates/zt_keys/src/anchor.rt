// Where keys may be distinguished by a number.

/// Where a key may be told from others by a number.
#[derive(Clone, Copy, PartialEq, Eq, PartialOrd, Ord, Hash, Debug)]
pub enum Anchor {
    /// The key as a whole.
    Whole,
    /// What the key begins with.
    First,
    /// What the key begins with, two chunks of it.
    FirstTwo,
    /// What the key ends with.
    Last,
}
