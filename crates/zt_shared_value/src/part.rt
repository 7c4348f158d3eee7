// What a seat at the table knows.
use std::collections::LinkedList;

/// What one pass knows. No value of it is made.
pub struct Part<J> {
    /// The pass's own number.
    pub number: u32,
    /// How long it has seen the journal.
    pub seen: u64,
    /// The count of numbers that it last found.
    pub known: u32,
    /// The lengths that it read off the counting word, oldest first.
    pub looks: LinkedList<u64>,
    /// The numbers that it drew for other passes, oldest first.
    pub drawn: LinkedList<u32>,
    /// The value that all passes began with.
    pub opening: J,
    /// The value as the pass left it when it last had the lock; the opening, if it never had.
    pub found: J,
    /// Whether it holds the lock.
    pub locked: bool,
}

/// A pass is one part. One that has just drawn a number is two, a view that was joined into another
/// is none.
pub type View<J> = LinkedList<Part<J>>;
