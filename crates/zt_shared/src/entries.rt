// What a journal keeps, and what a caller is told.
use zt_protocol::{Call, Refusal, Sent};

/// A call that was made on a gateway, and what it came to.
#[derive(PartialEq, Eq, Debug, Drop)]
pub struct JournalEntry<K> {
    /// The number of the pass that made the call.
    pub pass: u32,
    /// The call.
    pub call: Call<K>,
    /// The number of the face that the call made, where it made one.
    pub made: Option<u32>,
    /// The call's messages in order of face, where the gateway has the number 1; or why it was
    /// refused.
    pub outcome: Result<Vec<Sent<K>>, Refusal>,
}

/// The calls that were made on a gateway, the oldest first.
#[derive(PartialEq, Eq, Debug, Drop)]
pub struct Journal<K> {
    pub entries: Vec<JournalEntry<K>>,
}

/// Where the entry of a call stands, and what the call came to.
#[derive(Clone, Copy, PartialEq, Eq, Debug)]
pub struct Receipt {
    /// The place of the entry, from 0.
    pub place: u64,
    /// The number of the face that the call made, where it made one; or why the call was refused.
    pub answer: Result<Option<u32>, Refusal>,
}
