// Polls as they are printed.
use zt_protocol::Refusal;

/// What a poll found, of keys in order.
#[derive(PartialEq, Eq, Debug, Drop)]
pub struct Found<K> {
    /// The keys that the table gained.
    pub joined: Vec<K>,
    /// The keys that it lost.
    pub left: Vec<K>,
}

/// A poll of a monitor.
#[derive(PartialEq, Eq, Debug, Drop)]
pub struct Poll<K> {
    /// The place of its entry in the journal, from 0.
    pub place: u64,
    /// What it found, or why its ask was refused.
    pub outcome: Result<Found<K>, Refusal>,
}
