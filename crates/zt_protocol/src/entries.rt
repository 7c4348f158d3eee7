use crate::{Message, Refusal};

/// A message as a transcript prints it: to which face of which gateway it was sent.
#[derive(PartialEq, Eq, Debug, Drop)]
pub struct Sent<K> {
    /// The gateway's number in the script, from 1.
    pub gateway: u32,
    /// The face's number in the script, from 1 over the faces of all gateways.
    pub face: u32,
    /// What the face is sent.
    pub message: Message<K>,
}

/// What one line of a script came to: its messages in order of face, or its refusal, which changes
/// nothing.
#[derive(PartialEq, Eq, Debug, Drop)]
pub struct Entry<K> {
    /// The messages, or why the line is refused.
    pub outcome: Result<Vec<Sent<K>>, Refusal>,
}

/// The totals of a transcript.
#[derive(Clone, Copy, PartialEq, Eq, Debug)]
pub struct Report {
    /// How many lines were carried out or refused.
    pub lines: u64,
    /// How many messages they sent.
    pub messages: u128,
    /// How many of the lines were refused.
    pub refusals: u64,
}
