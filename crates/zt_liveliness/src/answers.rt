// What calls answer.

/// A token that a session declared. Letting it go doesn't undeclare it, unlike in Zenoh: the token
/// is alive until `undeclare_token`, or until its session is closed.
#[derive(Clone, Copy, PartialEq, Eq, Debug)]
pub struct Token {
    /// The number of the session.
    pub session: u32,
    /// The id under which the session declared it.
    pub id: u32,
}

/// What a query of a session is answered when it is asked for its next reply.
#[derive(PartialEq, Eq, Debug, Drop)]
pub enum Reply<K> {
    /// A token of this expression was there, or came while the query waited.
    Live(K),
    /// All replies were given: in Zenoh the reply channel ends. It comes once.
    Done,
    /// Every reply so far was given, and the end hasn't come.
    NotYet,
    /// The session has no such query, or its end was given.
    NoSuchGet,
}
