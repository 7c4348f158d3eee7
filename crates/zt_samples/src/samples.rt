// Samples, who is given them, and what sessions were told.

/// What a subscriber is given: in Zenoh a sample of the kind Put or Delete.
#[derive(PartialEq, Eq, Debug, Drop)]
pub enum Sample<K> {
    /// A token of this expression is alive.
    Put(K),
    /// No token of this expression is alive any more that the session may see.
    Delete(K),
}

/// An open subscriber of a session, by the id of its interest.
#[derive(Drop)]
pub struct Subscriber<K> {
    /// The number of the session.
    pub session: u32,
    /// The id of the interest, which is the subscriber's.
    pub id: u32,
    /// Which expressions it is given.
    pub expr: K,
    /// Whether it begins with the tokens that are there.
    pub history: bool,
}

/// A token that a session was told, under the id that it was told.
#[derive(Drop)]
pub struct Told<K> {
    /// The number of the session.
    pub session: u32,
    /// The id that the token was told under.
    pub id: u32,
    /// The token's expression.
    pub expr: K,
}

/// A sample that waits for a subscriber.
#[derive(Drop)]
pub struct News<K> {
    /// The number of the session.
    pub session: u32,
    /// The id of the subscriber.
    pub subscriber: u32,
    /// What the subscriber will be given.
    pub sample: Sample<K>,
}
