// Which sessions, uplinks, queries and subscribers there are.
ghost use Rattle.std.specs.Prelude.{◌≡◌, ◌+◌, ◌<◌, ◌≤◌, ◌^◌, ◌++◌, ◌∷◌, [], ℕ, Some, None, length, set};
ghost use Rattle.std.specs.Prelude.{slice_index_or, vec_len, vec_capacity, IfNone, IfSome};
ghost use Rattle.zt_liveliness.specs.Books.{HasIdLeft, find_session, has_query, has_subscriber};
ghost use Rattle.zt_liveliness.specs.Books.{has_uplink, with_interest_made, with_session};
ghost use Rattle.zt_liveliness.specs.Books.{with_token_made, without_queries, without_query};
ghost use Rattle.zt_liveliness.specs.Books.{without_session, without_subscriber};
ghost use Rattle.zt_liveliness.specs.Books.{without_subscribers, without_uplink};

use zt_samples::Subscriber;

// An open session, with the number of tokens and of interests that were made on it.
#[derive(Clone, Copy)]
pub(crate) struct Session {
    pub number: u32,
    pub tokens: u32,
    pub interests: u32,
}

// A query of a session whose end wasn't given, by the id of its interest.
#[derive(Clone, Copy)]
pub(crate) struct Query {
    pub session: u32,
    pub id: u32,
}

// What is written down of sessions and uplinks, the oldest first.
#[derive(Drop)]
pub(crate) struct Books<K> {
    pub sessions: Vec<Session>,
    pub uplinks: Vec<u32>,
    pub queries: Vec<Query>,
    pub subscribers: Vec<Subscriber<K>>,
}

// The session of a number.
pub(crate) fn find_session(sessions: &[Session], number: u32) -> Option<Session>
    ensures { result ≡ find_session number sessions.now }
{
    match place_of(sessions, number) {
        None => None,
        Some(place) => Some(sessions[place]),
    }
}

// The place of the session of a number.
fn place_of(sessions: &[Session], number: u32) -> Option<usize>
    ensures within { IfSome result (λ place. place < length sessions.now) }
    ensures there { IfSome result (λ place. (other : Session)
        → find_session number sessions.now ≡ Some (slice_index_or sessions.now place other)) }
    ensures changed { IfSome result (λ place. (change : Session → Session) (other : Session)
        → with_session number change sessions.now
        ≡ set sessions.now place (change (slice_index_or sessions.now place other))) }
    ensures absent { IfNone result (find_session number sessions.now ≡ None) }
    ensures unchanged { IfNone result ((change : Session → Session)
        → with_session number change sessions.now ≡ sessions.now) }
{
    for (place, session) in sessions.iter().enumerate() {
        if number == session.number {
            return Some(place);
        }
    }
    None
}

// One token more was made on a session.
pub(crate) fn count_token(sessions: &mut Vec<Session>, number: u32)
    requires { HasIdLeft number (λ s. s.tokens) sessions.old.items }
    ensures { sessions.new.items
        ≡ with_session number with_token_made sessions.old.items }
{
    if let Some(place) = place_of(sessions.as_slice(), number) {
        sessions[place].tokens += 1;
    }
}

// One interest more was made on a session.
pub(crate) fn count_interest(sessions: &mut Vec<Session>, number: u32)
    requires { HasIdLeft number (λ s. s.interests) sessions.old.items }
    ensures { sessions.new.items
        ≡ with_session number with_interest_made sessions.old.items }
{
    if let Some(place) = place_of(sessions.as_slice(), number) {
        sessions[place].interests += 1;
    }
}

// Whether an uplink has this number.
pub(crate) fn has_uplink(uplinks: &[u32], number: u32) -> bool
    ensures { result ≡ has_uplink number uplinks.now }
{
    uplinks.contains(&number)
}

// Whether the query is open.
pub(crate) fn has_query(queries: &[Query], session: u32, id: u32) -> bool
    ensures { result ≡ has_query session id queries.now }
{
    queries
        .iter()
        .any(|query| session == query.session && id == query.id)
}

// The end of a query was given.
pub(crate) fn end_query(queries: &mut Vec<Query>, session: u32, id: u32)
    ensures { queries.new.items ≡ without_query session id queries.old.items }
{
    queries.retain(|query| !(session == query.session && id == query.id));
}

// A session closed.
pub(crate) fn drop_session(sessions: &mut Vec<Session>, number: u32)
    ensures { sessions.new.items ≡ without_session number sessions.old.items }
{
    sessions.retain(|session| number != session.number);
}

// An uplink closed.
pub(crate) fn drop_uplink(uplinks: &mut Vec<u32>, number: u32)
    ensures { uplinks.new.items ≡ without_uplink number uplinks.old.items }
{
    uplinks.retain(|uplink| number != *uplink);
}

// The session of these queries closed.
pub(crate) fn drop_queries(queries: &mut Vec<Query>, session: u32)
    ensures { queries.new.items ≡ without_queries session queries.old.items }
{
    queries.retain(|query| session != query.session);
}

// Whether the session has a subscriber of this id.
pub(crate) fn has_subscriber<K>(subscribers: &[Subscriber<K>], session: u32, id: u32) -> bool
    ensures { result ≡ has_subscriber session id subscribers.now }
{
    subscribers.iter().any(|subscriber| session == subscriber.session && id == subscriber.id)
}

// A subscriber was undeclared.
pub(crate) fn drop_subscriber<K: Drop>(subscribers: &mut Vec<Subscriber<K>>, session: u32, id: u32)
    ensures { subscribers.new.items ≡ without_subscriber session id subscribers.old.items }
{
    subscribers.retain(|subscriber| !(session == subscriber.session && id == subscriber.id));
}

// The session of these subscribers closed.
pub(crate) fn drop_subscribers<K: Drop>(subscribers: &mut Vec<Subscriber<K>>, session: u32)
    ensures { subscribers.new.items ≡ without_subscribers session subscribers.old.items }
{
    subscribers.retain(|subscriber| session != subscriber.session);
}

// Adds an item for which there is room.
pub(crate) fn push_within<T: Drop>(items: &mut Vec<T>, item: T)
    requires { vec_len items.old + 1 ≤ vec_capacity items.old }
    ensures { items.new.items ≡ items.old.items ++ item ∷ [] }
{
    let Ok(()) = items.push(item) else {
        unreachable!()
    };
}
