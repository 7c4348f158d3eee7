// The entities that an interest is about, of the faces that a face is shown.
ghost use Rattle.std.specs.Prelude.{◌≡◌, ◌++◌, ◌∷◌, [], IfOk, OnOk, filter};
ghost use Rattle.zt_entities.specs.Found.{is_shown_of, found_at};
ghost use Rattle.zt_model.specs.Entities.{matching_queryables, matching_subscribers};
ghost use Rattle.zt_model.specs.Wants.{is_about};

use std::alloc::Global;
use zt_keys::{Key, Memory};
use zt_protocol::QueryableInfo;
use zt_state::{FaceState, GatewayState, RemoteInterest};
use zt_tokens::shows;

// Whether an interest in this expression, or in all keys, is about the key.
fn is_about<K: Key>(expr: &Option<K>, key: &K) -> bool
    ensures { result ≡ is_about K.matching expr.now key.now }
{
    match expr {
        None => true,
        Some(expr) => expr.matches(key),
    }
}

// Whether the face is shown the entities of the other.
fn is_shown_of<K: Key>(g: &GatewayState<K>, f: &FaceState<K>, other: &FaceState<K>) -> bool
    ensures { result ≡ is_shown_of g.now f.now other.now }
{
    other.number() != f.number() && shows(g.mode(), f.region(), other.region())
}

// Adds the subscriber, if the interest is about it.
fn add_subscriber<K: Key>(
    alloc: Global,
    about: &Option<K>,
    subscriber: &K,
    found: &mut Vec<K>,
) -> Result<(), Memory>
    ensures { OnOk result (found.new.items ≡ found.old.items
        ++ filter (is_about K.matching about.now) (subscriber.now ∷ [])) }
{
    if is_about(about, subscriber) {
        found.push(subscriber.copy(alloc)?)?;
    }
    Ok(())
}

// Adds the subscribers that the interest is about.
fn add_subscribers<K: Key>(
    alloc: Global,
    about: &Option<K>,
    subscribers: &[K],
    found: &mut Vec<K>,
) -> Result<(), Memory>
    ensures { OnOk result (found.new.items ≡ found.old.items
        ++ filter (is_about K.matching about.now) subscribers.now) }
{
    for subscriber in subscribers {
        add_subscriber(alloc, about, subscriber, found)?;
    }
    Ok(())
}

// Adds what the face is shown of the other's subscribers.
fn add_subscribers_of<K: Key>(
    alloc: Global,
    g: &GatewayState<K>,
    interest: &RemoteInterest<K>,
    f: &FaceState<K>,
    other: &FaceState<K>,
    found: &mut Vec<K>,
) -> Result<(), Memory>
    ensures { OnOk result (found.new.items ≡ found.old.items
        ++ found_at g.now f.now (is_about K.matching interest.now.expr)
        (λ x. x.subscribers) other.now) }
{
    if is_shown_of(g, f, other) {
        add_subscribers(alloc, interest.expr(), other.subscribers(), found)?;
    }
    Ok(())
}

// The subscribers that the face's interest is about.
pub(crate) fn matching_subscribers<K: Key>(
    alloc: Global,
    g: &GatewayState<K>,
    interest: &RemoteInterest<K>,
    f: &FaceState<K>,
) -> Result<Vec<K>, Memory>
    ensures { IfOk result (λ found. found.items
        ≡ matching_subscribers K.cmp K.matching g.now interest.now f.now) }
{
    let mut found = Vec::new(alloc);
    for other in g.faces() {
        add_subscribers_of(alloc, g, interest, f, other, &mut found)?;
    }
    Ok(found)
}

// Adds the queryable, if the interest is about it.
fn add_queryable<K: Key>(
    alloc: Global,
    about: &Option<K>,
    queryable: &(K, QueryableInfo),
    found: &mut Vec<(K, QueryableInfo)>,
) -> Result<(), Memory>
    ensures { OnOk result (found.new.items ≡ found.old.items
        ++ filter (λ q. is_about K.matching about.now q.0) (queryable.now ∷ [])) }
{
    if is_about(about, &queryable.0) {
        found.push((queryable.0.copy(alloc)?, queryable.1))?;
    }
    Ok(())
}

// Adds the queryables that the interest is about.
fn add_queryables<K: Key>(
    alloc: Global,
    about: &Option<K>,
    queryables: &[(K, QueryableInfo)],
    found: &mut Vec<(K, QueryableInfo)>,
) -> Result<(), Memory>
    ensures { OnOk result (found.new.items ≡ found.old.items
        ++ filter (λ q. is_about K.matching about.now q.0) queryables.now) }
{
    for queryable in queryables {
        add_queryable(alloc, about, queryable, found)?;
    }
    Ok(())
}

// Adds what the face is shown of the other's queryables.
fn add_queryables_of<K: Key>(
    alloc: Global,
    g: &GatewayState<K>,
    interest: &RemoteInterest<K>,
    f: &FaceState<K>,
    other: &FaceState<K>,
    found: &mut Vec<(K, QueryableInfo)>,
) -> Result<(), Memory>
    ensures { OnOk result (found.new.items ≡ found.old.items
        ++ found_at g.now f.now (λ q. is_about K.matching interest.now.expr q.0)
        (λ x. x.queryables) other.now) }
{
    if is_shown_of(g, f, other) {
        add_queryables(alloc, interest.expr(), other.queryables(), found)?;
    }
    Ok(())
}

// The queryables that the face's interest is about.
pub(crate) fn matching_queryables<K: Key>(
    alloc: Global,
    g: &GatewayState<K>,
    interest: &RemoteInterest<K>,
    f: &FaceState<K>,
) -> Result<Vec<(K, QueryableInfo)>, Memory>
    ensures { IfOk result (λ found. found.items
        ≡ matching_queryables K.cmp K.matching g.now interest.now f.now) }
{
    let mut found = Vec::new(alloc);
    for other in g.faces() {
        add_queryables_of(alloc, g, interest, f, other, &mut found)?;
    }
    Ok(found)
}
