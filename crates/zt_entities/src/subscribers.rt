// What an interest in subscribers is answered.
ghost use Rattle.std.specs.Prelude.{◌≡◌, ◌++◌, ◌∷◌, [], IfOk, OnOk, map};
ghost use Rattle.zt_model.specs.Entities.{aggregate_of, subscriber_of, subscribers_for};
ghost use Rattle.zt_model.specs.Lists.{first_of, in_key_order};

use crate::found::matching_subscribers;
use crate::numbers::number_of;
use bitflags::Flags;
use std::alloc::Global;
use zt_keys::{Key, Memory};
use zt_protocol::{InterestId, InterestOptions, Message};
use zt_state::{FaceState, GatewayState, RemoteInterest};
use zt_tokens::KeysInOrder;

// Expressions in key order, each once.
fn in_key_order<K: Key>(alloc: Global, exprs: &[K]) -> Result<Vec<K>, Memory>
    ensures { IfOk result (λ keys. keys.items ≡ in_key_order K.cmp exprs.now) }
{
    let mut keys = KeysInOrder::new(alloc);
    for place in (0..exprs.len()).rev() {
        keys.insert(alloc, &exprs[place])?;
    }
    keys.into_vec(alloc)
}

// Adds a subscriber under the number of its expression.
fn add_subscriber<K: Key>(
    alloc: Global,
    g: &GatewayState<K>,
    face: u32,
    id: InterestId,
    expr: &K,
    sends: &mut Vec<(u32, Message<K>)>,
) -> Result<(), Memory>
    ensures { OnOk result (sends.new.items
        ≡ sends.old.items ++ (face, subscriber_of K.cmp g.now id expr.now) ∷ []) }
{
    let message = Message::DeclareSubscriber {
        id: number_of(g, expr)?,
        expr: expr.copy(alloc)?,
        interest_id: id,
    };
    sends.push((face, message))?;
    Ok(())
}

// Adds a subscriber for each expression.
fn add_each<K: Key>(
    alloc: Global,
    g: &GatewayState<K>,
    face: u32,
    id: InterestId,
    exprs: &[K],
    sends: &mut Vec<(u32, Message<K>)>,
) -> Result<(), Memory>
    ensures { OnOk result (sends.new.items ≡ sends.old.items
        ++ map (λ m. (face, m)) (map (subscriber_of K.cmp g.now id) exprs.now)) }
{
    for expr in exprs {
        add_subscriber(alloc, g, face, id, expr, sends)?;
    }
    Ok(())
}

// Adds one subscriber for all, where the interest names an expression and one is found.
fn add_aggregate<K: Key>(
    alloc: Global,
    g: &GatewayState<K>,
    face: u32,
    id: InterestId,
    about: &Option<K>,
    found: &[K],
    sends: &mut Vec<(u32, Message<K>)>,
) -> Result<(), Memory>
    ensures { OnOk result (sends.new.items ≡ sends.old.items
        ++ map (λ m. (face, m))
        (aggregate_of K.cmp about.now (first_of found.now)
        (λ k e. subscriber_of K.cmp g.now id k))) }
{
    match (about, found) {
        (Some(expr), [_, ..]) => add_subscriber(alloc, g, face, id, expr, sends),
        _ => Ok(()),
    }
}

// Adds the subscribers that the face's interest is answered.
#[tactic(auto, unfolding(zt_model::specs::Entities::subscribers_for))]
pub(crate) fn add_subscribers_for<K: Key>(
    alloc: Global,
    g: &GatewayState<K>,
    face: u32,
    id: InterestId,
    interest: &RemoteInterest<K>,
    f: &FaceState<K>,
    sends: &mut Vec<(u32, Message<K>)>,
) -> Result<(), Memory>
    ensures { OnOk result (sends.new.items ≡ sends.old.items
        ++ map (λ m. (face, m)) (subscribers_for K.cmp K.matching g.now id interest.now f.now)) }
{
    let found = matching_subscribers(alloc, g, interest, f)?;
    if interest.options().contains(InterestOptions::AGGREGATE) {
        add_aggregate(alloc, g, face, id, interest.expr(), &found, sends)?;
    } else {
        let exprs = in_key_order(alloc, &found)?;
        add_each(alloc, g, face, id, &exprs, sends)?;
    }
    Ok(())
}
