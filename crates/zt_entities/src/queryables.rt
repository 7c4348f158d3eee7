// What an interest in queryables is answered.
ghost use Rattle.std.specs.Prelude.{◌≡◌, ◌++◌, ◌∷◌, [], OnOk, map};
ghost use Rattle.std.specs.List.{flat_map};
ghost use Rattle.std.specs.Option.{option_to_list};
ghost use Rattle.zt_model.specs.Entities.{aggregate_of, all_merged, info_of, queryable_of};
ghost use Rattle.zt_model.specs.Entities.{queryables_for};
ghost use Rattle.zt_model.specs.Lists.{in_key_order};
ghost use Rattle.zt_protocol.specs.Interest.{has_aggregate};

use crate::found::matching_queryables;
use crate::infos::{all_merged, known_by_expression};
use crate::numbers::number_of;
use bitflags::Flags;
use std::alloc::Global;
use zt_keys::{Key, Memory};
use zt_protocol::{InterestId, InterestOptions, Message, QueryableInfo};
use zt_state::{FaceState, GatewayState, RemoteInterest};

// Adds a queryable under the number of its expression.
fn add_queryable<K: Key>(
    alloc: Global,
    g: &GatewayState<K>,
    face: u32,
    id: InterestId,
    expr: &K,
    info: QueryableInfo,
    sends: &mut Vec<(u32, Message<K>)>,
) -> Result<(), Memory>
    ensures { OnOk result (sends.new.items ≡ sends.old.items
        ++ (face, queryable_of K.cmp g.now id expr.now info) ∷ []) }
{
    let message = Message::DeclareQueryable {
        id: number_of(g, expr)?,
        expr: expr.copy(alloc)?,
        info,
        interest_id: id,
    };
    sends.push((face, message))?;
    Ok(())
}

// Adds a queryable for each expression of those that are found, in key order.
fn add_all<K: Key>(
    alloc: Global,
    g: &GatewayState<K>,
    face: u32,
    id: InterestId,
    found: &[(K, QueryableInfo)],
    sends: &mut Vec<(u32, Message<K>)>,
) -> Result<(), Memory>
    ensures { OnOk result (sends.new.items ≡ sends.old.items
        ++ map (λ m. (face, m)) (flat_map
        (λ e. map (queryable_of K.cmp g.now id e) (option_to_list (info_of K.cmp e found.now)))
        (in_key_order K.cmp (map (λ q. q.0) found.now)))) }
{
    let known = known_by_expression(alloc, found)?;
    for (expr, info) in &known {
        add_queryable(alloc, g, face, id, expr, *info, sends)?;
    }
    Ok(())
}

// Adds one queryable for all, where the interest names an expression and one is found.
fn add_aggregate<K: Key>(
    alloc: Global,
    g: &GatewayState<K>,
    face: u32,
    id: InterestId,
    about: &Option<K>,
    found: &[(K, QueryableInfo)],
    sends: &mut Vec<(u32, Message<K>)>,
) -> Result<(), Memory>
    ensures { OnOk result (sends.new.items ≡ sends.old.items
        ++ map (λ m. (face, m))
        (aggregate_of K.cmp about.now (all_merged (map (λ q. q.1) found.now))
        (queryable_of K.cmp g.now id))) }
{
    match (about, all_merged(found)) {
        (Some(expr), Some(info)) => add_queryable(alloc, g, face, id, expr, info, sends),
        _ => Ok(()),
    }
}

// Whether the interest asks for one declaration in place of many.
fn asks_aggregate<K: Key>(interest: &RemoteInterest<K>) -> bool
    ensures { result ≡ has_aggregate interest.now.options }
{
    interest.options().contains(InterestOptions::AGGREGATE)
}

// Adds the queryables that the face's interest is answered.
pub(crate) fn add_queryables_for<K: Key>(
    alloc: Global,
    g: &GatewayState<K>,
    face: u32,
    id: InterestId,
    interest: &RemoteInterest<K>,
    f: &FaceState<K>,
    sends: &mut Vec<(u32, Message<K>)>,
) -> Result<(), Memory>
    ensures { OnOk result (sends.new.items ≡ sends.old.items
        ++ map (λ m. (face, m)) (queryables_for K.cmp K.matching g.now id interest.now f.now)) }
{
    let found = matching_queryables(alloc, g, interest, f)?;
    if asks_aggregate(interest) {
        add_aggregate(alloc, g, face, id, interest.expr(), &found, sends)?;
        return Ok(());
    }
    add_all(alloc, g, face, id, &found, sends)?;
    Ok(())
}
