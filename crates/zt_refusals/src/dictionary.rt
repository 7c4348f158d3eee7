// Whether the dictionary has room for what a call would number.
ghost use Rattle.std.specs.Prelude.{◌≡◌, ◌+◌, ◌++◌, ◌∷◌, [], IfOk, OnOk, map, nat_lt};
ghost use Rattle.zt_model.specs.Entities.{entity_expressions, numbered_by, numbered_with};
ghost use Rattle.zt_model.specs.Refusals.{fills_dictionary};

use bitflags::Flags;
use std::alloc::Global;
use zt_keys::{Key, Memory};
use zt_lookups::Dictionary;
use zt_protocol::{InterestOptions, QueryableInfo};
use zt_state::{GatewayState, RemoteInterest};

// A dictionary has at most so many expressions.
const GREATEST_DICTIONARY: usize = 65535;

/// Whether two lengths together are above a bound.
pub(crate) fn are_above(bound: usize, one: usize, two: usize) -> bool
    ensures { result ≡ nat_lt bound (one + two) }
{
    bound < one || bound - one < two
}

/// Whether the expression that an interest names would fill the dictionary.
#[tactic(auto, unfolding(zt_model::specs::Entities::numbered_with))]
pub(crate) fn is_filled_by_interest<K: Key>(
    g: &GatewayState<K>,
    interest: &RemoteInterest<K>,
) -> bool
    ensures { result ≡ fills_dictionary K.cmp K.matching (numbered_by K.cmp interest.now) g.now }
{
    let known = g.dictionary();
    if !interest.options().contains(InterestOptions::AGGREGATE) {
        return GREATEST_DICTIONARY < known.len();
    }
    match interest.expr() {
        None => GREATEST_DICTIONARY < known.len(),
        Some(expr) if known.contains(expr) => GREATEST_DICTIONARY < known.len(),
        Some(_) => are_above(GREATEST_DICTIONARY, known.len(), 1),
    }
}

// Adds an expression to those that are to get numbers, where it has none and isn't among them.
#[tactic(auto, using(crate::proofs::Numbering::known_before, crate::proofs::Numbering::numbered_beside), unfolding(zt_model::specs::Entities::numbered_with))]
fn add_unnumbered<K: Key>(
    alloc: Global,
    known: &Dictionary<K>,
    fresh: &mut Dictionary<K>,
    expr: &K,
) -> Result<(), Memory>
    ensures { OnOk result (known.now ++ fresh.new
        ≡ numbered_with K.cmp (expr.now ∷ []) (known.now ++ fresh.old)) }
{
    if !known.contains(expr) {
        fresh.number(alloc, expr)?;
    }
    Ok(())
}

// Adds the expressions of subscribers.
fn add_subscribers<K: Key>(
    alloc: Global,
    known: &Dictionary<K>,
    fresh: &mut Dictionary<K>,
    subscribers: &[K],
) -> Result<(), Memory>
    ensures { OnOk result (known.now ++ fresh.new
        ≡ numbered_with K.cmp subscribers.now (known.now ++ fresh.old)) }
{
    for expr in subscribers {
        add_unnumbered(alloc, known, fresh, expr)?;
    }
    Ok(())
}

// Adds the expressions of queryables.
fn add_queryables<K: Key>(
    alloc: Global,
    known: &Dictionary<K>,
    fresh: &mut Dictionary<K>,
    queryables: &[(K, QueryableInfo)],
) -> Result<(), Memory>
    ensures { OnOk result (known.now ++ fresh.new
        ≡ numbered_with K.cmp (map (λ q. q.0) queryables.now) (known.now ++ fresh.old)) }
{
    for queryable in queryables {
        add_unnumbered(alloc, known, fresh, &queryable.0)?;
    }
    Ok(())
}

/// Whether a face's subscribers and queryables would fill the dictionary.
#[tactic(auto, using(crate::proofs::Numbering::numbered_length))]
pub(crate) fn is_filled_by_entities<K: Key>(
    alloc: Global,
    g: &GatewayState<K>,
    subscribers: &[K],
    queryables: &[(K, QueryableInfo)],
) -> Result<bool, Memory>
    ensures { IfOk result (λ filled. filled
        ≡ fills_dictionary K.cmp K.matching
        (entity_expressions K.cmp subscribers.now queryables.now) g.now) }
{
    let known = g.dictionary();
    let mut fresh = Dictionary::new(alloc);
    add_subscribers(alloc, known, &mut fresh, subscribers)?;
    add_queryables(alloc, known, &mut fresh, queryables)?;
    Ok(are_above(GREATEST_DICTIONARY, known.len(), fresh.len()))
}
