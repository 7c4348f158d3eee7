// The numbers of expressions.
ghost use Rattle.std.specs.Prelude.{◌≡◌, ◌∷◌, [], map, OnOk};
ghost use Rattle.std.specs.Option.{option_to_list};
ghost use Rattle.zt_protocol.specs.Interest.{has_aggregate};
ghost use Rattle.zt_model.specs.Entities.{numbered_by, numbered_with};

use bitflags::Flags;
use std::alloc::Global;
use zt_check_faces::{ShownInterest, is_among};
use zt_keys::{Key, Memory};
use zt_protocol::{InterestOptions, QueryableInfo};

// An expression gets a number, where it has none yet.
fn add_number<K: Key>(alloc: Global, known: &mut Vec<K>, expr: &K) -> Result<(), Memory>
    ensures { OnOk result (known.new.items
        ≡ numbered_with K.cmp (expr.now ∷ []) known.old.items) }
{
    if is_among(expr, known.as_slice()) {
        return Ok(());
    }
    known.push(expr.copy(alloc)?)?;
    Ok(())
}

// An expression gets a number, where there is one.
fn add_given_number<K: Key>(
    alloc: Global,
    known: &mut Vec<K>,
    expr: &Option<K>,
) -> Result<(), Memory>
    ensures { OnOk result (known.new.items
        ≡ numbered_with K.cmp (option_to_list expr.now) known.old.items) }
{
    match expr {
        None => Ok(()),
        Some(expr) => add_number(alloc, known, expr),
    }
}

// Whether an interest asks for an aggregate.
fn asks_aggregate<K: Key>(interest: &ShownInterest<K>) -> bool
    ensures { result ≡ has_aggregate interest.now.options }
{
    interest.options().contains(InterestOptions::AGGREGATE)
}

/// The expression of an interest that asks for an aggregate gets a number.
pub(crate) fn add_interest_number<K: Key>(
    alloc: Global,
    known: &mut Vec<K>,
    interest: &ShownInterest<K>,
) -> Result<(), Memory>
    ensures { OnOk result (known.new.items
        ≡ numbered_with K.cmp (numbered_by K.cmp interest.now) known.old.items) }
{
    if asks_aggregate(interest) {
        return add_given_number(alloc, known, interest.expr());
    }
    Ok(())
}

/// These expressions get numbers, where they have none yet.
#[tactic(auto, unfolding(zt_model::specs::Entities::numbered_with))]
pub fn add_numbers<K: Key>(alloc: Global, known: &mut Vec<K>, exprs: &[K]) -> Result<(), Memory>
    ensures { OnOk result (known.new.items ≡ numbered_with K.cmp exprs.now known.old.items) }
{
    for expr in exprs {
        add_number(alloc, known, expr)?;
    }
    Ok(())
}

/// The expressions of queryables get numbers, where they have none yet.
#[tactic(auto, unfolding(zt_model::specs::Entities::numbered_with))]
pub(crate) fn add_queryable_numbers<K: Key>(
    alloc: Global,
    known: &mut Vec<K>,
    queryables: &[(K, QueryableInfo)],
) -> Result<(), Memory>
    ensures { OnOk result (known.new.items
        ≡ numbered_with K.cmp (map (λ q. q.0) queryables.now) known.old.items) }
{
    for queryable in queryables {
        add_number(alloc, known, &queryable.0)?;
    }
    Ok(())
}
