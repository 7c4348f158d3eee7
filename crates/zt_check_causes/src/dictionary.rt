// Whether a gateway's dictionary has room.
ghost use Rattle.std.specs.Prelude.{◌≡◌, ◌+◌, length, nat_lt};
ghost use Rattle.std.specs.Option.{option_to_list};
ghost use Rattle.zt_model.specs.Entities.{entity_expressions, numbered_by, numbered_with};
ghost use Rattle.zt_model.specs.Refusals.{fills_dictionary};
ghost use Rattle.zt_model.specs.Says.{row_of};
ghost use Rattle.zt_model.specs.Wants.{kept_options};
ghost use Rattle.zt_protocol.specs.Interest.{has_aggregate};
ghost use Rattle.std.specs.Prelude.{◌∷◌, ◌++◌, [], map, IfOk, OnOk};

use bitflags::Flags;
use std::alloc::Global;
use zt_check_faces::{ShownFace, is_among};
use zt_check_rows::ShownRows;
use zt_keys::{Key, Memory};
use zt_protocol::{InterestMode, InterestOptions, QueryableInfo};
use zt_region::WhatAmI;

// The most expressions of a dictionary.
const GREATEST_DICTIONARY: usize = 65535;

// The options of an interest that count, of a face of this mode.
fn kept_options(mode: WhatAmI, options: InterestOptions) -> InterestOptions
    ensures { result ≡ kept_options mode options }
{
    if mode == WhatAmI::Peer || options.contains(InterestOptions::TOKENS) {
        return options.difference(InterestOptions::AGGREGATE);
    }
    options
}

// Whether an expression would be one too many.
#[tactic(auto, using(crate::proofs::Numbered::one_fits))]
fn is_one_too_many<K: Key>(known: &[K], expr: &K) -> bool
    ensures { result ≡ nat_lt 65535 (length (numbered_with K.cmp (expr.now ∷ []) known.now)) }
{
    if known.len() < GREATEST_DICTIONARY {
        return false;
    }
    GREATEST_DICTIONARY < known.len() || !is_among(expr, known)
}

// Whether an expression would be, where there is one.
#[tactic(auto, unfolding(zt_model::specs::Entities::numbered_with))]
fn is_given_too_many<K: Key>(known: &[K], expr: &Option<K>) -> bool
    ensures { result
        ≡ nat_lt 65535 (length (numbered_with K.cmp (option_to_list expr.now) known.now)) }
{
    match expr {
        None => GREATEST_DICTIONARY < known.len(),
        Some(expr) => is_one_too_many(known, expr),
    }
}

// Whether an interest asks for aggregates, with the options that count.
fn asks_aggregates<K: Key>(face: &ShownFace<K>, options: InterestOptions) -> bool
    ensures { result ≡ has_aggregate (kept_options face.now.mode options) }
{
    kept_options(face.mode(), options).contains(InterestOptions::AGGREGATE)
}

/// Whether the dictionary would hold too many expressions with that of an interest.
#[tactic(auto, unfolding(zt_model::specs::Entities::numbered_with))]
pub(crate) fn is_filled_by_interest<K: Key>(
    rows: &ShownRows<K>,
    face: &ShownFace<K>,
    mode: InterestMode,
    options: InterestOptions,
    expr: &Option<K>,
) -> bool
    ensures { result ≡ fills_dictionary K.cmp K.matching
        (numbered_by K.cmp (row_of K.cmp K.matching face.now mode options expr.now)) rows.now }
{
    if !asks_aggregates(face, options) {
        return GREATEST_DICTIONARY < rows.dictionary().len();
    }
    is_given_too_many(rows.dictionary(), expr)
}

// Adds an expression to those that are new, unless it is known or among them.
fn add_new<K: Key>(alloc: Global, known: &[K], added: &mut Vec<K>, expr: &K) -> Result<(), Memory>
    ensures { OnOk result (known.now ++ added.new.items
        ≡ numbered_with K.cmp (expr.now ∷ []) (known.now ++ added.old.items)) }
{
    if is_among(expr, known) {
        return Ok(());
    }
    if is_among(expr, added.as_slice()) {
        return Ok(());
    }
    added.push(expr.copy(alloc)?)?;
    Ok(())
}

// Adds the expressions of subscribers.
fn add_subscribers<K: Key>(
    alloc: Global,
    known: &[K],
    added: &mut Vec<K>,
    subscribers: &[K],
) -> Result<(), Memory>
    ensures { OnOk result (known.now ++ added.new.items
        ≡ numbered_with K.cmp subscribers.now (known.now ++ added.old.items)) }
{
    for expr in subscribers {
        add_new(alloc, known, added, expr)?;
    }
    Ok(())
}

// Adds the expressions of queryables.
fn add_queryables<K: Key>(
    alloc: Global,
    known: &[K],
    added: &mut Vec<K>,
    queryables: &[(K, QueryableInfo)],
) -> Result<(), Memory>
    ensures { OnOk result (known.now ++ added.new.items
        ≡ numbered_with K.cmp (map (λ q. q.0) queryables.now) (known.now ++ added.old.items)) }
{
    for queryable in queryables {
        add_new(alloc, known, added, &queryable.0)?;
    }
    Ok(())
}

// Whether these are too many together.
fn are_too_many(known: usize, added: usize) -> bool
    ensures { result ≡ nat_lt 65535 (known + added) }
{
    GREATEST_DICTIONARY < known || GREATEST_DICTIONARY - known < added
}

/// Whether the dictionary would hold too many expressions with those of a face's entities.
#[tactic(auto, using(crate::proofs::Numbered::both_counted))]
pub(crate) fn is_filled_by_entities<K: Key>(
    alloc: Global,
    rows: &ShownRows<K>,
    subscribers: &[K],
    queryables: &[(K, QueryableInfo)],
) -> Result<bool, Memory>
    ensures { IfOk result (λ filled. filled
        ≡ fills_dictionary K.cmp K.matching
        (entity_expressions K.cmp subscribers.now queryables.now) rows.now) }
{
    let known = rows.dictionary();
    let mut added = Vec::new(alloc);
    add_subscribers(alloc, known, &mut added, subscribers)?;
    add_queryables(alloc, known, &mut added, queryables)?;
    Ok(are_too_many(known.len(), added.len()))
}
