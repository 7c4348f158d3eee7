// Expressions by their numbers at the anchors.
ghost use Rattle.std.specs.Prelude.{◌≡◌, ℕ, List, true, IfOk, OnOk, filter};
ghost use Rattle.zt_keys.specs.declared.anchor.Anchor.TheVariants.{First, Last};
ghost use Rattle.zt_region.specs.declared.region.Region.{Region};
ghost use Rattle.zt_indexes.specs.Anchored.{AreGroupsOf};
ghost use Rattle.zt_indexes.specs.Grouped.{AreGrouped, Grows, HasKeyMore, is_grouped};
ghost use Rattle.zt_indexes.specs.Live.{IsWithout, shown_keys};
ghost use Rattle.zt_indexes.specs.Ordered.{ordered_entries};

use crate::groups::KeyGroups;
use crate::live::RegionTest;
use crate::regions::RegionCounts;
use crate::search::{try_all, try_at};
use std::alloc::Global;
use std::collections::HashMap;
use std::marker::Model;
use zt_keys::{Anchor, Key, Memory};

/// Expressions by the numbers that they have at the first part and at the last.
#[derive(Drop)]
pub(crate) struct AnchoredKeys<K: Key> {
    firsts: KeyGroups<K>,
    lasts: KeyGroups<K>,
}

impl<K: Key> Model for AnchoredKeys<K> {
    ghost use Rattle.std.specs.Prelude.{ℕ, List, Option};

    ghost Value = { List (Option ℕ × List K) × List (Option ℕ × List K) };

    ghost view = { λ a. (a.firsts, a.lasts) };
}

// The expression stands at its numbers. After an error it may stand at one.
fn put_at_anchors<K: Key>(
    alloc: Global,
    anchored: &mut AnchoredKeys<K>,
    expr: &K,
) -> Result<(), Memory>
    ensures first { Grows K.cmp anchored.old.0 anchored.new.0 }
    ensures last { Grows K.cmp anchored.old.1 anchored.new.1 }
    ensures at_first { OnOk result
        (is_grouped K.cmp (K.anchored First expr.now) expr.now anchored.new.0 ≡ true) }
    ensures at_last { OnOk result
        (is_grouped K.cmp (K.anchored Last expr.now) expr.now anchored.new.1 ≡ true) }
{
    anchored.firsts.put(alloc, Anchor::First, expr)?;
    anchored.lasts.put(alloc, Anchor::Last, expr)?;
    Ok(())
}

/// The expressions of these counts, by their numbers.
pub(crate) fn anchored_keys<K: Key>(
    alloc: Global,
    keys: &HashMap<K, RegionCounts>,
) -> Result<AnchoredKeys<K>, Memory>
    ensures { IfOk result
        (λ groups. AreGrouped K.cmp K.anchored groups.0 groups.1 keys.now.entries) }
{
    let mut anchored = AnchoredKeys {
        firsts: KeyGroups::new(alloc),
        lasts: KeyGroups::new(alloc),
    };
    for (expr, _) in keys {
        put_at_anchors(alloc, &mut anchored, expr)?;
    }
    Ok(anchored)
}

/// An expression more, where there are groups.
pub(crate) fn put_anchored<K: Key>(
    alloc: Global,
    anchored: &mut Option<AnchoredKeys<K>>,
    expr: &K,
) -> Result<(), Memory>
    ensures kept { (entries : List (K × List (Region × ℕ))) →
        AreGroupsOf K.cmp K.anchored anchored.old entries →
        AreGroupsOf K.cmp K.anchored anchored.new entries }
    ensures more { OnOk result ((old new : List (K × List (Region × ℕ))) →
        AreGroupsOf K.cmp K.anchored anchored.old old → HasKeyMore K.cmp expr.now old new →
        AreGroupsOf K.cmp K.anchored anchored.new new) }
{
    match anchored {
        Some(anchored) => put_at_anchors(alloc, anchored, expr),
        None => Ok(()),
    }
}

/// An expression less, where there are groups.
pub(crate) fn drop_anchored<K: Key>(anchored: &mut Option<AnchoredKeys<K>>, expr: &K)
    ensures { (old new : List (K × List (Region × ℕ))) →
        AreGroupsOf K.cmp K.anchored anchored.old old → IsWithout K.cmp expr.now old new →
        AreGroupsOf K.cmp K.anchored anchored.new new }
{
    if let Some(anchored) = anchored {
        anchored.firsts.remove(Anchor::First, expr);
        anchored.lasts.remove(Anchor::Last, expr);
    }
}

/// Whether the key has wildcards, and a number at the first part or at the last.
pub(crate) fn is_sought_by_anchors<K: Key>(key: &K) -> bool {
    key.anchor(Anchor::Whole).is_none()
        && (key.anchor(Anchor::First).is_some() || key.anchor(Anchor::Last).is_some())
}

/// The expressions that match the key, of rows in regions that pass, in key order, each once: those
/// alone are tried that may match by their numbers, unless these are many.
pub(crate) fn try_anchored<K: Key, T: RegionTest>(
    alloc: Global,
    anchored: &AnchoredKeys<K>,
    keys: &HashMap<K, RegionCounts>,
    test: &T,
    key: &K,
) -> Result<Vec<K>, Memory>
    requires { AreGrouped K.cmp K.anchored anchored.now.0 anchored.now.1 keys.now.entries }
    ensures { IfOk result (λ exprs. exprs.items ≡ filter (K.matching key.now)
        (shown_keys (T.passes test.now) (ordered_entries K.cmp keys.now.entries))) }
{
    let many = keys.len() / 2;
    let first = key.anchor(Anchor::First);
    let last = key.anchor(Anchor::Last);
    if let Some(number) = last {
        let count = anchored.lasts.count(last);
        if count < many && (first.is_none() || count <= anchored.firsts.count(first)) {
            return try_at(alloc, &anchored.lasts, number, keys, test, key);
        }
    }
    if let Some(number) = first {
        if anchored.firsts.count(first) < many {
            return try_at(alloc, &anchored.firsts, number, keys, test, key);
        }
    }
    try_all(alloc, keys, test, key)
}
