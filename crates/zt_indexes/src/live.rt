// How many live rows of each expression stand in each region.
ghost use Rattle.std.specs.Prelude.{◌≡◌, [], None, false, filter, true, IfOk, OnErr, OnOk};
ghost use Rattle.std.specs.BTreeMap.{is_at};
ghost use Rattle.std.specs.List.Sorted.{IsStrictlySortedBy};
ghost use Rattle.std.specs.Map.{keys_of, lookup};
ghost use Rattle.zt_keys.specs.declared.anchor.Anchor.TheVariants.{Whole};
ghost use Rattle.zt_indexes.specs.Counted.{is_shown_in};
ghost use Rattle.zt_indexes.specs.Grouped.{HasKeyMore, HasSameKeys};
ghost use Rattle.zt_indexes.specs.Live.{HasOneLess, HasOneMore, HasRowsOrNoKey, IsWith, IsWithout};
ghost use Rattle.zt_indexes.specs.Live.{count_at, counts_at, shown_keys};
ghost use Rattle.zt_indexes.specs.Wild.{HasWildChanged};

use crate::anchored::{
    AnchoredKeys, anchored_keys, drop_anchored, is_sought_by_anchors, put_anchored, try_anchored,
};
use crate::groups::KeySet;
use crate::regions::RegionCounts;
use crate::search::{count_at, is_shown_at, try_all, try_plain, try_shown};
use std::alloc::Global;
use std::collections::HashMap;
use std::marker::Model;
use zt_keys::{Anchor, Key, Memory};
use zt_region::Region;

// So few expressions are tried one by one.
const FEW: usize = 32;

/// A test of regions.
pub trait RegionTest {
    ghost use Rattle.std.specs.Prelude.{◌≡◌, Bool};
    ghost use Rattle.zt_region.specs.declared.region.Region.{Region};

    /// Whether a region passes.
    ghost passes: { Self → Region → Bool };

    /// Whether the region passes.
    fn passes(&self, region: Region) -> bool
        ensures { result ≡ passes self.now region };
}

/// How many live rows of each expression stand in each region: an index beside rows that are kept
/// elsewhere, one row more or less at a time. Contracts see the expressions in key order, each with
/// its counts by region; the definitions say when these are what the rows give from scratch, and
/// that each call keeps it. Expressions with wildcards stand apart, and once `prepare` was called
/// for a key with wildcards, all are found by their numbers at the anchors too: so those that match
/// a key are looked for among few.
#[derive(Drop)]
pub struct LiveCounts<K: Key> {
    keys: HashMap<K, RegionCounts>,
    wilds: KeySet<K>,
    anchored: Option<AnchoredKeys<K>>,
}

impl<K: Key> Model for LiveCounts<K> {
    ghost use Rattle.std.specs.Prelude.{ℕ, List};
    ghost use Rattle.zt_indexes.specs.Anchored.{AreGroupsOf};
    ghost use Rattle.zt_indexes.specs.Ordered.{ordered_entries};
    ghost use Rattle.zt_indexes.specs.Wild.{HoldsWild};
    ghost use Rattle.zt_keys.specs.declared.anchor.Anchor.TheVariants.{Whole};
    ghost use Rattle.zt_region.specs.declared.region.Region.{Region};

    ghost Value = { List (K × List (Region × ℕ)) };

    ghost view = { λ a. ordered_entries K.cmp a.keys.entries };

    ghost invariant = { λ a. record {
      grouped : AreGroupsOf K.cmp K.anchored a.anchored a.keys.entries;
      wild : HoldsWild K.cmp (K.anchored Whole) a.wilds a.keys.entries;
    } };
}

// One row more of an expression, where it has rows. Whether it has. Numbers that run out count as
// out of memory. After an error the counts stay.
fn add_to<K: Key>(
    alloc: Global,
    keys: &mut HashMap<K, RegionCounts>,
    region: Region,
    expr: &K,
) -> Result<bool, Memory>
    ensures more { IfOk result (λ there. there ≡ true
        → HasOneMore K.cmp region expr.now keys.old.entries keys.new.entries) }
    ensures absent { IfOk result (λ there. there ≡ false
        → lookup (is_at (K.cmp expr.now)) keys.old.entries ≡ None) }
    ensures none { IfOk result (λ there. there ≡ false → keys.new.entries ≡ keys.old.entries) }
    ensures err { OnErr result (keys.new.entries ≡ keys.old.entries) }
    ensures stay { HasSameKeys K.cmp keys.old.entries keys.new.entries }
{
    match keys.get_mut(expr) {
        None => Ok(false),
        Some(counts) => {
            counts.add(alloc, region)?;
            Ok(true)
        }
    }
}

// Counts stand under the expression. After an error all stays.
fn put_counts<K: Key>(
    alloc: Global,
    keys: &mut HashMap<K, RegionCounts>,
    expr: &K,
    counts: RegionCounts,
) -> Result<(), Memory>
    ensures with { OnOk result (IsWith K.cmp expr.now counts keys.old.entries keys.new.entries) }
    ensures err { OnErr result (keys.new.entries ≡ keys.old.entries) }
{
    drop(keys.insert(expr.copy(alloc)?, counts)?);
    Ok(())
}

// Equal counts stand under the expression.
fn put_copy<K: Key>(
    alloc: Global,
    keys: &mut HashMap<K, RegionCounts>,
    expr: &K,
    counts: &RegionCounts,
) -> Result<(), Memory>
    ensures { OnOk result (IsWith K.cmp expr.now counts.now keys.old.entries keys.new.entries) }
{
    let copy = counts.copy(alloc)?;
    put_counts(alloc, keys, expr, copy)
}

// The first row of an expression. After an error the counts stay.
fn put_first<K: Key>(
    alloc: Global,
    keys: &mut HashMap<K, RegionCounts>,
    region: Region,
    expr: &K,
) -> Result<(), Memory>
    ensures more { OnOk result (lookup (is_at (K.cmp expr.now)) keys.old.entries ≡ None
        → HasOneMore K.cmp region expr.now keys.old.entries keys.new.entries) }
    ensures key { OnOk result (HasKeyMore K.cmp expr.now keys.old.entries keys.new.entries) }
    ensures err { OnErr result (keys.new.entries ≡ keys.old.entries) }
{
    let mut counts = RegionCounts::new();
    counts.add(alloc, region)?;
    put_counts(alloc, keys, expr, counts)
}

// The expression stands among those with wildcards, if it has any. After an error all stays.
fn put_wild<K: Key>(alloc: Global, wilds: &mut KeySet<K>, expr: &K) -> Result<(), Memory>
    ensures ok { OnOk result
        (HasWildChanged K.cmp (K.anchored Whole) expr.now true wilds.old wilds.new) }
    ensures err { OnErr result (wilds.new ≡ wilds.old) }
{
    if expr.anchor(Anchor::Whole).is_none() {
        wilds.insert(alloc, expr.copy(alloc)?)?;
    }
    Ok(())
}

// The expression stands among those with wildcards no more.
fn drop_wild<K: Key>(wilds: &mut KeySet<K>, expr: &K)
    ensures { HasWildChanged K.cmp (K.anchored Whole) expr.now false wilds.old wilds.new }
{
    if expr.anchor(Anchor::Whole).is_none() {
        wilds.remove(expr);
    }
}

// One row less of the expression in the region, if there is one. Whether its counts are gone with
// it.
fn lessen<K: Key>(keys: &mut HashMap<K, RegionCounts>, region: Region, expr: &K) -> bool
    ensures less { HasOneLess K.cmp region expr.now keys.old.entries keys.new.entries }
    ensures last { result ≡ true →
        is_shown_in (λ _. true) (counts_at K.cmp expr.now keys.new.entries) ≡ false }
    ensures not_last { result ≡ false → HasRowsOrNoKey K.cmp expr.now keys.new.entries }
    ensures stay { HasSameKeys K.cmp keys.old.entries keys.new.entries }
{
    match keys.get_mut(expr) {
        None => false,
        Some(counts) => {
            counts.remove(region);
            counts.is_empty()
        }
    }
}

// The expression goes with its counts.
fn drop_key<K: Key>(keys: &mut HashMap<K, RegionCounts>, expr: &K)
    ensures { IsWithout K.cmp expr.now keys.old.entries keys.new.entries }
{
    drop(keys.remove(expr));
}

impl<K: Key> LiveCounts<K> {
    /// No row at all. It takes no memory.
    pub fn new(alloc: Global) -> Self
        ensures { result ≡ [] }
    {
        LiveCounts {
            keys: HashMap::new(alloc),
            wilds: KeySet::new(),
            anchored: None,
        }
    }

    /// The expressions that match the key can be looked for by its numbers at the anchors from here
    /// on, if it has wildcards and a number at the first part or at the last, expressions aren't
    /// few, and memory suffices.
    pub fn prepare(&mut self, alloc: Global, key: &K)
        ensures { self.new ≡ self.old }
    {
        if self.anchored.is_some() || self.keys.len() <= FEW || !is_sought_by_anchors(key) {
            return;
        }
        if let Ok(anchored) = anchored_keys(alloc, &self.keys) {
            self.anchored = Some(anchored);
        }
    }

    /// One row more of the expression in the region. Numbers that run out count as out of memory.
    /// After an error the counts stay.
    pub fn add(&mut self, alloc: Global, region: Region, expr: &K) -> Result<(), Memory>
        ensures ok { OnOk result (HasOneMore K.cmp region expr.now self.old self.new) }
        ensures err { OnErr result (self.new ≡ self.old) }
    {
        if add_to(alloc, &mut self.keys, region, expr)? {
            return Ok(());
        }
        put_anchored(alloc, &mut self.anchored, expr)?;
        put_wild(alloc, &mut self.wilds, expr)?;
        put_first(alloc, &mut self.keys, region, expr)?;
        Ok(())
    }

    /// One row less of the expression in the region, if there is one. With its last row an
    /// expression goes.
    pub fn remove(&mut self, region: Region, expr: &K)
        ensures less { HasOneLess K.cmp region expr.now self.old self.new }
        ensures tidy { HasRowsOrNoKey K.cmp expr.now self.new }
    {
        if lessen(&mut self.keys, region, expr) {
            drop_key(&mut self.keys, expr);
            drop_anchored(&mut self.anchored, expr);
            drop_wild(&mut self.wilds, expr);
        }
    }

    /// How many rows of the expression stand in the region. A look-up, which takes no memory.
    pub fn count(&self, region: Region, expr: &K) -> u64
        ensures { result ≡ count_at K.cmp expr.now region self.now }
    {
        count_at(&self.keys, region, expr)
    }

    /// Whether some row of the expression stands in a region that passes.
    pub fn is_shown<T: RegionTest>(&self, expr: &K, test: &T) -> bool
        ensures { result ≡ is_shown_in (T.passes test.now) (counts_at K.cmp expr.now self.now) }
    {
        is_shown_at(&self.keys, expr, test)
    }

    /// The expressions of rows in regions that pass, in key order, each once.
    pub fn shown_keys<T: RegionTest>(&self, alloc: Global, test: &T) -> Result<Vec<K>, Memory>
        ensures shown { IfOk result (λ exprs. exprs.items
            ≡ shown_keys (T.passes test.now) self.now) }
        ensures in_order { IsStrictlySortedBy K.cmp (keys_of self.now) }
    {
        try_shown(alloc, &self.keys, test)
    }

    /// The expressions that match the key, of rows in regions that pass, in key order, each once. A
    /// key without wildcards is looked up as itself, beside the expressions with wildcards. For
    /// another, after `prepare`, those alone are tried that may match by their numbers, unless
    /// these are many.
    pub fn matching_keys<T: RegionTest>(
        &self,
        alloc: Global,
        test: &T,
        key: &K,
    ) -> Result<Vec<K>, Memory>
        ensures matching { IfOk result (λ exprs. exprs.items
            ≡ filter (K.matching key.now) (shown_keys (T.passes test.now) self.now)) }
        ensures in_order { IsStrictlySortedBy K.cmp (keys_of self.now) }
    {
        if key.anchor(Anchor::Whole).is_some() {
            return try_plain(alloc, &self.wilds, &self.keys, test, key);
        }
        match &self.anchored {
            Some(anchored) => try_anchored(alloc, anchored, &self.keys, test, key),
            None => try_all(alloc, &self.keys, test, key),
        }
    }

    /// Equal counts, which aren't prepared for any key.
    pub fn copy(&self, alloc: Global) -> Result<Self, Memory>
        ensures { IfOk result (λ copy. copy ≡ self.now) }
    {
        let mut keys = HashMap::with_capacity(alloc, self.keys.len())?;
        let mut wilds = KeySet::new();
        for (expr, counts) in &self.keys {
            put_wild(alloc, &mut wilds, expr)?;
            put_copy(alloc, &mut keys, expr, counts)?;
        }
        Ok(LiveCounts {
            keys,
            wilds,
            anchored: None,
        })
    }
}
