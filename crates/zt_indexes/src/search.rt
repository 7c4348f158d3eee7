// The expressions that match a key and have rows in regions that pass.
ghost use Rattle.std.specs.Prelude.{◌≡◌, ◌∷◌, ◌++◌, ◌&&◌, ◌||◌, [], filter, if◌then◌else◌, true};
ghost use Rattle.std.specs.Prelude.{IfOk, OnOk};
ghost use Rattle.std.specs.BTreeMap.{is_at};
ghost use Rattle.std.specs.List.{IsDistinct};
ghost use Rattle.std.specs.List.Sorted.{IsStrictlySortedBy};
ghost use Rattle.std.specs.Map.{keys_of};
ghost use Rattle.std.specs.Ordering.{eq_by_cmp};
ghost use Rattle.zt_indexes.specs.Counted.{is_shown_in};
ghost use Rattle.zt_indexes.specs.Grouped.{as_list, is_grouped, is_in};
ghost use Rattle.zt_indexes.specs.Live.{count_at, counts_at, shown_keys};
ghost use Rattle.zt_indexes.specs.Ordered.{ordered_entries};
ghost use Rattle.zt_indexes.specs.Sought.{AreFound, is_found, is_found_plain, is_sought};

use crate::boxed_keys::BoxedKeys;
use crate::groups::{KeyGroups, KeySet};
use crate::live::RegionTest;
use crate::regions::RegionCounts;
use std::alloc::Global;
use std::collections::{HashMap, HashSet};
use zt_keys::{Key, Memory};
use zt_region::Region;

/// Whether some row of the expression stands in a region that passes.
pub fn is_shown_at<K: Key, T: RegionTest>(
    keys: &HashMap<K, RegionCounts>,
    expr: &K,
    test: &T,
) -> bool
    ensures { result ≡ is_shown_in (T.passes test.now) (counts_at K.cmp expr.now keys.now.entries) }
{
    match keys.get(expr) {
        Some(counts) => counts.is_shown(test),
        None => false,
    }
}

/// How many rows of the expression stand in the region.
pub fn count_at<K: Key>(keys: &HashMap<K, RegionCounts>, region: Region, expr: &K) -> u64
    ensures { result ≡ count_at K.cmp expr.now region keys.now.entries }
{
    match keys.get(expr) {
        Some(counts) => counts.count(region),
        None => 0,
    }
}

// Whether the expression with these counts matches the key and some of its rows stand in a region
// that passes.
fn is_sought<K: Key, T: RegionTest>(expr: &K, counts: &RegionCounts, test: &T, key: &K) -> bool
    ensures { result
        ≡ (K.matching key.now expr.now && is_shown_in (T.passes test.now) counts.now) }
{
    key.matches(expr) && counts.is_shown(test)
}

// Whether the expression matches the key and some of its rows stand in a region that passes.
fn is_sought_at<K: Key, T: RegionTest>(
    keys: &HashMap<K, RegionCounts>,
    expr: &K,
    test: &T,
    key: &K,
) -> bool
    ensures { result
        ≡ is_sought K.cmp (K.matching key.now) (T.passes test.now) keys.now.entries expr.now }
{
    key.matches(expr) && is_shown_at(keys, expr, test)
}

// Puts a copy of the expression behind those found, where it is one of them.
fn add_if<K: Key>(alloc: Global, found: &mut Vec<K>, expr: &K, is_one: bool) -> Result<(), Memory>
    ensures { OnOk result (found.new.items
        ≡ (if is_one then found.old.items ++ expr.now ∷ [] else found.old.items)) }
{
    if is_one {
        found.push(expr.copy(alloc)?)?;
    }
    Ok(())
}

// Puts a copy of the expression among those found, where it is sought.
fn add_sought<K: Key, T: RegionTest>(
    alloc: Global,
    found: &mut Vec<K>,
    expr: &K,
    keys: &HashMap<K, RegionCounts>,
    test: &T,
    key: &K,
) -> Result<(), Memory>
    ensures { OnOk result ((q : K) → is_in K.cmp q found.new.items
        ≡ (if is_at (K.cmp expr.now) q
        && is_sought K.cmp (K.matching key.now) (T.passes test.now) keys.now.entries expr.now
        then true else is_in K.cmp q found.old.items)) }
{
    add_if(alloc, found, expr, is_sought_at(keys, expr, test, key))
}

// Puts a key among those found, if it is there and sought.
fn gather_one<K: Key, T: RegionTest>(
    alloc: Global,
    found: &mut Vec<K>,
    one: &Option<K>,
    keys: &HashMap<K, RegionCounts>,
    test: &T,
    key: &K,
) -> Result<(), Memory>
    ensures { OnOk result ((q : K) → is_in K.cmp q found.new.items ≡ (is_in K.cmp q found.old.items
        || (is_in K.cmp q (as_list one.now)
        && is_sought K.cmp (K.matching key.now) (T.passes test.now) keys.now.entries q))) }
{
    match one {
        Some(expr) => add_sought(alloc, found, expr, keys, test, key),
        None => Ok(()),
    }
}

// Puts those keys among those found that are sought.
fn gather_each<K: Key, T: RegionTest>(
    alloc: Global,
    found: &mut Vec<K>,
    more: &HashSet<K>,
    keys: &HashMap<K, RegionCounts>,
    test: &T,
    key: &K,
) -> Result<(), Memory>
    ensures { OnOk result ((q : K) → is_in K.cmp q found.new.items ≡ (is_in K.cmp q found.old.items
        || (is_in K.cmp q more.now.keys
        && is_sought K.cmp (K.matching key.now) (T.passes test.now) keys.now.entries q))) }
{
    for expr in more {
        add_sought(alloc, found, expr, keys, test, key)?;
    }
    Ok(())
}

// Puts those keys among those found that are sought.
fn gather_more<K: Key, T: RegionTest>(
    alloc: Global,
    found: &mut Vec<K>,
    more: &BoxedKeys<K>,
    keys: &HashMap<K, RegionCounts>,
    test: &T,
    key: &K,
) -> Result<(), Memory>
    ensures { OnOk result ((q : K) → is_in K.cmp q found.new.items
        ≡ (is_in K.cmp q found.old.items || (is_in K.cmp q more.now
        && is_sought K.cmp (K.matching key.now) (T.passes test.now) keys.now.entries q))) }
{
    match more.as_set() {
        Some(more) => gather_each(alloc, found, more, keys, test, key),
        None => Ok(()),
    }
}

// Puts those of a group among those found that are sought.
fn gather_in<K: Key, T: RegionTest>(
    alloc: Global,
    found: &mut Vec<K>,
    group: &KeySet<K>,
    keys: &HashMap<K, RegionCounts>,
    test: &T,
    key: &K,
) -> Result<(), Memory>
    ensures { OnOk result ((q : K) → is_in K.cmp q found.new.items ≡ (is_in K.cmp q found.old.items
        || (is_in K.cmp q group.now
        && is_sought K.cmp (K.matching key.now) (T.passes test.now) keys.now.entries q))) }
{
    let (one, more) = group.parts();
    gather_one(alloc, found, one, keys, test, key)?;
    gather_more(alloc, found, more, keys, test, key)
}

// Puts those among those found that are sought and stand at a number, or at none.
fn gather_at<K: Key, T: RegionTest>(
    alloc: Global,
    found: &mut Vec<K>,
    groups: &KeyGroups<K>,
    number: Option<u64>,
    keys: &HashMap<K, RegionCounts>,
    test: &T,
    key: &K,
) -> Result<(), Memory>
    ensures { OnOk result ((q : K) → is_in K.cmp q found.new.items ≡ (is_in K.cmp q found.old.items
        || (is_grouped K.cmp number q groups.now
        && is_sought K.cmp (K.matching key.now) (T.passes test.now) keys.now.entries q))) }
{
    match groups.get(number) {
        Some(group) => gather_in(alloc, found, group, keys, test, key),
        None => Ok(()),
    }
}

// Those that are sought and stand at the number, or at none.
fn gather_all<K: Key, T: RegionTest>(
    alloc: Global,
    groups: &KeyGroups<K>,
    number: u64,
    keys: &HashMap<K, RegionCounts>,
    test: &T,
    key: &K,
) -> Result<Vec<K>, Memory>
    ensures { IfOk result (λ found. (q : K) → is_in K.cmp q found.items
        ≡ is_found K.cmp groups.now number
        (is_sought K.cmp (K.matching key.now) (T.passes test.now) keys.now.entries) q) }
{
    let mut found = Vec::new(alloc);
    gather_at(alloc, &mut found, groups, Some(number), keys, test, key)?;
    gather_at(alloc, &mut found, groups, None, keys, test, key)?;
    Ok(found)
}

// Puts keys in order, each once.
fn put_in_order<K: Key>(exprs: &mut Vec<K>)
    ensures in_order { IsStrictlySortedBy K.cmp exprs.new.items }
    ensures same { (q : K) → is_in K.cmp q exprs.new.items ≡ is_in K.cmp q exprs.old.items }
{
    exprs.sort_unstable();
    exprs.dedup();
}

/// The expressions that match the key, of rows in regions that pass, and stand at the number or at
/// none, in key order.
pub fn try_at<K: Key, T: RegionTest>(
    alloc: Global,
    groups: &KeyGroups<K>,
    number: u64,
    keys: &HashMap<K, RegionCounts>,
    test: &T,
    key: &K,
) -> Result<Vec<K>, Memory>
    ensures { IfOk result (λ exprs. AreFound K.cmp (is_found K.cmp groups.now number
        (is_sought K.cmp (K.matching key.now) (T.passes test.now) keys.now.entries)) exprs.items) }
{
    let mut found = gather_all(alloc, groups, number, keys, test, key)?;
    put_in_order(&mut found);
    Ok(found)
}

// The key and those with wildcards, where they are sought.
fn gather_plain<K: Key, T: RegionTest>(
    alloc: Global,
    wilds: &KeySet<K>,
    keys: &HashMap<K, RegionCounts>,
    test: &T,
    key: &K,
) -> Result<Vec<K>, Memory>
    ensures { IfOk result (λ found. (q : K) → is_in K.cmp q found.items
        ≡ is_found_plain K.cmp key.now wilds.now
        (is_sought K.cmp (K.matching key.now) (T.passes test.now) keys.now.entries) q) }
{
    let mut found = Vec::new(alloc);
    add_sought(alloc, &mut found, key, keys, test, key)?;
    gather_in(alloc, &mut found, wilds, keys, test, key)?;
    Ok(found)
}

/// The expressions that match the key, of rows in regions that pass, and are the key itself or
/// stand among those with wildcards, in key order.
pub fn try_plain<K: Key, T: RegionTest>(
    alloc: Global,
    wilds: &KeySet<K>,
    keys: &HashMap<K, RegionCounts>,
    test: &T,
    key: &K,
) -> Result<Vec<K>, Memory>
    ensures { IfOk result (λ exprs. AreFound K.cmp (is_found_plain K.cmp key.now wilds.now
        (is_sought K.cmp (K.matching key.now) (T.passes test.now) keys.now.entries)) exprs.items) }
{
    let mut found = gather_plain(alloc, wilds, keys, test, key)?;
    put_in_order(&mut found);
    Ok(found)
}

// The expressions of rows in regions that pass, as they stand in the table, where no two are alike.
fn gather_shown<K: Key, T: RegionTest>(
    alloc: Global,
    keys: &HashMap<K, RegionCounts>,
    test: &T,
) -> Result<Vec<K>, Memory>
    ensures shown { IfOk result (λ found. found.items
        ≡ shown_keys (T.passes test.now) keys.now.entries) }
    ensures apart { OnOk result (IsDistinct (eq_by_cmp K.cmp) (keys_of keys.now.entries)) }
{
    let mut found = Vec::new(alloc);
    for (expr, counts) in keys {
        add_if(alloc, &mut found, expr, counts.is_shown(test))?;
    }
    Ok(found)
}

// The expressions that match the key, of rows in regions that pass, as they stand in the table,
// where no two are alike.
fn gather_matching<K: Key, T: RegionTest>(
    alloc: Global,
    keys: &HashMap<K, RegionCounts>,
    test: &T,
    key: &K,
) -> Result<Vec<K>, Memory>
    ensures matching { IfOk result (λ found. found.items ≡ filter (K.matching key.now)
        (shown_keys (T.passes test.now) keys.now.entries)) }
    ensures apart { OnOk result (IsDistinct (eq_by_cmp K.cmp) (keys_of keys.now.entries)) }
{
    let mut found = Vec::new(alloc);
    for (expr, counts) in keys {
        add_if(alloc, &mut found, expr, is_sought(expr, counts, test, key))?;
    }
    Ok(found)
}

/// The expressions of rows in regions that pass, in key order: each is tried.
pub fn try_shown<K: Key, T: RegionTest>(
    alloc: Global,
    keys: &HashMap<K, RegionCounts>,
    test: &T,
) -> Result<Vec<K>, Memory>
    ensures { IfOk result (λ exprs. exprs.items
        ≡ shown_keys (T.passes test.now) (ordered_entries K.cmp keys.now.entries)) }
{
    let mut found = gather_shown(alloc, keys, test)?;
    found.sort_unstable();
    Ok(found)
}

/// The expressions that match the key, of rows in regions that pass, in key order: each is tried.
pub fn try_all<K: Key, T: RegionTest>(
    alloc: Global,
    keys: &HashMap<K, RegionCounts>,
    test: &T,
    key: &K,
) -> Result<Vec<K>, Memory>
    ensures { IfOk result (λ exprs. exprs.items ≡ filter (K.matching key.now)
        (shown_keys (T.passes test.now) (ordered_entries K.cmp keys.now.entries))) }
{
    let mut found = gather_matching(alloc, keys, test, key)?;
    found.sort_unstable();
    Ok(found)
}
