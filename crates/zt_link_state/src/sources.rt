// Tokens by origin: the expressions of each, in order.
ghost use Rattle.std.specs.Prelude.{◌≡◌, ◌++◌, [], ◌∷◌, filter, map, not, true, IfOk, OnOk};
ghost use Rattle.std.specs.BTreeMap.{insert_entry};
ghost use Rattle.std.specs.BTreeSet.{insert_key};
ghost use Rattle.std.specs.List.{list_any};
ghost use Rattle.std.specs.List.Sorted.{IsStrictlySortedBy};
ghost use Rattle.zt_model.specs.Lists.{in_key_order, with_key};
ghost use Rattle.zt_model.specs.Trees.{counted_table, is_routed_row, routed_order};
ghost use Rattle.zt_link_state.specs.More.{IsMoreBy};
ghost use Rattle.zt_link_state.specs.Routed.{AreInOrder, is_left_out, is_row_of, keys_at, origin_cmp};
ghost use Rattle.zt_link_state.specs.Routed.{row_of, rows_in};

use crate::KeptTable;
use crate::origin::{Origin, is_left_out};
use std::alloc::Global;
use std::collections::{BTreeMap, BTreeSet};
use zt_keys::{Key, Memory};
use zt_region::Region;

// Puts a token in its place: whether it is new.
pub(crate) fn insert_in<K: Key>(
    alloc: Global,
    sources: &mut BTreeMap<Origin, BTreeSet<K>>,
    origin: Origin,
    expr: K,
) -> Result<bool, Memory>
    requires { AreInOrder K.cmp sources.old.entries }
    ensures rows { OnOk result (rows_in sources.new.entries
        ≡ with_key (routed_order K.cmp) (row_of origin expr) (rows_in sources.old.entries)) }
    ensures more { IfOk result (λ is_new.
        IsMoreBy is_new (row_of origin expr) (rows_in sources.old.entries)
        (rows_in sources.new.entries)) }
    ensures in_order { AreInOrder K.cmp sources.new.entries }
{
    match sources.get_mut(&origin) {
        Some(keys) => Ok(keys.insert(expr)?),
        None => {
            let mut keys = BTreeSet::new(alloc);
            keys.insert(expr)?;
            sources.insert(origin, keys)?;
            Ok(true)
        }
    }
}

// Takes a token away: whether it was there. The origin stays, also with no token.
pub(crate) fn remove_in<K: Key>(
    sources: &mut BTreeMap<Origin, BTreeSet<K>>,
    origin: Origin,
    expr: &K,
) -> bool
    requires { AreInOrder K.cmp sources.old.entries }
    ensures rows { rows_in sources.new.entries
        ≡ filter (λ row. not (is_routed_row K.cmp (row_of origin expr.now) row))
        (rows_in sources.old.entries) }
    ensures less { IsMoreBy result (row_of origin expr.now) (rows_in sources.new.entries)
        (rows_in sources.old.entries) }
    ensures in_order { AreInOrder K.cmp sources.new.entries }
{
    match sources.get_mut(&origin) {
        Some(keys) => keys.remove(expr),
        None => false,
    }
}

// Whether an origin is kept without a token.
fn is_bare<K: Key>(sources: &BTreeMap<Origin, BTreeSet<K>>, origin: Origin) -> bool
    ensures { result ≡ true → keys_at origin sources.now.entries ≡ [] }
{
    match sources.get(&origin) {
        Some(keys) => keys.is_empty(),
        None => false,
    }
}

// An origin goes that has no token.
pub(crate) fn drop_bare<K: Key>(sources: &mut BTreeMap<Origin, BTreeSet<K>>, origin: Origin)
    requires { AreInOrder K.cmp sources.old.entries }
    ensures rows { rows_in sources.new.entries ≡ rows_in sources.old.entries }
    ensures in_order { AreInOrder K.cmp sources.new.entries }
{
    if is_bare(sources, origin) {
        drop(sources.remove(&origin));
    }
}

// Whether a token is there.
pub(crate) fn contains_in<K: Key>(
    sources: &BTreeMap<Origin, BTreeSet<K>>,
    origin: Origin,
    expr: &K,
) -> bool
    requires { AreInOrder K.cmp sources.now.entries }
    ensures { result ≡ list_any (is_routed_row K.cmp (row_of origin expr.now))
        (rows_in sources.now.entries) }
{
    match sources.get(&origin) {
        Some(keys) => keys.contains(expr),
        None => false,
    }
}

// The origins of a region go whose router the table doesn't list.
pub(crate) fn drop_left_out_in<K: Key>(
    sources: &mut BTreeMap<Origin, BTreeSet<K>>,
    region: Region,
    table: &KeptTable,
)
    requires { AreInOrder K.cmp sources.old.entries }
    ensures entries { sources.new.entries
        ≡ filter (λ entry. not (is_left_out region (counted_table table.now) entry.0))
        sources.old.entries }
    ensures in_order { AreInOrder K.cmp sources.new.entries }
{
    sources.retain(|origin, _keys| !is_left_out(region, table, *origin));
}

// The keys as a list.
fn list_keys<K: Key>(alloc: Global, keys: &BTreeSet<K>) -> Result<Vec<K>, Memory>
    ensures { IfOk result (λ list. list.items ≡ keys.now.keys) }
{
    let mut list = Vec::new(alloc);
    for key in keys {
        list.push(key.copy(alloc)?)?;
    }
    Ok(list)
}

// The expressions of an origin's tokens, in order.
pub(crate) fn expressions_in<K: Key>(
    alloc: Global,
    sources: &BTreeMap<Origin, BTreeSet<K>>,
    origin: Origin,
) -> Result<Vec<K>, Memory>
    requires { AreInOrder K.cmp sources.now.entries }
    ensures { IfOk result (λ exprs. exprs.items
        ≡ in_key_order K.cmp (map (λ row. row.expr)
        (filter (is_row_of origin) (rows_in sources.now.entries)))) }
{
    match sources.get(&origin) {
        Some(keys) => list_keys(alloc, keys),
        None => Ok(Vec::new(alloc)),
    }
}

// Adds a copy of a key, above those that are there.
fn copy_key<K: Key>(alloc: Global, copy: &mut BTreeSet<K>, key: &K) -> Result<(), Memory>
    ensures { OnOk result (copy.new.keys ≡ insert_key K.cmp copy.old.keys key.now) }
{
    copy.insert(key.copy(alloc)?)?;
    Ok(())
}

// An equal set.
fn copy_set<K: Key>(alloc: Global, keys: &BTreeSet<K>) -> Result<BTreeSet<K>, Memory>
    requires { IsStrictlySortedBy K.cmp keys.now.keys }
    ensures { IfOk result (λ copy. copy ≡ keys.now) }
{
    let mut copy = BTreeSet::new(alloc);
    for key in keys {
        copy_key(alloc, &mut copy, key)?;
    }
    Ok(copy)
}

// Adds a copy of an origin with its tokens.
fn copy_source<K: Key>(
    alloc: Global,
    copy: &mut BTreeMap<Origin, BTreeSet<K>>,
    origin: Origin,
    keys: &BTreeSet<K>,
) -> Result<(), Memory>
    requires { IsStrictlySortedBy K.cmp keys.now.keys }
    ensures { OnOk result (copy.new.entries
        ≡ insert_entry origin_cmp copy.old.entries origin keys.now) }
{
    copy.insert(origin, copy_set(alloc, keys)?)?;
    Ok(())
}

// Equal tokens.
pub(crate) fn copy_sources<K: Key>(
    alloc: Global,
    sources: &BTreeMap<Origin, BTreeSet<K>>,
) -> Result<BTreeMap<Origin, BTreeSet<K>>, Memory>
    requires { AreInOrder K.cmp sources.now.entries }
    ensures { IfOk result (λ copy. copy.entries ≡ sources.now.entries) }
{
    let mut copy = BTreeMap::new(alloc);
    for (origin, keys) in sources {
        copy_source(alloc, &mut copy, *origin, keys)?;
    }
    Ok(copy)
}
