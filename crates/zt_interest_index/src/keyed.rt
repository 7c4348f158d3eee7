// Interests by the keys that they are in.
ghost use Rattle.std.specs.Prelude.{◌≡◌, ℕ, ◌++◌, ◌∷◌, ◌||◌, Some, None, [], filter, not, true, false};
ghost use Rattle.std.specs.Prelude.{IfOk, OnErr, OnOk};
ghost use Rattle.std.specs.BTreeMap.{is_at};
ghost use Rattle.std.specs.List.{list_any};
ghost use Rattle.std.specs.Map.{lookup};
ghost use Rattle.zt_indexes.specs.Grouped.{HasKeyMore, HasSameKeys};
ghost use Rattle.zt_indexes.specs.Live.{IsWith, IsWithout};
ghost use Rattle.zt_indexes.specs.Ordered.{ordered_entries};
ghost use Rattle.zt_interest_index.specs.Holdings.{asks_from, is_among, is_of};
ghost use Rattle.zt_interest_index.specs.Index.{ChangesOf, rows_of};

use crate::holdings::Holdings;
use std::alloc::Global;
use std::collections::HashMap;
use zt_keys::{Key, Memory};

/// An interest more in a key, where others in it are kept. Whether they are.
pub(crate) fn add_to<K: Key>(
    alloc: Global,
    keyed: &mut HashMap<K, Holdings<K>>,
    key: &K,
    face: u32,
    id: u32,
) -> Result<bool, Memory>
    ensures more { IfOk result (λ there. there ≡ true → ChangesOf K.cmp key.now
        (λ rows. rows ++ ((face, id), Some key.now) ∷ []) keyed.old.entries keyed.new.entries) }
    ensures none { IfOk result (λ there. there ≡ false → keyed.new.entries ≡ keyed.old.entries) }
    ensures absent { IfOk result (λ there. there ≡ false
        → lookup (is_at (K.cmp key.now)) keyed.old.entries ≡ None) }
    ensures stay { HasSameKeys K.cmp keyed.old.entries keyed.new.entries }
{
    let copy = key.copy(alloc)?;
    match keyed.get_mut(key) {
        None => Ok(false),
        Some(rows) => {
            rows.push(face, id, Some(copy))?;
            Ok(true)
        }
    }
}

// These interests are in a key. After an error all stays.
fn put_rows<K: Key>(
    alloc: Global,
    keyed: &mut HashMap<K, Holdings<K>>,
    key: &K,
    rows: Holdings<K>,
) -> Result<(), Memory>
    ensures with { OnOk result (IsWith K.cmp key.now rows keyed.old.entries keyed.new.entries) }
    ensures err { OnErr result (keyed.new.entries ≡ keyed.old.entries) }
{
    drop(keyed.insert(key.copy(alloc)?, rows)?);
    Ok(())
}

/// The first interest in a key. After an error all stays.
pub(crate) fn put_first<K: Key>(
    alloc: Global,
    keyed: &mut HashMap<K, Holdings<K>>,
    key: &K,
    face: u32,
    id: u32,
) -> Result<(), Memory>
    ensures more { OnOk result (lookup (is_at (K.cmp key.now)) keyed.old.entries ≡ None →
        ChangesOf K.cmp key.now (λ rows. rows ++ ((face, id), Some key.now) ∷ [])
        keyed.old.entries keyed.new.entries) }
    ensures key { OnOk result (HasKeyMore K.cmp key.now keyed.old.entries keyed.new.entries) }
    ensures err { OnErr result (keyed.new.entries ≡ keyed.old.entries) }
{
    let copy = key.copy(alloc)?;
    let rows = Holdings::of_one(alloc, face, id, Some(copy))?;
    put_rows(alloc, keyed, key, rows)
}

/// An interest less in a key. Whether none in it is left.
pub(crate) fn drop_from<K: Key>(
    keyed: &mut HashMap<K, Holdings<K>>,
    key: &K,
    face: u32,
    id: u32,
) -> bool
    ensures drops { ChangesOf K.cmp key.now (filter (λ row. not (is_of face id row)))
        keyed.old.entries keyed.new.entries }
    ensures last { result ≡ true → rows_of K.cmp key.now keyed.new.entries ≡ [] }
    ensures stay { HasSameKeys K.cmp keyed.old.entries keyed.new.entries }
{
    match keyed.get_mut(key) {
        None => false,
        Some(rows) => {
            rows.remove(face, id);
            rows.is_empty()
        }
    }
}

/// The interests in a key go.
pub(crate) fn drop_key<K: Key>(keyed: &mut HashMap<K, Holdings<K>>, key: &K)
    ensures { IsWithout K.cmp key.now keyed.old.entries keyed.new.entries }
{
    drop(keyed.remove(key));
}

/// The interests in a key.
pub(crate) fn rows_in<'a, K: Key>(
    keyed: &'a HashMap<K, Holdings<K>>,
    key: &K,
) -> &'a [((u32, u32), Option<K>)]
    ensures { result.now ≡ rows_of K.cmp key.now keyed.now.entries }
{
    match keyed.get(key) {
        None => &[],
        Some(rows) => rows.as_slice(),
    }
}

/// Puts the faces among those found whose interests in a key are about another.
pub(crate) fn gather_from<K: Key>(
    found: &mut Vec<u32>,
    keyed: &HashMap<K, Holdings<K>>,
    key: &K,
    expr: &K,
) -> Result<(), Memory>
    ensures { OnOk result ((n : ℕ) → is_among n found.new.items
        ≡ (is_among n found.old.items || list_any (asks_from K.matching expr.now n)
        (rows_of K.cmp key.now keyed.now.entries))) }
{
    match keyed.get(key) {
        None => Ok(()),
        Some(rows) => rows.gather(found, expr),
    }
}

// Equal interests are in a key.
fn put_copy<K: Key>(
    alloc: Global,
    keyed: &mut HashMap<K, Holdings<K>>,
    key: &K,
    rows: &Holdings<K>,
) -> Result<(), Memory>
    ensures { OnOk result
        (IsWith K.cmp key.now rows.now keyed.old.entries keyed.new.entries) }
{
    let copy = rows.copy(alloc)?;
    put_rows(alloc, keyed, key, copy)
}

/// Equal interests in equal keys.
pub(crate) fn copy_keyed<K: Key>(
    alloc: Global,
    keyed: &HashMap<K, Holdings<K>>,
) -> Result<HashMap<K, Holdings<K>>, Memory>
    ensures { IfOk result (λ copies. ordered_entries K.cmp copies.entries
        ≡ ordered_entries K.cmp keyed.now.entries) }
{
    let mut copies = HashMap::with_capacity(alloc, keyed.len())?;
    for (key, rows) in keyed {
        put_copy(alloc, &mut copies, key, rows)?;
    }
    Ok(copies)
}
