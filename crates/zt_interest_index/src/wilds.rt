// The keys with wildcards that interests are in, by the numbers of their chunks.
ghost use Rattle.std.specs.Prelude.{◌≡◌, ℕ, Bool, ◌||◌, Some, None, is_some, true, IfOk, IfSome, OnOk};
ghost use Rattle.std.specs.List.{list_any};
ghost use Rattle.zt_indexes.specs.Grouped.{Grows, as_list, keys_at};
ghost use Rattle.zt_interest_index.specs.Holdings.{is_among};
ghost use Rattle.zt_interest_index.specs.Wilds.{AreCovered, KeepsOthers, asks_in, is_covered};
ghost use Rattle.zt_keys.specs.Numbers.{is_number};
ghost use Rattle.zt_keys.specs.declared.anchor.Anchor.TheVariants.{Whole};

use crate::holdings::Holdings;
use crate::keyed::gather_from;
use crate::wild_keys::WildKeys;
use std::alloc::Global;
use std::collections::{HashMap, HashSet};
use zt_indexes::{BoxedKeys, KeySet};
use zt_keys::{Anchor, Key, Memory};

/// Whether the key has no wildcards.
pub(crate) fn is_plain<K: Key>(key: &K) -> bool
    ensures { result ≡ is_some (K.anchored Whole key.now) }
{
    key.anchor(Anchor::Whole).is_some()
}

// The number at which the fewest keys stand. So a number that many keys have is taken for few of
// them, whichever it is.
fn place_of<K: Key>(wilds: &WildKeys<K>, numbers: &[u64]) -> Option<u64>
    ensures { IfSome result (λ number. is_number number numbers.now ≡ true) }
{
    let mut place = None;
    let mut fewest = usize::MAX;
    for number in numbers {
        let count = wilds.count(*number);
        if count < fewest {
            fewest = count;
            place = Some(*number);
        }
    }
    place
}

/// A key stands at one of its numbers, if it has wildcards; at none if it has no number.
pub(crate) fn put_wild<K: Key>(
    alloc: Global,
    wilds: &mut WildKeys<K>,
    key: &K,
) -> Result<(), Memory>
    ensures grows { Grows K.cmp wilds.old wilds.new }
    ensures covered { OnOk result
        (is_covered K.cmp K.anchored K.numbered key.now wilds.new ≡ true) }
{
    if is_plain(key) {
        return Ok(());
    }
    let numbers = numbers_of(alloc, key)?;
    let place = place_of(wilds, &numbers);
    wilds.put_at(alloc, place, key)
}

/// A key stands at its numbers no more. Where memory runs out it may stay, which changes nothing
/// that is found.
pub(crate) fn drop_wild<K: Key>(alloc: Global, wilds: &mut WildKeys<K>, key: &K)
    ensures { KeepsOthers K.cmp key.now wilds.old wilds.new }
{
    if is_plain(key) {
        return;
    }
    wilds.remove_free(key);
    if let Ok(numbers) = numbers_of(alloc, key) {
        drop_at(wilds, &numbers, key);
    }
}

// A key stands at these numbers no more.
fn drop_at<K: Key>(wilds: &mut WildKeys<K>, numbers: &[u64], key: &K)
    ensures { KeepsOthers K.cmp key.now wilds.old wilds.new }
{
    for number in numbers {
        wilds.remove_at(*number, key);
    }
}

// Puts the faces among those found whose interests are in a key that matches, and about the
// expression.
fn gather_key<K: Key>(
    found: &mut Vec<u32>,
    keyed: &HashMap<K, Holdings<K>>,
    key: &K,
    expr: &K,
) -> Result<(), Memory>
    ensures { OnOk result ((n : ℕ) → is_among n found.new.items ≡ (is_among n found.old.items
        || asks_in K.cmp K.matching expr.now n keyed.now.entries key.now)) }
{
    if key.matches(expr) {
        gather_from(found, keyed, key, expr)
    } else {
        Ok(())
    }
}

// The same of a key, if it is there.
fn gather_one<K: Key>(
    found: &mut Vec<u32>,
    keyed: &HashMap<K, Holdings<K>>,
    one: &Option<K>,
    expr: &K,
) -> Result<(), Memory>
    ensures { OnOk result ((n : ℕ) → is_among n found.new.items ≡ (is_among n found.old.items
        || list_any (asks_in K.cmp K.matching expr.now n keyed.now.entries) (as_list one.now))) }
{
    match one {
        Some(key) => gather_key(found, keyed, key, expr),
        None => Ok(()),
    }
}

// The same of each key of a set.
fn gather_each<K: Key>(
    found: &mut Vec<u32>,
    keyed: &HashMap<K, Holdings<K>>,
    more: &HashSet<K>,
    expr: &K,
) -> Result<(), Memory>
    ensures { OnOk result ((n : ℕ) → is_among n found.new.items ≡ (is_among n found.old.items
        || list_any (asks_in K.cmp K.matching expr.now n keyed.now.entries) more.now.keys)) }
{
    for key in more {
        gather_key(found, keyed, key, expr)?;
    }
    Ok(())
}

// The same of each key of a set that mostly has none.
fn gather_more<K: Key>(
    found: &mut Vec<u32>,
    keyed: &HashMap<K, Holdings<K>>,
    more: &BoxedKeys<K>,
    expr: &K,
) -> Result<(), Memory>
    ensures { OnOk result ((n : ℕ) → is_among n found.new.items ≡ (is_among n found.old.items
        || list_any (asks_in K.cmp K.matching expr.now n keyed.now.entries) more.now)) }
{
    match more.as_set() {
        Some(more) => gather_each(found, keyed, more, expr),
        None => Ok(()),
    }
}

// The same of a group.
fn gather_group<K: Key>(
    found: &mut Vec<u32>,
    keyed: &HashMap<K, Holdings<K>>,
    group: &KeySet<K>,
    expr: &K,
) -> Result<(), Memory>
    ensures { OnOk result ((n : ℕ) → is_among n found.new.items ≡ (is_among n found.old.items
        || list_any (asks_in K.cmp K.matching expr.now n keyed.now.entries) group.now)) }
{
    let (one, more) = group.parts();
    gather_one(found, keyed, one, expr)?;
    gather_more(found, keyed, more, expr)
}

// The same of the keys at a number.
fn gather_at<K: Key>(
    found: &mut Vec<u32>,
    keyed: &HashMap<K, Holdings<K>>,
    wilds: &WildKeys<K>,
    number: u64,
    expr: &K,
) -> Result<(), Memory>
    ensures { OnOk result ((n : ℕ) → is_among n found.new.items ≡ (is_among n found.old.items
        || list_any (asks_in K.cmp K.matching expr.now n keyed.now.entries)
        (keys_at (Some number) wilds.now))) }
{
    match wilds.get(number) {
        Some(group) => gather_group(found, keyed, group, expr),
        None => Ok(()),
    }
}

// The same of the keys at some of these numbers.
fn gather_numbers<K: Key>(
    found: &mut Vec<u32>,
    keyed: &HashMap<K, Holdings<K>>,
    wilds: &WildKeys<K>,
    numbers: &[u64],
    expr: &K,
) -> Result<(), Memory>
    ensures { OnOk result ((n : ℕ) → is_among n found.new.items ≡ (is_among n found.old.items
        || list_any (λ number. list_any (asks_in K.cmp K.matching expr.now n keyed.now.entries)
        (keys_at (Some number) wilds.now)) numbers.now)) }
{
    for number in numbers {
        gather_at(found, keyed, wilds, *number, expr)?;
    }
    Ok(())
}

// The numbers of a key, each once, since chunks may come again and again.
fn numbers_of<K: Key>(alloc: Global, key: &K) -> Result<Vec<u64>, Memory>
    ensures { IfOk result (λ numbers. (test : ℕ → Bool) →
        list_any test numbers.items ≡ list_any test (K.numbered key.now)) }
{
    let mut numbers = key.numbers(alloc)?;
    numbers.sort_unstable();
    numbers.dedup();
    Ok(numbers)
}

/// Puts the faces among those found that hold interests, about the expression, in keys at its
/// numbers or at none.
pub(crate) fn gather_wilds<K: Key>(
    alloc: Global,
    found: &mut Vec<u32>,
    keyed: &HashMap<K, Holdings<K>>,
    wilds: &WildKeys<K>,
    expr: &K,
) -> Result<(), Memory>
    ensures { OnOk result ((n : ℕ) → is_among n found.new.items ≡ ((is_among n found.old.items
        || list_any (asks_in K.cmp K.matching expr.now n keyed.now.entries)
        (keys_at None wilds.now))
        || list_any (λ number. list_any (asks_in K.cmp K.matching expr.now n keyed.now.entries)
        (keys_at (Some number) wilds.now)) (K.numbered expr.now))) }
{
    gather_group(found, keyed, wilds.free(), expr)?;
    if !wilds.has_numbers() {
        return Ok(());
    }
    let numbers = numbers_of(alloc, expr)?;
    gather_numbers(found, keyed, wilds, &numbers, expr)
}

/// The keys of these interests, each at one of its numbers.
pub(crate) fn wilds_of<K: Key>(
    alloc: Global,
    keyed: &HashMap<K, Holdings<K>>,
) -> Result<WildKeys<K>, Memory>
    ensures { IfOk result
        (λ wilds. AreCovered K.cmp K.anchored K.numbered wilds keyed.now.entries) }
{
    let mut wilds = WildKeys::new(alloc);
    for (key, _) in keyed {
        put_wild(alloc, &mut wilds, key)?;
    }
    Ok(wilds)
}
