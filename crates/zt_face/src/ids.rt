// Ids of interests by what these ask for: a set of ids for each.
ghost use Rattle.std.specs.Prelude.{◌≡◌, ◌==◌, ◌&&◌, ◌||◌, ℕ, false, length, not, true, IfOk};
ghost use Rattle.std.specs.Prelude.{OnErr, OnOk};
ghost use Rattle.std.specs.BTreeSet.{contains};
ghost use Rattle.std.specs.HashMap.{get};
ghost use Rattle.std.specs.List.Sorted.{IsStrictlySortedBy};
ghost use Rattle.std.specs.Ordering.{nat_cmp};
ghost use Rattle.zt_face.specs.Ids.{HasLess, HasMore, HasSame, ids_under, is_under};

use std::alloc::Global;
use std::collections::{BTreeSet, HashMap};
use std::hash::Hash;
use zt_keys::Memory;

// Puts an id into a set. After an error the set stays.
fn insert_id(set: &mut BTreeSet<u32>, id: u32) -> Result<(), Memory>
    ensures ok { OnOk result ((n : ℕ) → contains nat_cmp set.new n
        ≡ (contains nat_cmp set.old n || (id == n))) }
    ensures err { OnErr result ((n : ℕ) → contains nat_cmp set.new n ≡ contains nat_cmp set.old n) }
{
    set.insert(id)?;
    Ok(())
}

// Takes an id from a set: whether none is left.
fn remove_id(set: &mut BTreeSet<u32>, id: u32) -> bool
    ensures rest { (n : ℕ) → contains nat_cmp set.new n
        ≡ (contains nat_cmp set.old n && not (id == n)) }
    ensures last { result ≡ true → (n : ℕ) → contains nat_cmp set.new n ≡ false }
{
    set.remove(&id);
    set.is_empty()
}

// A set of one id.
fn set_of_one(alloc: Global, id: u32) -> Result<BTreeSet<u32>, Memory>
    ensures { IfOk result (λ set. (n : ℕ) → contains nat_cmp set n ≡ (id == n)) }
{
    let mut set = BTreeSet::new(alloc);
    insert_id(&mut set, id)?;
    Ok(set)
}

// The ids of a set, in order.
fn listed(alloc: Global, set: &BTreeSet<u32>) -> Result<Vec<u32>, Memory>
    ensures keys { IfOk result (λ list. list.items ≡ set.now.keys) }
    ensures in_order { IsStrictlySortedBy nat_cmp set.now.keys }
{
    let list = set.iter().copied().collect(alloc)?;
    Ok(list)
}

// One id more of those that ask for this. After an error the ids stay.
pub(crate) fn add_id<Q: Eq + Hash + Drop>(
    alloc: Global,
    sets: &mut HashMap<Q, BTreeSet<u32>>,
    asked: Q,
    id: u32,
) -> Result<(), Memory>
    ensures ok { OnOk result (HasMore Q.eq asked id (get Q.eq sets.old) (get Q.eq sets.new)) }
    ensures err { OnErr result (HasSame (get Q.eq sets.old) (get Q.eq sets.new)) }
{
    match sets.get_mut(&asked) {
        Some(set) => insert_id(set, id),
        None => {
            let set = set_of_one(alloc, id)?;
            sets.insert(asked, set)?;
            Ok(())
        }
    }
}

// One id less of those that ask for this: whether none is left. The set stays.
fn drop_in<Q: Eq + Hash + Drop>(sets: &mut HashMap<Q, BTreeSet<u32>>, asked: &Q, id: u32) -> bool
    ensures rest { HasLess Q.eq asked.now id (get Q.eq sets.old) (get Q.eq sets.new) }
    ensures last { result ≡ true → (n : ℕ) → is_under (get Q.eq sets.new asked.now) n ≡ false }
{
    match sets.get_mut(asked) {
        Some(set) => remove_id(set, id),
        None => false,
    }
}

// One id less of those that ask for this.
pub(crate) fn drop_id<Q: Eq + Hash + Drop>(sets: &mut HashMap<Q, BTreeSet<u32>>, asked: &Q, id: u32)
    ensures { HasLess Q.eq asked.now id (get Q.eq sets.old) (get Q.eq sets.new) }
{
    if drop_in(sets, asked, id) {
        drop(sets.remove(asked));
    }
}

// Whether one asks for this.
pub(crate) fn has_ids<Q: Eq + Hash + Drop>(sets: &HashMap<Q, BTreeSet<u32>>, asked: &Q) -> bool
    ensures rising { IsStrictlySortedBy nat_cmp (ids_under (get Q.eq sets.now asked.now)) }
    ensures some { result ≡ not (length (ids_under (get Q.eq sets.now asked.now)) == 0) }
{
    match sets.get(asked) {
        Some(set) => set.len() != 0,
        None => false,
    }
}

// The ids of those that ask for this, in order.
pub(crate) fn ids_of<Q: Eq + Hash + Drop>(
    alloc: Global,
    sets: &HashMap<Q, BTreeSet<u32>>,
    asked: &Q,
) -> Result<Vec<u32>, Memory>
    ensures rising { IsStrictlySortedBy nat_cmp (ids_under (get Q.eq sets.now asked.now)) }
    ensures ids { IfOk result (λ ids. ids.items ≡ ids_under (get Q.eq sets.now asked.now)) }
{
    match sets.get(asked) {
        Some(set) => listed(alloc, set),
        None => Ok(Vec::new(alloc)),
    }
}
