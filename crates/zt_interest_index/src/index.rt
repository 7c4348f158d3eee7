// Interests by key.
ghost use Rattle.std.specs.Prelude.{◌≡◌, ℕ, ◌++◌, ◌∷◌, ◌||◌, Some, [], filter, not};
ghost use Rattle.std.specs.Prelude.{IfOk, IfSome, List, Option, OnOk};
ghost use Rattle.std.specs.List.{list_any};
ghost use Rattle.std.specs.List.Sorted.{IsStrictlySortedBy};
ghost use Rattle.std.specs.Ordering.{nat_cmp};
ghost use Rattle.zt_interest_index.specs.Holders.{AreHoldersAnd, HasAllIn, IsIndexOf};
ghost use Rattle.zt_interest_index.specs.Holdings.{asks_from, is_among, is_of};
ghost use Rattle.zt_interest_index.specs.Index.{ChangesAt};

use crate::holdings::Holdings;
use crate::keyed::{add_to, copy_keyed, drop_from, drop_key, gather_from, put_first, rows_in};
use crate::wild_keys::WildKeys;
use crate::wilds::{drop_wild, gather_wilds, is_plain, put_wild, wilds_of};
use std::alloc::Global;
use std::collections::HashMap;
use std::marker::Model;
use zt_keys::{Key, Memory};

/// The interests of faces, each under its face and id, found by the key of what they are about. An
/// index beside interests that are kept elsewhere: contracts see the interests of each key, and
/// those in all keys, and the definitions say when they are those of a list of interests. A key
/// with wildcards stands at one of its numbers too, by which it is found.
#[derive(Drop)]
pub struct InterestIndex<K: Key> {
    any: Holdings<K>,
    keyed: HashMap<K, Holdings<K>>,
    wilds: WildKeys<K>,
}

impl<K: Key> Model for InterestIndex<K> {
    ghost use Rattle.zt_indexes.specs.Ordered.{ordered_entries};
    ghost use Rattle.zt_interest_index.specs.Index.{Interests};
    ghost use Rattle.zt_interest_index.specs.Wilds.{AreCovered};

    ghost Value = { Interests K };

    ghost view = { λ a. (a.any, ordered_entries K.cmp a.keyed.entries) };

    ghost invariant = { λ a. AreCovered K.cmp K.anchored K.numbered a.wilds a.keyed.entries };
}

// Puts numbers in order, each once.
fn put_in_order(numbers: &mut Vec<u32>)
    ensures in_order { IsStrictlySortedBy nat_cmp numbers.new.items }
    ensures same { (n : ℕ) → is_among n numbers.new.items ≡ is_among n numbers.old.items }
{
    numbers.sort_unstable();
    numbers.dedup();
}

// Beside the others, mostly no more faces than these hold an interest in a key.
const FEW: usize = 8;

// These faces, and those whose interests are about the key, with room for so many beside the
// others.
fn found_in<K: Key>(
    alloc: Global,
    rows: &Holdings<K>,
    expr: &K,
    others: &[u32],
    room: usize,
) -> Result<Vec<u32>, Memory>
    ensures { IfOk result (λ found. (n : ℕ) → is_among n found.items
        ≡ (is_among n others.now || list_any (asks_from K.matching expr.now n) rows.now)) }
{
    let mut found = Vec::with_capacity(alloc, others.len().saturating_add(room))?;
    found.extend_from_slice(others)?;
    rows.gather(&mut found, expr)?;
    Ok(found)
}

impl<K: Key> InterestIndex<K> {
    /// No interest at all. It takes no memory.
    pub fn new(alloc: Global) -> Self
        ensures { result ≡ ([], []) }
    {
        InterestIndex {
            any: Holdings::new(alloc),
            keyed: HashMap::new(alloc),
            wilds: WildKeys::new(alloc),
        }
    }

    // The face holds an interest in the key under an id.
    fn put_keyed(&mut self, alloc: Global, face: u32, id: u32, key: &K) -> Result<(), Memory>
        ensures { OnOk result (ChangesAt K.cmp (Some key.now)
            (λ rows. rows ++ ((face, id), Some key.now) ∷ []) self.old self.new) }
    {
        if add_to(alloc, &mut self.keyed, key, face, id)? {
            return Ok(());
        }
        put_wild(alloc, &mut self.wilds, key)?;
        put_first(alloc, &mut self.keyed, key, face, id)?;
        Ok(())
    }

    /// The face holds an interest in the expression, or in all keys, under an id.
    pub fn put(
        &mut self,
        alloc: Global,
        face: u32,
        id: u32,
        about: &Option<K>,
    ) -> Result<(), Memory>
        ensures { OnOk result (ChangesAt K.cmp about.now
            (λ rows. rows ++ ((face, id), about.now) ∷ []) self.old self.new) }
    {
        match about {
            None => self.any.push(face, id, None),
            Some(key) => self.put_keyed(alloc, face, id, key),
        }
    }

    // The face holds its interest in the key no more, that it held under the id.
    fn remove_keyed(&mut self, face: u32, id: u32, key: &K)
        ensures { ChangesAt K.cmp (Some key.now) (filter (λ row. not (is_of face id row)))
            self.old self.new }
    {
        if drop_from(&mut self.keyed, key, face, id) {
            let alloc = self.any.allocator();
            drop_key(&mut self.keyed, key);
            drop_wild(alloc, &mut self.wilds, key);
        }
    }

    /// The face holds its interest in the expression, or in all keys, no more, that it held under
    /// the id.
    pub fn remove(&mut self, face: u32, id: u32, about: &Option<K>)
        ensures { ChangesAt K.cmp about.now
            (filter (λ row. not (is_of face id row))) self.old self.new }
    {
        match about {
            None => self.any.remove(face, id),
            Some(key) => self.remove_keyed(face, id, key),
        }
    }

    /// The faces that hold an interest in the key, and these others, in order of number, each once;
    /// `None` where an interest isn't in all keys, and the key has no number as a whole: any face
    /// may hold one.
    pub fn holders_and(
        &self,
        alloc: Global,
        expr: &K,
        others: &[u32],
    ) -> Result<Option<Vec<u32>>, Memory>
        ensures { IfOk result (λ found. IfSome found (λ faces. (held : List ((ℕ × ℕ) × Option K)) →
            IsIndexOf K.cmp self.now held →
            AreHoldersAnd K.matching expr.now held others.now faces.items)) }
    {
        // Where all interests are in all keys, nothing need be known of the key.
        if self.keyed.is_empty() {
            let room = self.any.as_slice().len().min(FEW);
            let mut found = found_in(alloc, &self.any, expr, others, room)?;
            put_in_order(&mut found);
            return Ok(Some(found));
        }
        if !is_plain(expr) {
            return Ok(None);
        }
        let mut found = found_in(alloc, &self.any, expr, others, FEW)?;
        gather_from(&mut found, &self.keyed, expr, expr)?;
        gather_wilds(alloc, &mut found, &self.keyed, &self.wilds, expr)?;
        put_in_order(&mut found);
        Ok(Some(found))
    }

    /// The interests in the expression, or those in all keys where it is `None`, each under its
    /// face and id. A look-up, which takes no memory.
    pub fn interests_in(&self, about: &Option<K>) -> &[((u32, u32), Option<K>)]
        ensures { (held : List ((ℕ × ℕ) × Option K)) → IsIndexOf K.cmp self.now held →
            HasAllIn about.now held result.now }
    {
        match about {
            None => self.any.as_slice(),
            Some(key) => rows_in(&self.keyed, key),
        }
    }

    /// An equal index.
    pub fn copy(&self, alloc: Global) -> Result<Self, Memory>
        ensures { IfOk result (λ copy. copy ≡ self.now) }
    {
        let keyed = copy_keyed(alloc, &self.keyed)?;
        let wilds = wilds_of(alloc, &keyed)?;
        Ok(InterestIndex {
            any: self.any.copy(alloc)?,
            keyed,
            wilds,
        })
    }
}
