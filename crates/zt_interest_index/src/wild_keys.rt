// Keys with wildcards, each at one of the numbers of its chunks, or at none.
ghost use Rattle.std.specs.Prelude.{◌≡◌, ℕ, [], Some, None, false, length, true};
ghost use Rattle.std.specs.Prelude.{IfNone, IfSome, OnErr, OnOk, Option};
ghost use Rattle.zt_indexes.specs.Grouped.{HasChanged, keys_at};

use std::alloc::Global;
use std::marker::Model;
use zt_indexes::{KeyGroups, KeySet};
use zt_keys::{Key, Memory};

/// Keys with wildcards. Those that stand at no number are apart, since each expression tries them,
/// and often there are no others: then no number of an expression is needed.
#[derive(Drop)]
pub(crate) struct WildKeys<K: Key> {
    free: KeySet<K>,
    numbered: KeyGroups<K>,
}

impl<K: Key> Model for WildKeys<K> {
    ghost use Rattle.std.specs.Prelude.{ℕ, ◌∷◌, List, None, Option};

    ghost Value = { List (Option ℕ × List K) };

    ghost view = { λ w. (None, w.free) ∷ w.numbered };
}

impl<K: Key> WildKeys<K> {
    /// No keys. It takes no memory.
    pub(crate) fn new(alloc: Global) -> Self
        ensures { (number : Option ℕ) → keys_at number result ≡ [] }
    {
        WildKeys {
            free: KeySet::new(),
            numbered: KeyGroups::new(alloc),
        }
    }

    // A copy of a key stands at no number. After an error all stays.
    fn put_free(&mut self, alloc: Global, key: &K) -> Result<(), Memory>
        ensures ok { OnOk result (HasChanged K.cmp None key.now true self.old self.new) }
        ensures err { OnErr result (self.new ≡ self.old) }
    {
        let copy = key.copy(alloc)?;
        self.free.insert(alloc, copy)
    }

    /// A copy of a key stands at the number, or at none. After an error all stays.
    pub(crate) fn put_at(
        &mut self,
        alloc: Global,
        number: Option<u64>,
        key: &K,
    ) -> Result<(), Memory>
        ensures ok { OnOk result (HasChanged K.cmp number key.now true self.old self.new) }
        ensures err { OnErr result (self.new ≡ self.old) }
    {
        match number {
            None => self.put_free(alloc, key),
            Some(number) => self.numbered.put_at(alloc, Some(number), key),
        }
    }

    /// Removes a key that has no number.
    pub(crate) fn remove_free(&mut self, key: &K)
        ensures { HasChanged K.cmp None key.now false self.old self.new }
    {
        self.free.remove(key);
    }

    /// Removes a key from those at the number.
    pub(crate) fn remove_at(&mut self, number: u64, key: &K)
        ensures { HasChanged K.cmp (Some number) key.now false self.old self.new }
    {
        self.numbered.remove_at(Some(number), key);
    }

    /// Whether a key stands at a number. Where one stood, this may answer that one does.
    pub(crate) fn has_numbers(&self) -> bool
        ensures { result ≡ false → (number : ℕ) → keys_at (Some number) self.now ≡ [] }
    {
        !self.numbered.is_empty()
    }

    /// The keys that stand at no number.
    pub(crate) fn free(&self) -> &KeySet<K>
        ensures { result.now ≡ keys_at None self.now }
    {
        &self.free
    }

    /// The keys at a number, if there are any.
    pub(crate) fn get(&self, number: u64) -> Option<&KeySet<K>>
        ensures some { IfSome result (λ keys. keys.now ≡ keys_at (Some number) self.now) }
        ensures none { IfNone result (keys_at (Some number) self.now ≡ []) }
    {
        self.numbered.get(Some(number))
    }

    /// How many keys stand at a number.
    pub(crate) fn count(&self, number: u64) -> usize
        ensures { result ≡ length (keys_at (Some number) self.now) }
    {
        self.numbered.count(Some(number))
    }
}
