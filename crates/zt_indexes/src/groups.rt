// Keys grouped by a number that each may have.
ghost use Rattle.std.specs.Prelude.{◌≡◌, ◌==◌, ◌++◌, [], false, if◌then◌else◌, length, true};
ghost use Rattle.std.specs.Prelude.{IfNone, IfSome, OnErr, OnOk};
ghost use Rattle.std.specs.BTreeMap.{is_at};
ghost use Rattle.zt_indexes.specs.Grouped.{HasChanged, as_list, is_in, keys_at, number_cmp};
ghost use Rattle.zt_indexes.specs.Live.{IsWithout};

use crate::boxed_keys::BoxedKeys;
use std::alloc::Global;
use std::collections::HashMap;
use std::marker::Model;
use zt_keys::{Anchor, Key, Memory};

/// A set of keys. One of them takes no memory beside the set, since most sets have no other. The
/// others are in a box: sets stand side by side in tables, and are many.
#[derive(Drop)]
pub struct KeySet<K: Key> {
    one: Option<K>,
    more: BoxedKeys<K>,
}

impl<K: Key> Model for KeySet<K> {
    ghost use Rattle.std.specs.Prelude.{◌++◌, List};
    ghost use Rattle.zt_indexes.specs.Grouped.{as_list};

    ghost Value = { List K };

    ghost view = { λ k. as_list k.one ++ k.more };
}

// Whether the key is there.
fn is_one<K: Key>(one: &Option<K>, key: &K) -> bool
    ensures { result ≡ is_in K.cmp key.now (as_list one.now) }
{
    match one {
        Some(one) => key.cmp(one).is_eq(),
        None => false,
    }
}

// The key is there no more.
fn drop_one<K: Key>(one: &mut Option<K>, key: &K)
    ensures { (q : K) → is_in K.cmp q (as_list one.new)
        ≡ (if is_at (K.cmp key.now) q then false else is_in K.cmp q (as_list one.old)) }
{
    if is_one(one, key) {
        *one = None;
    }
}

impl<K: Key> KeySet<K> {
    /// No keys. It takes no memory.
    pub fn new() -> Self
        ensures { result ≡ [] }
    {
        KeySet {
            one: None,
            more: BoxedKeys::new(),
        }
    }

    /// A key more, unless it is there. After an error the keys stay.
    pub fn insert(&mut self, alloc: Global, key: K) -> Result<(), Memory>
        ensures ok { OnOk result ((q : K) → is_in K.cmp q self.new
            ≡ (if is_at (K.cmp key) q then true else is_in K.cmp q self.old)) }
        ensures err { OnErr result (self.new ≡ self.old) }
    {
        if self.one.is_none() {
            self.one = Some(key);
            return Ok(());
        }
        self.more.insert(alloc, key)
    }

    /// A key less, if it is there.
    pub fn remove(&mut self, key: &K)
        ensures { (q : K) → is_in K.cmp q self.new
            ≡ (if is_at (K.cmp key.now) q then false else is_in K.cmp q self.old) }
    {
        drop_one(&mut self.one, key);
        self.more.remove(key);
    }

    /// How many keys.
    pub fn len(&self) -> usize
        ensures { result ≡ length self.now }
    {
        match self.one {
            Some(_) => 1 + self.more.len(),
            None => self.more.len(),
        }
    }

    /// Whether there is no key.
    pub fn is_empty(&self) -> bool
        ensures { result ≡ (length self.now == 0) }
    {
        self.one.is_none() && self.more.is_empty()
    }

    /// The keys: one, if there is one, and more.
    pub fn parts(&self) -> (&Option<K>, &BoxedKeys<K>)
        ensures { self.now ≡ as_list result.0.now ++ result.1.now }
    {
        (&self.one, &self.more)
    }
}

// A key more at a number. After an error all stays.
fn put_in<K: Key>(
    alloc: Global,
    groups: &mut HashMap<Option<u64>, KeySet<K>>,
    number: Option<u64>,
    key: K,
) -> Result<(), Memory>
    ensures ok { OnOk result
        (HasChanged K.cmp number key true groups.old.entries groups.new.entries) }
    ensures err { OnErr result (groups.new.entries ≡ groups.old.entries) }
{
    match groups.get_mut(&number) {
        Some(keys) => keys.insert(alloc, key),
        None => {
            let mut keys = KeySet::new();
            keys.insert(alloc, key)?;
            groups.insert(number, keys)?;
            Ok(())
        }
    }
}

// A key less at a number, if it is there. Whether none is left there.
fn drop_from<K: Key>(
    groups: &mut HashMap<Option<u64>, KeySet<K>>,
    number: Option<u64>,
    key: &K,
) -> bool
    ensures drops { HasChanged K.cmp number key.now false groups.old.entries groups.new.entries }
    ensures last { result ≡ true → keys_at number groups.new.entries ≡ [] }
{
    match groups.get_mut(&number) {
        None => false,
        Some(keys) => {
            keys.remove(key);
            keys.is_empty()
        }
    }
}

// The keys of a number go.
fn drop_group<K: Key>(groups: &mut HashMap<Option<u64>, KeySet<K>>, number: Option<u64>)
    ensures { IsWithout number_cmp number groups.old.entries groups.new.entries }
{
    drop(groups.remove(&number));
}

/// Keys, each at the number that it has at an anchor, or at none.
#[derive(Drop)]
pub struct KeyGroups<K: Key> {
    groups: HashMap<Option<u64>, KeySet<K>>,
}

impl<K: Key> Model for KeyGroups<K> {
    ghost use Rattle.std.specs.Prelude.{ℕ, List, Option};

    ghost Value = { List (Option ℕ × List K) };

    ghost view = { λ g. g.groups.entries };
}

impl<K: Key> KeyGroups<K> {
    /// No keys. It takes no memory.
    pub fn new(alloc: Global) -> Self
        ensures { result ≡ [] }
    {
        KeyGroups {
            groups: HashMap::new(alloc),
        }
    }

    /// A copy of a key stands at the number, or at none. After an error all stays.
    pub fn put_at(&mut self, alloc: Global, number: Option<u64>, key: &K) -> Result<(), Memory>
        ensures ok { OnOk result (HasChanged K.cmp number key.now true self.old self.new) }
        ensures err { OnErr result (self.new ≡ self.old) }
    {
        let copy = key.copy(alloc)?;
        put_in(alloc, &mut self.groups, number, copy)
    }

    /// A key stands at the number, or at none, no more.
    pub fn remove_at(&mut self, number: Option<u64>, key: &K)
        ensures { HasChanged K.cmp number key.now false self.old self.new }
    {
        if drop_from(&mut self.groups, number, key) {
            drop_group(&mut self.groups, number);
        }
    }

    /// A copy of a key stands at its number. After an error all stays.
    pub fn put(&mut self, alloc: Global, at: Anchor, key: &K) -> Result<(), Memory>
        ensures ok { OnOk result
            (HasChanged K.cmp (K.anchored at key.now) key.now true self.old self.new) }
        ensures err { OnErr result (self.new ≡ self.old) }
    {
        self.put_at(alloc, key.anchor(at), key)
    }

    /// A key stands at its number no more.
    pub fn remove(&mut self, at: Anchor, key: &K)
        ensures { HasChanged K.cmp (K.anchored at key.now) key.now false self.old self.new }
    {
        self.remove_at(key.anchor(at), key);
    }

    /// Whether no key stands anywhere. Where one stood, this may answer that one does.
    pub fn is_empty(&self) -> bool
        ensures { result ≡ true → self.now ≡ [] }
    {
        self.groups.is_empty()
    }

    /// The keys at a number, if there are any.
    pub fn get(&self, number: Option<u64>) -> Option<&KeySet<K>>
        ensures some { IfSome result (λ keys. keys.now ≡ keys_at number self.now) }
        ensures none { IfNone result (keys_at number self.now ≡ []) }
    {
        self.groups.get(&number)
    }

    /// How many keys stand at a number.
    pub fn count(&self, number: Option<u64>) -> usize
        ensures { result ≡ length (keys_at number self.now) }
    {
        match self.groups.get(&number) {
            Some(keys) => keys.len(),
            None => 0,
        }
    }
}
