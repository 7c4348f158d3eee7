// Keys in a box.
ghost use Rattle.std.specs.Prelude.{◌≡◌, ◌==◌, ◌+◌, ◌<◌, ◌^◌, [], false, if◌then◌else◌, length};
ghost use Rattle.std.specs.Prelude.{true, IfNone, IfSome, OnErr, OnOk};
ghost use Rattle.std.specs.BTreeMap.{is_at};
ghost use Rattle.zt_indexes.specs.Grouped.{is_in};

use std::alloc::Global;
use std::collections::HashSet;
use std::marker::Model;
use zt_keys::{Key, Memory};

/// Keys of a set that mostly has none: without any it is a word, and takes no memory.
#[derive(Drop)]
pub struct BoxedKeys<K: Key> {
    keys: Option<Box<HashSet<K>>>,
}

impl<K: Key> Model for BoxedKeys<K> {
    ghost use Rattle.std.specs.Option.{option_map_or};
    ghost use Rattle.std.specs.Prelude.{[], List};

    ghost Value = { List K };

    ghost view = { λ b. option_map_or (λ keys. keys.value.keys) b.keys [] };
}

// A key more, unless it is there. After an error the keys stay.
fn insert_in<K: Key>(keys: &mut HashSet<K>, key: K) -> Result<(), Memory>
    ensures ok { OnOk result ((q : K) → is_in K.cmp q keys.new.keys
        ≡ (if is_at (K.cmp key) q then true else is_in K.cmp q keys.old.keys)) }
    ensures err { OnErr result (keys.new.keys ≡ keys.old.keys) }
{
    keys.insert(key)?;
    Ok(())
}

// A key less, if it is there.
fn remove_in<K: Key>(keys: &mut HashSet<K>, key: &K)
    ensures { (q : K) → is_in K.cmp q keys.new.keys
        ≡ (if is_at (K.cmp key.now) q then false else is_in K.cmp q keys.old.keys) }
{
    keys.remove(key);
}

impl<K: Key> BoxedKeys<K> {
    /// No keys. It takes no memory.
    pub fn new() -> Self
        ensures { result ≡ [] }
    {
        BoxedKeys { keys: None }
    }

    /// A key more, unless it is there. After an error the keys stay.
    pub fn insert(&mut self, alloc: Global, key: K) -> Result<(), Memory>
        ensures ok { OnOk result ((q : K) → is_in K.cmp q self.new
            ≡ (if is_at (K.cmp key) q then true else is_in K.cmp q self.old)) }
        ensures err { OnErr result (self.new ≡ self.old) }
    {
        match &mut self.keys {
            Some(keys) => insert_in(keys, key),
            None => {
                let mut keys = HashSet::new(alloc);
                insert_in(&mut keys, key)?;
                self.keys = Some(Box::new(alloc, keys)?);
                Ok(())
            }
        }
    }

    /// A key less, if it is there.
    pub fn remove(&mut self, key: &K)
        ensures { (q : K) → is_in K.cmp q self.new
            ≡ (if is_at (K.cmp key.now) q then false else is_in K.cmp q self.old) }
    {
        match &mut self.keys {
            Some(keys) => remove_in(keys, key),
            None => {}
        }
    }

    /// How many keys.
    pub fn len(&self) -> usize
        ensures len { result ≡ length self.now }
        ensures small { result + 1 < 2 ^ 64 }
    {
        match &self.keys {
            Some(keys) => keys.len(),
            None => 0,
        }
    }

    /// Whether there is no key.
    pub fn is_empty(&self) -> bool
        ensures { result ≡ (length self.now == 0) }
    {
        self.len() == 0
    }

    /// The keys as a set, if there were any.
    pub fn as_set(&self) -> Option<&HashSet<K>>
        ensures some { IfSome result (λ keys. keys.now.keys ≡ self.now) }
        ensures none { IfNone result (self.now ≡ []) }
    {
        match &self.keys {
            Some(keys) => Some(&**keys),
            None => None,
        }
    }
}
