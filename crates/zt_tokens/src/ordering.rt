// Keys in order, each once.
ghost use Rattle.std.specs.Prelude.{◌≡◌, [], IfOk, OnOk};
ghost use Rattle.zt_model.specs.Lists.{with_key};

use std::alloc::Global;
use std::collections::BTreeSet;
use std::marker::Model;
use zt_keys::{Key, Memory};

/// Keys in order, each once.
#[derive(Drop)]
pub struct KeysInOrder<K: Key> {
    keys: BTreeSet<K>,
}

impl<K: Key> Model for KeysInOrder<K> {
    ghost use Rattle.std.specs.Prelude.{List};

    ghost Value = { List K };

    ghost view = { λ k. k.keys.keys };
}

impl<K: Key> KeysInOrder<K> {
    /// No keys.
    pub fn new(alloc: Global) -> Self
        ensures { result ≡ [] }
    {
        KeysInOrder {
            keys: BTreeSet::new(alloc),
        }
    }

    /// Puts a copy of a key in its place, unless it is there.
    pub fn insert(&mut self, alloc: Global, key: &K) -> Result<(), Memory>
        ensures { OnOk result (self.new ≡ with_key K.cmp key.now self.old) }
    {
        self.keys.insert(key.copy(alloc)?)?;
        Ok(())
    }

    /// The keys as a list.
    pub fn into_vec(self, alloc: Global) -> Result<Vec<K>, Memory>
        ensures { IfOk result (λ keys. keys.items ≡ self) }
    {
        let mut keys = Vec::new(alloc);
        for key in self.keys {
            keys.push(key)?;
        }
        Ok(keys)
    }
}
