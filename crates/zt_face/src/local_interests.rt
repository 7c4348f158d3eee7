// The interests that a face was sent: Zenoh's local interests.
ghost use Rattle.std.specs.FinMap.Entries.{put};
ghost use Rattle.std.specs.List.{list_any};
ghost use Rattle.std.specs.Map.Iter.{ShowsInOrder, deref_pair};
ghost use Rattle.std.specs.Ordering.{nat_cmp};
ghost use Rattle.std.specs.Prelude.{◌≡◌, ℕ, [], None, filter, map, IfOk, OnErr, OnOk};
ghost use Rattle.zt_model.specs.Lists.{at_id, has_id, without_id};
ghost use Rattle.zt_model.specs.Routing.{asks_same};
ghost use Rattle.zt_model.specs.Rows.{InterestRow};
ghost use Rattle.zt_rows.specs.ById.{IsInOrder};

use crate::ids::{add_id, drop_id, has_ids, ids_of};
use crate::interest::RemoteInterest;
use std::alloc::Global;
use std::collections::{BTreeSet, HashMap};
use std::marker::Model;
use zt_keys::{Key, Memory};
use zt_protocol::InterestOptions;
use zt_rows::{Iter, RowsById};

/// The interests that a face was sent, by id, and found by what they ask for: an expression, or all
/// keys, with the options.
#[derive(Drop)]
pub struct LocalInterests<K: Key> {
    rows: RowsById<RemoteInterest<K>>,
    ids: HashMap<(Option<K>, InterestOptions), BTreeSet<u32>>,
}

impl<K: Key> Model for LocalInterests<K> {
    ghost use Rattle.std.specs.HashMap.{get};
    ghost use Rattle.zt_face.specs.Locals.{AreFoundIn, asked_eq};
    ghost use Rattle.zt_model.specs.Rows.{ById, InterestRow};

    ghost Value = { ById (InterestRow K) };

    ghost view = { λ l. l.rows };

    ghost invariant = { λ l. AreFoundIn K.cmp K.matching (get (asked_eq K.eq) l.ids) l.rows };
}

impl<K: Key> LocalInterests<K> {
    /// No interests.
    pub fn new(alloc: Global) -> Self
        ensures { result ≡ [] }
    {
        LocalInterests {
            rows: RowsById::new(alloc),
            ids: HashMap::new(alloc),
        }
    }

    /// Whether an interest stands under the id.
    pub fn has(&self, id: u32) -> bool
        ensures { result ≡ has_id id self.now }
    {
        self.rows.has(id)
    }

    /// The interests, each with its id, in order of id.
    pub fn iter(&self) -> Iter<'_, RemoteInterest<K>>
        ensures rest { result ≡ self.now }
        ensures runs { ShowsInOrder (deref_pair {K = ℕ} {X = InterestRow K}) }
        ensures ordered { IsInOrder self.now }
    {
        self.rows.iter()
    }

    /// Whether one asks for the same as this interest. A look-up.
    pub fn has_same(&self, interest: &RemoteInterest<K>) -> bool
        ensures { result
            ≡ list_any (λ row. asks_same K.cmp K.matching interest.now row.1) self.now }
    {
        has_ids(&self.ids, interest.asked())
    }

    /// The ids of those that ask for the same as this interest, in order. A look-up.
    pub fn ids_of_same(
        &self,
        alloc: Global,
        interest: &RemoteInterest<K>,
    ) -> Result<Vec<u32>, Memory>
        ensures { IfOk result (λ ids. ids.items
            ≡ map (λ row. row.0)
            (filter (λ row. asks_same K.cmp K.matching interest.now row.1) self.now)) }
    {
        ids_of(alloc, &self.ids, interest.asked())
    }

    // Adds an interest under an id that no other has. After an error the interests stay.
    fn add(&mut self, alloc: Global, id: u32, interest: RemoteInterest<K>) -> Result<(), Memory>
        requires { at_id id self.old ≡ None }
        ensures ok { OnOk result (self.new ≡ put nat_cmp id interest self.old) }
        ensures err { OnErr result (self.new ≡ self.old) }
    {
        let asked = interest.copy_asked(alloc)?;
        self.rows.put(id, interest)?;
        match add_id(alloc, &mut self.ids, asked, id) {
            Ok(()) => Ok(()),
            Err(error) => {
                self.rows.remove(id);
                Err(error)
            }
        }
    }

    /// Puts an interest under its id, in place of the one that stands there, if any. After an error
    /// none stands under the id.
    pub fn put(&mut self, alloc: Global, id: u32, interest: RemoteInterest<K>) -> Result<(), Memory>
        ensures ok { OnOk result (self.new ≡ put nat_cmp id interest self.old) }
        ensures err { OnErr result (self.new ≡ without_id id self.old) }
    {
        self.remove(id);
        self.add(alloc, id, interest)
    }

    /// The interest under the id goes.
    pub fn remove(&mut self, id: u32)
        ensures rest { self.new ≡ without_id id self.old }
        ensures ordered { IsInOrder self.old }
    {
        match self.rows.take(id) {
            Some(interest) => drop_id(&mut self.ids, interest.asked(), id),
            None => {}
        }
    }

    /// Equal interests.
    pub fn copy(&self, alloc: Global) -> Result<Self, Memory>
        ensures { IfOk result (λ copies. copies ≡ self.now) }
    {
        let mut copies = LocalInterests::new(alloc);
        for (id, interest) in self.iter() {
            copies.put(alloc, *id, interest.copy(alloc)?)?;
        }
        Ok(copies)
    }
}
