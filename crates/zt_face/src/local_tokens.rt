// What a face was told: Zenoh's local tokens.
ghost use Rattle.std.specs.Option.{option_copied};
ghost use Rattle.std.specs.Prelude.{◌≡◌, [], IfOk, OnOk};
ghost use Rattle.zt_face.specs.Told.{untold_known, with_pair};
ghost use Rattle.zt_model.specs.Hearing.{told_pair};
ghost use Rattle.zt_model.specs.Lists.{at_id};
ghost use Rattle.zt_rows.specs.ById.{IsInOrder};
ghost use Rattle.zt_rows.specs.Places.{rows_in};

use std::alloc::Global;
use std::marker::Model;
use zt_keys::{Key, Memory};
use zt_rows::{Place, RisingRows};

/// The tokens that a face was told, by id. Ids rise from token to token. Which faces were told an
/// expression, and under which id, the gateway finds for all faces at once.
#[derive(Drop)]
pub struct LocalTokens<K: Key> {
    rows: RisingRows<K>,
}

impl<K: Key> Model for LocalTokens<K> {
    ghost use Rattle.zt_model.specs.Rows.{ById};

    ghost Value = { ById K };

    ghost view = { λ t. t.rows };
}

impl<K: Key> LocalTokens<K> {
    /// No tokens.
    pub fn new(alloc: Global) -> Self
        ensures { result ≡ [] }
    {
        LocalTokens {
            rows: RisingRows::new(alloc),
        }
    }

    /// The token of the id, beside that tokens stand in order of id.
    pub fn find(&self, id: u32) -> Option<&K>
        ensures row { option_copied result ≡ at_id id self.now }
        ensures ordered { IsInOrder self.now }
    {
        self.rows.find(id)
    }

    /// The places of the tokens, in order of id. The place of a token that is gone may stand there
    /// still, and is empty.
    pub fn places(&self) -> &[Place<K>]
        ensures { rows_in result.now ≡ self.now }
    {
        self.rows.places()
    }

    // Adds a pair of id and expression, which is there once. An id that has another expression, or
    // that isn't above the others, never comes up in a gateway, and counts as out of memory.
    fn add(&mut self, alloc: Global, id: u32, expr: &K) -> Result<(), Memory>
        ensures { OnOk result (self.new ≡ with_pair K.cmp id expr.now self.old) }
    {
        match self.rows.find(id) {
            None => self.rows.push(id, expr.copy(alloc)?),
            Some(known) if known == expr => Ok(()),
            Some(_) => Err(Memory),
        }
    }

    /// A pair of id and expression is told, which is there once; under the id 0 nothing is kept. An
    /// id that has another expression, or that isn't above the others, never comes up in a gateway,
    /// and counts as out of memory.
    pub fn tell(&mut self, alloc: Global, id: u32, expr: &K) -> Result<(), Memory>
        ensures { OnOk result (self.new ≡ told_pair K.cmp id expr.now self.old) }
    {
        if id == 0 {
            return Ok(());
        }
        self.add(alloc, id, expr)
    }

    /// It is told that the token of an id is gone, or that of an expression, which was told under
    /// the id `known`, if it was told.
    pub fn untell(&mut self, id: u32, expr: &Option<K>, known: Option<u32>)
        ensures { self.new ≡ untold_known id expr.now known self.old }
    {
        let gone = match expr {
            None => Some(id),
            Some(_) => known,
        };
        if let Some(id) = gone {
            self.rows.remove(id);
        }
    }

    /// Equal tokens.
    pub fn copy(&self, alloc: Global) -> Result<Self, Memory>
        ensures { IfOk result (λ copies. copies ≡ self.now) }
    {
        let mut rows = RisingRows::new(alloc);
        for place in self.places() {
            if let Some(expr) = place.row() {
                rows.push(place.id(), expr.copy(alloc)?)?;
            }
        }
        Ok(LocalTokens { rows })
    }
}
