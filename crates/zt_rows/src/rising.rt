// Rows under rising ids.
ghost use Rattle.std.specs.Option.{option_copied};
ghost use Rattle.std.specs.Prelude.{◌≡◌, ◌++◌, ◌∷◌, [], OnErr, OnOk};
ghost use Rattle.zt_model.specs.Lists.{at_id, without_id};
ghost use Rattle.zt_rows.specs.ById.{IsInOrder};
ghost use Rattle.zt_rows.specs.Places.{rows_in};

use crate::place::Place;
use crate::placing::{are_below, find_in, take_in, tidy};
use std::alloc::Global;
use std::marker::Model;
use zt_keys::Memory;

/// Rows by id, each put behind the others, in order of id. A row that goes leaves its place empty,
/// so that none moves.
#[derive(Drop)]
pub struct RisingRows<X> {
    places: Vec<Place<X>>,
    // How many places are empty.
    empty: usize,
}

impl<X> Model for RisingRows<X> {
    ghost use Rattle.zt_model.specs.Rows.{ById};
    ghost use Rattle.zt_rows.specs.Places.{AreRising, rows_in};

    ghost Value = { ById X };

    ghost view = { λ r. rows_in r.places.items };

    ghost invariant = { λ r. AreRising r.places.items };
}

impl<X: Drop> RisingRows<X> {
    /// No rows.
    pub fn new(alloc: Global) -> Self
        ensures { result ≡ [] }
    {
        RisingRows {
            places: Vec::new(alloc),
            empty: 0,
        }
    }

    /// The row under the id, beside that rows stand in order of id. Found at once where ids follow
    /// one another or lie evenly apart, else by binary search.
    pub fn find(&self, id: u32) -> Option<&X>
        ensures row { option_copied result ≡ at_id id self.now }
        ensures ordered { IsInOrder self.now }
    {
        find_in(&self.places, id)
    }

    /// The places in which the rows stand, in order of id. Some are empty.
    pub fn places(&self) -> &[Place<X>]
        ensures { rows_in result.now ≡ self.now }
    {
        &self.places
    }

    /// Puts a row behind the others. An id that isn't above those of all rows, or of one that went
    /// not long ago, counts as out of memory. After an error the rows are as before.
    pub fn push(&mut self, id: u32, row: X) -> Result<(), Memory>
        ensures ok { OnOk result (self.new ≡ self.old ++ (id, row) ∷ []) }
        ensures err { OnErr result (self.new ≡ self.old) }
    {
        if !are_below(&self.places, id) {
            return Err(Memory);
        }
        self.places.push(Place::taken(id, row))?;
        Ok(())
    }

    /// The row under the id goes.
    pub fn remove(&mut self, id: u32)
        ensures rest { self.new ≡ without_id id self.old }
        ensures ordered { IsInOrder self.old }
    {
        if take_in(&mut self.places, id).is_some() {
            self.empty = tidy(&mut self.places, self.empty.saturating_add(1));
        }
    }
}
