// Rows by their ids.
ghost use Rattle.std.specs.FinMap.Entries.{put};
ghost use Rattle.std.specs.Map.Iter.{ShowsInOrder, deref_pair};
ghost use Rattle.std.specs.Option.{option_copied};
ghost use Rattle.std.specs.Ordering.{nat_cmp};
ghost use Rattle.std.specs.Prelude.{◌≡◌, ◌++◌, ◌∷◌, ℕ, [], None, OnErr, OnOk};
ghost use Rattle.zt_model.specs.Lists.{at_id, has_id, without_id};
ghost use Rattle.zt_rows.specs.ById.{IsInOrder};
ghost use Rattle.zt_rows.specs.Places.{AreRising, rows_in};

use crate::place::Place;
use crate::placing::{find_in, put_in, take_in, tidy};
use crate::walk::Iter;
use std::alloc::Global;
use std::collections::BTreeMap;
use std::marker::Model;
use zt_keys::Memory;

// Moves the row of a place, if any, into the map, whose rows stand behind it. An error moves none.
fn move_row<X: Drop>(place: &mut Place<X>, mapped: &mut BTreeMap<u32, X>) -> Result<(), Memory>
    requires { IsInOrder (rows_in (place.old ∷ []) ++ mapped.old.entries) }
    ensures moved { OnOk result (mapped.new.entries
        ≡ rows_in (place.old ∷ []) ++ mapped.old.entries) }
    ensures emptied { OnOk result (place.new ≡ (place.old.0, None)) }
    ensures place_stays { OnErr result (place.new ≡ place.old) }
    ensures rows_stay { OnErr result (mapped.new.entries ≡ mapped.old.entries) }
{
    let Some(row) = place.take() else {
        return Ok(());
    };
    if let Err(refused) = mapped.insert(place.id(), row) {
        place.put(refused.value.1);
        return Err(Memory);
    }
    Ok(())
}

// Moves all rows from their places into the map, the last first. After an error some rows may stand
// in the map.
fn move_all<X: Drop>(
    places: &mut Vec<Place<X>>,
    mapped: &mut BTreeMap<u32, X>,
) -> Result<(), Memory>
    requires rising { AreRising places.old.items }
    requires ordered { IsInOrder (rows_in places.old.items ++ mapped.old.entries) }
    ensures rows { rows_in places.new.items ++ mapped.new.entries
        ≡ rows_in places.old.items ++ mapped.old.entries }
    ensures rising { AreRising places.new.items }
    ensures ok { OnOk result (places.new.items ≡ []) }
{
    while let Some(last) = places.last_mut() {
        move_row(last, mapped)?;
        places.pop();
    }
    Ok(())
}

// Puts a row into the map, where all rows are moved before. After an error the rows are as
// before, though some may stand in the map.
fn put_mapped<X: Drop>(
    places: &mut Vec<Place<X>>,
    mapped: &mut BTreeMap<u32, X>,
    id: u32,
    row: X,
) -> Result<(), Memory>
    requires rising { AreRising places.old.items }
    requires ordered { IsInOrder (rows_in places.old.items ++ mapped.old.entries) }
    ensures ok { OnOk result (rows_in places.new.items ++ mapped.new.entries
        ≡ put nat_cmp id row (rows_in places.old.items ++ mapped.old.entries)) }
    ensures err { OnErr result (rows_in places.new.items ++ mapped.new.entries
        ≡ rows_in places.old.items ++ mapped.old.entries) }
    ensures rising { AreRising places.new.items }
    ensures ordered { IsInOrder (rows_in places.new.items ++ mapped.new.entries) }
{
    move_all(places, mapped)?;
    mapped.insert(id, row)?;
    Ok(())
}

/// Rows by id, in order of id. Each stands in a place of a list, where it is found at once if ids
/// follow one another or lie evenly apart, and else by binary search. A row that would stand before
/// many others goes into a map with all of them, and so do others while the map has rows: so each
/// row moves into it once at most, whatever the order of ids.
#[derive(Drop)]
pub struct RowsById<X> {
    places: Vec<Place<X>>,
    // At most so many places are empty.
    empty: usize,
    // Rows behind those in places.
    mapped: BTreeMap<u32, X>,
}

impl<X> Model for RowsById<X> {
    ghost use Rattle.std.specs.Prelude.{◌++◌};
    ghost use Rattle.zt_model.specs.Rows.{ById};
    ghost use Rattle.zt_rows.specs.ById.{IsInOrder};
    ghost use Rattle.zt_rows.specs.Places.{AreRising, rows_in};

    ghost Value = { ById X };

    ghost view = { λ r. rows_in r.places.items ++ r.mapped.entries };

    ghost invariant = { λ r. AreRising r.places.items
        × IsInOrder (rows_in r.places.items ++ r.mapped.entries) };
}

impl<X: Drop> RowsById<X> {
    /// No rows.
    pub fn new(alloc: Global) -> Self
        ensures { result ≡ [] }
    {
        RowsById {
            places: Vec::new(alloc),
            empty: 0,
            mapped: BTreeMap::new(alloc),
        }
    }

    /// The row under the id, beside that rows stand in order of id.
    pub fn at(&self, id: u32) -> Option<&X>
        ensures row { option_copied result ≡ at_id id self.now }
        ensures ordered { IsInOrder self.now }
    {
        match find_in(&self.places, id) {
            Some(row) => Some(row),
            None => self.mapped.get(&id),
        }
    }

    /// Whether a row stands under the id.
    pub fn has(&self, id: u32) -> bool
        ensures { result ≡ has_id id self.now }
    {
        self.at(id).is_some()
    }

    /// The rows, each with its id, in order of id.
    pub fn iter(&self) -> Iter<'_, X>
        ensures rest { result ≡ self.now }
        ensures runs { ShowsInOrder (deref_pair {K = ℕ} {X = X}) }
        ensures ordered { IsInOrder self.now }
    {
        Iter::new(&self.places, self.mapped.iter())
    }

    /// Puts a row under its id, in place of the one that stands there, if any. After an error the
    /// rows are as before.
    pub fn put(&mut self, id: u32, row: X) -> Result<(), Memory>
        ensures ok { OnOk result (self.new ≡ put nat_cmp id row self.old) }
        ensures err { OnErr result (self.new ≡ self.old) }
        ensures ordered { IsInOrder self.new }
    {
        if !self.mapped.is_empty() {
            return put_mapped(&mut self.places, &mut self.mapped, id, row);
        }
        match put_in(&mut self.places, id, row)? {
            None => Ok(()),
            Some(row) => put_mapped(&mut self.places, &mut self.mapped, id, row),
        }
    }

    /// Takes the row under the id.
    pub fn take(&mut self, id: u32) -> Option<X>
        ensures row { result ≡ at_id id self.old }
        ensures rest { self.new ≡ without_id id self.old }
        ensures ordered { IsInOrder self.old }
    {
        match take_in(&mut self.places, id) {
            None => self.mapped.remove(&id),
            Some(row) => {
                self.empty = tidy(&mut self.places, self.empty.saturating_add(1));
                Some(row)
            }
        }
    }

    /// The row under the id goes.
    pub fn remove(&mut self, id: u32)
        ensures rest { self.new ≡ without_id id self.old }
        ensures ordered { IsInOrder self.old }
    {
        self.take(id);
    }

    /// All rows go.
    pub fn clear(&mut self)
        ensures { self.new ≡ [] }
    {
        self.places.clear();
        self.empty = 0;
        self.mapped.clear();
    }
}
