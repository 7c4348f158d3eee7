// Rows whose ids rise: each id stands once, and is searched for by halves.
ghost use Rattle.std.specs.Prelude.{◌≡◌, ◌==◌, [], filter, length, not, OnOk};
ghost use Rattle.std.specs.FinMap.Entries.{put};
ghost use Rattle.std.specs.List.Sorted.{IsSearchInRange};
ghost use Rattle.std.specs.Ordering.{nat_cmp};
ghost use Rattle.zt_check_faces.specs.Parts.{HasThoseOf};
ghost use Rattle.zt_check_faces.specs.Placed.{FindsPlace};
ghost use Rattle.zt_check_faces.specs.Rising.{Rise};

use std::alloc::Global;
use std::marker::Model;
use std::slice;
use zt_keys::Memory;

/// Where the row of an id stands among rows whose ids rise, or else would stand. By halves.
pub(crate) fn place_of<T>(rows: &[(u32, T)], id: u32) -> Result<usize, usize>
    requires { Rise rows.now }
    ensures place { FindsPlace (λ row. nat_cmp id row.0) rows.now result }
    ensures in_range { IsSearchInRange result (length rows.now) }
{
    rows.binary_search_by(|row| row.0.cmp(&id))
}

/// The row of an id alone, or none, of rows whose ids rise.
pub(crate) fn part_of<T>(rows: &[(u32, T)], id: u32) -> &[(u32, T)]
    requires { Rise rows.now }
    ensures { HasThoseOf (λ row. row.0) id result.now rows.now }
{
    match place_of(rows, id) {
        Ok(place) => slice::from_ref(&rows[place]),
        Err(_) => &[],
    }
}

/// The row of an id goes from rows whose ids rise.
pub(crate) fn take_out<T: Drop>(rows: &mut Vec<(u32, T)>, id: u32)
    requires { Rise rows.old.items }
    ensures gone { rows.new.items ≡ filter (λ row. not (id == row.0)) rows.old.items }
    ensures rise { Rise rows.new.items }
{
    if let Ok(place) = place_of(rows.as_slice(), id) {
        drop(rows.remove(place));
    }
}

// Puts a row under its id among rows whose ids rise, in place of the one that stands there, if any.
fn put<T: Drop>(rows: &mut Vec<(u32, T)>, id: u32, row: T) -> Result<(), Memory>
    requires { Rise rows.old.items }
    ensures put { OnOk result (rows.new.items ≡ put nat_cmp id row rows.old.items) }
    ensures rise { Rise rows.new.items }
{
    match place_of(rows.as_slice(), id) {
        Ok(place) => {
            let found = &mut rows[place];
            found.1 = row;
        }
        Err(place) => rows.insert(place, (id, row))?,
    }
    Ok(())
}

/// Rows whose ids rise. What is asked of an id is a look-up.
#[derive(Drop)]
pub(crate) struct RowsById<T: Drop> {
    pub(crate) rows: Vec<(u32, T)>,
}

impl<T: Drop> Model for RowsById<T> {
    ghost use Rattle.zt_model.specs.Rows.{ById};
    ghost use Rattle.zt_check_faces.specs.Rising.{Rise};

    ghost Value = { ById T };

    ghost view = { λ r. r.rows.items };

    ghost invariant = { λ r. Rise r.rows.items };
}

impl<T: Drop> RowsById<T> {
    /// No rows. It takes no memory.
    pub(crate) fn new(alloc: Global) -> Self
        ensures { result ≡ [] }
    {
        RowsById {
            rows: Vec::new(alloc),
        }
    }

    /// Those rows, whose ids rise.
    pub(crate) fn from_rows(rows: Vec<(u32, T)>) -> Self
        requires { Rise rows.items }
        ensures { result ≡ rows.items }
    {
        RowsById { rows }
    }

    /// The rows.
    pub(crate) fn rows(&self) -> &[(u32, T)]
        ensures same { result.now ≡ self.now }
        ensures rise { Rise result.now }
    {
        &self.rows
    }

    /// The row of an id alone, or none.
    pub(crate) fn of(&self, id: u32) -> &[(u32, T)]
        ensures { HasThoseOf (λ row. row.0) id result.now self.now }
    {
        part_of(&self.rows, id)
    }

    /// Puts a row under its id, in place of the one that stands there, if any.
    pub(crate) fn put(&mut self, id: u32, row: T) -> Result<(), Memory>
        ensures { OnOk result (self.new ≡ put nat_cmp id row self.old) }
    {
        put(&mut self.rows, id, row)
    }

    /// The row under the id goes.
    pub(crate) fn remove(&mut self, id: u32)
        ensures { self.new ≡ filter (λ row. not (id == row.0)) self.old }
    {
        take_out(&mut self.rows, id);
    }
}
