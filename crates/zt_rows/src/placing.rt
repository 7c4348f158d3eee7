// Rows in places under rising ids. The place of a row that is gone is empty.
ghost use Rattle.std.specs.Option.{option_copied};
ghost use Rattle.std.specs.Prelude.{◌≡◌, ◌++◌, ◌∷◌, [], is_some, true, Some};
ghost use Rattle.std.specs.Prelude.{IfNone, IfOk, IfSome, OnErr, OnSome};
ghost use Rattle.std.specs.FinMap.Entries.{put};
ghost use Rattle.std.specs.Ordering.{nat_cmp};
ghost use Rattle.zt_model.specs.Lists.{at_id, without_id};
ghost use Rattle.zt_rows.specs.Places.{AreRising, rows_in};

use crate::place::Place;
use zt_keys::Memory;
use zt_ordered::place_of_number;

// So many empty places are left alone, and so many places are moved for a row that comes between.
const FEW: usize = 16;

// Whether the id is above those of all places, also of empty ones.
pub(crate) fn are_below<X>(places: &[Place<X>], id: u32) -> bool
    requires { AreRising places.now }
    ensures { result ≡ true → (row : X) → AreRising (places.now ++ (id, Some row) ∷ []) }
{
    match places.last() {
        None => true,
        Some(last) => last.id() < id,
    }
}

// The row under the id. Found at once where ids follow one another or lie evenly apart, else by
// binary search.
pub(crate) fn find_in<X>(places: &[Place<X>], id: u32) -> Option<&X>
    requires { AreRising places.now }
    ensures { option_copied result ≡ at_id id (rows_in places.now) }
{
    match place_of_number(places, id) {
        Ok(place) => places[place].row(),
        Err(_) => None,
    }
}

// Puts a row into the place of its id, or into one of its own among the others, and gives it back
// where too many places would move for that.
pub(crate) fn put_in<X: Drop>(
    places: &mut Vec<Place<X>>,
    id: u32,
    row: X,
) -> Result<Option<X>, Memory>
    requires { AreRising places.old.items }
    ensures put { IfOk result (λ back. IfNone back
        (rows_in places.new.items ≡ put nat_cmp id row (rows_in places.old.items))) }
    ensures back { IfOk result (λ back. IfSome back (λ r. r ≡ row)) }
    ensures kept { IfOk result (λ back. OnSome back (places.new.items ≡ places.old.items)) }
    ensures err { OnErr result (places.new.items ≡ places.old.items) }
    ensures rising { AreRising places.new.items }
{
    match place_of_number(places.as_slice(), id) {
        Ok(place) => {
            places[place].put(row);
            Ok(None)
        }
        Err(place) if places.len() - place <= FEW => {
            places.insert(place, Place::taken(id, row))?;
            Ok(None)
        }
        Err(_) => Ok(Some(row)),
    }
}

// Takes the row under the id, whose place is empty then.
pub(crate) fn take_in<X: Drop>(places: &mut Vec<Place<X>>, id: u32) -> Option<X>
    requires { AreRising places.old.items }
    ensures row { result ≡ at_id id (rows_in places.old.items) }
    ensures rest { rows_in places.new.items ≡ without_id id (rows_in places.old.items) }
    ensures rising { AreRising places.new.items }
{
    match place_of_number(places.as_slice(), id) {
        Ok(place) => places[place].take(),
        Err(_) => None,
    }
}

// Whether a row stands in the place.
fn is_taken<X>(place: &Place<X>) -> bool
    ensures { result ≡ is_some place.now.1 }
{
    place.row().is_some()
}

// Drops the empty places once they are most, and answers how many are left.
pub(crate) fn tidy<X: Drop>(places: &mut Vec<Place<X>>, empty: usize) -> usize
    requires { AreRising places.old.items }
    ensures rows { rows_in places.new.items ≡ rows_in places.old.items }
    ensures rising { AreRising places.new.items }
{
    if empty <= FEW || empty <= places.len() / 2 {
        return empty;
    }
    places.retain(|place| is_taken(place));
    0
}
