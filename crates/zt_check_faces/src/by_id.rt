// Rows in an order, and rows by their ids.
ghost use Rattle.std.specs.Prelude.{◌≡◌, ◌==◌, filter, not, OnOk};
ghost use Rattle.std.specs.FinMap.Entries.{put};
ghost use Rattle.std.specs.Ordering.{nat_cmp};
ghost use Rattle.zt_check_faces.specs.Placed.{FindsPlace};

use std::cmp::Ordering;
use zt_keys::Memory;

/// What stands in an order of its own, and is found by something else.
pub trait Ranked<Q> {
    ghost use Rattle.std.specs.Prelude.{◌≡◌};
    ghost use Rattle.std.specs.declared.cmp.Ordering.{Ordering};

    // How what is sought stands to this.
    ghost ranked: { Q → Self → Ordering };

    fn rank(&self, sought: &Q) -> Ordering
        ensures { result ≡ ranked sought.now self.now };
}

/// Where it stands, or else would stand: before the first that it isn't behind.
pub fn place_in<Q, X: Ranked<Q>>(rows: &[X], sought: &Q) -> Result<usize, usize>
    ensures { FindsPlace (X.ranked sought.now) rows.now result }
{
    for place in 0..rows.len() {
        match rows[place].rank(sought) {
            Ordering::Less => return Err(place),
            Ordering::Equal => return Ok(place),
            Ordering::Greater => {}
        }
    }
    Err(rows.len())
}

impl<T> Ranked<u32> for (u32, T) {
    ghost use Rattle.std.specs.Ordering.{nat_cmp};

    ghost ranked = { λ id row. nat_cmp id row.0 };

    fn rank(&self, sought: &u32) -> Ordering {
        sought.cmp(&self.0)
    }
}

/// The rows under the id go.
pub fn remove<T: Drop>(rows: &mut Vec<(u32, T)>, id: u32)
    ensures { rows.new.items ≡ filter (λ row. not (id == row.0)) rows.old.items }
{
    rows.retain(|row| id != row.0);
}

/// A place to look at first for a row of the id: where ids rise, it stands there or nowhere. Nothing
/// is promised of the place, so whoever asks looks for the row elsewhere too.
pub fn near<T>(rows: &[(u32, T)], id: u32) -> usize {
    match rows.binary_search_by(|row| row.0.cmp(&id)) {
        Ok(place) | Err(place) => place,
    }
}
