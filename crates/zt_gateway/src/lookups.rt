// Look-ups in what a gateway keeps.
ghost use Rattle.std.specs.Prelude.{◌≡◌, map, option_copied, IfSome};
ghost use Rattle.zt_gateway.specs.Lookups.{declarers, is_above, is_below, nearer, nearer_in};
ghost use Rattle.zt_gateway.specs.Lookups.{next_above, next_told, told_under};
ghost use Rattle.zt_rows.specs.Places.{rows_in};

use crate::gateway::Gateway;
use std::cmp::Ordering;
use std::marker::Model;
use zt_keys::{Key, Memory};
use zt_region::Region;
use zt_rows::Place;
use zt_state::GatewayState;

// Whether an expression is above the other one, if there is one.
fn is_above<K: Key>(after: Option<&K>, expr: &K) -> bool
    ensures { result ≡ is_above K.cmp (option_copied after.entry) expr.now }
{
    match after {
        None => true,
        Some(low) => low.cmp(expr) == Ordering::Less,
    }
}

// Whether an expression is below the best so far, if there is one.
fn is_below<K: Key>(best: Option<&K>, expr: &K) -> bool
    ensures { result ≡ is_below K.cmp (option_copied best.entry) expr.now }
{
    match best {
        None => true,
        Some(high) => expr.cmp(high) == Ordering::Less,
    }
}

// The expression, if it is above the one and below the best so far; else that.
fn nearer<'a, K: Key>(best: Option<&'a K>, expr: &'a K, after: Option<&K>) -> Option<&'a K>
    ensures { option_copied result
        ≡ nearer K.cmp (option_copied after.entry) expr.now (option_copied best.entry) }
{
    if is_above(after, expr) && is_below(best, expr) {
        Some(expr)
    } else {
        best
    }
}

// The same of the expression in a place, if one stands there.
fn nearer_in<'a, K: Key>(
    best: Option<&'a K>,
    place: &'a Place<K>,
    after: Option<&K>,
) -> Option<&'a K>
    ensures { option_copied result
        ≡ nearer_in K.cmp (option_copied after.entry) place.now.1 (option_copied best.entry) }
{
    match place.row() {
        None => best,
        Some(expr) => nearer(best, expr, after),
    }
}

// The least expression in these places above the other one, or the least of all.
fn next_above<'a, K: Key>(places: &'a [Place<K>], after: Option<&K>) -> Option<&'a K>
    ensures { option_copied result
        ≡ next_above K.cmp (option_copied after.entry) (map (λ row. row.1) (rows_in places.now)) }
{
    let mut best = None;
    let mut left = places.len();
    while left > 0 {
        left -= 1;
        best = nearer_in(best, &places[left], after);
    }
    best
}

/// What a gateway keeps, to look things up in. Its calls change nothing and take no memory.
#[derive(Drop)]
pub struct Lookups<'g, K: Key> {
    state: &'g GatewayState<K>,
}

impl<'g, K: Key> Model for Lookups<'g, K> {
    ghost use Rattle.zt_model.specs.Rows.{Rows};

    ghost Value = { Rows K };

    ghost view = { λ l. l.state.now };
}

impl<'g, K: Key> Lookups<'g, K> {
    /// How many live tokens of the expression there are in the region.
    pub fn declarers(&self, region: Region, expr: &K) -> u64
        ensures { result ≡ declarers K.cmp region expr.now self.now }
    {
        self.state.declarers(region, expr)
    }

    /// The id under which the expression was sent to the face. `None` exactly where it wasn't sent
    /// or was undeclared since, or the face isn't open.
    pub fn told(&self, face: u32, expr: &K) -> Option<u32>
        ensures { result ≡ told_under K.cmp face expr.now self.now }
    {
        self.state.told_id(expr, face)
    }

    /// The least expression above `after`, or the least of all where that is `None`, that was sent
    /// to the face and not undeclared since. `None` exactly where there is none, or the face isn't
    /// open. A walk over what was sent to the face.
    pub fn next_told(&self, face: u32, after: Option<&K>) -> Option<&'g K>
        ensures { option_copied result
            ≡ next_told K.cmp face (option_copied after.entry) self.now }
    {
        match self.state.find_face(face) {
            None => None,
            Some(f) => next_above(f.told().places(), after),
        }
    }
}

impl<K: Key> Gateway<K> {
    /// What the gateway keeps, to look things up in. `None` after a call that was prepared and not
    /// carried out, or that ran out of memory, until the next call or `rebuild`.
    pub fn lookups(&self) -> Option<Lookups<'_, K>>
        ensures { IfSome result (λ lookups. lookups ≡ self.now.rows) }
    {
        match self.kept.state() {
            Some(state) => Some(Lookups { state }),
            None => None,
        }
    }

    /// Rebuilds what the gateway keeps, if a call was prepared and not carried out, or ran out of
    /// memory. `lookups` has an answer then.
    pub fn rebuild(&mut self) -> Result<(), Memory>
        ensures { self.new ≡ self.old }
    {
        self.kept.restore(self.alloc)
    }
}
