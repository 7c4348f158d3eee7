// A walk over rows by id.
ghost use Rattle.std.specs.Iterator.{at_most};
ghost use Rattle.std.specs.Map.Iter.{TakesFirst, TakesLast, deref_pair};
ghost use Rattle.std.specs.Prelude.{◌≡◌, ◌++◌, length};
ghost use Rattle.zt_rows.specs.Places.{rows_in};

use crate::place::Place;
use std::collections::btree_map;
use std::marker::Model;

/// The rows that a walk has yet to come to, each with its id, in order of id.
#[derive(Drop)]
pub struct Iter<'a, X> {
    places: &'a [Place<X>],
    mapped: btree_map::Iter<'a, u32, X>,
}

impl<'a, X> Model for Iter<'a, X> {
    ghost use Rattle.std.specs.Prelude.{◌++◌};
    ghost use Rattle.zt_model.specs.Rows.{ById};
    ghost use Rattle.zt_rows.specs.Places.{rows_in};

    ghost Value = { ById X };

    ghost view = { λ a. rows_in a.places.now ++ a.mapped };
}

impl<'a, X> Iter<'a, X> {
    // Rows in places, and behind them those of a map.
    pub(crate) fn new(places: &'a [Place<X>], mapped: btree_map::Iter<'a, u32, X>) -> Self
        ensures { result ≡ rows_in places.now ++ mapped.entry }
    {
        Iter { places, mapped }
    }
}

impl<'a, X> Iterator for Iter<'a, X> {
    type Item = (&'a u32, &'a X);

    ghost next_gives = { TakesFirst deref_pair };

    ghost remaining = { λ s. at_most (length s) };

    fn next(&mut self) -> Option<(&'a u32, &'a X)> {
        while !self.places.is_empty() {
            let places = self.places;
            let place = &places[0];
            self.places = &places[1..];
            if let Some(row) = place.entry() {
                return Some(row);
            }
        }
        self.mapped.next()
    }
}

impl<'a, X> DoubleEndedIterator for Iter<'a, X> {
    ghost next_back_gives = { TakesLast deref_pair };

    fn next_back(&mut self) -> Option<(&'a u32, &'a X)> {
        if let Some(row) = self.mapped.next_back() {
            return Some(row);
        }
        while !self.places.is_empty() {
            let places = self.places;
            let last = places.len() - 1;
            let place = &places[last];
            self.places = &places[..last];
            if let Some(row) = place.entry() {
                return Some(row);
            }
        }
        None
    }
}
