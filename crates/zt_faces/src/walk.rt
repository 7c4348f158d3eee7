// A walk over the open faces.
ghost use Rattle.std.specs.Iterator.{YieldsFirstRef, YieldsLastRef, item_count};
ghost use Rattle.std.specs.Prelude.{◌≡◌};
ghost use Rattle.zt_faces.specs.Slots.{faces_in};

use crate::slots::Slot;
use std::marker::Model;
use zt_face::FaceState;
use zt_keys::Key;

/// The open faces that a walk has yet to come to, in order of number.
#[derive(Drop)]
pub struct OpenFaces<'a, K: Key> {
    slots: &'a [Slot<K>],
}

impl<'a, K: Key> Model for OpenFaces<'a, K> {
    ghost use Rattle.std.specs.Prelude.{List};
    ghost use Rattle.zt_model.specs.Rows.{Face};
    ghost use Rattle.zt_faces.specs.Slots.{faces_in};

    ghost Value = { List (Face K) };

    ghost view = { λ a. faces_in a.slots.now };
}

impl<'a, K: Key> OpenFaces<'a, K> {
    // The faces that stand in these places.
    pub(crate) fn new(slots: &'a [Slot<K>]) -> Self
        ensures { result ≡ faces_in slots.now }
    {
        OpenFaces { slots }
    }

    /// How many places the walk goes over: those of open faces, and gaps, of which there are no more
    /// than open faces and a few. No contract speaks of it: it is for choosing between two ways of
    /// doing the same.
    pub fn places(&self) -> usize {
        self.slots.len()
    }
}

impl<'a, K: Key> Iterator for OpenFaces<'a, K> {
    type Item = &'a FaceState<K>;

    ghost next_gives = { YieldsFirstRef (λ faces. faces) };

    ghost remaining = { item_count (λ faces. faces) };

    fn next(&mut self) -> Option<&'a FaceState<K>> {
        while !self.slots.is_empty() {
            let slots = self.slots;
            let slot = &slots[0];
            self.slots = &slots[1..];
            if let Some(f) = slot.face() {
                return Some(f);
            }
        }
        None
    }
}

impl<'a, K: Key> DoubleEndedIterator for OpenFaces<'a, K> {
    ghost next_back_gives = { YieldsLastRef (λ faces. faces) };

    fn next_back(&mut self) -> Option<&'a FaceState<K>> {
        while !self.slots.is_empty() {
            let slots = self.slots;
            let last = slots.len() - 1;
            let slot = &slots[last];
            self.slots = &slots[..last];
            if let Some(f) = slot.face() {
                return Some(f);
            }
        }
        None
    }
}
