// Many faces, of which the first ones mostly go first.
ghost use Rattle.std.specs.List.{remove};
ghost use Rattle.std.specs.Prelude.{◌≡◌, ◌<◌, ◌∷◌, [], length};
ghost use Rattle.std.specs.Prelude.{IfOk, OnErr, OnOk};
ghost use Rattle.zt_token_index.specs.Told.{AreRising, id_of, with_face, without_face};

use std::alloc::Global;
use std::marker::Model;
use std::mem;
use zt_keys::Memory;
use zt_ordered::place_of_number;

// So many pairs that are gone are left alone.
const FEW: usize = 16;

// Room for so many pairs is made at first, so that one or two more need no other.
const ROOM: usize = 4;

/// Pairs of face and id in order of face, each face once. A first pair that goes keeps its place,
/// counted as gone, so that the others don't move. When most places are of such pairs, these are
/// dropped at once.
#[derive(Drop)]
pub(crate) struct Many {
    pairs: Vec<(u32, u32)>,
    // How many of the first pairs are gone.
    gone: usize,
}

impl Model for Many {
    ghost use Rattle.std.specs.Prelude.{ℕ, List, ◌≤◌, drop, length};

    ghost Value = { List (ℕ × ℕ) };

    ghost view = { λ m. drop m.gone m.pairs.items };

    ghost invariant = { λ m. m.gone ≤ length m.pairs.items };
}

impl Many {
    /// Two pairs.
    pub(crate) fn two(alloc: Global, first: (u32, u32), second: (u32, u32)) -> Result<Self, Memory>
        ensures { IfOk result (λ many. many ≡ first ∷ second ∷ []) }
    {
        let mut pairs = Vec::with_capacity(alloc, ROOM)?;
        pairs.push(first)?;
        pairs.push(second)?;
        Ok(Many { pairs, gone: 0 })
    }

    /// The pairs that are left.
    pub(crate) fn as_slice(&self) -> &[(u32, u32)]
        ensures { result.now ≡ self.now }
    {
        &self.pairs[self.gone..]
    }

    /// The face with the id, in its place. It answers the id that the face had, if it had one.
    /// After an error the pairs stay.
    pub(crate) fn put(&mut self, face: u32, id: u32) -> Result<Option<u32>, Memory>
        requires { AreRising self.old }
        ensures ok { OnOk result (self.new ≡ with_face face id self.old) }
        ensures known { IfOk result (λ known. known ≡ id_of face self.old) }
        ensures err { OnErr result (self.new ≡ self.old) }
    {
        match place_of_number(self.as_slice(), face) {
            Ok(place) => Ok(Some(mem::replace(&mut self.pairs[self.gone + place].1, id))),
            Err(place) => {
                self.pairs.insert(self.gone + place, (face, id))?;
                Ok(None)
            }
        }
    }

    /// The pair of the face goes, if it has one.
    pub(crate) fn remove(&mut self, face: u32)
        requires { AreRising self.old }
        ensures { self.new ≡ without_face face self.old }
    {
        if let Ok(place) = place_of_number(self.as_slice(), face) {
            self.remove_at(place);
            self.tidy();
        }
    }

    // The pair at the place goes.
    fn remove_at(&mut self, place: usize)
        requires { place < length self.old }
        ensures { self.new ≡ remove self.old place }
    {
        if place == 0 {
            self.gone += 1;
        } else {
            self.pairs.remove(self.gone + place);
        }
    }

    // Drops the pairs that are gone once they are most, and more than a few.
    fn tidy(&mut self)
        ensures { self.new ≡ self.old }
    {
        if self.gone > FEW && self.gone > self.pairs.len() / 2 {
            self.pairs.drain(..self.gone);
            self.gone = 0;
        }
    }

    /// Equal pairs, in no more memory than they take.
    pub(crate) fn copy(&self, alloc: Global) -> Result<Self, Memory>
        ensures { IfOk result (λ copy. copy ≡ self.now) }
    {
        let pairs = self.as_slice().to_vec(alloc)?;
        Ok(Many { pairs, gone: 0 })
    }
}
