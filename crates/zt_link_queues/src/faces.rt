// The faces of one gateway with their numbers in scripts.
ghost use Rattle.std.specs.Prelude.{◌≡◌, [], OnErr, OnOk};
ghost use Rattle.zt_link_queues.specs.Found.{AreRising, number_in, with_number, without_number};

use std::alloc::Global;
use std::marker::Model;
use zt_keys::Memory;
use zt_ordered::place_of_number;

/// The faces of one gateway, each with its number in scripts, in order of face.
#[derive(Drop)]
pub struct FaceNumbers<'a> {
    pairs: &'a [(u32, u32)],
}

impl<'a> Model for FaceNumbers<'a> {
    ghost use Rattle.std.specs.Prelude.{ℕ, List};
    ghost use Rattle.zt_link_queues.specs.Found.{AreRising};

    ghost Value = { List (ℕ × ℕ) };

    ghost view = { λ f. f.pairs.now };

    ghost invariant = { λ f. AreRising f.pairs.now };
}

impl<'a> FaceNumbers<'a> {
    // The faces of these pairs of face and number.
    pub(crate) fn new(pairs: &'a [(u32, u32)]) -> Self
        requires { AreRising pairs.now }
        ensures { result ≡ pairs.now }
    {
        FaceNumbers { pairs }
    }

    /// The number in scripts of a face; 0 where there is none. Found at once where faces follow one
    /// another, else by binary search.
    pub fn number(&self, face: u32) -> u32
        ensures { result ≡ number_in face self.now }
    {
        match place_of_number(self.pairs, face) {
            Ok(place) => self.pairs[place].1,
            Err(_) => 0,
        }
    }
}

/// The faces of one gateway, as they are held. A gateway numbers its faces as it makes them, so a
/// new one mostly goes behind the others.
#[derive(Drop)]
pub(crate) struct NumberedFaces {
    pairs: Vec<(u32, u32)>,
}

impl Model for NumberedFaces {
    ghost use Rattle.std.specs.Prelude.{ℕ, List};
    ghost use Rattle.zt_link_queues.specs.Found.{AreRising};

    ghost Value = { List (ℕ × ℕ) };

    ghost view = { λ f. f.pairs.items };

    ghost invariant = { λ f. AreRising f.pairs.items };
}

impl NumberedFaces {
    /// No faces. It takes no memory.
    pub(crate) fn new(alloc: Global) -> Self
        ensures { result ≡ [] }
    {
        NumberedFaces {
            pairs: Vec::new(alloc),
        }
    }

    /// Pairs of face and number.
    pub(crate) fn as_slice(&self) -> &[(u32, u32)]
        ensures pairs { result.now ≡ self.now }
        ensures in_order { AreRising result.now }
    {
        self.pairs.as_slice()
    }

    /// A face has a number, where it had none. After an error all stays.
    pub(crate) fn put(&mut self, face: u32, number: u32) -> Result<(), Memory>
        ensures ok { OnOk result (self.new ≡ with_number face number self.old) }
        ensures err { OnErr result (self.new ≡ self.old) }
    {
        if let Err(place) = place_of_number(&self.pairs, face) {
            self.pairs.insert(place, (face, number))?;
        }
        Ok(())
    }

    /// A face has a number no more, where it was this one.
    pub(crate) fn remove(&mut self, face: u32, number: usize)
        ensures { self.new ≡ without_number face number self.old }
    {
        if let Ok(place) = place_of_number(&self.pairs, face) {
            if self.pairs[place].1 as usize == number {
                self.pairs.remove(place);
            }
        }
    }
}
