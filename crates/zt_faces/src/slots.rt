// Places of faces: a face that closes leaves a gap, so that none moves.
ghost use Rattle.std.specs.Prelude.{◌≡◌, is_some, IfOk, OnOk};
ghost use Rattle.std.specs.Option.{option_copied};
ghost use Rattle.zt_model.specs.Routing.{asked_as};
ghost use Rattle.zt_faces.specs.Rising.{IsRising};
ghost use Rattle.zt_faces.specs.Slots.{IsNextOf, face_of, faces_in, number_of, with_face};

use crate::changes::{FaceAddition, FaceChange};
use std::alloc::Global;
use zt_face::{Duplicate, FaceState, RemoteInterest};
use zt_keys::{Key, Memory};
use zt_protocol::InterestId;

// So many gaps are left alone.
const FEW: usize = 16;

/// A place: a face stands in it, or it is the gap that the face of a number left.
#[derive(Drop)]
pub(crate) enum Slot<K: Key> {
    Open(FaceState<K>),
    Closed(u32),
}

impl<K: Key> Slot<K> {
    // The number of the face that stands or stood here.
    #[inline(always)]
    pub(crate) fn number(&self) -> u32
        ensures { result ≡ number_of self.now }
    {
        match self {
            Slot::Open(f) => f.number(),
            Slot::Closed(number) => *number,
        }
    }

    // The face that stands here.
    #[inline(always)]
    pub(crate) fn face(&self) -> Option<&FaceState<K>>
        ensures { option_copied result ≡ face_of self.now }
    {
        match self {
            Slot::Open(f) => Some(f),
            Slot::Closed(_) => None,
        }
    }

    // Whether a face stands here.
    fn is_open(&self) -> bool
        ensures { result ≡ is_some (face_of self.now) }
    {
        self.face().is_some()
    }

    // Changes the face that stands here.
    pub(crate) fn change<C: FaceChange<K>>(&mut self, change: &C)
        ensures { self.new ≡ with_face (C.changed change.now) self.old }
    {
        if let Slot::Open(f) = self {
            change.change(f);
        }
    }

    // Changes the face that stands here, and answers its next id.
    pub(crate) fn add<C: FaceAddition<K>>(
        &mut self,
        alloc: Global,
        addition: &C,
    ) -> Result<u32, Memory>
        ensures made { OnOk result (self.new ≡ with_face (C.added addition.now) self.old) }
        ensures next { IfOk result (λ next. IsNextOf next self.new) }
    {
        match self {
            Slot::Open(f) => {
                addition.add(alloc, f)?;
                Ok(f.next())
            }
            Slot::Closed(_) => Ok(0),
        }
    }

    // The face that stands here asks.
    pub(crate) fn ask(
        &mut self,
        alloc: Global,
        id: InterestId,
        interest: &RemoteInterest<K>,
        pendings: &[(u32, u32)],
    ) -> Result<(), Memory>
        ensures { OnOk result (self.new
            ≡ with_face (asked_as pendings.now id interest.now) self.old) }
    {
        match self {
            Slot::Open(f) => f.ask(alloc, id, interest, pendings),
            Slot::Closed(_) => Ok(()),
        }
    }
}

impl<K: Key> Duplicate for Slot<K> {
    fn duplicate(&self, alloc: Global) -> Result<Self, Memory> {
        match self {
            Slot::Open(f) => Ok(Slot::Open(f.duplicate(alloc)?)),
            Slot::Closed(number) => Ok(Slot::Closed(*number)),
        }
    }
}

// Closes the gaps once they are most.
pub(crate) fn close_gaps<K: Key>(slots: &mut Vec<Slot<K>>, open: usize)
    requires { IsRising number_of slots.old.items }
    ensures faces { faces_in slots.new.items ≡ faces_in slots.old.items }
    ensures rising { IsRising number_of slots.new.items }
{
    let gaps = slots.len().saturating_sub(open);
    if gaps > FEW && gaps > open {
        slots.retain(|slot| slot.is_open());
    }
}
