// Changes of one face of a gateway.
ghost use Rattle.std.specs.Prelude.{◌≡◌, [], OnOk};
ghost use Rattle.zt_model.specs.Parts.{with_face};
ghost use Rattle.zt_token_index.specs.Seekers.{no_seekers};

use crate::gateway::GatewayState;
use std::alloc::Global;
use zt_faces::{FaceAddition, FaceChange, Faces};
use zt_indexes::LiveCounts;
use zt_keys::{Key, Memory};
use zt_link_state::RoutedTokens;
use zt_token_index::Seekers;

/// A change of a face that keeps what it declares, holds and was told.
pub trait QuietChange<K: Key>: FaceChange<K> {
    ghost use Rattle.zt_model.specs.Rows.{Face};
    ghost use Rattle.zt_state.specs.Indexed.{KeepsLive};

    /// The face keeps its number, its region, its tokens, its interests and what it was told.
    ghost keeps_live: { (c : Self) (f : Face K) → KeepsLive f (Self.changed c f) };
}

/// A change of a face that takes memory and keeps what it declares, holds and was told.
pub trait QuietAddition<K: Key>: FaceAddition<K> {
    ghost use Rattle.zt_model.specs.Rows.{Face};
    ghost use Rattle.zt_state.specs.Indexed.{KeepsLive};

    /// The face keeps its number, its region, its tokens, its interests and what it was told.
    ghost keeps_live: { (c : Self) (f : Face K) → KeepsLive f (Self.added c f) };
}

// Nothing is left, after an allocation failed.
pub(crate) fn empty<K: Key>(
    alloc: Global,
    faces: &mut Faces<K>,
    routed: &mut RoutedTokens<K>,
    live: &mut LiveCounts<K>,
    seekers: &mut Seekers<K>,
)
    ensures faces { faces.new ≡ [] }
    ensures routed { routed.new ≡ [] }
    ensures live { live.new ≡ [] }
    ensures seekers { seekers.new ≡ no_seekers }
{
    *faces = Faces::new(alloc);
    *routed = RoutedTokens::new(alloc);
    *live = LiveCounts::new(alloc);
    *seekers = Seekers::new(alloc);
}

#[tactic(auto, unfolding(zt_model::specs::Parts::with_face))]
impl<K: Key> GatewayState<K> {
    // Changes the face of a number in what it neither declares nor holds, nor was told.
    pub(crate) fn change_face<C: QuietChange<K>>(&mut self, number: u32, change: &C)
        ensures { self.new ≡ with_face number (C.changed change.now) self.old }
    {
        self.faces.change(number, change);
    }

    // Changes the face of a number in what it neither declares nor holds, nor was told.
    pub(crate) fn add_to_face<C: QuietAddition<K>>(
        &mut self,
        alloc: Global,
        number: u32,
        addition: &C,
    ) -> Result<(), Memory>
        ensures { OnOk result (self.new ≡ with_face number (C.added addition.now) self.old) }
    {
        match self.faces.add(alloc, number, addition) {
            Ok(()) => Ok(()),
            Err(error) => {
                empty(
                    alloc,
                    &mut self.faces,
                    &mut self.routed,
                    &mut self.live,
                    &mut self.seekers,
                );
                Err(error)
            }
        }
    }
}
