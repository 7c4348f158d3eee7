// Faces that open.
ghost use Rattle.std.specs.Prelude.{◌≡◌, ◌<◌, ◌+◌, ◌++◌, ◌∷◌, ◌^◌, [], OnOk};
ghost use Rattle.zt_faces.specs.Rising.{AreUpTo};
ghost use Rattle.zt_model.specs.Parts.{opened_session};
ghost use Rattle.zt_model.specs.Routing.{initial_of, opened};
ghost use Rattle.zt_token_index.specs.Seekers.{AreSeekers};

use crate::changes::empty;
use crate::gateway::GatewayState;
use std::alloc::Global;
use zt_face::FaceState;
use zt_faces::Faces;
use zt_hats::hat_of;
use zt_keys::{Key, Memory};
use zt_region::{Bound, Region, WhatAmI, Zid};
use zt_token_index::Seekers;

// A face opens that holds nothing and was told nothing yet, under a number above `made`.
fn open_in<K: Key>(
    alloc: Global,
    faces: &mut Faces<K>,
    seekers: &mut Seekers<K>,
    face: FaceState<K>,
    made: u32,
) -> Result<(), Memory>
    requires up_to { AreUpTo (λ f. f.number) made faces.old }
    requires above { made < face.number }
    requires holds { face.held ≡ [] }
    requires told { face.told ≡ [] }
    requires seekers { AreSeekers K.cmp K.anchored seekers.old faces.old }
    ensures faces { OnOk result (faces.new ≡ faces.old ++ face ∷ []) }
    ensures seekers { OnOk result (AreSeekers K.cmp K.anchored seekers.new faces.new) }
{
    seekers.open(&face)?;
    faces.push(alloc, face, made)
}

// Whether the initial interest of a new face is finalised, if it has one: at first it isn't.
fn initial_of(mode: WhatAmI, region: Region, bound: Bound) -> Option<bool>
    ensures { result ≡ initial_of mode region bound }
{
    hat_of(mode, region)
        .has_initial(region, bound)
        .then_some(false)
}

impl<K: Key> GatewayState<K> {
    // A face opens that has no rows yet, under the next number.
    fn open_next(&mut self, alloc: Global, face: FaceState<K>) -> Result<(), Memory>
        requires room { self.old.made + 1 < 2 ^ 32 }
        requires next { face.number ≡ self.old.made + 1 }
        requires declares { face.live ≡ [] }
        requires holds { face.held ≡ [] }
        requires told { face.told ≡ [] }
        ensures { OnOk result (self.new ≡ record self.old {
          made = self.old.made + 1;
          faces = self.old.faces ++ face ∷ [];
        }) }
    {
        match open_in(alloc, &mut self.faces, &mut self.seekers, face, self.made) {
            Ok(()) => {
                self.made += 1;
                Ok(())
            }
            Err(error) => {
                empty(
                    alloc,
                    &mut self.faces,
                    &mut self.routed,
                    &mut self.live,
                    &mut self.seekers,
                );
                Err(error)
            }
        }
    }

    /// A session opens, under the next number.
    pub fn open_session(&mut self, alloc: Global, first: u32) -> Result<(), Memory>
        requires { self.old.made + 1 < 2 ^ 32 }
        ensures { OnOk result (self.new ≡ opened_session first self.old) }
    {
        let session = FaceState::new(
            alloc,
            self.made + 1,
            Region::Local,
            Bound::North,
            WhatAmI::Client,
            self.zid,
            first,
            None,
        )?;
        self.open_next(alloc, session)
    }

    /// The face of a transport opens, under the next number.
    pub fn open_face(
        &mut self,
        alloc: Global,
        zid: Zid,
        whatami: WhatAmI,
        region: Region,
        bound: Bound,
        first: u32,
    ) -> Result<(), Memory>
        requires { self.old.made + 1 < 2 ^ 32 }
        ensures { OnOk result (self.new ≡ opened zid whatami region bound first self.old) }
    {
        let number = self.made + 1;
        let initial = initial_of(self.mode, region, bound);
        let face = FaceState::new(alloc, number, region, bound, whatami, zid, first, initial)?;
        self.open_next(alloc, face)
    }
}
