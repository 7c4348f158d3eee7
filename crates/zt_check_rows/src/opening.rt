// Faces that open and close.
ghost use Rattle.std.specs.Prelude.{◌≡◌, OnOk};
ghost use Rattle.zt_model.specs.Shown.{initial_interest, with_new_session, with_new_transport};
ghost use Rattle.zt_model.specs.Shown.{without_closed};

use crate::rows::ShownRows;
use std::alloc::Global;
use zt_keys::{Key, Memory};
use zt_region::{Bound, Region, WhatAmI, Zid};

// A new peer that is to the north, of a gateway that is to its north, hasn't finished what both
// start by.
fn initial_interest(own: WhatAmI, region: Region, bound: Bound) -> Option<bool>
    ensures { result ≡ initial_interest own region bound }
{
    if own == WhatAmI::Peer && (region == Region::North && bound == Bound::North) {
        Some(false)
    } else {
        None
    }
}

impl<K: Key> ShownRows<K> {
    /// A session opens. That the numbers of faces are given out counts as out of memory.
    pub fn open_session(&mut self, alloc: Global, first: u32) -> Result<(), Memory>
        ensures { OnOk result (self.new ≡ with_new_session first self.old) }
    {
        let own = self.zid;
        let region = Region::Local;
        let bound = Bound::North;
        let mode = WhatAmI::Client;
        self.faces
            .open(alloc, region, bound, mode, own, first, None)
    }

    /// The face of a transport opens. That the numbers of faces are given out counts as out of
    /// memory.
    pub fn open_transport(
        &mut self,
        alloc: Global,
        zid: Zid,
        mode: WhatAmI,
        region: Region,
        bound: Bound,
        first: u32,
    ) -> Result<(), Memory>
        ensures { OnOk result (self.new
            ≡ with_new_transport zid mode region bound first self.old) }
    {
        let initial = initial_interest(self.mode, region, bound);
        self.faces
            .open(alloc, region, bound, mode, zid, first, initial)
    }

    /// A face closes.
    pub fn close(&mut self, number: u32)
        ensures { self.new ≡ without_closed number self.old }
    {
        self.faces.close(number);
    }
}
