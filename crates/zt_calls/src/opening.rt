// A face of a transport opens.
ghost use Rattle.std.specs.Prelude.{◌≡◌, ◌<◌, ◌+◌, ◌^◌, OnOk};
ghost use Rattle.zt_calls.specs.Does.{Does};
ghost use Rattle.zt_model.specs.Routing.{opening};

use crate::speech::{Speech, say};
use std::alloc::Global;
use zt_interests::{open_final, open_interests, open_tokens};
use zt_keys::{Key, Memory};
use zt_region::{Bound, Region, WhatAmI, Zid};
use zt_state::GatewayState;

/// A face opens, and is sent what is there.
pub(crate) fn open<K: Key>(
    alloc: Global,
    g: &mut GatewayState<K>,
    speech: &mut Speech<K>,
    zid: Zid,
    whatami: WhatAmI,
    region: Region,
    bound: Bound,
    first: u32,
) -> Result<(), Memory>
    requires { g.old.made + 1 < 2 ^ 32 }
    ensures { OnOk result (Does K.cmp K.matching
        (opening K.cmp K.matching zid whatami region bound first g.old)
        g.old g.new speech.old speech.new) }
{
    let face = g.made() + 1;
    g.open_face(alloc, zid, whatami, region, bound, first)?;
    let interests = open_interests(alloc, g, face)?;
    say(alloc, g, speech, interests)?;
    let tokens = open_tokens(alloc, g, face)?;
    say(alloc, g, speech, tokens)?;
    let finals = open_final(alloc, g, face)?;
    say(alloc, g, speech, finals)
}
