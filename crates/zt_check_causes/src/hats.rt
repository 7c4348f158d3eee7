// What regions ask of their faces, as far as causes read it.
ghost use Rattle.std.specs.Prelude.{◌≡◌};
ghost use Rattle.zt_region.specs.declared.region.Region.TheVariants.{North};
ghost use Rattle.zt_model.specs.Hat.{hat_of, north_hat};

use zt_region::{Bound, Region, WhatAmI};

// Whether a remote may have a face to the north of a gateway.
fn fits_north(own: WhatAmI, remote: WhatAmI, bound: Bound) -> bool
    ensures { result ≡ (hat_of own North).fits North remote bound }
{
    match own {
        WhatAmI::Router => remote == WhatAmI::Router,
        WhatAmI::Peer => bound == Bound::South || remote == WhatAmI::Peer,
        WhatAmI::Client => bound == Bound::South,
    }
}

/// Whether a remote of this mode and bound may have a face of the region, of a gateway of the mode
/// `own`. In the south a remote has the mode of its region, and the gateway to its north; Local has
/// sessions alone.
pub fn fits(own: WhatAmI, region: Region, remote: WhatAmI, bound: Bound) -> bool
    ensures { result ≡ (hat_of own region).fits region remote bound }
{
    match region {
        Region::North => fits_north(own, remote, bound),
        Region::Local => false,
        Region::South { mode, .. } => match mode {
            WhatAmI::Router => remote == WhatAmI::Router && bound == Bound::North,
            WhatAmI::Peer => remote == WhatAmI::Peer && bound == Bound::North,
            WhatAmI::Client => remote == WhatAmI::Client && bound == Bound::North,
        },
    }
}

/// Whether the gateway has one face to the north at most.
pub fn has_one_north(own: WhatAmI) -> bool
    ensures { result ≡ (north_hat own).has_one_face }
{
    match own {
        WhatAmI::Router => false,
        WhatAmI::Peer => false,
        WhatAmI::Client => true,
    }
}

/// Whether the region has one face at most.
pub(crate) fn has_one_face(own: WhatAmI, region: Region) -> bool
    ensures { result ≡ (hat_of own region).has_one_face }
{
    match region {
        Region::North => has_one_north(own),
        Region::Local => false,
        Region::South { mode, .. } => match mode {
            WhatAmI::Router => false,
            WhatAmI::Peer => false,
            WhatAmI::Client => false,
        },
    }
}

/// Whether interests of a remote to the north are taken: peers take those of peers.
pub(crate) fn takes_from_north(own: WhatAmI, remote: WhatAmI) -> bool
    ensures { result ≡ (hat_of own North).takes_interests remote }
{
    match own {
        WhatAmI::Router => false,
        WhatAmI::Peer => remote == WhatAmI::Peer,
        WhatAmI::Client => false,
    }
}

/// Whether faces of the region are shown each other's tokens: sessions are, and clients.
pub(crate) fn shares_tokens(own: WhatAmI, region: Region) -> bool
    ensures { result ≡ (hat_of own region).shares_tokens }
{
    match region {
        Region::North => match own {
            WhatAmI::Router => false,
            WhatAmI::Peer => false,
            WhatAmI::Client => false,
        },
        Region::Local => true,
        Region::South { mode, .. } => match mode {
            WhatAmI::Router => false,
            WhatAmI::Peer => false,
            WhatAmI::Client => true,
        },
    }
}
