//! Peers speak to each other. To the north a peer tells mutual peers and gateways above of all
//! tokens, unasked, and asks the gateways above; to the south it is itself the gateway of its
//! peers, and tells each what it asks for. Zenoh's `hat/peer`.
ghost use Rattle.std.specs.Prelude.{◌≡◌};
ghost use Rattle.zt_model.specs.hats.Peer.{peer};

use zt_region::{Bound, Region, WhatAmI};

/// Whether a remote of this mode and bound may have a face of the region.
pub(crate) fn fits(region: Region, remote: WhatAmI, bound: Bound) -> bool
    ensures { result ≡ peer.fits region remote bound }
{
    if region == Region::North {
        bound == Bound::South || remote == WhatAmI::Peer
    } else {
        remote == WhatAmI::Peer && bound == Bound::North
    }
}

/// Whether the region has one face at most.
pub(crate) fn has_one_face() -> bool
    ensures { result ≡ peer.has_one_face }
{
    false
}

/// Whether interests of a remote of this mode are taken.
pub(crate) fn takes_interests(remote: WhatAmI) -> bool
    ensures { result ≡ peer.takes_interests remote }
{
    remote == WhatAmI::Peer
}

/// Whether a new face has an initial interest.
/// Of two mutual peers each is north to the other.
pub(crate) fn has_initial(region: Region, bound: Bound) -> bool
    ensures { result ≡ peer.has_initial region bound }
{
    region == Region::North && bound == Bound::North
}

/// Whether the region's faces are shown each other's tokens.
pub(crate) fn shares_tokens() -> bool
    ensures { result ≡ peer.shares_tokens }
{
    false
}

/// Whether faces are told of each token that they are shown, whether they ask or not.
pub(crate) fn is_told_unasked(region: Region) -> bool
    ensures { result ≡ peer.is_told_unasked region }
{
    region == Region::North
}

/// Whether a face that asks for a token and wasn't told of it is told that it is gone.
pub(crate) fn undeclares_untold() -> bool
    ensures { result ≡ peer.undeclares_untold }
{
    true
}

/// Whether tokens go along trees instead, each from its router.
pub(crate) fn goes_by_trees() -> bool
    ensures { result ≡ peer.goes_by_trees }
{
    false
}

/// Whether interests of the south go to a face whose remote has this bound.
pub(crate) fn leads_up(bound: Bound) -> bool
    ensures { result ≡ peer.leads_up bound }
{
    bound == Bound::South
}

/// Whether an interest of mode Current is sent only to the lowest of the faces that it may go to.
pub(crate) fn asks_one() -> bool
    ensures { result ≡ peer.asks_one }
{
    true
}

/// What a face that declares a token is listed as.
pub(crate) fn kind_of(_remote: WhatAmI) -> WhatAmI
    ensures { result ≡ peer.kind_of _remote }
{
    WhatAmI::Peer
}
