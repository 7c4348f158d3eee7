//! Routers speak to each other by trees, whatever is asked: a router asks nobody, and takes no
//! interest from a router. Zenoh's `hat/router`.
ghost use Rattle.std.specs.Prelude.{◌≡◌};
ghost use Rattle.zt_model.specs.hats.Router.{router};

use zt_region::{Bound, Region, WhatAmI};

/// Whether a remote of this mode and bound may have a face of the region.
pub(crate) fn fits(region: Region, remote: WhatAmI, bound: Bound) -> bool
    ensures { result ≡ router.fits region remote bound }
{
    remote == WhatAmI::Router && (region == Region::North || bound == Bound::North)
}

/// Whether the region has one face at most.
pub(crate) fn has_one_face() -> bool
    ensures { result ≡ router.has_one_face }
{
    false
}

/// Whether interests of a remote of this mode are taken.
pub(crate) fn takes_interests(_remote: WhatAmI) -> bool
    ensures { result ≡ router.takes_interests _remote }
{
    false
}

/// Whether a new face has an initial interest.
pub(crate) fn has_initial(_region: Region, _bound: Bound) -> bool
    ensures { result ≡ router.has_initial _region _bound }
{
    false
}

/// Whether the region's faces are shown each other's tokens.
pub(crate) fn shares_tokens() -> bool
    ensures { result ≡ router.shares_tokens }
{
    false
}

/// Whether faces are told of each token that they are shown, whether they ask or not.
/// What its faces hear goes along trees, so this is asked of no face.
pub(crate) fn is_told_unasked(region: Region) -> bool
    ensures { result ≡ router.is_told_unasked region }
{
    region == Region::North
}

/// Whether a face that asks for a token and wasn't told of it is told that it is gone.
pub(crate) fn undeclares_untold() -> bool
    ensures { result ≡ router.undeclares_untold }
{
    false
}

/// Whether tokens go along trees instead, each from its router.
pub(crate) fn goes_by_trees() -> bool
    ensures { result ≡ router.goes_by_trees }
{
    true
}

/// Whether interests of the south go to a face whose remote has this bound.
pub(crate) fn leads_up(_bound: Bound) -> bool
    ensures { result ≡ router.leads_up _bound }
{
    false
}

/// Whether an interest of mode Current is sent only to the lowest of the faces that it may go to.
pub(crate) fn asks_one() -> bool
    ensures { result ≡ router.asks_one }
{
    false
}

/// What a face that declares a token is listed as.
pub(crate) fn kind_of(_remote: WhatAmI) -> WhatAmI
    ensures { result ≡ router.kind_of _remote }
{
    WhatAmI::Router
}
