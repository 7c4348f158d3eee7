//! The broker: it serves sessions, in the region Local, and clients, in client regions of the
//! south. It shows them each other's tokens, and tells each what it asks for. Zenoh's `hat/broker`.
ghost use Rattle.std.specs.Prelude.{◌≡◌};
ghost use Rattle.zt_model.specs.hats.Broker.{broker};

use zt_region::{Bound, Region, WhatAmI};

/// Whether a remote of this mode and bound may have a face of the region.
/// Local has sessions alone, and these are no transports.
pub(crate) fn fits(region: Region, remote: WhatAmI, bound: Bound) -> bool
    ensures { result ≡ broker.fits region remote bound }
{
    region != Region::Local && remote == WhatAmI::Client && bound == Bound::North
}

/// Whether the region has one face at most.
pub(crate) fn has_one_face() -> bool
    ensures { result ≡ broker.has_one_face }
{
    false
}

/// Whether interests of a remote of this mode are taken.
pub(crate) fn takes_interests(_remote: WhatAmI) -> bool
    ensures { result ≡ broker.takes_interests _remote }
{
    true
}

/// Whether a new face has an initial interest.
pub(crate) fn has_initial(_region: Region, _bound: Bound) -> bool
    ensures { result ≡ broker.has_initial _region _bound }
{
    false
}

/// Whether the region's faces are shown each other's tokens.
pub(crate) fn shares_tokens() -> bool
    ensures { result ≡ broker.shares_tokens }
{
    true
}

/// Whether faces are told of each token that they are shown, whether they ask or not.
pub(crate) fn is_told_unasked(_region: Region) -> bool
    ensures { result ≡ broker.is_told_unasked _region }
{
    false
}

/// Whether a face that asks for a token and wasn't told of it is told that it is gone.
pub(crate) fn undeclares_untold() -> bool
    ensures { result ≡ broker.undeclares_untold }
{
    true
}

/// Whether tokens go along trees instead, each from its router.
pub(crate) fn goes_by_trees() -> bool
    ensures { result ≡ broker.goes_by_trees }
{
    false
}

/// Whether interests of the south go to a face whose remote has this bound.
/// A broker is never north.
pub(crate) fn leads_up(_bound: Bound) -> bool
    ensures { result ≡ broker.leads_up _bound }
{
    false
}

/// Whether an interest of mode Current is sent only to the lowest of the faces that it may go to.
pub(crate) fn asks_one() -> bool
    ensures { result ≡ broker.asks_one }
{
    false
}

/// What a face that declares a token is listed as.
pub(crate) fn kind_of(_remote: WhatAmI) -> WhatAmI
    ensures { result ≡ broker.kind_of _remote }
{
    WhatAmI::Client
}
