//! The client: it speaks to one gateway above, tells it of all tokens, and asks it whatever is
//! asked in the south. Zenoh's `hat/client`.
ghost use Rattle.std.specs.Prelude.{◌≡◌};
ghost use Rattle.zt_model.specs.hats.Client.{client};

use zt_region::{Bound, Region, WhatAmI};

/// Whether a remote of this mode and bound may have a face of the region.
pub(crate) fn fits(_region: Region, _remote: WhatAmI, bound: Bound) -> bool
    ensures { result ≡ client.fits _region _remote bound }
{
    bound == Bound::South
}

/// Whether the region has one face at most.
pub(crate) fn has_one_face() -> bool
    ensures { result ≡ client.has_one_face }
{
    true
}

/// Whether interests of a remote of this mode are taken.
pub(crate) fn takes_interests(_remote: WhatAmI) -> bool
    ensures { result ≡ client.takes_interests _remote }
{
    false
}

/// Whether a new face has an initial interest.
pub(crate) fn has_initial(_region: Region, _bound: Bound) -> bool
    ensures { result ≡ client.has_initial _region _bound }
{
    false
}

/// Whether the region's faces are shown each other's tokens.
pub(crate) fn shares_tokens() -> bool
    ensures { result ≡ client.shares_tokens }
{
    false
}

/// Whether faces are told of each token that they are shown, whether they ask or not.
pub(crate) fn is_told_unasked(_region: Region) -> bool
    ensures { result ≡ client.is_told_unasked _region }
{
    true
}

/// Whether a face that asks for a token and wasn't told of it is told that it is gone.
/// Nothing is asked from above, so this isn't seen.
pub(crate) fn undeclares_untold() -> bool
    ensures { result ≡ client.undeclares_untold }
{
    false
}

/// Whether tokens go along trees instead, each from its router.
pub(crate) fn goes_by_trees() -> bool
    ensures { result ≡ client.goes_by_trees }
{
    false
}

/// Whether interests of the south go to a face whose remote has this bound.
pub(crate) fn leads_up(_bound: Bound) -> bool
    ensures { result ≡ client.leads_up _bound }
{
    true
}

/// Whether an interest of mode Current is sent only to the lowest of the faces that it may go to.
/// The one face is asked all.
pub(crate) fn asks_one() -> bool
    ensures { result ≡ client.asks_one }
{
    false
}

/// What a face that declares a token is listed as.
pub(crate) fn kind_of(remote: WhatAmI) -> WhatAmI
    ensures { result ≡ client.kind_of remote }
{
    remote
}
