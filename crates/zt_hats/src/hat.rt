//! The hat of a region, and what it answers.
ghost use Rattle.std.specs.Prelude.{◌≡◌};
ghost use Rattle.zt_model.specs.Strategy.{strategy_of, north_strategy};
ghost use Rattle.zt_hats.specs.Rules.{rules, strategy};

use crate::{broker, client, peer, router};
use zt_region::{Bound, Region, WhatAmI};

/// The strategy of a region: which of the four files beside this one answers.
#[derive(Clone, Copy, PartialEq, Eq, Debug)]
pub enum Hat {
    Broker,
    Client,
    Peer,
    Router,
}

/// The hat of north, which is that of the gateway's mode.
pub fn north_hat(mode: WhatAmI) -> Hat
    ensures { strategy result ≡ north_strategy mode }
{
    match mode {
        WhatAmI::Router => Hat::Router,
        WhatAmI::Peer => Hat::Peer,
        WhatAmI::Client => Hat::Client,
    }
}

/// The hat of a region of a gateway of this mode: north has that of the gateway's mode, sessions
/// and clients of the south are served by a broker, and other south regions have the hat of the
/// nodes in them.
pub fn hat_of(mode: WhatAmI, region: Region) -> Hat
    ensures { strategy result ≡ strategy_of mode region }
{
    match region {
        Region::North => north_hat(mode),
        Region::Local => Hat::Broker,
        Region::South { mode, .. } => match mode {
            WhatAmI::Router => Hat::Router,
            WhatAmI::Peer => Hat::Peer,
            WhatAmI::Client => Hat::Broker,
        },
    }
}

impl Hat {
    /// Whether a remote of this mode and bound may have a face of the region: Zenoh's assertions in
    /// each hat's `new_transport_unicast_face`, and what `compute_region_of` answers.
    pub fn fits(self, region: Region, remote: WhatAmI, bound: Bound) -> bool
        ensures { result ≡ (rules self).fits region remote bound }
    {
        match self {
            Hat::Broker => broker::fits(region, remote, bound),
            Hat::Client => client::fits(region, remote, bound),
            Hat::Peer => peer::fits(region, remote, bound),
            Hat::Router => router::fits(region, remote, bound),
        }
    }

    /// Whether the region has one face at most: an assertion of `hat/client`.
    pub fn has_one_face(self) -> bool
        ensures { result ≡ (rules self).has_one_face }
    {
        match self {
            Hat::Broker => broker::has_one_face(),
            Hat::Client => client::has_one_face(),
            Hat::Peer => peer::has_one_face(),
            Hat::Router => router::has_one_face(),
        }
    }

    /// Whether interests of a remote of this mode are taken: the assertions of each `interests.rs`.
    pub fn takes_interests(self, remote: WhatAmI) -> bool
        ensures { result ≡ (rules self).takes_interests remote }
    {
        match self {
            Hat::Broker => broker::takes_interests(remote),
            Hat::Client => client::takes_interests(remote),
            Hat::Peer => peer::takes_interests(remote),
            Hat::Router => router::takes_interests(remote),
        }
    }

    /// Whether a new face has an initial interest: `do_initial_interest` of `hat/peer`.
    pub fn has_initial(self, region: Region, bound: Bound) -> bool
        ensures { result ≡ (rules self).has_initial region bound }
    {
        match self {
            Hat::Broker => broker::has_initial(region, bound),
            Hat::Client => client::has_initial(region, bound),
            Hat::Peer => peer::has_initial(region, bound),
            Hat::Router => router::has_initial(region, bound),
        }
    }

    /// Whether the region's faces are shown each other's tokens: `propagate_token`, which in
    /// `hat/broker` does not ask who owns the source.
    pub fn shares_tokens(self) -> bool
        ensures { result ≡ (rules self).shares_tokens }
    {
        match self {
            Hat::Broker => broker::shares_tokens(),
            Hat::Client => client::shares_tokens(),
            Hat::Peer => peer::shares_tokens(),
            Hat::Router => router::shares_tokens(),
        }
    }

    /// Whether faces are told of each token that they are shown, from their opening on, whether they
    /// ask or not: `maybe_propagate_token` and `repropagate_tokens`.
    pub fn is_told_unasked(self, region: Region) -> bool
        ensures { result ≡ (rules self).is_told_unasked region }
    {
        match self {
            Hat::Broker => broker::is_told_unasked(region),
            Hat::Client => client::is_told_unasked(region),
            Hat::Peer => peer::is_told_unasked(region),
            Hat::Router => router::is_told_unasked(region),
        }
    }

    /// Whether a face that asks for a token and wasn't told of it is told all the same that it is
    /// gone, by expression: the second branch of `maybe_unpropagate_token`.
    pub fn undeclares_untold(self) -> bool
        ensures { result ≡ (rules self).undeclares_untold }
    {
        match self {
            Hat::Broker => broker::undeclares_untold(),
            Hat::Client => client::undeclares_untold(),
            Hat::Peer => peer::undeclares_untold(),
            Hat::Router => router::undeclares_untold(),
        }
    }

    /// Whether tokens go along trees instead, each from its router: `hat/router/token.rs`.
    pub fn goes_by_trees(self) -> bool
        ensures { result ≡ (rules self).goes_by_trees }
    {
        match self {
            Hat::Broker => broker::goes_by_trees(),
            Hat::Client => client::goes_by_trees(),
            Hat::Peer => peer::goes_by_trees(),
            Hat::Router => router::goes_by_trees(),
        }
    }

    /// Whether interests of the south go to a face whose remote has this bound, where the region is
    /// north: `route_interest`, `repropagate_interests`, `route_interest_final`.
    pub fn leads_up(self, bound: Bound) -> bool
        ensures { result ≡ (rules self).leads_up bound }
    {
        match self {
            Hat::Broker => broker::leads_up(bound),
            Hat::Client => client::leads_up(bound),
            Hat::Peer => peer::leads_up(bound),
            Hat::Router => router::leads_up(bound),
        }
    }

    /// Whether an interest of mode Current is sent only to the lowest of the faces that it may go to,
    /// beside those that await their initial final: `route_interest` of `hat/peer`.
    pub fn asks_one(self) -> bool
        ensures { result ≡ (rules self).asks_one }
    {
        match self {
            Hat::Broker => broker::asks_one(),
            Hat::Client => client::asks_one(),
            Hat::Peer => peer::asks_one(),
            Hat::Router => router::asks_one(),
        }
    }

    /// What a face that declares a token is listed as: `sourced_tokens`.
    pub fn kind_of(self, remote: WhatAmI) -> WhatAmI
        ensures { result ≡ (rules self).kind_of remote }
    {
        match self {
            Hat::Broker => broker::kind_of(remote),
            Hat::Client => client::kind_of(remote),
            Hat::Peer => peer::kind_of(remote),
            Hat::Router => router::kind_of(remote),
        }
    }
}
