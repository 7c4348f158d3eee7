// Numbers for nodes: their modes, their own numbers, and the sides of a gateway.
ghost use Rattle.std.specs.Prelude.{◌≡◌};
ghost use Rattle.zt_engine.specs.Numbers.{bound_of, node_of, remote_of, whatami_of, zid_of};

use zt_region::{Bound, WhatAmI, Zid};

// A node: its number and its mode.
#[derive(Clone, Copy)]
pub(crate) struct Node {
    pub zid: Zid,
    pub mode: WhatAmI,
}

// A gateway above, with its bound to this one.
#[derive(Clone, Copy)]
pub(crate) struct Remote {
    pub node: Node,
    pub bound: Bound,
}

fn whatami_of(number: u32) -> Option<WhatAmI>
    ensures { result ≡ whatami_of number }
{
    if number == 1 {
        return Some(WhatAmI::Router);
    }
    if number == 2 {
        return Some(WhatAmI::Peer);
    }
    if number == 4 {
        return Some(WhatAmI::Client);
    }
    None
}

fn bound_of(number: u32) -> Option<Bound>
    ensures { result ≡ bound_of number }
{
    if number == 1 {
        return Some(Bound::North);
    }
    if number == 2 {
        return Some(Bound::South);
    }
    None
}

// The number of a node in two halves. It is at least 1.
fn zid_of(high: u64, low: u64) -> Option<Zid>
    ensures { result ≡ zid_of high low }
{
    let zid = u128::from(high) * 0x1_0000_0000_0000_0000 + u128::from(low);
    if zid == 0 {
        return None;
    }
    Some(Zid(zid))
}

pub(crate) fn node_of(high: u64, low: u64, mode: u32) -> Option<Node>
    ensures { result ≡ node_of high low mode }
{
    let zid = zid_of(high, low)?;
    let mode = whatami_of(mode)?;
    Some(Node { zid, mode })
}

pub(crate) fn remote_of(high: u64, low: u64, mode: u32, bound: u32) -> Option<Remote>
    ensures { result ≡ remote_of high low mode bound }
{
    let node = node_of(high, low, mode)?;
    let bound = bound_of(bound)?;
    Some(Remote { node, bound })
}
