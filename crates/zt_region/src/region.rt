//! The types, and what a region or an admission table says by itself.
ghost use Rattle.std.specs.Prelude.{◌≡◌, ◌↔◌, IsFalse, Contains};
ghost use Rattle.zt_region.specs.Admission.{admits, is_pair};
ghost use Rattle.zt_region.specs.Region.{bound_of, default_south_of};
ghost use Rattle.zt_region.specs.RegionError.{error_number};

/// The mode of a node.
#[derive(Clone, Copy, PartialEq, Eq, PartialOrd, Ord, Hash, Debug)]
pub enum WhatAmI {
    Router,
    Peer,
    Client,
}

/// The number of a node, the same wherever the node is spoken of. It is at least 1.
#[derive(Clone, Copy, PartialEq, Eq, PartialOrd, Ord, Debug)]
pub struct Zid(pub u128);

/// A node's number in one tree table of a router region; another table may number it otherwise.
pub type NodeId = u16;

/// A side of a gateway: North leads to the network that it joins, South to the nodes below it.
#[derive(Clone, Copy, PartialEq, Eq, PartialOrd, Ord, Hash, Debug)]
pub enum Bound {
    North,
    South,
}

/// A region of a gateway. Every face belongs to one: to the network above, to the sessions in the
/// gateway's own process, or to one of the subregions below.
#[derive(Clone, Copy, PartialEq, Eq, PartialOrd, Ord, Hash, Debug)]
pub enum Region {
    North,
    Local,
    /// `id` is the subregion's position in the south configuration, 0 where regions are found
    /// automatically; `mode` is the mode of the nodes in it.
    South { id: u32, mode: WhatAmI },
}

impl Region {
    /// The side that the region lies on: North is the one north-bound region.
    pub fn bound(&self) -> Bound
        ensures { result ≡ bound_of self.now }
    {
        match self {
            Region::North => Bound::North,
            Region::Local | Region::South { .. } => Bound::South,
        }
    }

    /// The region of remotes of this mode where no subregion is configured.
    pub fn default_south(mode: WhatAmI) -> Region
        ensures { result ≡ default_south_of mode }
    {
        Region::South { id: 0, mode }
    }
}

/// The network interfaces, by name, that one link of a peer goes over.
#[derive(PartialEq, Eq, Debug, Drop)]
pub struct Interfaces {
    pub names: Vec<String>,
}

/// What the region rules read of the node at the other end of a transport.
#[derive(PartialEq, Eq, Debug, Drop)]
pub struct TransportPeer {
    pub zid: Zid,
    pub whatami: WhatAmI,
    pub links: Vec<Interfaces>,
    /// The region that the peer says it belongs to.
    pub region_name: Option<String>,
}

/// A condition on a peer. It holds if all of its parts that are there hold; an absent part holds.
#[derive(PartialEq, Eq, Debug, Drop)]
pub struct Filter {
    /// The peer's zid is listed.
    pub zids: Option<Vec<Zid>>,
    /// Every interface of every link is listed, so this holds of a peer without links.
    pub interfaces: Option<Vec<String>>,
    /// The peer's mode is listed.
    pub modes: Option<Vec<WhatAmI>>,
    /// The peer has a region name and it is listed.
    pub region_names: Option<Vec<String>>,
    /// Turns the result of all parts together.
    pub negated: bool,
}

/// A south region that a configuration lists. Peers belong to it of which one of its filters holds.
#[derive(PartialEq, Eq, Debug, Drop)]
pub struct Subregion {
    /// `None` takes every peer, an empty list takes none.
    pub filters: Option<Vec<Filter>>,
}

/// How a gateway finds the region of a peer.
#[derive(PartialEq, Eq, Debug, Drop)]
pub enum SouthConf {
    /// By the modes of both nodes alone.
    Auto,
    /// A peer belongs to the first subregion that takes it, or else to North. Fewer than 2^32
    /// subregions may be listed, since the position becomes the region's id.
    Custom(Vec<Subregion>),
}

/// The pairs (source, destination) of regions that are refused: a token declared in the source
/// isn't told to faces of the destination. Stands for Zenoh's filter between regions.
#[derive(PartialEq, Eq, Debug, Drop)]
pub struct Admission {
    pub refused: Vec<(Region, Region)>,
}

impl Admission {
    /// Whether tokens of `src` may be told to `dst`: false exactly where the pair is listed.
    pub fn admits(&self, src: Region, dst: Region) -> bool
        ensures answer { result ≡ admits self.now.refused.items src dst }
        ensures refused { IsFalse result ↔ Contains self.now.refused.items (src, dst) }
    {
        !self.refused.iter().any(|pair| is_refusal(pair, src, dst))
    }
}

fn is_refusal(pair: &(Region, Region), src: Region, dst: Region) -> bool
    ensures { result ≡ is_pair src dst pair.now }
{
    pair.0 == src && pair.1 == dst
}

/// Why a peer has no region. Zenoh answers a text in its place.
#[derive(Clone, Copy, PartialEq, Eq, Debug)]
pub enum RegionError {
    /// A router matches a subregion of a node that is no router.
    RouterUnderNonRouter,
    /// Two clients, and neither side's configuration places the other.
    ClientClient,
    /// The remote puts this node into North, where the modes say South.
    RemoteConflictsWithAuto,
    /// The own configuration puts the remote into North, where the modes say South.
    AutoConflictsWithOwn,
    /// Each side puts the other into North, and the modes differ.
    NorthModesDiffer,
    /// Each side puts the other into a south region.
    SouthSouth,
    /// A multicast group that has no region at these modes.
    MulticastLimit,
}

impl RegionError {
    /// The number of the error, from 1 to 7 in the order above.
    pub fn number(&self) -> u8
        ensures { result ≡ error_number self.now }
    {
        match self {
            RegionError::RouterUnderNonRouter => 1,
            RegionError::ClientClient => 2,
            RegionError::RemoteConflictsWithAuto => 3,
            RegionError::AutoConflictsWithOwn => 4,
            RegionError::NorthModesDiffer => 5,
            RegionError::SouthSouth => 6,
            RegionError::MulticastLimit => 7,
        }
    }
}
