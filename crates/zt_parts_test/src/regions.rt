//! Each row of each table once, with the answers written out by hand.
ghost use Rattle.std.specs.Prelude.{◌≤◌};
ghost use Rattle.zt_region.specs.South.{subregion_count};

use std::alloc::Global;
use std::test::Fail;
use zt_region::{
    Admission, Bound, Region, RegionError, SouthConf, Subregion, TransportPeer, WhatAmI, Zid,
    compute_multicast_region, compute_multicast_region_of, compute_region_of,
    compute_transient_bound_of,
};

/// Own mode, the remote's mode, the remote's transient bound, the answer.
type Row = (
    WhatAmI,
    WhatAmI,
    Option<Bound>,
    Result<(Region, Bound), RegionError>,
);

const ROUTER: WhatAmI = WhatAmI::Router;

const PEER: WhatAmI = WhatAmI::Peer;

const CLIENT: WhatAmI = WhatAmI::Client;

const NORTH: Option<Bound> = Some(Bound::North);

const SOUTH: Option<Bound> = Some(Bound::South);

const BOTH_NORTH: Result<(Region, Bound), RegionError> = Ok((Region::North, Bound::North));

const UNDER_REMOTE: Result<(Region, Bound), RegionError> = Ok((Region::North, Bound::South));

const OVER_PEER: Result<(Region, Bound), RegionError> = Ok((
    Region::South {
        id: 0,
        mode: WhatAmI::Peer,
    },
    Bound::North,
));

const OVER_CLIENT: Result<(Region, Bound), RegionError> = Ok((
    Region::South {
        id: 0,
        mode: WhatAmI::Client,
    },
    Bound::North,
));

const AUTO: [Row; 18] = [
    (ROUTER, PEER, None, OVER_PEER),
    (ROUTER, CLIENT, None, OVER_CLIENT),
    (PEER, CLIENT, None, OVER_CLIENT),
    (ROUTER, ROUTER, None, BOTH_NORTH),
    (PEER, PEER, None, BOTH_NORTH),
    (PEER, ROUTER, None, UNDER_REMOTE),
    (CLIENT, ROUTER, None, UNDER_REMOTE),
    (CLIENT, PEER, None, UNDER_REMOTE),
    (CLIENT, CLIENT, None, Err(RegionError::ClientClient)),
    (CLIENT, CLIENT, SOUTH, UNDER_REMOTE),
    (ROUTER, PEER, SOUTH, UNDER_REMOTE),
    (CLIENT, CLIENT, NORTH, Err(RegionError::ClientClient)),
    (
        CLIENT,
        ROUTER,
        NORTH,
        Err(RegionError::RemoteConflictsWithAuto),
    ),
    (ROUTER, CLIENT, NORTH, OVER_CLIENT),
    (ROUTER, ROUTER, NORTH, BOTH_NORTH),
    (PEER, PEER, NORTH, BOTH_NORTH),
    (PEER, CLIENT, NORTH, OVER_CLIENT),
    (
        PEER,
        ROUTER,
        NORTH,
        Err(RegionError::RemoteConflictsWithAuto),
    ),
];

/// Where the own configuration lists no subregion that the remote matches.
const OWN_NORTH: [Row; 9] = [
    (CLIENT, CLIENT, None, Err(RegionError::ClientClient)),
    (ROUTER, PEER, None, Err(RegionError::AutoConflictsWithOwn)),
    (PEER, CLIENT, None, Err(RegionError::AutoConflictsWithOwn)),
    (PEER, PEER, None, BOTH_NORTH),
    (CLIENT, PEER, None, UNDER_REMOTE),
    (PEER, ROUTER, NORTH, Err(RegionError::NorthModesDiffer)),
    (CLIENT, CLIENT, NORTH, BOTH_NORTH),
    (ROUTER, CLIENT, SOUTH, UNDER_REMOTE),
    (CLIENT, CLIENT, SOUTH, UNDER_REMOTE),
];

/// Where the remote matches the first subregion of the own configuration.
const OWN_SOUTH: [Row; 7] = [
    (CLIENT, PEER, None, OVER_PEER),
    (CLIENT, CLIENT, NORTH, OVER_CLIENT),
    (PEER, PEER, SOUTH, Err(RegionError::SouthSouth)),
    (PEER, ROUTER, None, Err(RegionError::RouterUnderNonRouter)),
    (
        CLIENT,
        ROUTER,
        SOUTH,
        Err(RegionError::RouterUnderNonRouter),
    ),
    (
        ROUTER,
        ROUTER,
        NORTH,
        Ok((
            Region::South {
                id: 0,
                mode: WhatAmI::Router,
            },
            Bound::North,
        )),
    ),
    (ROUTER, ROUTER, SOUTH, Err(RegionError::SouthSouth)),
];

const MULTICAST: [(WhatAmI, WhatAmI, Result<(Region, Bound), RegionError>); 9] = [
    (PEER, PEER, BOTH_NORTH),
    (ROUTER, PEER, OVER_PEER),
    (PEER, ROUTER, UNDER_REMOTE),
    (ROUTER, ROUTER, Err(RegionError::MulticastLimit)),
    (ROUTER, CLIENT, Err(RegionError::MulticastLimit)),
    (PEER, CLIENT, Err(RegionError::MulticastLimit)),
    (CLIENT, ROUTER, Err(RegionError::MulticastLimit)),
    (CLIENT, PEER, Err(RegionError::MulticastLimit)),
    (CLIENT, CLIENT, Err(RegionError::MulticastLimit)),
];

fn bare_peer(alloc: Global, whatami: WhatAmI) -> TransportPeer {
    TransportPeer {
        zid: Zid(7),
        whatami,
        links: Vec::new(alloc),
        region_name: None,
    }
}

// The number of the first row that comes out otherwise.
fn first_wrong(alloc: Global, south: &SouthConf, rows: &[Row]) -> Option<usize>
    requires { subregion_count south.now ≤ 2 }
{
    for (at, (own, remote, remote_bound, expected)) in rows.iter().enumerate() {
        let peer = bare_peer(alloc, *remote);
        if compute_region_of(&peer, *own, south, *remote_bound) != *expected {
            return Some(at);
        }
    }
    None
}

#[test]
fn tables(rt: HostRuntime) -> Result<(), Fail> {
    let alloc = rt.alloc();
    assert_eq!(rt; first_wrong(alloc, &SouthConf::Auto, &AUTO), None);
    assert_eq!(rt;
        first_wrong(alloc, &SouthConf::Custom(Vec::new(alloc)), &OWN_NORTH),
        None
    );
    let subregions = vec![in alloc; Subregion { filters: None }]?;
    assert_eq!(rt;
        first_wrong(alloc, &SouthConf::Custom(subregions), &OWN_SOUTH),
        None
    );
    let bare = bare_peer(alloc, ROUTER);
    assert!(rt; compute_transient_bound_of(&bare, PEER, &SouthConf::Auto) == Ok(None));
    Ok(())
}

#[test]
fn multicast(rt: HostRuntime) {
    for (own, remote, expected) in &MULTICAST {
        assert!(rt;
            compute_multicast_region_of(*remote, *own) == *expected,
            "{own:?} {remote:?}"
        );
    }
    assert!(rt; compute_multicast_region(PEER) == Ok(Region::North));
    assert!(rt; compute_multicast_region(ROUTER) == Ok(Region::default_south(PEER)));
    assert!(rt; compute_multicast_region(CLIENT) == Err(RegionError::MulticastLimit));
}

#[test]
fn admission(rt: HostRuntime) -> Result<(), Fail> {
    let south = Region::default_south(CLIENT);
    let refused = vec![in rt.alloc(); (Region::North, south), (south, Region::Local)]?;
    let admission = Admission { refused };
    assert!(rt; !admission.admits(south, Region::Local));
    assert!(rt; !admission.admits(Region::North, south));
    assert!(rt; admission.admits(Region::Local, south));
    assert!(rt; admission.admits(Region::North, Region::Local));
    assert!(rt; admission.admits(Region::North, Region::default_south(PEER)));
    Ok(())
}
