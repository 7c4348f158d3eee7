use crate::{Call, TreeTable};
use zt_region::{Admission, Bound, Region, SouthConf, WhatAmI, Zid};

/// One line of a script. Gateways, links and faces are numbered from 1 in order of making. A face's
/// first id, under which it is told its first token, is at least 1.
#[derive(PartialEq, Eq, Debug, Drop)]
pub enum Line<K> {
    /// Makes a gateway. `regions` are its south regions beside the local one, `south` says which
    /// region a link's face is of, `timeout` how long an interest that was sent on may wait,
    /// `refuse` which regions' tokens others aren't told.
    Gateway {
        mode: WhatAmI,
        zid: Zid,
        regions: Vec<Region>,
        south: SouthConf,
        name: Option<String>,
        timeout: u64,
        refuse: Admission,
    },
    /// Opens a session at a gateway.
    Session {
        gateway: u32,
        first: u32,
    },
    /// Opens a face of a gateway that ends no link.
    Face {
        gateway: u32,
        mode: WhatAmI,
        zid: Zid,
        region: Region,
        bound: Bound,
        first: u32,
    },
    /// Joins two gateways: a face at each, whose first ids are `first` and `back`.
    Link {
        one: u32,
        two: u32,
        first: u32,
        back: u32,
    },
    /// Closes a link, and the faces at its ends.
    Unlink {
        link: u32,
    },
    /// Delivers the oldest message that waits in one direction of a link.
    Step {
        link: u32,
        back: bool,
    },
    /// A face speaks, or is closed.
    Speak {
        call: Call<K>,
    },
    /// Sets a gateway's moment.
    Moment {
        gateway: u32,
        now: u64,
    },
    /// Hands a gateway the trees of a router region.
    Trees {
        gateway: u32,
        region: Region,
        table: TreeTable,
    },
}
