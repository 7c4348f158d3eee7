ghost use Rattle.std.specs.Prelude.{◌≡◌, IfOk};
ghost use Rattle.zt_protocol.specs.Plain.{trees_of};

use crate::{InterestId, InterestMode, InterestOptions, QueryableInfo, TokenId};
use std::alloc::Global;
use zt_keys::Memory;
use zt_region::{Bound, NodeId, Region, WhatAmI, Zid};

/// The trees of a router region, as its gateway is handed them.
#[derive(PartialEq, Eq, Debug, Drop)]
pub struct TreeTable {
    /// The gateway's own node ids, each with its router.
    pub routers: Vec<(NodeId, Zid)>,
    /// For a face, a node id of the router behind it and the router that it means.
    pub links: Vec<(u32, NodeId, Zid)>,
    /// A source, and a router to which its tokens go on.
    pub children: Vec<(Zid, Zid)>,
}

impl TreeTable {
    /// A table with the same entries, in the same order.
    pub fn copy(&self, alloc: Global) -> Result<TreeTable, Memory>
        ensures { IfOk result (λ copy. trees_of copy ≡ trees_of self.now) }
    {
        Ok(TreeTable {
            routers: self.routers.to_vec(alloc)?,
            links: self.links.to_vec(alloc)?,
            children: self.children.to_vec(alloc)?,
        })
    }
}

/// One call on a gateway, with the fields that the call takes.
#[derive(PartialEq, Eq, Debug, Drop)]
pub enum Call<K> {
    /// Opens a session, whose first id is at least 1.
    NewSession {
        first: u32,
    },
    /// Opens the face of a transport, whose first id is at least 1.
    NewTransport {
        zid: Zid,
        whatami: WhatAmI,
        region: Region,
        remote_bound: Bound,
        first: u32,
    },
    /// The face declares that a token is alive, or that it is in answer to an interest.
    DeclareToken {
        face: u32,
        id: TokenId,
        expr: K,
        node_id: NodeId,
        interest_id: Option<InterestId>,
    },
    /// The face's token under the id is gone, or where no such one is there that of the expression.
    UndeclareToken {
        face: u32,
        id: TokenId,
        expr: Option<K>,
        node_id: NodeId,
    },
    /// The face asks for what matches the expression, or without one for all.
    Interest {
        face: u32,
        id: InterestId,
        mode: InterestMode,
        options: InterestOptions,
        expr: Option<K>,
    },
    /// The face ends an interest that it holds.
    InterestFinal {
        face: u32,
        id: InterestId,
    },
    /// The face has answered all that an interest asked for that is there now.
    DeclareFinal {
        face: u32,
        interest_id: InterestId,
    },
    /// The face is closed, and all that it declared and asked for is gone.
    CloseFace {
        face: u32,
    },
    /// Sets the gateway's moment and ends what has waited for the timeout.
    Expire {
        now: u64,
    },
    /// Hands the trees of a router region.
    SetTrees {
        region: Region,
        table: TreeTable,
    },
    /// Replaces the subscribers and queryables of a face.
    SetEntities {
        face: u32,
        subscribers: Vec<K>,
        queryables: Vec<(K, QueryableInfo)>,
    },
}
