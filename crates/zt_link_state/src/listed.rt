// The routers that a table lists, to be looked up before the table is kept.
ghost use Rattle.std.specs.Prelude.{◌≡◌};
ghost use Rattle.zt_link_state.specs.Listed.{is_among};

use std::collections::HashMap;
use zt_region::{NodeId, Zid};

/// Whether a router is among those that are listed. A look-up.
pub fn is_listed(listed: &HashMap<Zid, NodeId>, zid: Zid) -> bool
    ensures { result ≡ is_among zid listed.now.entries }
{
    listed.contains_key(&zid)
}
