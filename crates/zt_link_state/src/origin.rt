// Where the tokens of router regions come from.
ghost use Rattle.std.specs.Prelude.{◌≡◌};
ghost use Rattle.zt_model.specs.Trees.{counted_table};
ghost use Rattle.zt_link_state.specs.Routed.{is_left_out};

use crate::KeptTable;
use zt_region::{Region, Zid};

/// Where a token comes from: a router region, and the router that declares it there. The gateway's
/// own tokens come from its own number.
#[derive(Clone, Copy, PartialEq, Eq, PartialOrd, Ord, Debug)]
pub struct Origin {
    pub region: Region,
    pub source: Zid,
}

/// Whether the origin is of the region, and its router isn't listed by the region's table.
pub fn is_left_out(region: Region, table: &KeptTable, origin: Origin) -> bool
    ensures { result ≡ is_left_out region (counted_table table.now) origin }
{
    region == origin.region && !table.lists(origin.source)
}
