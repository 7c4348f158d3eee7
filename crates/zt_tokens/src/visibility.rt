// The visible expressions.
ghost use Rattle.std.specs.Prelude.{◌≡◌, filter, IfOk};
ghost use Rattle.zt_model.specs.Visible.{visible_expressions};

use crate::questions::ShownTo;
use std::alloc::Global;
use zt_keys::{Key, Memory};
use zt_region::Region;
use zt_state::GatewayState;

/// The expressions that are visible to faces of a region, in key order, each once.
pub fn visible_expressions<K: Key>(
    alloc: Global,
    g: &GatewayState<K>,
    own: Region,
) -> Result<Vec<K>, Memory>
    ensures { IfOk result (λ exprs. exprs.items ≡ visible_expressions K.cmp g.now own) }
{
    let mode = g.mode();
    g.live().shown_keys(alloc, &ShownTo { mode, own })
}

/// The expressions that match the key and are visible to faces of a region, in key order, each
/// once.
pub fn visible_matches<K: Key>(
    alloc: Global,
    g: &GatewayState<K>,
    own: Region,
    key: &K,
) -> Result<Vec<K>, Memory>
    ensures { IfOk result (λ exprs. exprs.items
        ≡ filter (K.matching key.now) (visible_expressions K.cmp g.now own)) }
{
    let mode = g.mode();
    g.live().matching_keys(alloc, &ShownTo { mode, own }, key)
}
