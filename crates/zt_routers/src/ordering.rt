// Expressions in order.
ghost use Rattle.std.specs.Prelude.{◌≡◌, IfOk, OnOk};
ghost use Rattle.zt_model.specs.Trees.{counted_table, left_out, routed_expressions};
ghost use Rattle.zt_link_state.specs.Routed.{rows_of};
ghost use Rattle.zt_routers.specs.LeftOut.{exprs_left_out};
ghost use Rattle.zt_tokens.specs.Gathered.{with_keys};

use std::alloc::Global;
use std::collections::BTreeSet;
use zt_keys::{Key, Memory};
use zt_link_state::{KeptTable, Origin, is_left_out};
use zt_region::{Region, Zid};
use zt_state::GatewayState;
use zt_tokens::KeysInOrder;

// Puts keys in their places among those in order.
fn add_keys<K: Key>(
    alloc: Global,
    keys: &BTreeSet<K>,
    exprs: &mut KeysInOrder<K>,
) -> Result<(), Memory>
    ensures { OnOk result (exprs.new ≡ with_keys K.cmp keys.now.keys exprs.old) }
{
    for key in keys.iter().rev() {
        exprs.insert(alloc, key)?;
    }
    Ok(())
}

// Puts the keys of an origin in their places among those in order, if the table leaves the origin
// out.
fn add_left_out<K: Key>(
    alloc: Global,
    region: Region,
    table: &KeptTable,
    origin: Origin,
    keys: &BTreeSet<K>,
    exprs: &mut KeysInOrder<K>,
) -> Result<(), Memory>
    ensures { OnOk result (exprs.new
        ≡ with_keys K.cmp (exprs_left_out K.cmp region (counted_table table.now)
        (rows_of (origin, keys.now))) exprs.old) }
{
    if is_left_out(region, table, origin) {
        add_keys(alloc, keys, exprs)?;
    }
    Ok(())
}

/// The expressions of a region's rows whose source the region's table doesn't list, in key order.
pub fn left_out<K: Key>(
    alloc: Global,
    g: &GatewayState<K>,
    region: Region,
    table: &KeptTable,
) -> Result<Vec<K>, Memory>
    ensures { IfOk result (λ exprs. exprs.items
        ≡ left_out K.cmp region (counted_table table.now) g.now) }
{
    let mut exprs = KeysInOrder::new(alloc);
    for (origin, keys) in g.routed().by_origin().iter().rev() {
        add_left_out(alloc, region, table, *origin, keys, &mut exprs)?;
    }
    exprs.into_vec(alloc)
}

// The expressions of a source's rows in a region, in key order.
pub(crate) fn routed_expressions<K: Key>(
    alloc: Global,
    g: &GatewayState<K>,
    region: Region,
    source: Zid,
) -> Result<Vec<K>, Memory>
    ensures { IfOk result (λ exprs. exprs.items
        ≡ routed_expressions K.cmp g.now region source) }
{
    g.routed().expressions(alloc, region, source)
}
