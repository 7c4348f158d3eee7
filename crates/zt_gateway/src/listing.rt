// Who declares tokens in a region: the rows of its faces, or of its routers.
ghost use Rattle.std.specs.Prelude.{◌≡◌, ◌++◌, map, IfOk, OnOk};
ghost use Rattle.std.specs.List.{flat_map};
ghost use Rattle.zt_gateway.specs.Declarers.{face_rows, router_row, router_rows};
ghost use Rattle.zt_hats.specs.Rules.{strategy};
ghost use Rattle.zt_model.specs.Sourced.{rows_sourced};
ghost use Rattle.zt_model.specs.Sourced.{rows_sourced_by_faces, rows_sourced_by_routers};
ghost use Rattle.zt_model.specs.Strategy.{strategy_of};
ghost use Rattle.zt_link_state.specs.Routed.{rows_of};

use std::alloc::Global;
use std::collections::BTreeSet;
use std::marker::Model;
use zt_hats::{Hat, hat_of};
use zt_keys::{Key, Memory};
use zt_link_state::Origin;
use zt_region::{Region, WhatAmI, Zid};
use zt_state::{FaceState, GatewayState, RowsById};

// A declarer's token: what the declarer is listed as, its number and the expression.
#[derive(Drop)]
pub(crate) struct SourcedToken<K: Key> {
    kind: WhatAmI,
    zid: Zid,
    expr: K,
}

impl<K: Key> Model for SourcedToken<K> {
    ghost use Rattle.zt_model.specs.Sourced.{SourcedRow};

    ghost Value = { SourcedRow K };

    ghost view = { λ r. record { kind = r.kind; zid = r.zid; expr = r.expr } };
}

impl<K: Key> SourcedToken<K> {
    // As what the declarer is listed.
    pub(crate) fn kind(&self) -> WhatAmI
        ensures { result ≡ self.now.kind }
    {
        self.kind
    }

    // The declarer's number.
    pub(crate) fn zid(&self) -> Zid
        ensures { result ≡ self.now.zid }
    {
        self.zid
    }

    // The expression that it declares.
    pub(crate) fn expr(&self) -> &K
        ensures { result.now ≡ self.now.expr }
    {
        &self.expr
    }
}

// Adds the tokens of a face.
fn add_live<K: Key>(
    alloc: Global,
    kind: WhatAmI,
    zid: Zid,
    live: &RowsById<K>,
    rows: &mut Vec<SourcedToken<K>>,
) -> Result<(), Memory>
    ensures { OnOk result (rows.new.items
        ≡ rows.old.items ++ map (λ row. record { kind = kind; zid = zid; expr = row.1 }) live.now) }
{
    for (_, expr) in live.iter() {
        rows.push(SourcedToken {
            kind,
            zid,
            expr: expr.copy(alloc)?,
        })?;
    }
    Ok(())
}

// Adds the tokens of a face, where it is of the region, which has this hat.
fn add_face<K: Key>(
    alloc: Global,
    hat: Hat,
    region: Region,
    f: &FaceState<K>,
    rows: &mut Vec<SourcedToken<K>>,
) -> Result<(), Memory>
    ensures { OnOk result
        (rows.new.items ≡ rows.old.items ++ face_rows (strategy hat) region f.now) }
{
    if f.region() == region {
        let kind = hat.kind_of(f.mode());
        add_live(alloc, kind, f.zid(), f.live(), rows)?;
    }
    Ok(())
}

// The tokens of the faces of a region that has this hat.
fn rows_of_faces<K: Key>(
    alloc: Global,
    g: &GatewayState<K>,
    hat: Hat,
    region: Region,
) -> Result<Vec<SourcedToken<K>>, Memory>
    ensures { IfOk result (λ rows. rows.items
        ≡ rows_sourced_by_faces K.cmp (strategy hat) g.now region) }
{
    let mut rows = Vec::new(alloc);
    for f in g.faces() {
        add_face(alloc, hat, region, f, &mut rows)?;
    }
    Ok(rows)
}

// Adds a router's tokens of these expressions.
fn add_keys<K: Key>(
    alloc: Global,
    source: Zid,
    keys: &BTreeSet<K>,
    rows: &mut Vec<SourcedToken<K>>,
) -> Result<(), Memory>
    ensures { OnOk result (rows.new.items ≡ rows.old.items
        ++ map (router_row source) keys.now.keys) }
{
    for expr in keys {
        rows.push(SourcedToken {
            kind: WhatAmI::Router,
            zid: source,
            expr: expr.copy(alloc)?,
        })?;
    }
    Ok(())
}

// Adds a router's tokens, where they are of the region and not the gateway's own.
fn add_origin<K: Key>(
    alloc: Global,
    own: Zid,
    region: Region,
    origin: Origin,
    keys: &BTreeSet<K>,
    rows: &mut Vec<SourcedToken<K>>,
) -> Result<(), Memory>
    ensures { OnOk result (rows.new.items ≡ rows.old.items
        ++ flat_map (router_rows own region) (rows_of (origin, keys.now))) }
{
    if origin.region == region && origin.source != own {
        add_keys(alloc, origin.source, keys, rows)?;
    }
    Ok(())
}

// The tokens of a region of routers but the gateway's own.
fn rows_of_routers<K: Key>(
    alloc: Global,
    g: &GatewayState<K>,
    region: Region,
) -> Result<Vec<SourcedToken<K>>, Memory>
    ensures { IfOk result (λ rows. rows.items ≡ rows_sourced_by_routers K.cmp g.now region) }
{
    let mut rows = Vec::new(alloc);
    let own = g.zid();
    for (origin, keys) in g.routed().by_origin() {
        add_origin(alloc, own, region, *origin, keys, &mut rows)?;
    }
    Ok(rows)
}

// The tokens that are declared in a region.
pub(crate) fn sourced_rows<K: Key>(
    alloc: Global,
    g: &GatewayState<K>,
    region: Region,
) -> Result<Vec<SourcedToken<K>>, Memory>
    ensures { IfOk result (λ rows. rows.items
        ≡ rows_sourced K.cmp (strategy_of g.now.mode region) g.now region) }
{
    let hat = hat_of(g.mode(), region);
    if hat.goes_by_trees() {
        rows_of_routers(alloc, g, region)
    } else {
        rows_of_faces(alloc, g, hat, region)
    }
}
