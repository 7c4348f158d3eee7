// Who declares the tokens of a region.
ghost use Rattle.std.specs.Prelude.{◌≡◌, ◌++◌, ◌∷◌, [], map, IfErr, IfOk, OnOk, true};
ghost use Rattle.zt_gateway.specs.Declarers.{IsUnknownRegion, plain_found, plain_sources};
ghost use Rattle.zt_gateway.specs.Declarers.{sources_of, with_zid};
ghost use Rattle.zt_model.specs.Lists.{in_key_order};
ghost use Rattle.zt_model.specs.Sourced.{sourced, zids_of};
ghost use Rattle.zt_model.specs.Strategy.{is_region_of};

use crate::gateway::Gateway;
use crate::listing::{SourcedToken, sourced_rows};
use crate::ordering::{insert_key, insert_zid};
use std::alloc::Global;
use zt_keys::{Key, Memory};
use zt_protocol::{CallError, Refusal};
use zt_refusals::has_region;
use zt_region::{Region, WhatAmI, Zid};
use zt_state::GatewayState;

/// Who declares an expression, by what they are, each list in order of zid.
#[derive(PartialEq, Eq, Debug, Drop)]
pub struct Sources {
    pub routers: Vec<Zid>,
    pub peers: Vec<Zid>,
    pub clients: Vec<Zid>,
}

// The expressions of these rows in order, each once.
fn expressions<K: Key>(alloc: Global, rows: &[SourcedToken<K>]) -> Result<Vec<K>, Memory>
    ensures { IfOk result (λ exprs. exprs.items
        ≡ in_key_order K.cmp (map (λ row. row.expr) rows.now)) }
{
    let mut exprs = Vec::new(alloc);
    let mut left = rows.len();
    while left > 0 {
        left -= 1;
        insert_key(alloc, &mut exprs, rows[left].expr())?;
    }
    Ok(exprs)
}

// Puts a declarer in its place, where it is of this kind and declares the expression.
fn insert_declarer<K: Key>(
    kind: WhatAmI,
    expr: &K,
    row: &SourcedToken<K>,
    zids: &mut Vec<Zid>,
) -> Result<(), Memory>
    ensures { OnOk result (zids.new.items ≡ with_zid K.cmp kind expr.now row.now zids.old.items) }
{
    if kind == row.kind() && expr == row.expr() {
        insert_zid(zids, row.zid())?;
    }
    Ok(())
}

// The declarers of an expression that are of this kind.
fn zids_of<K: Key>(
    alloc: Global,
    kind: WhatAmI,
    expr: &K,
    rows: &[SourcedToken<K>],
) -> Result<Vec<Zid>, Memory>
    ensures { IfOk result (λ zids. zids.items ≡ zids_of K.cmp kind expr.now rows.now) }
{
    let mut zids = Vec::new(alloc);
    let mut left = rows.len();
    while left > 0 {
        left -= 1;
        insert_declarer(kind, expr, &rows[left], &mut zids)?;
    }
    Ok(zids)
}

// Who declares an expression.
fn sources_of<K: Key>(alloc: Global, expr: &K, rows: &[SourcedToken<K>]) -> Result<Sources, Memory>
    ensures { IfOk result (λ s. plain_sources s ≡ sources_of K.cmp rows.now expr.now) }
{
    Ok(Sources {
        routers: zids_of(alloc, WhatAmI::Router, expr, rows)?,
        peers: zids_of(alloc, WhatAmI::Peer, expr, rows)?,
        clients: zids_of(alloc, WhatAmI::Client, expr, rows)?,
    })
}

// Adds an expression and who declares it.
fn add_sources<K: Key>(
    alloc: Global,
    expr: &K,
    rows: &[SourcedToken<K>],
    found: &mut Vec<(K, Sources)>,
) -> Result<(), Memory>
    ensures { OnOk result (plain_found found.new.items
        ≡ plain_found found.old.items ++ (expr.now, sources_of K.cmp rows.now expr.now) ∷ []) }
{
    let sources = sources_of(alloc, expr, rows)?;
    found.push((expr.copy(alloc)?, sources))?;
    Ok(())
}

// These expressions, each with who declares it.
fn list_sources<K: Key>(
    alloc: Global,
    exprs: &[K],
    rows: &[SourcedToken<K>],
) -> Result<Vec<(K, Sources)>, Memory>
    ensures { IfOk result (λ found. plain_found found.items
        ≡ map (λ e. (e, sources_of K.cmp rows.now e)) exprs.now) }
{
    let mut found = Vec::new(alloc);
    for expr in exprs {
        add_sources(alloc, expr, rows, &mut found)?;
    }
    Ok(found)
}

// Who declares each expression of a region, keys in order.
fn find_sources<K: Key>(
    alloc: Global,
    state: &GatewayState<K>,
    region: Region,
) -> Result<Vec<(K, Sources)>, Memory>
    ensures { IfOk result (λ found. plain_found found.items ≡ sourced K.cmp state.now region) }
{
    let rows = sourced_rows(alloc, state, region)?;
    let exprs = expressions(alloc, rows.as_slice())?;
    list_sources(alloc, exprs.as_slice(), rows.as_slice())
}

// Who declares each expression of a region, keys in order. Refused is a region that the gateway
// doesn't have.
fn sources_in<K: Key>(
    alloc: Global,
    state: &GatewayState<K>,
    region: Region,
) -> Result<Vec<(K, Sources)>, CallError>
    ensures refused { IfErr result (IsUnknownRegion state.now.regions region) }
    ensures known { OnOk result (is_region_of state.now.regions region ≡ true) }
    ensures sourced { IfOk result
        (λ found. plain_found found.items ≡ sourced K.cmp state.now region) }
{
    if !has_region(state, region) {
        return Err(CallError::Refused(Refusal::NoSuchRegion));
    }
    match find_sources(alloc, state, region) {
        Ok(found) => Ok(found),
        Err(Memory) => Err(CallError::Memory),
    }
}

impl<K: Key> Gateway<K> {
    /// Who declares each expression of the region, keys in order: in a region of sessions or
    /// clients clients, in one of peers peers, in one of routers the routers that the tokens come
    /// from, and to the north of a client gateway each face by its mode. Refused is a region that
    /// the gateway doesn't have.
    pub fn sourced_tokens(
        &self,
        alloc: Global,
        region: Region,
    ) -> Result<Vec<(K, Sources)>, CallError>
        ensures refused { IfErr result (IsUnknownRegion self.now.rows.regions region) }
        ensures known { OnOk result (is_region_of self.now.rows.regions region ≡ true) }
        ensures sourced { IfOk result
            (λ found. plain_found found.items ≡ sourced K.cmp self.now.rows region) }
    {
        if let Some(state) = self.kept.state() {
            return sources_in(alloc, state, region);
        }
        // A call was prepared and not carried out, or ran out of memory.
        match self.kept.restored(alloc) {
            Ok(restored) => sources_in(alloc, restored.state(), region),
            Err(Memory) => Err(CallError::Memory),
        }
    }
}
