// The expressions that faces of a region see, in key order.
ghost use Rattle.std.specs.Prelude.{◌≡◌, ◌&&◌, filter, if◌then◌else◌, map, not, IfOk, OnOk};
ghost use Rattle.std.specs.List.{flat_map};
ghost use Rattle.zt_region.specs.Region.{region_eq, zid_eq};
ghost use Rattle.zt_model.specs.Lists.{with_key};
ghost use Rattle.zt_model.specs.Visible.{rows_of_face, routed_rows, shows, visible_expressions};
ghost use Rattle.zt_check_causes.specs.Keys.{with_keys};
ghost use Rattle.zt_check_faces.specs.Placed.{FindsPlace};

use crate::hats::shares_tokens;
use std::alloc::Global;
use std::cmp::Ordering;
use zt_check_faces::ShownFace;
use zt_check_rows::{ShownRouted, ShownRows};
use zt_keys::{Key, Memory};
use zt_region::{Region, WhatAmI, Zid};

// Whether faces of a region see the tokens of that one.
fn shows(mode: WhatAmI, own: Region, source: Region) -> bool
    ensures { result ≡ shows mode own source }
{
    shares_tokens(mode, own) || source != own
}

// Where an expression stands among others in key order, or else would stand.
fn place_of<K: Key>(exprs: &[K], expr: &K) -> Result<usize, usize>
    ensures { FindsPlace (K.cmp expr.now) exprs.now result }
{
    for place in 0..exprs.len() {
        match expr.cmp(&exprs[place]) {
            Ordering::Less => return Err(place),
            Ordering::Equal => return Ok(place),
            Ordering::Greater => {}
        }
    }
    Err(exprs.len())
}

// An expression is put in its place, unless it is there.
fn add_key<K: Key>(alloc: Global, exprs: &mut Vec<K>, expr: &K) -> Result<(), Memory>
    ensures { OnOk result (exprs.new.items ≡ with_key K.cmp expr.now exprs.old.items) }
{
    let copy = expr.copy(alloc)?;
    match place_of(exprs.as_slice(), expr) {
        Ok(_place) => {}
        Err(place) => exprs.insert(place, copy)?,
    }
    Ok(())
}

// The expressions of tokens are put in their places, the last first.
fn add_live<K: Key>(alloc: Global, exprs: &mut Vec<K>, live: &[(u32, K)]) -> Result<(), Memory>
    ensures { OnOk result (exprs.new.items
        ≡ with_keys K.cmp (map (λ row. row.1) live.now) exprs.old.items) }
{
    for done in 0..live.len() {
        let row = &live[live.len() - 1 - done];
        add_key(alloc, exprs, &row.1)?;
    }
    Ok(())
}

// And those of a face that a region sees.
fn add_face<K: Key>(
    alloc: Global,
    exprs: &mut Vec<K>,
    mode: WhatAmI,
    own: Region,
    face: &ShownFace<K>,
) -> Result<(), Memory>
    ensures { OnOk result (exprs.new.items
        ≡ with_keys K.cmp (map (λ row. row.1)
        (filter (λ row. shows mode own row.0) (rows_of_face face.now))) exprs.old.items) }
{
    if shows(mode, own, face.region()) {
        add_live(alloc, exprs, face.live())?;
    }
    Ok(())
}

// And those of all faces, the last first.
fn add_faces<K: Key>(
    alloc: Global,
    exprs: &mut Vec<K>,
    mode: WhatAmI,
    own: Region,
    faces: &[ShownFace<K>],
) -> Result<(), Memory>
    ensures { OnOk result (exprs.new.items
        ≡ with_keys K.cmp (map (λ row. row.1)
        (filter (λ row. shows mode own row.0) (flat_map rows_of_face faces.now)))
        exprs.old.items) }
{
    for done in 0..faces.len() {
        let face = &faces[faces.len() - 1 - done];
        add_face(alloc, exprs, mode, own, face)?;
    }
    Ok(())
}

// And that of another router, where the region sees it.
fn add_routed<K: Key>(
    alloc: Global,
    exprs: &mut Vec<K>,
    mode: WhatAmI,
    own: Region,
    zid: Zid,
    row: &ShownRouted<K>,
) -> Result<(), Memory>
    ensures { OnOk result (exprs.new.items
        ≡ (if not (zid_eq row.now.source zid) && shows mode own row.now.region
        then with_key K.cmp row.now.expr exprs.old.items else exprs.old.items)) }
{
    if row.source() != zid && shows(mode, own, row.region()) {
        add_key(alloc, exprs, row.expr())?;
    }
    Ok(())
}

// And those of all other routers, the last first.
fn add_all_routed<K: Key>(
    alloc: Global,
    exprs: &mut Vec<K>,
    rows: &ShownRows<K>,
    own: Region,
) -> Result<(), Memory>
    ensures { OnOk result (exprs.new.items
        ≡ with_keys K.cmp (map (λ row. row.1)
        (filter (λ row. shows rows.now.mode own row.0) (routed_rows rows.now))) exprs.old.items) }
{
    let routed = rows.routed();
    for done in 0..routed.len() {
        let row = &routed[routed.len() - 1 - done];
        add_routed(alloc, exprs, rows.mode(), own, rows.zid(), row)?;
    }
    Ok(())
}

/// The expressions that faces of the region see, in key order, each once.
pub(crate) fn visible_expressions<K: Key>(
    alloc: Global,
    rows: &ShownRows<K>,
    own: Region,
) -> Result<Vec<K>, Memory>
    ensures { IfOk result (λ exprs. exprs.items ≡ visible_expressions K.cmp rows.now own) }
{
    let mut exprs = Vec::new(alloc);
    add_all_routed(alloc, &mut exprs, rows, own)?;
    add_faces(alloc, &mut exprs, rows.mode(), own, rows.faces())?;
    Ok(exprs)
}
