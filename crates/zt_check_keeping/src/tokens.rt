// The expressions whose tokens a call may add or take away: read before it.
ghost use Rattle.std.specs.Prelude.{◌≡◌, ℕ, ◌∷◌, ◌++◌, [], OnOk};
ghost use Rattle.zt_protocol.specs.Plain.{plain_call};
ghost use Rattle.zt_model.specs.Trees.{counted_table};
ghost use Rattle.zt_check_keeping.specs.Changed.{declared, expressions, is_sought, named};
ghost use Rattle.zt_check_keeping.specs.Changed.{is_unlisted, tokens_of, unlisted};

use std::alloc::Global;
use zt_check_faces::ShownFace;
use zt_check_rows::{ShownRouted, ShownRows, ShownTable};
use zt_keys::{Key, Memory};
use zt_protocol::Call;
use zt_region::Region;

fn add_key<K: Key>(
    alloc: Global,
    tokens: &mut Vec<(u32, K)>,
    gateway: u32,
    expr: &K,
) -> Result<(), Memory>
    ensures { OnOk result (tokens.new.items ≡ tokens.old.items ++ (gateway, expr.now) ∷ []) }
{
    let copy = expr.copy(alloc)?;
    tokens.push((gateway, copy))?;
    Ok(())
}

// Whether an id is the one that is sought, where one is.
fn is_sought(sought: Option<u32>, id: u32) -> bool
    ensures { result ≡ is_sought sought id }
{
    match sought {
        None => true,
        Some(sought) => sought == id,
    }
}

fn add_row<K: Key>(
    alloc: Global,
    tokens: &mut Vec<(u32, K)>,
    gateway: u32,
    sought: Option<u32>,
    row: &(u32, K),
) -> Result<(), Memory>
    ensures { OnOk result
        (tokens.new.items ≡ tokens.old.items ++ expressions gateway sought (row.now ∷ [])) }
{
    if !is_sought(sought, row.0) {
        return Ok(());
    }
    add_key(alloc, tokens, gateway, &row.1)
}

// The expressions of rows: all of them, or those under an id.
fn add_rows<K: Key>(
    alloc: Global,
    tokens: &mut Vec<(u32, K)>,
    gateway: u32,
    sought: Option<u32>,
    rows: &[(u32, K)],
) -> Result<(), Memory>
    ensures { OnOk result
        (tokens.new.items ≡ tokens.old.items ++ expressions gateway sought rows.now) }
{
    for row in rows {
        add_row(alloc, tokens, gateway, sought, row)?;
    }
    Ok(())
}

// The rows of the tokens that a face declares: a part that has all of those that are sought.
fn sought_rows<K: Key>(face: &ShownFace<K>, sought: Option<u32>) -> &[(u32, K)]
    ensures { (gateway : ℕ)
        → expressions gateway sought result.now ≡ expressions gateway sought face.now.live }
{
    match sought {
        None => face.live(),
        Some(id) => face.live_of(id),
    }
}

fn add_face<K: Key>(
    alloc: Global,
    tokens: &mut Vec<(u32, K)>,
    gateway: u32,
    number: u32,
    sought: Option<u32>,
    face: &ShownFace<K>,
) -> Result<(), Memory>
    ensures { OnOk result
        (tokens.new.items ≡ tokens.old.items ++ declared gateway number sought (face.now ∷ [])) }
{
    if number != face.number() {
        return Ok(());
    }
    add_rows(alloc, tokens, gateway, sought, sought_rows(face, sought))
}

// Those that faces of a number declare.
fn add_declared<K: Key>(
    alloc: Global,
    tokens: &mut Vec<(u32, K)>,
    gateway: u32,
    number: u32,
    sought: Option<u32>,
    rows: &ShownRows<K>,
) -> Result<(), Memory>
    ensures { OnOk result
        (tokens.new.items ≡ tokens.old.items ++ declared gateway number sought rows.now.faces) }
{
    for face in rows.faces_of(number) {
        add_face(alloc, tokens, gateway, number, sought, face)?;
    }
    Ok(())
}

// Whether a row is of a router that a new table of its region lists no more.
fn is_unlisted<K: Key>(region: Region, table: &ShownTable, row: &ShownRouted<K>) -> bool
    ensures { result ≡ is_unlisted region (counted_table table.now) row.now }
{
    region == row.region() && !table.is_listed(row.source())
}

fn add_unlisted_row<K: Key>(
    alloc: Global,
    tokens: &mut Vec<(u32, K)>,
    gateway: u32,
    region: Region,
    table: &ShownTable,
    row: &ShownRouted<K>,
) -> Result<(), Memory>
    ensures { OnOk result (tokens.new.items ≡ tokens.old.items
        ++ unlisted gateway region (counted_table table.now) (row.now ∷ [])) }
{
    if !is_unlisted(region, table, row) {
        return Ok(());
    }
    add_key(alloc, tokens, gateway, row.expr())
}

// Those of routers that a new table of their region lists no more.
fn add_unlisted<K: Key>(
    alloc: Global,
    tokens: &mut Vec<(u32, K)>,
    gateway: u32,
    region: Region,
    table: &ShownTable,
    rows: &[ShownRouted<K>],
) -> Result<(), Memory>
    ensures { OnOk result (tokens.new.items ≡ tokens.old.items
        ++ unlisted gateway region (counted_table table.now) rows.now) }
{
    for row in rows {
        add_unlisted_row(alloc, tokens, gateway, region, table, row)?;
    }
    Ok(())
}

// The expression that an undeclaration names, where it does.
fn add_named<K: Key>(
    alloc: Global,
    tokens: &mut Vec<(u32, K)>,
    gateway: u32,
    expr: &Option<K>,
) -> Result<(), Memory>
    ensures { OnOk result (tokens.new.items ≡ tokens.old.items ++ named gateway expr.now) }
{
    match expr {
        None => Ok(()),
        Some(expr) => add_key(alloc, tokens, gateway, expr),
    }
}

/// Adds the expressions whose tokens a call may change at the rows of its gateway.
pub(crate) fn add_tokens<K: Key>(
    alloc: Global,
    tokens: &mut Vec<(u32, K)>,
    gateway: u32,
    rows: &ShownRows<K>,
    call: &Call<K>,
) -> Result<(), Memory>
    ensures { OnOk result (tokens.new.items
        ≡ tokens.old.items ++ tokens_of gateway rows.now (plain_call call.now)) }
{
    match call {
        Call::DeclareToken { face, id, expr, .. } => {
            add_key(alloc, tokens, gateway, expr)?;
            add_declared(alloc, tokens, gateway, *face, Some(*id), rows)
        }
        Call::UndeclareToken { face, id, expr, .. } => {
            add_named(alloc, tokens, gateway, expr)?;
            add_declared(alloc, tokens, gateway, *face, Some(*id), rows)
        }
        Call::CloseFace { face } => { add_declared(alloc, tokens, gateway, *face, None, rows) }
        Call::SetTrees { region, table } => {
            let table = ShownTable::new(alloc, table)?;
            add_unlisted(alloc, tokens, gateway, *region, &table, rows.routed())
        }
        Call::NewSession { .. }
        | Call::NewTransport { .. }
        | Call::Interest { .. }
        | Call::InterestFinal { .. }
        | Call::DeclareFinal { .. }
        | Call::Expire { .. }
        | Call::SetEntities { .. } => Ok(()),
    }
}
