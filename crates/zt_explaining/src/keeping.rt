// What faces keep wrongly after a turn.
use std::alloc::Global;
use zt_breaks::{FaceNumber, Finding, Keeping, Owed};
use zt_check_fabric::ShownFabric;
use zt_check_faces::{ShownFace, ShownInterest};
use zt_check_keeping::{Changed, Heard, has_tokens, is_about, is_seen, sees};
use zt_check_rows::ShownRows;
use zt_keys::{Key, Memory};
use zt_protocol::copy_expression;
use zt_region::Region;

/// A face by its gateway and its number there, with an expression that it may keep wrongly.
type Pair<K> = (u32, u32, K);

// Whether the rows name the expression.
fn names<K: Key>(rows: &[(u32, K)], expr: &K) -> bool {
    rows.iter().any(|row| *expr == row.1)
}

// The first interest of a face that concerns the expression, with its id; among those in what is
// there now alone, where that is asked for.
fn interest_in<'b, K: Key>(
    face: &'b ShownFace<K>,
    expr: &K,
    current: bool,
) -> Option<&'b (u32, ShownInterest<K>)> {
    for row in face.held() {
        let concerns = has_tokens(&row.1) && is_about(row.1.expr(), expr);
        if concerns && (!current || row.1.mode().is_current()) {
            return Some(row);
        }
    }
    None
}

// Why the face is to know of the expression.
fn owed_by<K: Key>(
    alloc: Global,
    face: &ShownFace<K>,
    expr: &K,
) -> Result<Option<Owed<K>>, Memory> {
    if face.region() == Region::North {
        return Ok(Some(Owed::North));
    }
    match interest_in(face, expr, true) {
        None => Ok(None),
        Some(row) => Ok(Some(Owed::Interest {
            id: row.0,
            expr: copy_expression(row.1.expr(), alloc)?,
        })),
    }
}

// Whether the tokens of a region are shown to faces of another.
fn are_shown<K: Key>(rows: &ShownRows<K>, own: Region, source: Region) -> bool {
    sees(own, source) && !rows.refused().contains(&(source, own))
}

// The first region with a live token of the expression that is shown to faces of the region.
fn source_of<K: Key>(rows: &ShownRows<K>, own: Region, expr: &K) -> Option<Region> {
    for face in rows.faces() {
        if are_shown(rows, own, face.region()) && names(face.live(), expr) {
            return Some(face.region());
        }
    }
    for row in rows.routed() {
        if row.source() != rows.zid()
            && *row.expr() == *expr
            && are_shown(rows, own, row.region())
        {
            return Some(row.region());
        }
    }
    None
}

// How a face keeps the expression that it may not.
fn kept_wrongly<K: Key>(rows: &ShownRows<K>, face: &ShownFace<K>, expr: &K) -> Option<Keeping<K>> {
    if !names(face.told(), expr) {
        return None;
    }
    if !is_seen(rows, face.region(), expr) {
        return Some(Keeping::Unseen);
    }
    if face.region() != Region::North && interest_in(face, expr, false).is_none() {
        return Some(Keeping::Unsought);
    }
    None
}

// How a face lacks the expression that is owed to it.
fn lacked<K: Key>(
    alloc: Global,
    rows: &ShownRows<K>,
    face: &ShownFace<K>,
    expr: &K,
) -> Result<Option<Keeping<K>>, Memory> {
    if names(face.told(), expr) {
        return Ok(None);
    }
    let Some(region) = source_of(rows, face.region(), expr) else {
        return Ok(None);
    };
    let Some(owed) = owed_by(alloc, face, expr)? else {
        return Ok(None);
    };
    Ok(Some(Keeping::Lacked { region, owed }))
}

// Each expression of rows, for one face.
fn add_rows<K: Key>(
    alloc: Global,
    pairs: &mut Vec<Pair<K>>,
    gateway: u32,
    face: u32,
    rows: &[(u32, K)],
) -> Result<(), Memory> {
    for row in rows {
        pairs.push((gateway, face, row.1.copy(alloc)?))?;
    }
    Ok(())
}

// All that is alive at a gateway, for one of its faces.
fn add_alive<'a, K: Key>(
    alloc: Global,
    pairs: &mut Vec<Pair<K>>,
    fabric: &ShownFabric<'a, K>,
    gateway: u32,
    face: u32,
) -> Result<(), Memory> {
    let Some(node) = fabric.node(gateway) else {
        return Ok(());
    };
    for source in node.rows().faces() {
        add_rows(alloc, pairs, gateway, face, source.live())?;
    }
    for row in node.rows().routed() {
        pairs.push((gateway, face, row.expr().copy(alloc)?))?;
    }
    Ok(())
}

// An expression, for all faces of a gateway.
fn add_faces<'a, K: Key>(
    alloc: Global,
    pairs: &mut Vec<Pair<K>>,
    fabric: &ShownFabric<'a, K>,
    gateway: u32,
    expr: &K,
) -> Result<(), Memory> {
    let Some(node) = fabric.node(gateway) else {
        return Ok(());
    };
    for face in node.rows().faces() {
        pairs.push((gateway, face.number(), expr.copy(alloc)?))?;
    }
    Ok(())
}

// What a face keeps.
fn add_kept<'a, K: Key>(
    alloc: Global,
    pairs: &mut Vec<Pair<K>>,
    fabric: &ShownFabric<'a, K>,
    gateway: u32,
    face: u32,
) -> Result<(), Memory> {
    let Some(node) = fabric.node(gateway) else {
        return Ok(());
    };
    match node.rows().face(face) {
        None => Ok(()),
        Some(found) => add_rows(alloc, pairs, gateway, face, found.told()),
    }
}

// The pairs of a face and an expression that a line and its messages may have changed.
fn touched<'a, K: Key>(
    alloc: Global,
    fabric: &ShownFabric<'a, K>,
    changed: &Changed<K>,
    heard: &Heard<K>,
) -> Result<Vec<Pair<K>>, Memory> {
    let mut pairs = Vec::new(alloc);
    for token in &changed.tokens {
        add_faces(alloc, &mut pairs, fabric, token.0, &token.1)?;
    }
    for token in &heard.tokens {
        pairs.push((token.0, token.1, token.2.copy(alloc)?))?;
    }
    for at in &changed.unheld {
        add_kept(alloc, &mut pairs, fabric, at.0, at.1)?;
    }
    for at in &changed.opened {
        add_alive(alloc, &mut pairs, fabric, at.0, at.1)?;
    }
    for at in &changed.held {
        add_alive(alloc, &mut pairs, fabric, at.0, at.1)?;
    }
    Ok(pairs)
}

// What is wrong of a pair, by the one bound or the other.
fn finding_of<'a, K: Key>(
    alloc: Global,
    fabric: &ShownFabric<'a, K>,
    pair: &Pair<K>,
    lower: bool,
) -> Result<Option<Finding<K>>, Memory> {
    let Some(node) = fabric.node(pair.0) else {
        return Ok(None);
    };
    let rows = node.rows();
    let Some(face) = rows.face(pair.1) else {
        return Ok(None);
    };
    if rows.is_routed(face) {
        return Ok(None);
    }
    let found = if lower {
        lacked(alloc, rows, face, &pair.2)?
    } else {
        kept_wrongly(rows, face, &pair.2)
    };
    let Some(keeping) = found else {
        return Ok(None);
    };
    Ok(Some(Finding::Kept {
        at: FaceNumber {
            gateway: pair.0,
            face: fabric.number_of_place(pair.0, pair.1),
        },
        expr: pair.2.copy(alloc)?,
        keeping,
    }))
}

/// What faces keep that they may not, or with `lower` what they lack that is owed to them, of all
/// that a line and its messages may have changed. The fabric is that after its entry.
pub(crate) fn wrongly_kept<'a, K: Key>(
    alloc: Global,
    fabric: &ShownFabric<'a, K>,
    changed: &Changed<K>,
    heard: &Heard<K>,
    lower: bool,
) -> Result<Vec<Finding<K>>, Memory> {
    let mut findings = Vec::new(alloc);
    for pair in touched(alloc, fabric, changed, heard)? {
        if let Some(finding) = finding_of(alloc, fabric, &pair, lower)? {
            findings.push(finding)?;
        }
    }
    Ok(findings)
}
