// What printed messages change of what faces keep: read before they are heard.
ghost use Rattle.std.specs.Prelude.{◌≡◌, ◌∷◌, ◌++◌, [], IfOk, OnOk};
ghost use Rattle.zt_model.specs.Lists.{nth};
ghost use Rattle.zt_check_keeping.specs.Heard.{heard_among, heard_at, heard_by, heard_of};
ghost use Rattle.zt_check_keeping.specs.Heard.{heard_there, told_under};

use std::alloc::Global;
use zt_check_fabric::{ShownFabric, ShownPlace};
use zt_check_faces::ShownFace;
use zt_check_rows::ShownRows;
use zt_keys::{Key, Memory};
use zt_protocol::{Message, Sent};

/// The expressions of which a face may keep now what it didn't, or not what it did: each with the
/// gateway and the face's number there.
#[derive(Drop)]
pub struct Heard<K: Key> {
    pub tokens: Vec<(u32, u32, K)>,
}

fn add_key<K: Key>(
    alloc: Global,
    tokens: &mut Vec<(u32, u32, K)>,
    gateway: u32,
    face: u32,
    expr: &K,
) -> Result<(), Memory>
    ensures { OnOk result
        (tokens.new.items ≡ tokens.old.items ++ (gateway, face, expr.now) ∷ []) }
{
    let copy = expr.copy(alloc)?;
    tokens.push((gateway, face, copy))?;
    Ok(())
}

fn add_told_row<K: Key>(
    alloc: Global,
    tokens: &mut Vec<(u32, u32, K)>,
    gateway: u32,
    face: u32,
    id: u32,
    row: &(u32, K),
) -> Result<(), Memory>
    ensures { OnOk result
        (tokens.new.items ≡ tokens.old.items ++ told_under gateway face id (row.now ∷ [])) }
{
    if id != row.0 {
        return Ok(());
    }
    add_key(alloc, tokens, gateway, face, &row.1)
}

// What a face was told under an id, with this number of the face.
fn add_told<K: Key>(
    alloc: Global,
    tokens: &mut Vec<(u32, u32, K)>,
    gateway: u32,
    number: u32,
    id: u32,
    face: &ShownFace<K>,
) -> Result<(), Memory>
    ensures { OnOk result
        (tokens.new.items ≡ tokens.old.items ++ told_under gateway number id face.now.told) }
{
    for row in face.told_of(id) {
        add_told_row(alloc, tokens, gateway, number, id, row)?;
    }
    Ok(())
}

// What a message says of tokens to a face, under this number.
fn add_message<K: Key>(
    alloc: Global,
    tokens: &mut Vec<(u32, u32, K)>,
    gateway: u32,
    number: u32,
    face: &ShownFace<K>,
    message: &Message<K>,
) -> Result<(), Memory>
    ensures { OnOk result (tokens.new.items
        ≡ tokens.old.items ++ heard_of gateway number face.now.told message.now) }
{
    match message {
        Message::DeclareToken { id, expr, .. } => {
            if *id == 0 {
                return Ok(());
            }
            add_key(alloc, tokens, gateway, number, expr)
        }
        Message::UndeclareToken {
            expr: Some(expr),
            ..
        } => add_key(alloc, tokens, gateway, number, expr),
        Message::UndeclareToken { id, expr: None, .. } => {
            add_told(alloc, tokens, gateway, number, *id, face)
        }
        Message::DeclareFinal { .. }
        | Message::Interest { .. }
        | Message::InterestFinal { .. }
        | Message::DeclareSubscriber { .. }
        | Message::DeclareQueryable { .. } => Ok(()),
    }
}

fn add_face<K: Key>(
    alloc: Global,
    tokens: &mut Vec<(u32, u32, K)>,
    gateway: u32,
    number: u32,
    message: &Message<K>,
    face: &ShownFace<K>,
) -> Result<(), Memory>
    ensures { OnOk result (tokens.new.items
        ≡ tokens.old.items ++ heard_among gateway number message.now (face.now ∷ [])) }
{
    if number != face.number() {
        return Ok(());
    }
    add_message(alloc, tokens, gateway, number, face, message)
}

// By the faces of a number.
fn add_faces<K: Key>(
    alloc: Global,
    tokens: &mut Vec<(u32, u32, K)>,
    gateway: u32,
    number: u32,
    message: &Message<K>,
    rows: &ShownRows<K>,
) -> Result<(), Memory>
    ensures { OnOk result (tokens.new.items
        ≡ tokens.old.items ++ heard_among gateway number message.now rows.now.faces) }
{
    for face in rows.faces_of(number) {
        add_face(alloc, tokens, gateway, number, message, face)?;
    }
    Ok(())
}

// By the place of a face.
fn add_place<'a, K: Key>(
    alloc: Global,
    tokens: &mut Vec<(u32, u32, K)>,
    fabric: &ShownFabric<'a, K>,
    message: &Message<K>,
    place: &ShownPlace,
) -> Result<(), Memory>
    ensures { OnOk result (tokens.new.items
        ≡ tokens.old.items ++ heard_at place.now.gateway place.now.face message.now
        (nth place.now.gateway fabric.now.gateways)) }
{
    match fabric.node(place.gateway()) {
        None => Ok(()),
        Some(node) => {
            let rows = node.rows();
            add_faces(alloc, tokens, place.gateway(), place.face(), message, rows)
        }
    }
}

fn add_sent<'a, K: Key>(
    alloc: Global,
    tokens: &mut Vec<(u32, u32, K)>,
    fabric: &ShownFabric<'a, K>,
    sent: &Sent<K>,
) -> Result<(), Memory>
    ensures { OnOk result (tokens.new.items ≡ tokens.old.items
        ++ heard_there fabric.now sent.now.message (nth sent.now.face fabric.now.faces)) }
{
    match fabric.place(sent.face) {
        None => Ok(()),
        Some(place) => add_place(alloc, tokens, fabric, &sent.message, place),
    }
}

/// What messages change of what faces keep, over the fabric that doesn't hear them yet. The only
/// error is an allocation that fails.
pub fn heard_by<'a, K: Key>(
    alloc: Global,
    fabric: &ShownFabric<'a, K>,
    sents: &[Sent<K>],
) -> Result<Heard<K>, Memory>
    ensures { IfOk result (λ heard. heard.tokens.items ≡ heard_by fabric.now sents.now) }
{
    let mut tokens = Vec::new(alloc);
    for sent in sents {
        add_sent(alloc, &mut tokens, fabric, sent)?;
    }
    Ok(Heard { tokens })
}
