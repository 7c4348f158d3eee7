// The one call of a line, at its gateway.
ghost use Rattle.std.specs.Prelude.{◌≡◌, false, IfOk, IfSome, None, Some, option_map};
ghost use Rattle.zt_model.specs.Fabric.{call_at_place, call_face, call_of, call_of_face};
ghost use Rattle.zt_model.specs.Fabric.{call_of_step, face_at, table_at, with_call_face};
ghost use Rattle.zt_model.specs.Linking.{call_of_message};
ghost use Rattle.zt_model.specs.Lists.{nth};
ghost use Rattle.zt_protocol.specs.Plain.{PlainCall, plain_call, plain_line, trees_of};
ghost use Rattle.zt_laws.specs.Sound.{opens_face};
ghost use Rattle.zt_links.specs.Lines.{is_opening, made_at};

use std::alloc::Global;
use std::marker::Model;
use zt_fabric_state::{FabricState, oldest, speaking_end};
use zt_keys::{Key, Memory};
use zt_protocol::{Call, Line, Message, TreeTable, copy_expression};
use zt_rollback::{copy_call, copy_keys, copy_queryables};

/// A call, and the number of the gateway that it is made on.
#[derive(Drop)]
pub(crate) struct CallMade<K: Key> {
    pub(crate) gateway: u32,
    pub(crate) call: Call<K>,
}

impl<K: Key> Model for CallMade<K> {
    ghost use Rattle.std.specs.Prelude.{ℕ};
    ghost use Rattle.zt_protocol.specs.Plain.{PlainCall as PlainCallValue};
    ghost use Rattle.zt_protocol.specs.Plain.{plain_call as plain_call_of};

    ghost Value = { ℕ × PlainCallValue K };

    ghost view = { λ c. (c.gateway, plain_call_of c.call) };
}

/// The face that a call names.
pub(crate) fn face_of<K: Key>(call: &Call<K>) -> Option<u32>
    ensures { result ≡ call_face (plain_call call.now) }
{
    match call {
        Call::DeclareToken { face, .. } => Some(*face),
        Call::UndeclareToken { face, .. } => Some(*face),
        Call::Interest { face, .. } => Some(*face),
        Call::InterestFinal { face, .. } => Some(*face),
        Call::DeclareFinal { face, .. } => Some(*face),
        Call::CloseFace { face } => Some(*face),
        Call::SetEntities { face, .. } => Some(*face),
        _ => None,
    }
}

/// A copy of the call, where the face has another number.
fn call_with_face<K: Key>(alloc: Global, call: &Call<K>, face: u32) -> Result<Call<K>, Memory>
    ensures { IfOk result (λ copy. plain_call copy ≡ with_call_face face (plain_call call.now)) }
{
    Ok(match call {
        Call::DeclareToken {
            id,
            expr,
            node_id,
            interest_id,
            ..
        } => Call::DeclareToken {
            face,
            id: *id,
            expr: expr.copy(alloc)?,
            node_id: *node_id,
            interest_id: *interest_id,
        },
        Call::UndeclareToken {
            id,
            expr,
            node_id,
            ..
        } => Call::UndeclareToken {
            face,
            id: *id,
            expr: copy_expression(expr, alloc)?,
            node_id: *node_id,
        },
        Call::Interest {
            id,
            mode,
            options,
            expr,
            ..
        } => Call::Interest {
            face,
            id: *id,
            mode: *mode,
            options: *options,
            expr: copy_expression(expr, alloc)?,
        },
        Call::InterestFinal { id, .. } => Call::InterestFinal { face, id: *id },
        Call::DeclareFinal { interest_id, .. } => Call::DeclareFinal {
            face,
            interest_id: *interest_id,
        },
        Call::CloseFace { .. } => Call::CloseFace { face },
        Call::SetEntities {
            subscribers,
            queryables,
            ..
        } => Call::SetEntities {
            face,
            subscribers: copy_keys(alloc, subscribers.as_slice())?,
            queryables: copy_queryables(alloc, queryables.as_slice())?,
        },
        other => return copy_call(alloc, other),
    })
}

/// The call of a message that a face speaks, where the message is one.
fn call_of_message<K: Key>(
    alloc: Global,
    message: &Message<K>,
    face: u32,
) -> Result<Option<Call<K>>, Memory>
    ensures made { IfOk result (λ made. option_map plain_call made
        ≡ option_map (with_call_face face) (call_of_message 0 message.now)) }
    ensures still { IfOk result
        (λ made. IfSome made (λ call. opens_face (plain_call call) ≡ false)) }
{
    Ok(Some(match message {
        Message::DeclareToken {
            id,
            expr,
            interest_id,
            node_id,
        } => Call::DeclareToken {
            face,
            id: *id,
            expr: expr.copy(alloc)?,
            node_id: *node_id,
            interest_id: *interest_id,
        },
        Message::UndeclareToken { id, expr, node_id } => Call::UndeclareToken {
            face,
            id: *id,
            expr: copy_expression(expr, alloc)?,
            node_id: *node_id,
        },
        Message::DeclareFinal { interest_id } => Call::DeclareFinal {
            face,
            interest_id: *interest_id,
        },
        Message::Interest {
            id,
            mode,
            options,
            expr,
        } => Call::Interest {
            face,
            id: *id,
            mode: *mode,
            options: *options,
            expr: copy_expression(expr, alloc)?,
        },
        Message::InterestFinal { id } => Call::InterestFinal { face, id: *id },
        _ => return Ok(None),
    }))
}

/// The call of a face, at its place.
fn call_at_face<K: Key>(
    alloc: Global,
    s: &FabricState<K>,
    call: &Call<K>,
) -> Result<Option<CallMade<K>>, Memory>
    ensures made { IfOk result (λ made. made_at s.now made
        ≡ call_of_face s.now (plain_call call.now) (call_face (plain_call call.now))) }
    ensures still { IfOk result (λ made. IfSome made (λ m. opens_face m.1 ≡ false)) }
{
    let Some(face) = face_of(call) else {
        return Ok(None);
    };
    let Some(place) = s.place_at(face) else {
        return Ok(None);
    };
    Ok(Some(CallMade {
        gateway: place.gateway(),
        call: call_with_face(alloc, call, place.face())?,
    }))
}

/// The number that a face has at a gateway; 0 where the face is another gateway's, or none.
fn face_at<K: Key>(s: &FabricState<K>, gateway: u32, face: u32) -> u32
    ensures { result ≡ face_at s.now gateway face }
{
    match s.place_at(face) {
        Some(place) if place.gateway() == gateway => place.face(),
        _ => 0,
    }
}

/// The table, where links name faces by their numbers at the gateway.
fn table_at<K: Key>(
    alloc: Global,
    s: &FabricState<K>,
    gateway: u32,
    table: &TreeTable,
) -> Result<TreeTable, Memory>
    ensures { IfOk result (λ at. trees_of at ≡ table_at s.now gateway (trees_of table.now)) }
{
    let mut links = Vec::new(alloc);
    for link in &table.links {
        links.push((face_at(s, gateway, link.0), link.1, link.2))?;
    }
    Ok(TreeTable {
        routers: table.routers.to_vec(alloc)?,
        links,
        children: table.children.to_vec(alloc)?,
    })
}

/// The call of the oldest message in a direction of a link, spoken by the face at the other end.
fn call_of_step<K: Key>(
    alloc: Global,
    s: &FabricState<K>,
    link: u32,
    back: bool,
) -> Result<Option<CallMade<K>>, Memory>
    ensures made { IfOk result (λ made. made_at s.now made
        ≡ call_of_step s.now back (nth link s.now.links)) }
    ensures still { IfOk result (λ made. IfSome made (λ m. opens_face m.1 ≡ false)) }
{
    let Some(link) = s.link_at(link) else {
        return Ok(None);
    };
    let Some(message) = oldest(s, link, back) else {
        return Ok(None);
    };
    let Some(place) = s.place_at(speaking_end(link, back)) else {
        return Ok(None);
    };
    let Some(call) = call_of_message(alloc, message, place.face())? else {
        return Ok(None);
    };
    Ok(Some(CallMade {
        gateway: place.gateway(),
        call,
    }))
}

/// The one call of a line, where its gateway or face exists.
#[tactic(auto, unfolding(zt_model::specs::Fabric::call_of))]
pub(crate) fn call_of_line<K: Key>(
    alloc: Global,
    s: &FabricState<K>,
    line: &Line<K>,
) -> Result<Option<CallMade<K>>, Memory>
    ensures made { IfOk result (λ made. made_at s.now made ≡ call_of (plain_line line.now) s.now) }
    ensures opens { IfOk result
        (λ made. IfSome made (λ m. opens_face m.1 ≡ is_opening (plain_line line.now))) }
{
    let (gateway, call) = match line {
        Line::Session { gateway, first } => (*gateway, Call::NewSession { first: *first }),
        Line::Face {
            gateway,
            mode,
            zid,
            region,
            bound,
            first,
        } => (
            *gateway,
            Call::NewTransport {
                zid: *zid,
                whatami: *mode,
                region: *region,
                remote_bound: *bound,
                first: *first,
            },
        ),
        Line::Moment { gateway, now } => (*gateway, Call::Expire { now: *now }),
        Line::Trees {
            gateway,
            region,
            table,
        } => (
            *gateway,
            Call::SetTrees {
                region: *region,
                table: table_at(alloc, s, *gateway, table)?,
            },
        ),
        Line::Speak { call } => return call_at_face(alloc, s, call),
        Line::Step { link, back } => return call_of_step(alloc, s, *link, *back),
        _ => return Ok(None),
    };
    Ok(Some(CallMade { gateway, call }))
}
