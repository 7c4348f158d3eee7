// What a line may end of what asks wait for: read before it.
ghost use Rattle.std.specs.Prelude.{◌≡◌, ◌∷◌, ◌++◌, [], IfOk, OnOk};
ghost use Rattle.zt_protocol.specs.Plain.{plain_call, plain_line};
ghost use Rattle.zt_model.specs.Lists.{nth};
ghost use Rattle.zt_model.specs.Promises.{is_open_face};
ghost use Rattle.zt_check_fabric.specs.Made.{made_at};
ghost use Rattle.zt_check_finals.specs.Ending.{ended_at, ended_between, ended_by, ended_by_line};
ghost use Rattle.zt_check_finals.specs.Ending.{finalised_at, finalised_by, touched_at, touched_by};
ghost use Rattle.zt_check_finals.specs.Ending.{is_open_at, unopened_by, unopened_of};

use std::alloc::Global;
use zt_check_fabric::{ShownFabric, ShownPlace};
use zt_keys::{Key, Memory};
use zt_protocol::{Call, Line, Message, Sent};

/// What a line may end of what asks wait for.
#[derive(Drop)]
pub struct Ending {
    /// Pendings that may end, each of a gateway: all of them, those of a face, or the one of a face
    /// and an id.
    pub ended: Vec<(u32, Option<u32>, Option<u32>)>,
    /// The ask that the line makes, or whose interest it ends, by its gateway, its face and its id.
    pub touched: Option<(u32, u32, u32)>,
    /// The interest that it ends.
    pub finalised: Option<(u32, u32, u32)>,
    /// Faces for which a final of the id 0 is printed, and that aren't open before the line.
    pub unopened: Vec<u32>,
}

// The ask that a call makes, or whose interest it ends.
fn touched_by<K: Key>(gateway: u32, call: &Call<K>) -> Option<(u32, u32, u32)>
    ensures { result ≡ touched_by gateway (plain_call call.now) }
{
    match call {
        Call::Interest { face, id, .. } | Call::InterestFinal { face, id } => {
            Some((gateway, *face, *id))
        }
        _ => None,
    }
}

fn touched_at<'a, K: Key>(
    fabric: &ShownFabric<'a, K>,
    found: &Option<(u32, Call<K>)>,
) -> Option<(u32, u32, u32)>
    ensures { result ≡ touched_at (made_at fabric.now found.now) }
{
    let Some((gateway, call)) = found else {
        return None;
    };
    let Some(_) = fabric.node(*gateway) else {
        return None;
    };
    touched_by(*gateway, call)
}

// The interest that a call ends.
fn finalised_by<K: Key>(gateway: u32, call: &Call<K>) -> Option<(u32, u32, u32)>
    ensures { result ≡ finalised_by gateway (plain_call call.now) }
{
    match call {
        Call::InterestFinal { face, id } => Some((gateway, *face, *id)),
        _ => None,
    }
}

fn finalised_at<'a, K: Key>(
    fabric: &ShownFabric<'a, K>,
    found: &Option<(u32, Call<K>)>,
) -> Option<(u32, u32, u32)>
    ensures { result ≡ finalised_at (made_at fabric.now found.now) }
{
    let Some((gateway, call)) = found else {
        return None;
    };
    let Some(_) = fabric.node(*gateway) else {
        return None;
    };
    finalised_by(*gateway, call)
}

// Adds the pendings that a call may end.
fn add_ended<K: Key>(
    ended: &mut Vec<(u32, Option<u32>, Option<u32>)>,
    gateway: u32,
    call: &Call<K>,
) -> Result<(), Memory>
    ensures { OnOk result (ended.new.items
        ≡ ended.old.items ++ ended_by gateway (plain_call call.now)) }
{
    match call {
        Call::DeclareFinal { face, interest_id } => {
            ended.push((gateway, Some(*face), Some(*interest_id)))?;
            Ok(())
        }
        Call::CloseFace { face } => {
            ended.push((gateway, Some(*face), None))?;
            Ok(())
        }
        Call::Expire { .. } => {
            ended.push((gateway, None, None))?;
            Ok(())
        }
        _ => Ok(()),
    }
}

fn add_ended_at<'a, K: Key>(
    ended: &mut Vec<(u32, Option<u32>, Option<u32>)>,
    fabric: &ShownFabric<'a, K>,
    found: &Option<(u32, Call<K>)>,
) -> Result<(), Memory>
    ensures { OnOk result (ended.new.items
        ≡ ended.old.items ++ ended_at (made_at fabric.now found.now)) }
{
    let Some((gateway, call)) = found else {
        return Ok(());
    };
    let Some(_) = fabric.node(*gateway) else {
        return Ok(());
    };
    add_ended(ended, *gateway, call)
}

// Those of both faces of a link that closes.
fn ended_between<'a, K: Key>(
    alloc: Global,
    fabric: &ShownFabric<'a, K>,
    link: u32,
) -> Result<Vec<(u32, Option<u32>, Option<u32>)>, Memory>
    ensures { IfOk result
        (λ ended. ended.items ≡ ended_between fabric.now (nth link fabric.now.links)) }
{
    let mut ended = Vec::new(alloc);
    let Some(link) = fabric.link(link) else {
        return Ok(ended);
    };
    let one = fabric.closing_call(alloc, link.one())?;
    add_ended_at(&mut ended, fabric, &one)?;
    let two = fabric.closing_call(alloc, link.two())?;
    add_ended_at(&mut ended, fabric, &two)?;
    Ok(ended)
}

// Those of the one call of a line.
fn ended_at<'a, K: Key>(
    alloc: Global,
    fabric: &ShownFabric<'a, K>,
    found: &Option<(u32, Call<K>)>,
) -> Result<Vec<(u32, Option<u32>, Option<u32>)>, Memory>
    ensures { IfOk result (λ ended. ended.items ≡ ended_at (made_at fabric.now found.now)) }
{
    let mut ended = Vec::new(alloc);
    add_ended_at(&mut ended, fabric, found)?;
    Ok(ended)
}

// The pendings that a line may end.
fn ended_by_line<'a, K: Key>(
    alloc: Global,
    fabric: &ShownFabric<'a, K>,
    line: &Line<K>,
    found: &Option<(u32, Call<K>)>,
) -> Result<Vec<(u32, Option<u32>, Option<u32>)>, Memory>
    ensures { IfOk result (λ ended. ended.items
        ≡ ended_by_line (plain_line line.now) (made_at fabric.now found.now) fabric.now) }
{
    match line {
        Line::Unlink { link } => ended_between(alloc, fabric, *link),
        _ => ended_at(alloc, fabric, found),
    }
}

// Whether the gateway's face at a place is open.
fn is_open_at<'a, K: Key>(fabric: &ShownFabric<'a, K>, place: &ShownPlace) -> bool
    ensures { result ≡ is_open_at fabric.now place.now }
{
    match fabric.node(place.gateway()) {
        None => false,
        Some(node) => node.rows().face(place.face()).is_some(),
    }
}

/// Whether the face of a number in scripts is open.
#[tactic(auto, unfolding(zt_model::specs::Transcript::face_numbered))]
pub(crate) fn is_open<'a, K: Key>(fabric: &ShownFabric<'a, K>, number: u32) -> bool
    ensures { result ≡ is_open_face fabric.now number }
{
    match fabric.place(number) {
        None => false,
        Some(place) => is_open_at(fabric, place),
    }
}

// Adds the face of a message, where this is a final of the id 0 and the face isn't open.
fn add_unopened<'a, K: Key>(
    unopened: &mut Vec<u32>,
    fabric: &ShownFabric<'a, K>,
    face: u32,
    message: &Message<K>,
) -> Result<(), Memory>
    ensures { OnOk result (unopened.new.items
        ≡ unopened.old.items ++ unopened_of fabric.now face message.now) }
{
    match message {
        Message::DeclareFinal { interest_id } => {
            if *interest_id == 0 && !is_open(fabric, face) {
                unopened.push(face)?;
                return Ok(());
            }
            Ok(())
        }
        _ => Ok(()),
    }
}

// The faces of all such messages.
fn unopened_by<'a, K: Key>(
    alloc: Global,
    fabric: &ShownFabric<'a, K>,
    sents: &[Sent<K>],
) -> Result<Vec<u32>, Memory>
    ensures { IfOk result (λ unopened. unopened.items ≡ unopened_by fabric.now sents.now) }
{
    let mut unopened = Vec::new(alloc);
    for sent in sents {
        add_unopened(&mut unopened, fabric, sent.face, &sent.message)?;
    }
    Ok(unopened)
}

/// What a line may end of what asks wait for, with what is printed for it. The fabric is that before
/// the line, and `found` the line's call. The only error is an allocation that fails.
pub fn ending_by<'a, K: Key>(
    alloc: Global,
    fabric: &ShownFabric<'a, K>,
    line: &Line<K>,
    found: &Option<(u32, Call<K>)>,
    sents: &[Sent<K>],
) -> Result<Ending, Memory>
    ensures ended { IfOk result (λ ending. ending.ended.items
        ≡ ended_by_line (plain_line line.now) (made_at fabric.now found.now) fabric.now) }
    ensures touched { IfOk result
        (λ ending. ending.touched ≡ touched_at (made_at fabric.now found.now)) }
    ensures finalised { IfOk result
        (λ ending. ending.finalised ≡ finalised_at (made_at fabric.now found.now)) }
    ensures unopened { IfOk result
        (λ ending. ending.unopened.items ≡ unopened_by fabric.now sents.now) }
{
    let ended = ended_by_line(alloc, fabric, line, found)?;
    let unopened = unopened_by(alloc, fabric, sents)?;
    Ok(Ending {
        ended,
        touched: touched_at(fabric, found),
        finalised: finalised_at(fabric, found),
        unopened,
    })
}
