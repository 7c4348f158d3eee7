// How interests and asks end.
ghost use Rattle.std.specs.Prelude.{◌≡◌, ◌==◌, ◌&&◌, IfOk, length, map};
ghost use Rattle.zt_model.specs.Lists.{at_id, is_some_and};
ghost use Rattle.zt_model.specs.Parts.{to_face};
ghost use Rattle.zt_model.specs.Routing.{final_of, final_of_both};
ghost use Rattle.zt_protocol.specs.Interest.{is_current, is_future};

use std::alloc::Global;
use zt_keys::{Key, Memory};
use zt_protocol::{InterestId, Message};
use zt_state::{FaceState, GatewayState, RemoteInterest};
use zt_tokens::find_face;

// Whether the face has an ask under this id that was sent to nobody.
fn asks_nobody<K: Key>(f: &FaceState<K>, id: InterestId) -> bool
    ensures { result ≡ is_some_and (at_id id f.now.asks) (λ ask. length ask.pendings == 0) }
{
    match f.asks().at(id) {
        None => false,
        Some(ask) => ask.pendings().is_empty(),
    }
}

// What a face is told of the end of an ask that was sent to nobody.
#[tactic(auto, using(crate::proofs::Finals::final_of_nobody))]
fn final_to<K: Key>(
    alloc: Global,
    face: u32,
    id: InterestId,
    f: &FaceState<K>,
) -> Result<Vec<(u32, Message<K>)>, Memory>
    ensures { IfOk result (λ sends. sends.items ≡ map (λ m. (face, m)) (final_of id f.now)) }
{
    let mut sends = Vec::new(alloc);
    if asks_nobody(f, id) {
        sends.push((face, Message::DeclareFinal { interest_id: id }))?;
    }
    Ok(sends)
}

/// The final of an ask that was sent to nobody.
#[tactic(auto, unfolding(zt_model::specs::Parts::to_face))]
pub fn final_of<K: Key>(
    alloc: Global,
    g: &GatewayState<K>,
    face: u32,
    id: InterestId,
) -> Result<Vec<(u32, Message<K>)>, Memory>
    ensures { IfOk result (λ sends. sends.items ≡ to_face face (final_of id) g.now) }
{
    match find_face(g, face) {
        None => Ok(Vec::new(alloc)),
        Some(f) => final_to(alloc, face, id, f),
    }
}

// Whether the face asks under this id for what comes later too.
fn asks_on<K: Key>(f: &FaceState<K>, id: InterestId) -> bool
    ensures { result ≡ is_some_and (at_id id f.now.asks) (λ ask. is_future ask.interest.mode) }
{
    match f.asks().at(id) {
        None => false,
        Some(ask) => ask.interest().mode().is_future(),
    }
}

// Whether the face has an ask under this id that ends with this interest.
fn ends_both<K: Key>(f: &FaceState<K>, id: InterestId, interest: &RemoteInterest<K>) -> bool
    ensures { result ≡ (is_current interest.now.mode
        && is_some_and (at_id id f.now.asks) (λ ask. is_future ask.interest.mode)) }
{
    interest.mode().is_current() && asks_on(f, id)
}

// What a face is told of the end of an ask that ends with its interest.
fn final_of_both_to<K: Key>(
    alloc: Global,
    face: u32,
    id: InterestId,
    interest: &RemoteInterest<K>,
    f: &FaceState<K>,
) -> Result<Vec<(u32, Message<K>)>, Memory>
    ensures { IfOk result (λ sends. sends.items
        ≡ map (λ m. (face, m)) (final_of_both id interest.now f.now)) }
{
    if !ends_both(f, id, interest) {
        return Ok(Vec::new(alloc));
    }
    let mut sends = Vec::new(alloc);
    sends.push((face, Message::DeclareFinal { interest_id: id }))?;
    Ok(sends)
}

/// The final of an ask that ends with its interest, where that asked for both.
#[tactic(auto, unfolding(zt_model::specs::Parts::to_face))]
pub fn final_of_both<K: Key>(
    alloc: Global,
    g: &GatewayState<K>,
    face: u32,
    id: InterestId,
    interest: &RemoteInterest<K>,
) -> Result<Vec<(u32, Message<K>)>, Memory>
    ensures { IfOk result (λ sends. sends.items
        ≡ to_face face (final_of_both id interest.now) g.now) }
{
    match find_face(g, face) {
        None => Ok(Vec::new(alloc)),
        Some(f) => final_of_both_to(alloc, face, id, interest, f),
    }
}
