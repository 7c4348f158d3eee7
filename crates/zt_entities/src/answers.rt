// What an interest in entities is answered.
ghost use Rattle.std.specs.Prelude.{◌≡◌, ◌&&◌, ◌++◌, [], IfOk, OnOk, if◌then◌else◌, map};
ghost use Rattle.zt_model.specs.Entities.{entities_for, queryables_for, subscribers_for};
ghost use Rattle.zt_model.specs.Parts.{to_face};
ghost use Rattle.zt_protocol.specs.Interest.{has_queryables, has_subscribers, is_current};
ghost use Rattle.zt_protocol.specs.Interest.{is_future};

use crate::queryables::add_queryables_for;
use crate::subscribers::add_subscribers_for;
use bitflags::Flags;
use std::alloc::Global;
use zt_keys::{Key, Memory};
use zt_protocol::{InterestId, InterestOptions, Message};
use zt_state::{FaceState, GatewayState, RemoteInterest};
use zt_tokens::find_face;

// Adds the subscribers, if the interest asks for them.
fn add_if_subscribers<K: Key>(
    alloc: Global,
    g: &GatewayState<K>,
    face: u32,
    id: InterestId,
    interest: &RemoteInterest<K>,
    f: &FaceState<K>,
    sends: &mut Vec<(u32, Message<K>)>,
) -> Result<(), Memory>
    ensures { OnOk result (sends.new.items ≡ sends.old.items
        ++ map (λ m. (face, m)) (if has_subscribers interest.now.options
        then subscribers_for K.cmp K.matching g.now id interest.now f.now else [])) }
{
    if interest.options().contains(InterestOptions::SUBSCRIBERS) {
        add_subscribers_for(alloc, g, face, id, interest, f, sends)?;
    }
    Ok(())
}

// Adds the queryables, if the interest asks for them.
fn add_if_queryables<K: Key>(
    alloc: Global,
    g: &GatewayState<K>,
    face: u32,
    id: InterestId,
    interest: &RemoteInterest<K>,
    f: &FaceState<K>,
    sends: &mut Vec<(u32, Message<K>)>,
) -> Result<(), Memory>
    ensures { OnOk result (sends.new.items ≡ sends.old.items
        ++ map (λ m. (face, m)) (if has_queryables interest.now.options
        then queryables_for K.cmp K.matching g.now id interest.now f.now else [])) }
{
    if interest.options().contains(InterestOptions::QUERYABLES) {
        add_queryables_for(alloc, g, face, id, interest, f, sends)?;
    }
    Ok(())
}

// Whether the interest asks for what is there now and later.
fn asks_now_and_later<K: Key>(interest: &RemoteInterest<K>) -> bool
    ensures { result ≡ (is_current interest.now.mode && is_future interest.now.mode) }
{
    interest.mode().is_current() && interest.mode().is_future()
}

// The entities that the face's interest asks for.
#[tactic(auto, unfolding(zt_model::specs::Entities::entities_for))]
fn entities_for<K: Key>(
    alloc: Global,
    g: &GatewayState<K>,
    face: u32,
    id: InterestId,
    interest: &RemoteInterest<K>,
    f: &FaceState<K>,
) -> Result<Vec<(u32, Message<K>)>, Memory>
    ensures { IfOk result (λ sends. sends.items
        ≡ map (λ m. (face, m)) (entities_for K.cmp K.matching g.now id interest.now f.now)) }
{
    let mut sends = Vec::new(alloc);
    if !asks_now_and_later(interest) {
        return Ok(sends);
    }
    add_if_subscribers(alloc, g, face, id, interest, f, &mut sends)?;
    add_if_queryables(alloc, g, face, id, interest, f, &mut sends)?;
    Ok(sends)
}

/// The face's interest in what is there now and later is answered the subscribers and queryables
/// that it asks for. Numbers that run out count as out of memory.
#[tactic(auto, unfolding(zt_model::specs::Parts::to_face))]
pub fn answer_entities<K: Key>(
    alloc: Global,
    g: &GatewayState<K>,
    face: u32,
    id: InterestId,
    interest: &RemoteInterest<K>,
) -> Result<Vec<(u32, Message<K>)>, Memory>
    ensures { IfOk result (λ sends. sends.items
        ≡ to_face face (entities_for K.cmp K.matching g.now id interest.now) g.now) }
{
    let Some(f) = find_face(g, face) else {
        return Ok(Vec::new(alloc));
    };
    let sends = entities_for(alloc, g, face, id, interest, f)?;
    Ok(sends)
}
