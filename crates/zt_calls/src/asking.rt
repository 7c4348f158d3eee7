// Interests at their own face.
ghost use Rattle.std.specs.Prelude.{◌≡◌, OnOk};
ghost use Rattle.zt_calls.specs.Does.{Does};
ghost use Rattle.zt_model.specs.Entities.{numbered_by, with_numbers};
ghost use Rattle.zt_protocol.specs.Interest.{has_aggregate};
ghost use Rattle.zt_model.specs.Says.{asking, interesting_above};

use crate::speech::{Speech, say};
use bitflags::Flags;
use std::alloc::Global;
use zt_entities::answer_entities;
use zt_interests::{final_of, route, sent_as};
use zt_keys::{Key, Memory};
use zt_protocol::{InterestId, InterestOptions};
use zt_region::Region;
use zt_state::{GatewayState, RemoteInterest};
use zt_tokens::{answer_interest, prepare_answers};

// Whether the interest asks for an aggregate.
fn is_aggregate<K: Key>(interest: &RemoteInterest<K>) -> bool
    ensures { result ≡ has_aggregate interest.now.options }
{
    interest.options().contains(InterestOptions::AGGREGATE)
}

// The expression of an interest that asks for an aggregate gets a number.
#[tactic(auto, unfolding(zt_model::specs::Entities::numbered_with))]
fn number_interest<K: Key>(
    alloc: Global,
    g: &mut GatewayState<K>,
    interest: &RemoteInterest<K>,
) -> Result<(), Memory>
    ensures { OnOk result (g.new ≡ with_numbers K.cmp (numbered_by K.cmp interest.now) g.old) }
{
    if !is_aggregate(interest) {
        return Ok(());
    }
    match interest.expr() {
        None => Ok(()),
        Some(expr) => {
            let mut exprs = Vec::new(alloc);
            exprs.push(expr.copy(alloc)?)?;
            g.give_numbers(alloc, &exprs)
        }
    }
}

// The face asks, is answered at once what is visible, and has its final where nobody else is asked.
fn ask_at_face<K: Key>(
    alloc: Global,
    g: &mut GatewayState<K>,
    speech: &mut Speech<K>,
    face: u32,
    id: InterestId,
    interest: &RemoteInterest<K>,
    pendings: &[(u32, u32)],
) -> Result<(), Memory>
    ensures { OnOk result (Does K.cmp K.matching
        (interesting_above K.cmp K.matching pendings.now face id interest.now)
        g.old g.new speech.old speech.new) }
{
    prepare_answers(alloc, g, interest);
    g.ask(alloc, face, id, interest, pendings)?;
    let answers = answer_interest(alloc, g, face, id, interest)?;
    say(alloc, g, speech, answers)?;
    let finals = final_of(alloc, g, face, id)?;
    say(alloc, g, speech, finals)
}

/// An interest of a face of the region `asker` is sent on to the north, and then answered.
pub(crate) fn ask<K: Key>(
    alloc: Global,
    g: &mut GatewayState<K>,
    speech: &mut Speech<K>,
    face: u32,
    asker: Region,
    id: InterestId,
    interest: &RemoteInterest<K>,
) -> Result<(), Memory>
    ensures { OnOk result (Does K.cmp K.matching
        (asking K.cmp K.matching face id interest.now asker g.old)
        g.old g.new speech.old speech.new) }
{
    let pendings = sent_as(alloc, g, asker, interest.mode())?;
    number_interest(alloc, g, interest)?;
    let routed = route(alloc, interest, &pendings)?;
    say(alloc, g, speech, routed)?;
    let entities = answer_entities(alloc, g, face, id, interest)?;
    say(alloc, g, speech, entities)?;
    ask_at_face(alloc, g, speech, face, id, interest, &pendings)
}
