// What of a turn asks are judged by: its call, and what it prints.
ghost use Rattle.std.specs.Prelude.{◌≡◌, ◌∷◌, ◌++◌, [], IfOk, OnOk};
ghost use Rattle.zt_model.specs.Lists.{has_id};
ghost use Rattle.zt_model.specs.Promises.{answered_by};
ghost use Rattle.zt_model.specs.Routing.{stands};
ghost use Rattle.zt_model.specs.Telling.{was_sent_as};
ghost use Rattle.zt_check_asks.specs.Answering.{answers_from};

use std::alloc::Global;
use zt_check_faces::{ShownAsk, ShownFace};
use zt_check_rows::ShownRows;
use zt_keys::{Key, Memory};
use zt_protocol::{Message, Sent};

/// Whether a pending stands: its face is open, and it is neither finished nor expired.
pub fn stands<K: Key>(rows: &ShownRows<K>, pending: (u32, u32)) -> bool
    ensures { result ≡ stands rows.now pending }
{
    match rows.face(pending.0) {
        None => false,
        Some(face) => has_pending(face, pending.1),
    }
}

// Whether a pending of an id of a face is there.
fn has_pending<K: Key>(face: &ShownFace<K>, id: u32) -> bool
    ensures { result ≡ has_id id face.now.pendings }
{
    for row in face.pendings_of(id) {
        if id == row.0 {
            return true;
        }
    }
    false
}

/// Whether the ask was sent upstream so.
pub fn was_sent_as<K: Key>(ask: &ShownAsk<K>, face: u32, id: u32) -> bool
    ensures { result ≡ was_sent_as face id ask.now }
{
    for pending in ask.pendings() {
        if face == pending.0 && id == pending.1 {
            return true;
        }
    }
    false
}

// Adds the expression of a message that answers an ask of an id.
fn add_answer<K: Key>(
    alloc: Global,
    answers: &mut Vec<K>,
    message: &Message<K>,
    id: u32,
) -> Result<(), Memory>
    ensures { OnOk result (answers.new.items ≡ answers.old.items ++ answered_by id message.now) }
{
    if let Message::DeclareToken {
        expr,
        interest_id: Some(interest),
        ..
    } = message
    {
        if id == *interest {
            answers.push(expr.copy(alloc)?)?;
        }
    }
    Ok(())
}

// Adds that of a message for a face, where it is for this one.
fn add_sent<K: Key>(
    alloc: Global,
    answers: &mut Vec<K>,
    sent: &Sent<K>,
    number: u64,
    id: u32,
) -> Result<(), Memory>
    ensures { OnOk result (answers.new.items
        ≡ answers.old.items ++ answers_from id number (sent.now ∷ [])) }
{
    if number != u64::from(sent.face) {
        return Ok(());
    }
    add_answer(alloc, answers, &sent.message, id)
}

/// The expressions that an ask of an id is answered by what is printed for a face, in order.
pub fn answers_in<K: Key>(
    alloc: Global,
    sents: &[Sent<K>],
    number: u64,
    id: u32,
) -> Result<Vec<K>, Memory>
    ensures { IfOk result
        (λ answers. answers.items ≡ answers_from id number sents.now) }
{
    let mut answers = Vec::new(alloc);
    for sent in sents {
        add_sent(alloc, &mut answers, sent, number, id)?;
    }
    Ok(answers)
}
