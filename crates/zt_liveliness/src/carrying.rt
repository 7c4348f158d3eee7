// Calls of the gateway, whose messages are delivered.
ghost use Rattle.std.specs.Prelude.{◌≡◌, ◌++◌, None, IfErr, IfOk, IfSome, OnErr, OnOk, filter};
ghost use Rattle.std.specs.Prelude.{option_map};
ghost use Rattle.zt_gateway.specs.Running.{IsRefusedBy, by_face, closed_by, without_closed};
ghost use Rattle.zt_laws.specs.Sound.{CallHasFirstIds};
ghost use Rattle.zt_liveliness.specs.Mail.{is_awaited, news_in_all, told_after_all};
ghost use Rattle.zt_model.specs.Journal.{cause_of, made_by, rows_after};
ghost use Rattle.zt_model.specs.Linking.{call_of_message};
ghost use Rattle.zt_model.specs.Says.{said};
ghost use Rattle.zt_protocol.specs.Plain.{plain_call};

use crate::books::Books;
use crate::mail::{Mail, deliver, delivery_of, reserve};
use std::alloc::Global;
use zt_gateway::{Gateway, Prepared};
use zt_keys::{Key, Memory};
use zt_protocol::{Call, CallError, Message, copy_expression};

// Copies of the messages of a prepared call, in order of face.
fn copies_of<K: Key>(
    alloc: Global,
    prepared: &Prepared<K>,
) -> Result<Vec<(u32, Message<K>)>, Memory>
    ensures { IfOk result (λ copies. copies.items ≡ by_face prepared.now.said) }
{
    let mut copies = Vec::new(alloc);
    for place in 0..prepared.sends() {
        match prepared.sent(place) {
            None => unreachable!(),
            Some((face, message)) => copies.push((face, message.copy(alloc)?))?,
        }
    }
    Ok(copies)
}

// The face that a call closes.
fn closed_by<K>(call: &Call<K>) -> Option<u32>
    ensures { result ≡ closed_by (plain_call call.now) }
{
    match call {
        Call::CloseFace { face } => Some(*face),
        _ => None,
    }
}

// Carries out a call. What is to wait of its messages is put behind what waits, and what sessions
// are told gives their subscribers samples; with a face that it closes go the messages that wait
// for it. An error changes nothing.
pub(crate) fn carry<K: Key>(
    alloc: Global,
    gateway: &mut Gateway<K>,
    books: &Books<K>,
    mail: &mut Mail<K>,
    call: &Call<K>,
) -> Result<Option<u32>, CallError>
    requires { CallHasFirstIds (plain_call call.now) }
    ensures refused { IfErr result
        (IsRefusedBy K.cmp K.matching (plain_call call.now) gateway.old.rows) }
    ensures accepted { OnOk result
        (cause_of K.cmp K.matching (plain_call call.now) gateway.old.rows ≡ None) }
    ensures rows { OnOk result (gateway.new.rows
        ≡ rows_after K.cmp K.matching (plain_call call.now) gateway.old.rows) }
    ensures waiting { OnOk result (mail.new.waiting.items
        ≡ without_closed (closed_by (plain_call call.now)) mail.old.waiting.items
        ++ filter (is_awaited books.now.sessions.items books.now.queries.items)
        (by_face (said K.cmp K.matching (plain_call call.now) gateway.old.rows))) }
    ensures told { OnOk result (mail.new.told.items
        ≡ told_after_all K.cmp books.now.sessions.items
        (by_face (said K.cmp K.matching (plain_call call.now) gateway.old.rows))
        mail.old.told.items) }
    ensures news { OnOk result (mail.new.news.items ≡ mail.old.news.items
        ++ news_in_all K.cmp K.matching books.now.sessions.items books.now.subscribers.items
        (by_face (said K.cmp K.matching (plain_call call.now) gateway.old.rows))
        mail.old.told.items) }
    ensures made { IfOk result
        (λ made. made ≡ made_by K.cmp K.matching (plain_call call.now) gateway.old.rows) }
    ensures err { OnErr result (gateway.new ≡ gateway.old) }
    ensures err_waiting { OnErr result (mail.new.waiting.items ≡ mail.old.waiting.items) }
    ensures err_told { OnErr result (mail.new.told.items ≡ mail.old.told.items) }
    ensures err_news { OnErr result (mail.new.news.items ≡ mail.old.news.items) }
{
    let prepared = match gateway.prepare(call) {
        Ok(prepared) => prepared,
        Err(error) => return Err(error),
    };
    let Ok(sent) = copies_of(alloc, &prepared) else {
        return Err(CallError::Memory);
    };
    let Ok(delivery) = delivery_of(alloc, books, mail.told.as_slice(), sent) else {
        return Err(CallError::Memory);
    };
    let Ok(()) = reserve(mail, &delivery) else {
        return Err(CallError::Memory);
    };
    let made = gateway.commit_call(prepared, call);
    gateway.clear_outbox();
    deliver(mail, delivery, closed_by(call));
    Ok(made)
}

// The call that a message names, where it names one, spoken by an uplink.
pub(crate) fn call_named<K: Key>(
    alloc: Global,
    uplink: u32,
    message: &Message<K>,
) -> Result<Option<Call<K>>, Memory>
    ensures named { IfOk result
        (λ named. option_map plain_call named ≡ call_of_message uplink message.now) }
    ensures first { IfOk result
        (λ named. IfSome named (λ call. CallHasFirstIds (plain_call call))) }
{
    Ok(Some(match message {
        Message::DeclareToken {
            id,
            expr,
            interest_id,
            node_id,
        } => Call::DeclareToken {
            face: uplink,
            id: *id,
            expr: expr.copy(alloc)?,
            node_id: *node_id,
            interest_id: *interest_id,
        },
        Message::UndeclareToken { id, expr, node_id } => Call::UndeclareToken {
            face: uplink,
            id: *id,
            expr: copy_expression(expr, alloc)?,
            node_id: *node_id,
        },
        Message::DeclareFinal { interest_id } => Call::DeclareFinal {
            face: uplink,
            interest_id: *interest_id,
        },
        Message::Interest {
            id,
            mode,
            options,
            expr,
        } => Call::Interest {
            face: uplink,
            id: *id,
            mode: *mode,
            options: *options,
            expr: copy_expression(expr, alloc)?,
        },
        Message::InterestFinal { id } => Call::InterestFinal {
            face: uplink,
            id: *id,
        },
        _ => return Ok(None),
    }))
}
