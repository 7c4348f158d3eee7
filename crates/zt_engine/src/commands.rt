// Calls that are carried out or fail, over sessions and uplinks that are there.
ghost use Rattle.std.specs.Prelude.{◌≡◌, ◌+◌};
ghost use Rattle.zt_engine.specs.Answers.{Answers, Makes, OpensUplink, Receives};
ghost use Rattle.zt_engine.specs.Numbers.{remote_of};
ghost use Rattle.zt_liveliness.specs.Lively.{Close, Expire, OpenSession, OpenUplink, Receive};
ghost use Rattle.zt_liveliness.specs.Lively.{UndeclareSubscriber, UndeclareToken};

use crate::messages::{MessageFields, message_in};
use crate::numbers::{Remote, remote_of};
use crate::status::{BAD_ARGUMENT, DONE, status_of};
use std::alloc::Global;
use zt_keys::Key;
use zt_liveliness::{Liveliness, Token};
use zt_protocol::Message;

/// Opens a session. `number` is set to its number. The status is `DONE`, `OUT_OF_MEMORY`, or
/// `REFUSED` and the number of the refusal.
pub fn open_session<K: Key>(engine: &mut Liveliness<K>, number: &mut u32) -> u32
    ensures { Makes K.cmp K.matching OpenSession (engine.old.rows.made + 1) engine.old engine.new
        number.old number.new result }
{
    match engine.session() {
        Ok(made) => {
            *number = made;
            DONE
        }
        Err(error) => status_of(error),
    }
}

fn open_uplink_to<K: Key>(engine: &mut Liveliness<K>, remote: Remote, number: &mut u32) -> u32
    ensures { Makes K.cmp K.matching (OpenUplink remote.node.zid remote.node.mode remote.bound)
        (engine.old.rows.made + 1) engine.old engine.new number.old number.new result }
{
    match engine.uplink(remote.node.zid, remote.node.mode, remote.bound) {
        Ok(made) => {
            *number = made;
            DONE
        }
        Err(error) => status_of(error),
    }
}

/// Opens an uplink to a gateway of this number and mode, which has this one in a region of this
/// bound. `number` is set to the number of the uplink. The status is `DONE`, `BAD_ARGUMENT` where
/// no gateway has these numbers, `OUT_OF_MEMORY`, or `REFUSED` and the number of the refusal.
pub fn open_uplink<K: Key>(
    engine: &mut Liveliness<K>,
    zid_high: u64,
    zid_low: u64,
    mode: u32,
    bound: u32,
    number: &mut u32,
) -> u32
    ensures { OpensUplink K.cmp K.matching (remote_of zid_high zid_low mode bound)
        engine.old engine.new number.old number.new result }
{
    match remote_of(zid_high, zid_low, mode, bound) {
        Some(remote) => open_uplink_to(engine, remote, number),
        None => BAD_ARGUMENT,
    }
}

/// Closes a session or an uplink. The status is `DONE`, `NO_SUCH_FACE`, `OUT_OF_MEMORY`, or
/// `REFUSED` and the number of the refusal.
pub fn close_face<K: Key>(engine: &mut Liveliness<K>, face: u32) -> u32
    ensures { Answers K.cmp K.matching (Close face) engine.old engine.new result }
{
    match engine.close(face) {
        Ok(()) => DONE,
        Err(error) => status_of(error),
    }
}

/// Undeclares the token of an id. The status is `DONE`, `NO_SUCH_TOKEN`, `OUT_OF_MEMORY`, or
/// `REFUSED` and the number of the refusal.
pub fn undeclare_token<K: Key>(engine: &mut Liveliness<K>, session: u32, id: u32) -> u32
    ensures { Answers K.cmp K.matching (UndeclareToken session id) engine.old engine.new result }
{
    match engine.undeclare_token(Token { session, id }) {
        Ok(()) => DONE,
        Err(back) => status_of(back.error),
    }
}

/// Undeclares a subscriber. The status is `DONE`, `NO_SUCH_FACE`, `NO_SUCH_SUBSCRIBER`,
/// `OUT_OF_MEMORY`, or `REFUSED` and the number of the refusal.
pub fn undeclare_subscriber<K: Key>(
    engine: &mut Liveliness<K>,
    session: u32,
    subscriber: u32,
) -> u32
    ensures { Answers K.cmp K.matching (UndeclareSubscriber session subscriber)
        engine.old engine.new result }
{
    match engine.undeclare_subscriber(session, subscriber) {
        Ok(()) => DONE,
        Err(error) => status_of(error),
    }
}

/// Sets the moment, and ends what has waited for the timeout. The status is `DONE`,
/// `OUT_OF_MEMORY`, or `REFUSED` and the number of the refusal.
pub fn expire<K: Key>(engine: &mut Liveliness<K>, now: u64) -> u32
    ensures { Answers K.cmp K.matching (Expire now) engine.old engine.new result }
{
    match engine.expire(now) {
        Ok(()) => DONE,
        Err(error) => status_of(error),
    }
}

fn receive_message<K: Key>(engine: &mut Liveliness<K>, uplink: u32, message: &Message<K>) -> u32
    ensures { Answers K.cmp K.matching (Receive uplink message.now) engine.old engine.new result }
{
    match engine.receive(uplink, message) {
        Ok(()) => DONE,
        Err(error) => status_of(error),
    }
}

/// Takes a message that the gateway above an uplink sent: its numbers, and the bytes of its key,
/// none where it has no key. The status is `DONE`, `BAD_KEY`, `BAD_ARGUMENT` where they are no
/// message, `NO_SUCH_FACE`, `OUT_OF_MEMORY`, or `REFUSED` and the number of the refusal.
pub fn receive<K: Key>(
    alloc: Global,
    engine: &mut Liveliness<K>,
    uplink: u32,
    fields: &MessageFields,
    key: &[u8],
) -> u32
    ensures { Receives K.cmp K.matching K.reading uplink fields.now key.now engine.old engine.new
        result }
{
    match message_in(alloc, fields, key) {
        Ok(message) => receive_message(engine, uplink, &message),
        Err(status) => status,
    }
}
