// Replies, samples and messages, for C. One that has no room stays.
ghost use Rattle.zt_liveliness_c.specs.Handles.{ReceivesAt, TakesMessage, TakesReply, TakesSample};

use std::alloc::Global;
use zt_engine::status::NOT_OPEN;
use zt_engine::{MessageFields, receive, take_reply, take_sample, take_sent};
use zt_handle::Handle;
use zt_keys::{Key, KeyExpr};

/// Takes the next reply of a query, and then its end.
#[unsafe(no_mangle)]
pub extern "C" fn zl_reply_try_recv(
    alloc: Global,
    engine: &mut Handle,
    session: u32,
    query: u32,
    key: &mut [u8],
    length: &mut usize,
) -> u32
    ensures { TakesReply ⟦<KeyExpr as Ord>⟧.cmp ⟦<KeyExpr as Key>⟧.matching
        session query engine.old.value engine.new.value key.old key.new length.old length.new
        result }
{
    let Some(mut held) = engine.take(alloc) else {
        return NOT_OPEN;
    };
    let status = take_reply(&mut held.liveliness, session, query, key, length);
    engine.put(alloc, held);
    status
}

/// Takes the next sample of a subscriber.
#[unsafe(no_mangle)]
pub extern "C" fn zl_sample_try_recv(
    alloc: Global,
    engine: &mut Handle,
    session: u32,
    subscriber: u32,
    kind: &mut u32,
    key: &mut [u8],
    length: &mut usize,
) -> u32
    ensures { TakesSample ⟦<KeyExpr as Ord>⟧.cmp ⟦<KeyExpr as Key>⟧.matching
        session subscriber engine.old.value engine.new.value kind.old kind.new key.old key.new
        length.old length.new result }
{
    let Some(mut held) = engine.take(alloc) else {
        return NOT_OPEN;
    };
    let status = take_sample(&mut held.liveliness, session, subscriber, kind, key, length);
    engine.put(alloc, held);
    status
}

/// Takes the oldest message for the gateway above an uplink.
#[unsafe(no_mangle)]
pub extern "C" fn zl_uplink_send(
    alloc: Global,
    engine: &mut Handle,
    uplink: u32,
    message: &mut MessageFields,
    key: &mut [u8],
    length: &mut usize,
) -> u32
    ensures { TakesMessage ⟦<KeyExpr as Ord>⟧.cmp ⟦<KeyExpr as Key>⟧.matching
        uplink engine.old.value engine.new.value message.old message.new key.old key.new
        length.old length.new result }
{
    let Some(mut held) = engine.take(alloc) else {
        return NOT_OPEN;
    };
    let status = take_sent(&mut held.liveliness, uplink, message, key, length);
    engine.put(alloc, held);
    status
}

/// Gives the engine a message of the gateway above an uplink.
#[unsafe(no_mangle)]
pub extern "C" fn zl_uplink_receive(
    alloc: Global,
    engine: &mut Handle,
    uplink: u32,
    message: &MessageFields,
    key: &[u8],
) -> u32
    ensures { ReceivesAt ⟦<KeyExpr as Ord>⟧.cmp ⟦<KeyExpr as Key>⟧.matching
        ⟦<KeyExpr as Key>⟧.reading uplink message.now key.now engine.old.value engine.new.value
        result }
{
    let Some(mut held) = engine.take(alloc) else {
        return NOT_OPEN;
    };
    let status = receive(alloc, &mut held.liveliness, uplink, message, key);
    engine.put(alloc, held);
    status
}
