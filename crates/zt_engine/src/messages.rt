// Messages as numbers, and the bytes of a key.
ghost use Rattle.std.specs.Prelude.{◌≡◌, IfErr, IfOk, Some};
ghost use Rattle.std.specs.Option.{option_copied};
ghost use Rattle.zt_engine.specs.Messages.{FitsItsBytes, IsUnreadMessage, IsUnreadOptional};
ghost use Rattle.zt_engine.specs.Messages.{alone, fields_of, interest_of, key_of, message_in};
ghost use Rattle.zt_engine.specs.Messages.{message_of, mode_number, mode_of, optional_key_in};
ghost use Rattle.zt_engine.specs.Messages.{queryable_of, subscriber_of, token_of, untoken_of};

use crate::keys::key_in;
use crate::status::BAD_ARGUMENT;
use bitflags::Flags;
use std::alloc::Global;
use zt_keys::Key;
use zt_protocol::{InterestMode, InterestOptions, Message, QueryableInfo};

// The kinds of messages, from 1.

/// A token is alive.
pub(crate) const TOKEN: u32 = 1;

/// A token that answers an interest.
pub(crate) const ANSWER: u32 = 2;

/// A token is gone.
pub(crate) const UNTOKEN: u32 = 3;

/// An interest got all its answers.
pub(crate) const FINAL: u32 = 4;

/// An interest.
pub(crate) const INTEREST: u32 = 5;

/// The end of an interest.
pub(crate) const INTEREST_FINAL: u32 = 6;

/// A subscriber.
pub(crate) const SUBSCRIBER: u32 = 7;

/// A queryable.
pub(crate) const QUERYABLE: u32 = 8;

/// A message without its key. A field that the kind doesn't use is 0 in what is sent, and isn't
/// read in what is received.
#[repr(C)]
#[derive(Clone, Copy, PartialEq, Eq, Debug)]
pub struct MessageFields {
    /// Which message it is: `TOKEN` to `QUERYABLE`.
    pub kind: u32,
    /// The id of the token, the interest, the subscriber or the queryable.
    pub id: u32,
    /// The id of the interest that is answered.
    pub interest_id: u32,
    /// The number of the router that a token comes from, up to 65535.
    pub node_id: u32,
    /// The mode of an interest: 1 for what is there now, 2 for what comes, 3 for both.
    pub mode: u32,
    /// The options of an interest, up to 255.
    pub options: u32,
    /// Whether a queryable is complete: 0 if it isn't.
    pub complete: u32,
    /// The distance of a queryable, up to 65535.
    pub distance: u32,
}

const NOTHING: MessageFields = MessageFields {
    kind: 0,
    id: 0,
    interest_id: 0,
    node_id: 0,
    mode: 0,
    options: 0,
    complete: 0,
    distance: 0,
};

fn mode_number(mode: InterestMode) -> u32
    ensures { result ≡ mode_number mode }
{
    match mode {
        InterestMode::Current => 1,
        InterestMode::Future => 2,
        InterestMode::CurrentFuture => 3,
    }
}

fn mode_of(number: u32) -> Option<InterestMode>
    ensures { result ≡ mode_of number }
{
    if number == 1 {
        return Some(InterestMode::Current);
    }
    if number == 2 {
        return Some(InterestMode::Future);
    }
    if number == 3 {
        return Some(InterestMode::CurrentFuture);
    }
    None
}

// The numbers of a message.
pub(crate) fn fields_of<K>(message: &Message<K>) -> MessageFields
    ensures fields { result ≡ fields_of message.now }
    ensures fits { FitsItsBytes message.now }
{
    match message {
        Message::DeclareToken {
            id,
            interest_id: None,
            node_id,
            ..
        } => MessageFields {
            kind: TOKEN,
            id: *id,
            node_id: u32::from(*node_id),
            ..NOTHING
        },
        Message::DeclareToken {
            id,
            interest_id: Some(interest_id),
            node_id,
            ..
        } => MessageFields {
            kind: ANSWER,
            id: *id,
            interest_id: *interest_id,
            node_id: u32::from(*node_id),
            ..NOTHING
        },
        Message::UndeclareToken { id, node_id, .. } => MessageFields {
            kind: UNTOKEN,
            id: *id,
            node_id: u32::from(*node_id),
            ..NOTHING
        },
        Message::DeclareFinal { interest_id } => MessageFields {
            kind: FINAL,
            interest_id: *interest_id,
            ..NOTHING
        },
        Message::Interest {
            id,
            mode,
            options,
            ..
        } => MessageFields {
            kind: INTEREST,
            id: *id,
            mode: mode_number(*mode),
            options: u32::from(options.bits()),
            ..NOTHING
        },
        Message::InterestFinal { id } => MessageFields {
            kind: INTEREST_FINAL,
            id: *id,
            ..NOTHING
        },
        Message::DeclareSubscriber {
            id,
            interest_id,
            ..
        } => MessageFields {
            kind: SUBSCRIBER,
            id: *id,
            interest_id: *interest_id,
            ..NOTHING
        },
        Message::DeclareQueryable {
            id,
            info,
            interest_id,
            ..
        } => MessageFields {
            kind: QUERYABLE,
            id: *id,
            interest_id: *interest_id,
            complete: u32::from(info.complete),
            distance: u32::from(info.distance),
            ..NOTHING
        },
    }
}

// The key of a message, where it has one.
pub(crate) fn key_of<K>(message: &Message<K>) -> Option<&K>
    ensures { option_copied result ≡ key_of message.now }
{
    match message {
        Message::DeclareToken { expr, .. } => Some(expr),
        Message::UndeclareToken { expr, .. } => expr.as_ref(),
        Message::DeclareFinal { .. } => None,
        Message::Interest { expr, .. } => expr.as_ref(),
        Message::InterestFinal { .. } => None,
        Message::DeclareSubscriber { expr, .. } => Some(expr),
        Message::DeclareQueryable { expr, .. } => Some(expr),
    }
}

fn token_of<K: Key>(
    fields: &MessageFields,
    interest_id: Option<u32>,
    key: Option<K>,
) -> Option<Message<K>>
    ensures { result ≡ token_of fields.now interest_id key }
{
    let expr = key?;
    if fields.node_id > 65535 {
        return None;
    }
    Some(Message::DeclareToken {
        id: fields.id,
        expr,
        interest_id,
        node_id: fields.node_id as u16,
    })
}

fn untoken_of<K: Key>(fields: &MessageFields, expr: Option<K>) -> Option<Message<K>>
    ensures { result ≡ untoken_of fields.now expr }
{
    if fields.node_id > 65535 {
        return None;
    }
    Some(Message::UndeclareToken {
        id: fields.id,
        expr,
        node_id: fields.node_id as u16,
    })
}

fn interest_of<K: Key>(fields: &MessageFields, expr: Option<K>) -> Option<Message<K>>
    ensures { result ≡ interest_of fields.now expr }
{
    let mode = mode_of(fields.mode)?;
    if fields.options > 255 {
        return None;
    }
    Some(Message::Interest {
        id: fields.id,
        mode,
        options: InterestOptions::from_bits_retain(fields.options as u8),
        expr,
    })
}

fn subscriber_of<K: Key>(fields: &MessageFields, key: Option<K>) -> Option<Message<K>>
    ensures { result ≡ subscriber_of fields.now key }
{
    let expr = key?;
    Some(Message::DeclareSubscriber {
        id: fields.id,
        expr,
        interest_id: fields.interest_id,
    })
}

fn queryable_of<K: Key>(fields: &MessageFields, key: Option<K>) -> Option<Message<K>>
    ensures { result ≡ queryable_of fields.now key }
{
    let expr = key?;
    if fields.distance > 65535 {
        return None;
    }
    let info = QueryableInfo {
        complete: fields.complete != 0,
        distance: fields.distance as u16,
    };
    Some(Message::DeclareQueryable {
        id: fields.id,
        expr,
        info,
        interest_id: fields.interest_id,
    })
}

// A message that has no key, where none is given.
fn alone<K: Key>(message: Message<K>, key: Option<K>) -> Option<Message<K>>
    ensures { result ≡ alone message key }
{
    match key {
        None => Some(message),
        Some(_) => None,
    }
}

// The message of these numbers and a key.
fn message_of<K: Key>(fields: &MessageFields, key: Option<K>) -> Option<Message<K>>
    ensures { result ≡ message_of fields.now key }
{
    let (id, interest_id) = (fields.id, fields.interest_id);
    match fields.kind {
        TOKEN => token_of(fields, None, key),
        ANSWER => token_of(fields, Some(interest_id), key),
        UNTOKEN => untoken_of(fields, key),
        FINAL => alone(Message::DeclareFinal { interest_id }, key),
        INTEREST => interest_of(fields, key),
        INTEREST_FINAL => alone(Message::InterestFinal { id }, key),
        SUBSCRIBER => subscriber_of(fields, key),
        QUERYABLE => queryable_of(fields, key),
        _ => None,
    }
}

// The key that the bytes spell; where there are none, there is no key.
fn optional_key_in<K: Key>(alloc: Global, bytes: &[u8]) -> Result<Option<K>, u32>
    ensures read { IfOk result (λ key. optional_key_in K.reading bytes.now ≡ Some key) }
    ensures unread { IfErr result (IsUnreadOptional K.reading bytes.now) }
{
    if bytes.is_empty() {
        return Ok(None);
    }
    match key_in(alloc, bytes) {
        Ok(key) => Ok(Some(key)),
        Err(status) => Err(status),
    }
}

// The message of these numbers and bytes, or the status of a call with them.
pub(crate) fn message_in<K: Key>(
    alloc: Global,
    fields: &MessageFields,
    key: &[u8],
) -> Result<Message<K>, u32>
    ensures read { IfOk result (λ message. message_in K.reading fields.now key.now ≡ Some message) }
    ensures unread { IfErr result (IsUnreadMessage K.reading fields.now key.now) }
{
    match optional_key_in(alloc, key) {
        Err(status) => Err(status),
        Ok(key) => {
            match message_of(fields, key) {
                Some(message) => Ok(message),
                None => Err(BAD_ARGUMENT),
            }
        }
    }
}
