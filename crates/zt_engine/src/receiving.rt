// What sessions and uplinks are given: texts that go into a caller's buffer.
ghost use Rattle.std.specs.Prelude.{◌≡◌, ◌==◌, if◌then◌else◌, IfSome, Some, option_map};
ghost use Rattle.std.specs.Option.{option_copied};
ghost use Rattle.zt_engine.specs.Given.{buffer_after, fields_after, has_room, kind_after};
ghost use Rattle.zt_engine.specs.Given.{length_after, reply_status, reply_text, sample_kind};
ghost use Rattle.zt_engine.specs.Given.{sample_text, sent_text, waiting_status};
ghost use Rattle.zt_engine.specs.Messages.{FitsItsBytes, fields_of};
ghost use Rattle.zt_liveliness.specs.Lively.{TakeReply, TakeSample, TakeSent, left_after};
ghost use Rattle.zt_liveliness.specs.Lively.{reply_of, sample_of, sent_of};

use crate::keys::put_text;
use crate::messages::{MessageFields, fields_of, key_of};
use crate::status::{DONE, ENDED, NO_SUCH_GET, NOTHING, SHORT_BUFFER};
use zt_keys::{Key, KeyExpr};
use zt_liveliness::{Liveliness, Reply, Sample};
use zt_protocol::Message;

// Writes the text of a key, where there is one, and its length. Answers whether it had room.
fn put_key(key: Option<&KeyExpr>, out: &mut [u8], written: &mut usize) -> bool
    ensures room { let text = option_map (λ k. k.bytes) (option_copied key.entry)
        in result ≡ has_room text out.old }
    ensures out { let text = option_map (λ k. k.bytes) (option_copied key.entry)
        in out.new ≡ buffer_after text out.old }
    ensures written { let text = option_map (λ k. k.bytes) (option_copied key.entry)
        in written.new ≡ length_after text written.old }
{
    match key {
        None => true,
        Some(key) => put_text(key.text().as_bytes(), out, written),
    }
}

/// Takes the next reply of a query, and then its end. `key` gets the reply's key and `length` its
/// length. The status is `DONE`, `SHORT_BUFFER` where the key has no room and the reply stays,
/// `ENDED` at the end, `NOTHING` where neither waits, or `NO_SUCH_GET`.
pub fn take_reply(
    engine: &mut Liveliness<KeyExpr>,
    session: u32,
    get: u32,
    key: &mut [u8],
    length: &mut usize,
) -> u32
    ensures status { result ≡ reply_status (reply_of session get engine.old) key.old }
    ensures left { engine.new
        ≡ (if has_room (reply_text (reply_of session get engine.old)) key.old
        then left_after ⟦<KeyExpr as Ord>⟧.cmp ⟦<KeyExpr as Key>⟧.matching
        (TakeReply session get) engine.old else engine.old) }
    ensures key { key.new ≡ buffer_after (reply_text (reply_of session get engine.old)) key.old }
    ensures length { length.new
        ≡ length_after (reply_text (reply_of session get engine.old)) length.old }
{
    if !put_key(engine.next_reply(session, get), key, length) {
        return SHORT_BUFFER;
    }
    match engine.reply(session, get) {
        Reply::Live(_) => DONE,
        Reply::Done => ENDED,
        Reply::NotYet => NOTHING,
        Reply::NoSuchGet => NO_SUCH_GET,
    }
}

fn put_sample(sample: &Sample<KeyExpr>, kind: &mut u32, out: &mut [u8], written: &mut usize) -> bool
    ensures room { result ≡ has_room (Some (sample_text sample.now)) out.old }
    ensures kind { kind.new ≡ sample_kind sample.now }
    ensures out { out.new ≡ buffer_after (Some (sample_text sample.now)) out.old }
    ensures written { written.new ≡ length_after (Some (sample_text sample.now)) written.old }
{
    match sample {
        Sample::Put(key) => {
            *kind = 0;
            put_text(key.text().as_bytes(), out, written)
        }
        Sample::Delete(key) => {
            *kind = 1;
            put_text(key.text().as_bytes(), out, written)
        }
    }
}

/// Takes the next sample of a subscriber. `kind` is set to 0 for a Put and 1 for a Delete, `key`
/// gets its key and `length` the key's length. The status is `DONE`, `SHORT_BUFFER` where the key
/// has no room and the sample stays, or `NOTHING`.
pub fn take_sample(
    engine: &mut Liveliness<KeyExpr>,
    session: u32,
    subscriber: u32,
    kind: &mut u32,
    key: &mut [u8],
    length: &mut usize,
) -> u32
    ensures status { result
        ≡ waiting_status (option_map sample_text (sample_of session subscriber engine.old)) key.old }
    ensures left { engine.new
        ≡ (if result == 0 then left_after ⟦<KeyExpr as Ord>⟧.cmp ⟦<KeyExpr as Key>⟧.matching
        (TakeSample session subscriber) engine.old else engine.old) }
    ensures kind { kind.new ≡ kind_after (sample_of session subscriber engine.old) kind.old }
    ensures key { key.new
        ≡ buffer_after (option_map sample_text (sample_of session subscriber engine.old)) key.old }
    ensures length { length.new
        ≡ length_after (option_map sample_text (sample_of session subscriber engine.old))
        length.old }
{
    let Some(sample) = engine.next_sample(session, subscriber) else {
        return NOTHING;
    };
    if !put_sample(sample, kind, key, length) {
        return SHORT_BUFFER;
    }
    let _ = engine.sample(session, subscriber);
    DONE
}

fn put_message(
    message: &Message<KeyExpr>,
    fields: &mut MessageFields,
    out: &mut [u8],
    written: &mut usize,
) -> bool
    ensures room { result ≡ has_room (Some (sent_text message.now)) out.old }
    ensures fields { fields.new ≡ fields_of message.now }
    ensures fits { FitsItsBytes message.now }
    ensures out { out.new ≡ buffer_after (Some (sent_text message.now)) out.old }
    ensures written { written.new ≡ length_after (Some (sent_text message.now)) written.old }
{
    *fields = fields_of(message);
    match key_of(message) {
        None => put_text(&[], out, written),
        Some(key) => put_text(key.text().as_bytes(), out, written),
    }
}

/// Takes the oldest message for the gateway above an uplink. `fields` is set to its numbers, `key`
/// gets its key and `length` the key's length, 0 where it has none. The status is `DONE`,
/// `SHORT_BUFFER` where the key has no room and the message stays, or `NOTHING`.
pub fn take_sent(
    engine: &mut Liveliness<KeyExpr>,
    uplink: u32,
    fields: &mut MessageFields,
    key: &mut [u8],
    length: &mut usize,
) -> u32
    ensures status { result
        ≡ waiting_status (option_map sent_text (sent_of uplink engine.old)) key.old }
    ensures left { engine.new
        ≡ (if result == 0 then left_after ⟦<KeyExpr as Ord>⟧.cmp ⟦<KeyExpr as Key>⟧.matching
        (TakeSent uplink) engine.old else engine.old) }
    ensures fields { fields.new ≡ fields_after (sent_of uplink engine.old) fields.old }
    ensures fits { IfSome (sent_of uplink engine.old) FitsItsBytes }
    ensures key { key.new
        ≡ buffer_after (option_map sent_text (sent_of uplink engine.old)) key.old }
    ensures length { length.new
        ≡ length_after (option_map sent_text (sent_of uplink engine.old)) length.old }
{
    let Some(message) = engine.next_sent(uplink) else {
        return NOTHING;
    };
    if !put_message(message, fields, key, length) {
        return SHORT_BUFFER;
    }
    let _ = engine.send(uplink);
    DONE
}
