// Printed messages, read back.
ghost use Rattle.std.specs.Prelude.{◌≡◌, Some};
ghost use Rattle.std.specs.Option.{option_copied};
ghost use Rattle.zt_fields.specs.Fields.{Gives, Finds, fields_left};
ghost use Rattle.zt_text.specs.Sent.{last_key_at, last_optional_key_at, token_at, answer_at};
ghost use Rattle.zt_text.specs.Sent.{untoken_at, final_at, asked_at, asked_final_at};
ghost use Rattle.zt_text.specs.Sent.{subscriber_message_at, queryable_message_at, message_by};
ghost use Rattle.zt_text.specs.Sent.{sent_behind, sent_at, sent_read};

use std::alloc::Global;
use zt_fields::{end_at, field_at, flag_at, key_at, value_at};
use zt_keys::Key;
use zt_protocol::{LineError, Message, QueryableInfo, Sent};

#[tactic(auto, unfolding(crate::specs::Sent::last_key_at))]
fn last_key_at<K: Key>(alloc: Global, rest: Option<&str>) -> Result<K, LineError>
    ensures { Finds (λ key. key) result
        (last_key_at K.reading (fields_left (option_copied rest.entry))) }
{
    let (key, rest) = key_at(alloc, rest)?;
    end_at(rest)?;
    Ok(key)
}

#[tactic(auto, unfolding(crate::specs::Sent::last_optional_key_at))]
fn last_optional_key_at<K: Key>(alloc: Global, rest: Option<&str>) -> Result<Option<K>, LineError>
    ensures { Finds (λ key. key) result
        (last_optional_key_at K.reading (fields_left (option_copied rest.entry))) }
{
    match end_at(rest) {
        Ok(()) => Ok(None),
        Err(_) => Ok(Some(last_key_at(alloc, rest)?)),
    }
}

#[tactic(auto, unfolding(crate::specs::Sent::token_at))]
fn token<K: Key>(alloc: Global, rest: Option<&str>) -> Result<Message<K>, LineError>
    ensures { Finds (λ m. m) result (token_at K.reading (fields_left (option_copied rest.entry))) }
{
    let (id, rest) = value_at(rest)?;
    let (node_id, rest) = value_at(rest)?;
    let expr = last_key_at(alloc, rest)?;
    Ok(Message::DeclareToken {
        id,
        expr,
        interest_id: None,
        node_id,
    })
}

#[tactic(auto, unfolding(crate::specs::Sent::answer_at))]
fn answer<K: Key>(alloc: Global, rest: Option<&str>) -> Result<Message<K>, LineError>
    ensures { Finds (λ m. m) result (answer_at K.reading (fields_left (option_copied rest.entry))) }
{
    let (interest_id, rest) = value_at(rest)?;
    let (id, rest) = value_at(rest)?;
    let (node_id, rest) = value_at(rest)?;
    let expr = last_key_at(alloc, rest)?;
    Ok(Message::DeclareToken {
        id,
        expr,
        interest_id: Some(interest_id),
        node_id,
    })
}

#[tactic(auto, unfolding(crate::specs::Sent::untoken_at))]
fn untoken<K: Key>(alloc: Global, rest: Option<&str>) -> Result<Message<K>, LineError>
    ensures { Finds (λ m. m) result
        (untoken_at K.reading (fields_left (option_copied rest.entry))) }
{
    let (id, rest) = value_at(rest)?;
    let (node_id, rest) = value_at(rest)?;
    let expr = last_optional_key_at(alloc, rest)?;
    Ok(Message::UndeclareToken { id, expr, node_id })
}

#[tactic(auto, unfolding(crate::specs::Sent::final_at))]
fn declare_final<K>(rest: Option<&str>) -> Result<Message<K>, LineError>
    ensures { Finds (λ m. m) result (final_at (fields_left (option_copied rest.entry))) }
{
    let (interest_id, rest) = value_at(rest)?;
    end_at(rest)?;
    Ok(Message::DeclareFinal { interest_id })
}

#[tactic(auto, unfolding(crate::specs::Sent::asked_at))]
fn interest<K: Key>(alloc: Global, rest: Option<&str>) -> Result<Message<K>, LineError>
    ensures { Finds (λ m. m) result (asked_at K.reading (fields_left (option_copied rest.entry))) }
{
    let (id, rest) = value_at(rest)?;
    let (mode, rest) = value_at(rest)?;
    let (options, rest) = value_at(rest)?;
    let expr = last_optional_key_at(alloc, rest)?;
    Ok(Message::Interest {
        id,
        mode,
        options,
        expr,
    })
}

#[tactic(auto, unfolding(crate::specs::Sent::asked_final_at))]
fn interest_final<K>(rest: Option<&str>) -> Result<Message<K>, LineError>
    ensures { Finds (λ m. m) result (asked_final_at (fields_left (option_copied rest.entry))) }
{
    let (id, rest) = value_at(rest)?;
    end_at(rest)?;
    Ok(Message::InterestFinal { id })
}

#[tactic(auto, unfolding(crate::specs::Sent::subscriber_message_at))]
fn subscriber<K: Key>(alloc: Global, rest: Option<&str>) -> Result<Message<K>, LineError>
    ensures { Finds (λ m. m) result
        (subscriber_message_at K.reading (fields_left (option_copied rest.entry))) }
{
    let (interest_id, rest) = value_at(rest)?;
    let (id, rest) = value_at(rest)?;
    let expr = last_key_at(alloc, rest)?;
    Ok(Message::DeclareSubscriber {
        id,
        expr,
        interest_id,
    })
}

#[tactic(auto, unfolding(crate::specs::Sent::queryable_message_at))]
fn queryable<K: Key>(alloc: Global, rest: Option<&str>) -> Result<Message<K>, LineError>
    ensures { Finds (λ m. m) result
        (queryable_message_at K.reading (fields_left (option_copied rest.entry))) }
{
    let (interest_id, rest) = value_at(rest)?;
    let (id, rest) = value_at(rest)?;
    let (complete, rest) = flag_at(rest)?;
    let (distance, rest) = value_at(rest)?;
    let expr = last_key_at(alloc, rest)?;
    Ok(Message::DeclareQueryable {
        id,
        expr,
        info: QueryableInfo { complete, distance },
        interest_id,
    })
}

#[tactic(auto, unfolding(crate::specs::Sent::message_by))]
fn message<K: Key>(alloc: Global, word: &str, rest: Option<&str>) -> Result<Message<K>, LineError>
    ensures { Finds (λ m. m) result
        (message_by K.reading word.now (fields_left (option_copied rest.entry))) }
{
    match word {
        "token" => token(alloc, rest),
        "answer" => answer(alloc, rest),
        "untoken" => untoken(alloc, rest),
        "final" => declare_final(rest),
        "interest" => interest(alloc, rest),
        "interest-final" => interest_final(rest),
        "subscriber" => subscriber(alloc, rest),
        "queryable" => queryable(alloc, rest),
        _ => Err(LineError::NotInGrammar),
    }
}

#[tactic(auto, unfolding(crate::specs::Sent::sent_behind))]
fn sent_behind<K: Key>(alloc: Global, rest: Option<&str>) -> Result<Sent<K>, LineError>
    ensures { Finds (λ s. s) result
        (sent_behind K.reading (fields_left (option_copied rest.entry))) }
{
    let (gateway, rest) = value_at(rest)?;
    let (face, rest) = value_at(rest)?;
    let (word, rest) = field_at(rest)?;
    let message = message(alloc, word, rest)?;
    Ok(Sent {
        gateway,
        face,
        message,
    })
}

#[tactic(auto, unfolding(crate::specs::Sent::sent_at))]
fn sent<K: Key>(alloc: Global, text: &str) -> Result<Sent<K>, LineError>
    ensures { Finds (λ s. s) result (sent_at K.reading (fields_left (Some text.now))) }
{
    let (mark, rest) = field_at(Some(text))?;
    if mark != ">" {
        return Err(LineError::NotInGrammar);
    }
    sent_behind(alloc, rest)
}

/// The message that a line of a transcript prints, without the line feed.
///
/// `NotUtf8` comes exactly where the bytes aren't UTF-8, `NotInGrammar` exactly where they are and
/// the line's fields spell no message. The only other error is `Memory`. For keys of one spelling,
/// as key expressions are, the answer is `Ok` exactly on message lines, unless memory runs out.
#[tactic(auto, unfolding(crate::specs::Sent::sent_read))]
pub fn read_sent<K: Key>(alloc: Global, bytes: &[u8]) -> Result<Sent<K>, LineError>
    ensures { Gives (λ s. s) result (sent_read K.reading bytes.now) }
{
    match std::str::from_utf8(bytes) {
        Ok(text) => sent(alloc, text),
        Err(_) => Err(LineError::NotUtf8),
    }
}
