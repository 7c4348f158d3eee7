// What of the printed messages asks wait for or are answered.
ghost use Rattle.std.specs.Prelude.{◌≡◌};
ghost use Rattle.std.specs.List.{list_any};
ghost use Rattle.zt_model.specs.Promises.{answers_interest};
ghost use Rattle.zt_check_finals.specs.Finishing.{asks_now, stands_after};

use zt_check_asks::stands;
use zt_check_fabric::ShownFabric;
use zt_check_rows::ShownRows;
use zt_keys::Key;
use zt_protocol::{Message, Sent};

/// Whether a message answers the interest of an id.
pub fn answers_interest<K: Key>(message: &Message<K>, id: u32) -> bool
    ensures { result ≡ answers_interest id message.now }
{
    match message {
        Message::DeclareToken {
            interest_id: Some(interest),
            ..
        } => id == *interest,
        Message::DeclareSubscriber { interest_id, .. }
        | Message::DeclareQueryable { interest_id, .. } => id == *interest_id,
        _ => false,
    }
}

// Whether a message for a face is an interest of an id in what is there now.
fn asks_now<K: Key>(sent: &Sent<K>, number: u64, pending: u32) -> bool
    ensures { result ≡ asks_now number pending sent.now }
{
    match &sent.message {
        Message::Interest { id, mode, .. } => {
            number == u64::from(sent.face) && pending == *id && mode.is_current()
        }
        _ => false,
    }
}

// Whether one of these messages is.
fn is_asked_now<K: Key>(sents: &[Sent<K>], number: u64, pending: u32) -> bool
    ensures { result ≡ list_any (asks_now number pending) sents.now }
{
    for sent in sents {
        if asks_now(sent, number, pending) {
            return true;
        }
    }
    false
}

/// Whether a pending stands once the messages are heard.
pub fn stands_after<'a, K: Key>(
    fabric: &ShownFabric<'a, K>,
    gateway: u32,
    rows: &ShownRows<K>,
    sents: &[Sent<K>],
    pending: (u32, u32),
) -> bool
    ensures { result ≡ stands_after fabric.now sents.now gateway rows.now pending }
{
    stands(rows, pending)
        || (rows.face(pending.0).is_some()
            && is_asked_now(sents, fabric.number_of_place(gateway, pending.0), pending.1))
}
