// Replies, and messages for uplinks, that wait.
ghost use Rattle.std.specs.Prelude.{◌≡◌, ◌+◌, ◌<◌, ◌≤◌, ◌++◌, ℕ, [], Some, None, IfNone, IfSome};
ghost use Rattle.std.specs.Prelude.{filter, is_some, length, not, slice_index_or, vec_capacity};
ghost use Rattle.std.specs.Prelude.{true, vec_len};
ghost use Rattle.std.specs.List.{remove};
ghost use Rattle.std.specs.Option.{option_copied};
ghost use Rattle.zt_protocol.specs.declared.messages.Message.{Message};
ghost use Rattle.zt_gateway.specs.Running.{oldest_for, without_closed, without_oldest};
ghost use Rattle.zt_liveliness.specs.Queues.{answer_for, answer_in, oldest_answer, reply_in};
ghost use Rattle.zt_liveliness.specs.Queues.{without_answer};

use zt_protocol::Message;

// The messages to a face that closed go.
fn drop_messages<K: Drop>(waiting: &mut Vec<(u32, Message<K>)>, closed: Option<u32>)
    ensures items { waiting.new.items ≡ without_closed closed waiting.old.items }
    ensures len { vec_len waiting.new ≤ vec_len waiting.old }
    ensures capacity { vec_capacity waiting.old ≤ vec_capacity waiting.new }
{
    if let Some(number) = closed {
        waiting.retain(|message| number != message.0);
    }
}

// What waits for faces but the closed one, and then what is sent, for which there is room.
pub(crate) fn append<K: Drop>(
    waiting: &mut Vec<(u32, Message<K>)>,
    mut sent: Vec<(u32, Message<K>)>,
    closed: Option<u32>,
)
    requires { vec_len waiting.old + vec_len sent ≤ vec_capacity waiting.old }
    ensures { waiting.new.items ≡ without_closed closed waiting.old.items ++ sent.items }
{
    drop_messages(waiting, closed);
    let Ok(()) = waiting.append(&mut sent) else {
        unreachable!()
    };
}

// Where the oldest message for a face stands.
fn place_for<K>(waiting: &[(u32, Message<K>)], face: u32) -> Option<usize>
    ensures within { IfSome result (λ place. place < length waiting.now) }
    ensures there { IfSome result (λ place. (other : ℕ × Message K)
        → oldest_for face waiting.now ≡ Some (slice_index_or waiting.now place other).1) }
    ensures left { IfSome result
        (λ place. without_oldest face waiting.now ≡ remove waiting.now place) }
    ensures absent { IfNone result (oldest_for face waiting.now ≡ None) }
    ensures unchanged { IfNone result (without_oldest face waiting.now ≡ waiting.now) }
{
    for (place, message) in waiting.iter().enumerate() {
        if face == message.0 {
            return Some(place);
        }
    }
    None
}

// The oldest message for a face, which stays.
pub(crate) fn oldest_for<K>(waiting: &[(u32, Message<K>)], face: u32) -> Option<&Message<K>>
    ensures { option_copied result ≡ oldest_for face waiting.now }
{
    match place_for(waiting, face) {
        None => None,
        Some(place) => Some(&waiting[place].1),
    }
}

// Takes the oldest message for a face.
pub(crate) fn take_oldest<K>(waiting: &mut Vec<(u32, Message<K>)>, face: u32) -> Option<Message<K>>
    ensures message { result ≡ oldest_for face waiting.old.items }
    ensures left { waiting.new.items ≡ without_oldest face waiting.old.items }
{
    match place_for(waiting.as_slice(), face) {
        None => None,
        Some(place) => {
            let (_, message) = waiting.remove(place);
            Some(message)
        }
    }
}

// Whether a message to a face is a reply or the end of the query of a session.
pub(crate) fn is_answer<K>(message: &(u32, Message<K>), session: u32, id: u32) -> bool
    ensures { result ≡ is_some (answer_for session id message.now) }
{
    if session != message.0 {
        return false;
    }
    match &message.1 {
        Message::DeclareToken {
            interest_id: Some(interest),
            ..
        } => id == *interest,
        Message::DeclareFinal { interest_id } => id == *interest_id,
        _ => false,
    }
}

// The expression of a reply, and none of an end.
fn expression_of<K: Drop>(message: Message<K>, id: u32) -> Option<K>
    requires { is_some (answer_in id message) ≡ true }
    ensures { Some result ≡ answer_in id message }
{
    match message {
        Message::DeclareToken { expr, .. } => Some(expr),
        _ => None,
    }
}

// Where the oldest reply or end of a query stands.
fn place_of_answer<K>(waiting: &[(u32, Message<K>)], session: u32, id: u32) -> Option<usize>
    ensures within { IfSome result (λ place. place < length waiting.now) }
    ensures there { IfSome result (λ place. (other : ℕ × Message K)
        → oldest_answer session id waiting.now
        ≡ answer_in id (slice_index_or waiting.now place other).1) }
    ensures answers { IfSome result (λ place. (other : ℕ × Message K)
        → is_some (answer_in id (slice_index_or waiting.now place other).1) ≡ true) }
    ensures left { IfSome result
        (λ place. without_answer session id waiting.now ≡ remove waiting.now place) }
    ensures absent { IfNone result (oldest_answer session id waiting.now ≡ None) }
    ensures unchanged { IfNone result (without_answer session id waiting.now ≡ waiting.now) }
{
    for (place, message) in waiting.iter().enumerate() {
        if is_answer(message, session, id) {
            return Some(place);
        }
    }
    None
}

// The expression of a reply, and none of an end.
fn expression_in<K>(message: &Message<K>, id: u32) -> Option<&K>
    requires { is_some (answer_in id message.now) ≡ true }
    ensures { Some (option_copied result) ≡ answer_in id message.now }
{
    match message {
        Message::DeclareToken { expr, .. } => Some(expr),
        _ => None,
    }
}

// The expression of the oldest reply of a query, which stays; none where the oldest is the end.
pub(crate) fn oldest_reply<K>(waiting: &[(u32, Message<K>)], session: u32, id: u32) -> Option<&K>
    ensures { option_copied result ≡ reply_in (oldest_answer session id waiting.now) }
{
    match place_of_answer(waiting, session, id) {
        None => None,
        Some(place) => expression_in(&waiting[place].1, id),
    }
}

// Takes the oldest reply or end of a query: the expression of a reply, and none of an end.
pub(crate) fn take_answer<K: Drop>(
    waiting: &mut Vec<(u32, Message<K>)>,
    session: u32,
    id: u32,
) -> Option<Option<K>>
    ensures answer { result ≡ oldest_answer session id waiting.old.items }
    ensures left { waiting.new.items ≡ without_answer session id waiting.old.items }
{
    match place_of_answer(waiting.as_slice(), session, id) {
        None => None,
        Some(place) => {
            let (_, message) = waiting.remove(place);
            Some(expression_of(message, id))
        }
    }
}
