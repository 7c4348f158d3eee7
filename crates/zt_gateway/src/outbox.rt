// Messages that wait for faces.
ghost use Rattle.std.specs.Prelude.{◌≡◌, ◌+◌, ◌≤◌, ◌++◌, ◌==◌, ◌<◌, ℕ, [], filter, length, not};
ghost use Rattle.std.specs.Prelude.{slice_index_or, vec_capacity, vec_len, IfNone, IfSome, None};
ghost use Rattle.std.specs.Prelude.{Some};
ghost use Rattle.std.specs.List.{remove};
ghost use Rattle.zt_protocol.specs.declared.messages.Message.{Message};
ghost use Rattle.zt_gateway.specs.Running.{least_with, next_waiting, oldest_for, without_closed};
ghost use Rattle.zt_gateway.specs.Running.{without_oldest};

use zt_protocol::Message;

// The messages to a face that closed go.
fn drop_messages<K: Drop>(waiting: &mut Vec<(u32, Message<K>)>, closed: Option<u32>)
    ensures items { waiting.new.items ≡ without_closed closed waiting.old.items }
    ensures len { vec_len waiting.new ≤ vec_len waiting.old }
{
    if let Some(number) = closed {
        waiting.retain(|message| number != message.0);
    }
}

// Moves messages behind others, for which there is room.
fn append_within<K>(room: &mut Vec<(u32, Message<K>)>, more: &mut Vec<(u32, Message<K>)>)
    requires { vec_len room.old + vec_len more.old ≤ vec_capacity room.old }
    ensures items { room.new.items ≡ room.old.items ++ more.old.items }
    ensures capacity { vec_capacity room.old ≤ vec_capacity room.new }
    ensures other_items { more.new.items ≡ [] }
{
    let Ok(()) = room.append(more) else {
        unreachable!()
    };
}

// In the room that there is: what waits for faces but the closed one, and then what is said.
pub(crate) fn moved<K: Drop>(
    mut room: Vec<(u32, Message<K>)>,
    mut waiting: Vec<(u32, Message<K>)>,
    mut said: Vec<(u32, Message<K>)>,
    closed: Option<u32>,
) -> Vec<(u32, Message<K>)>
    requires empty { room.items ≡ [] }
    requires fits { length waiting.items + length said.items ≤ vec_capacity room }
    ensures { result.items ≡ without_closed closed waiting.items ++ said.items }
{
    drop_messages(&mut waiting, closed);
    append_within(&mut room, &mut waiting);
    append_within(&mut room, &mut said);
    room
}

// Where the oldest message for a face stands.
fn place_for<K>(waiting: &[(u32, Message<K>)], face: u32) -> Option<usize>
    ensures within { IfSome result (λ place. place < length waiting.now) }
    ensures there { IfSome result (λ place. (other : ℕ × Message K)
        → oldest_for face waiting.now ≡ Some (slice_index_or waiting.now place other).1) }
    ensures left { IfSome result
        (λ place. without_oldest face waiting.now ≡ remove waiting.now place) }
    ensures absent { IfNone result (oldest_for face waiting.now ≡ None) }
    ensures unchanged { IfNone result (without_oldest face waiting.now ≡ waiting.now) }
{
    for (place, message) in waiting.iter().enumerate() {
        if face == message.0 {
            return Some(place);
        }
    }
    None
}

// Takes the oldest message for a face.
pub(crate) fn take_oldest<K>(waiting: &mut Vec<(u32, Message<K>)>, face: u32) -> Option<Message<K>>
    ensures message { result ≡ oldest_for face waiting.old.items }
    ensures left { waiting.new.items ≡ without_oldest face waiting.old.items }
{
    match place_for(waiting.as_slice(), face) {
        None => None,
        Some(place) => {
            let (_, message) = waiting.remove(place);
            Some(message)
        }
    }
}

// The lesser of two faces, where there are two.
fn lesser(face: u32, other: Option<u32>) -> Option<u32>
    ensures { result ≡ least_with face other }
{
    match other {
        None => Some(face),
        Some(least) => Some(face.min(least)),
    }
}

// The least face above a number for which a message waits.
pub(crate) fn next_waiting<K>(waiting: &[(u32, Message<K>)], after: u32) -> Option<u32>
    ensures { result ≡ next_waiting after waiting.now }
{
    let mut least = None;
    let mut left = waiting.len();
    while left > 0 {
        left -= 1;
        let face = waiting[left].0;
        if after < face {
            least = lesser(face, least);
        }
    }
    least
}
