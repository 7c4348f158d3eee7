// A call that waits to be carried out.
ghost use Rattle.std.specs.Prelude.{◌≡◌, length, option_map, slice_get};
ghost use Rattle.std.specs.Option.{option_and_then, option_copied};
ghost use Rattle.zt_gateway.specs.Running.{by_face};

use crate::gateway::Gateway;
use std::marker::Model;
use std::snapshot::Snapshot;
use zt_keys::Key;
use zt_protocol::Message;
use zt_rollback::BoxedState;

/// A call that a gateway has accepted and not carried out: all that it takes memory for is there.
/// It is for the gateway that prepared it, as that stood then.
#[derive(Drop)]
pub struct Prepared<K: Key> {
    // The gateway as it was.
    pub(crate) before: Snapshot<Gateway<K>>,
    // What the gateway keeps after the call.
    pub(crate) state: BoxedState<K>,
    pub(crate) closed: Option<u32>,
    pub(crate) made: Option<u32>,
    pub(crate) said: Vec<(u32, Message<K>)>,
    // The places of the messages in order of face.
    pub(crate) order: Vec<usize>,
    // Room for all messages that will wait.
    pub(crate) room: Vec<(u32, Message<K>)>,
}

impl<K: Key> Model for Prepared<K> {
    ghost use Rattle.std.specs.Prelude.{◌≡◌, ◌+◌, ◌≤◌, ◌++◌, [], Some, length, map, slice_get};
    ghost use Rattle.std.specs.Prelude.{vec_capacity};
    ghost use Rattle.zt_gateway.specs.Running.{Planned};
    ghost use Rattle.zt_gateway.specs.Running.{by_face, without_closed};
    ghost use Rattle.zt_theorem_soundness.specs.Sound.{IsSound};

    ghost Value = { Planned K };

    ghost view = { λ p. record {
      before = p.before.value;
      after = record {
        rows = p.state;
        waiting = without_closed p.closed p.before.value.waiting ++ p.said.items;
      };
      said = p.said.items;
      made = p.made;
    } };

    ghost invariant = { λ p. record {
      sound : IsSound K.cmp K.matching p.state;
      placed : map (slice_get p.said.items) p.order.items ≡ map Some (by_face p.said.items);
      empty : p.room.items ≡ [];
      fits : length p.before.value.waiting + length p.said.items ≤ vec_capacity p.room;
    } };
}

// The message at the i-th place.
fn message_at<'a, K>(
    said: &'a [(u32, Message<K>)],
    order: &[usize],
    i: usize,
) -> Option<&'a (u32, Message<K>)>
    ensures { option_copied result ≡ option_and_then (slice_get said.now) (slice_get order.now i) }
{
    match order.get(i) {
        None => None,
        Some(place) => said.get(*place),
    }
}

impl<K: Key> Prepared<K> {
    /// The number of the call's messages.
    pub fn sends(&self) -> usize
        ensures { result ≡ length (by_face self.now.said) }
    {
        self.order.len()
    }

    /// The i-th message, from 0, in order of face and for one face in the order sent, with the
    /// number of its face. None exactly from `sends` on.
    pub fn sent(&self, i: usize) -> Option<(u32, &Message<K>)>
        ensures { option_map (λ sent. (sent.0, sent.1.now)) result
            ≡ slice_get (by_face self.now.said) i }
    {
        match message_at(self.said.as_slice(), self.order.as_slice(), i) {
            None => None,
            Some(sent) => Some((sent.0, &sent.1)),
        }
    }
}
