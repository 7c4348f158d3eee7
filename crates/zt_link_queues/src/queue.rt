// What waits at one place.
ghost use Rattle.std.specs.Prelude.{◌≡◌, ◌++◌, [], ◌∷◌, None, Some, OnErr, OnOk, option_map, take};
ghost use Rattle.std.specs.Prelude.{length, ◌-◌, IfOk};
ghost use Rattle.std.specs.Option.{option_copied};
ghost use Rattle.std.specs.Option.{option_and_then};
ghost use Rattle.zt_model.specs.Lists.{first_of, rest_of};

use std::alloc::Global;
use std::collections::VecDeque;
use std::marker::Model;
use zt_keys::{Key, Memory};
use zt_protocol::Message;

// What waits from a face for the other end of its link, oldest first; none where the face ends no
// open link.
#[derive(Drop)]
pub(crate) struct Queue<K: Key> {
    messages: Option<VecDeque<Message<K>>>,
}

impl<K: Key> Model for Queue<K> {
    ghost use Rattle.std.specs.Prelude.{List, Option, option_map};
    ghost use Rattle.zt_protocol.specs.declared.messages.Message.{Message as MessageValue};

    ghost Value = { Option (List (MessageValue K)) };

    ghost view = { λ q. option_map (λ ms. ms.items) q.messages };
}

// A message is put behind the others.
fn push<K: Key>(
    alloc: Global,
    messages: &mut VecDeque<Message<K>>,
    message: &Message<K>,
) -> Result<(), Memory>
    ensures ok { OnOk result (messages.new.items ≡ messages.old.items ++ message.now ∷ []) }
    ensures err { OnErr result (messages.new.items ≡ messages.old.items) }
{
    let copy = message.copy(alloc)?;
    messages.push_back(copy)?;
    Ok(())
}

// The last message.
fn pop_last<K: Key>(messages: &mut VecDeque<Message<K>>)
    ensures { messages.new.items ≡ take (length messages.old.items - 1) messages.old.items }
{
    let _ = messages.pop_back();
}

// The oldest message goes.
fn pop_first<K: Key>(messages: &mut VecDeque<Message<K>>)
    ensures { messages.new.items ≡ rest_of messages.old.items }
{
    let _ = messages.pop_front();
}

// The oldest message.
fn first<K: Key>(messages: &VecDeque<Message<K>>) -> Option<&Message<K>>
    ensures { option_copied result ≡ first_of messages.now.items }
{
    messages.front()
}

impl<K: Key> Queue<K> {
    // Nothing waits yet.
    pub(crate) fn open(alloc: Global) -> Self
        ensures { result ≡ Some [] }
    {
        Queue {
            messages: Some(VecDeque::new(alloc)),
        }
    }

    // That of a face that ends no open link.
    pub(crate) fn none() -> Self
        ensures { result ≡ None }
    {
        Queue { messages: None }
    }

    // A message waits behind the others. After an error nothing is changed.
    pub(crate) fn add(&mut self, alloc: Global, message: &Message<K>) -> Result<(), Memory>
        ensures ok { OnOk result (self.new ≡ option_map (λ ms. ms ++ message.now ∷ []) self.old) }
        ensures err { OnErr result (self.new ≡ self.old) }
    {
        match &mut self.messages {
            None => Ok(()),
            Some(messages) => push(alloc, messages, message),
        }
    }

    // The last message goes again.
    pub(crate) fn drop_last(&mut self)
        ensures { self.new ≡ option_map (λ ms. take (length ms - 1) ms) self.old }
    {
        if let Some(messages) = &mut self.messages {
            pop_last(messages);
        }
    }

    // The oldest message goes.
    pub(crate) fn drop_first(&mut self)
        ensures { self.new ≡ option_map rest_of self.old }
    {
        if let Some(messages) = &mut self.messages {
            pop_first(messages);
        }
    }

    // The oldest message.
    pub(crate) fn first(&self) -> Option<&Message<K>>
        ensures { option_copied result ≡ option_and_then first_of self.now }
    {
        match &self.messages {
            None => None,
            Some(messages) => first(messages),
        }
    }
}
