// What waits at the places of faces.
ghost use Rattle.std.specs.Prelude.{◌≡◌, ◌++◌, ◌+◌, ◌<◌, ◌⊎◌, [], ◌∷◌, Some, None, OnErr, OnOk};
ghost use Rattle.std.specs.Prelude.{IfSome, IfNone, length, take, ◌-◌, if◌then◌else◌};
ghost use Rattle.std.specs.Option.{option_copied};
ghost use Rattle.zt_model.specs.Lists.{without_id};
ghost use Rattle.std.specs.Prelude.{List, Option};
ghost use Rattle.zt_protocol.specs.declared.entries.Sent.{Sent as SentValue};
ghost use Rattle.zt_protocol.specs.declared.messages.Message.{Message as MessageValue};
ghost use Rattle.zt_link_queues.specs.Waiting.{Queued, first_waiting, grown_from, waiting_from};
ghost use Rattle.zt_link_queues.specs.Waiting.{with_printed, without_first, without_taken};

use crate::queue::Queue;
use std::alloc::Global;
use std::marker::Model;
use zt_keys::{Key, Memory};
use zt_protocol::{Message, Sent};

/// What waits at the places of faces, which are numbered from 1: a place that ends an open link has
/// a queue of messages for the other end, oldest first.
#[derive(Drop)]
pub struct Queues<K: Key> {
    queues: Vec<Queue<K>>,
}

impl<K: Key> Model for Queues<K> {
    ghost use Rattle.zt_link_queues.specs.Waiting.{Queued as QueuedAll};

    ghost Value = { QueuedAll K };

    ghost view = { λ q. q.queues.items };
}

// Where the place of a number stands.
fn index_of(count: usize, face: u32) -> Option<usize>
    ensures within { IfSome result (λ at. at < count) }
    ensures counted { IfSome result (λ at. face ≡ at + 1) }
    ensures none { IfNone result ((face ≡ 0) ⊎ (count < face)) }
{
    if face == 0 || face as usize > count {
        return None;
    }
    Some(face as usize - 1)
}

// A message waits, where its face ends an open link. After an error nothing is changed.
fn add_one<K: Key>(alloc: Global, queues: &mut Vec<Queue<K>>, one: &Sent<K>) -> Result<(), Memory>
    ensures ok { OnOk result (queues.new.items ≡ grown_from 1 (one.now ∷ []) queues.old.items) }
    ensures err { OnErr result (queues.new.items ≡ queues.old.items) }
{
    match index_of(queues.len(), one.face) {
        None => Ok(()),
        Some(at) => {
            let queue = &mut queues[at];
            queue.add(alloc, &one.message)
        }
    }
}

// The last message at a place goes again.
fn drop_last<K: Key>(queues: &mut Vec<Queue<K>>, face: u32)
    ensures { (before : Queued K) (one : SentValue K) → one.face ≡ face
        → queues.old.items ≡ grown_from 1 (one ∷ []) before → queues.new.items ≡ before }
{
    if let Some(at) = index_of(queues.len(), face) {
        let queue = &mut queues[at];
        queue.drop_last();
    }
}

// Messages that were added last go again.
fn drop_all<K: Key>(queues: &mut Vec<Queue<K>>, sent: &[Sent<K>])
    ensures { (before : Queued K) → queues.old.items ≡ grown_from 1 sent.now before
        → queues.new.items ≡ before }
{
    let mut left = sent.len();
    while left > 0 {
        left -= 1;
        drop_last(queues, sent[left].face);
    }
}

// Messages wait, each where its face ends an open link. After an error nothing is changed.
fn add_all<K: Key>(
    alloc: Global,
    queues: &mut Vec<Queue<K>>,
    sent: &[Sent<K>],
) -> Result<(), Memory>
    ensures ok { OnOk result (queues.new.items ≡ grown_from 1 sent.now queues.old.items) }
    ensures err { OnErr result (queues.new.items ≡ queues.old.items) }
{
    let mut done = 0;
    while done < sent.len() {
        if let Err(error) = add_one(alloc, queues, &sent[done]) {
            drop_all(queues, &sent[..done]);
            return Err(error);
        }
        done += 1;
    }
    Ok(())
}

// The oldest message at a place goes.
fn drop_first<K: Key>(queues: &mut Vec<Queue<K>>, face: u32)
    ensures waits { waiting_from 1 queues.new.items
        ≡ without_first face (waiting_from 1 queues.old.items) }
    ensures places { length queues.new.items ≡ length queues.old.items }
{
    if let Some(at) = index_of(queues.len(), face) {
        let queue = &mut queues[at];
        queue.drop_first();
    }
}

// A place ends no link any more.
fn close<K: Key>(queues: &mut Vec<Queue<K>>, face: u32)
    ensures waits { waiting_from 1 queues.new.items
        ≡ without_id face (waiting_from 1 queues.old.items) }
    ensures places { length queues.new.items ≡ length queues.old.items }
{
    if let Some(at) = index_of(queues.len(), face) {
        queues[at] = Queue::none();
    }
}

// The oldest message at a place.
fn first<K: Key>(queues: &[Queue<K>], face: u32) -> Option<&Message<K>>
    ensures { option_copied result ≡ first_waiting face (waiting_from 1 queues.now) }
{
    match index_of(queues.len(), face) {
        None => None,
        Some(at) => queues[at].first(),
    }
}

impl<K: Key> Queues<K> {
    /// No places.
    pub fn new(alloc: Global) -> Self
        ensures { result ≡ [] }
    {
        Queues {
            queues: Vec::new(alloc),
        }
    }

    /// One more place, which ends an open link or not. After an error nothing is changed.
    pub fn push(&mut self, alloc: Global, ends_link: bool) -> Result<(), Memory>
        ensures ok { OnOk result
            (self.new ≡ self.old ++ (if ends_link then Some [] else None) ∷ []) }
        ensures err { OnErr result (self.new ≡ self.old) }
    {
        let queue = if ends_link {
            Queue::open(alloc)
        } else {
            Queue::none()
        };
        self.queues.push(queue)?;
        Ok(())
    }

    /// The last place goes again, with what waits there.
    pub fn pop(&mut self)
        ensures { self.new ≡ take (length self.old - 1) self.old }
    {
        let _ = self.queues.pop();
    }

    /// The oldest message that waits at a place.
    pub fn first(&self, face: u32) -> Option<&Message<K>>
        ensures { option_copied result ≡ first_waiting face (waiting_from 1 self.now) }
    {
        first(self.queues.as_slice(), face)
    }

    /// Messages wait, each where its face ends an open link. After an error nothing is changed.
    pub fn add(&mut self, alloc: Global, sent: &[Sent<K>]) -> Result<(), Memory>
        ensures ok { OnOk result
            (waiting_from 1 self.new ≡ with_printed sent.now (waiting_from 1 self.old)) }
        ensures places { length self.new ≡ length self.old }
        ensures err { OnErr result (self.new ≡ self.old) }
    {
        add_all(alloc, &mut self.queues, sent)
    }

    /// The oldest message that waits at a place goes.
    pub fn drop_first(&mut self, face: u32)
        ensures waits { waiting_from 1 self.new ≡ without_first face (waiting_from 1 self.old) }
        ensures places { length self.new ≡ length self.old }
    {
        drop_first(&mut self.queues, face);
    }

    /// The oldest message that waits at a place goes, where one is named, and then messages wait,
    /// each where its face ends an open link. After an error nothing is changed.
    pub fn take_and_add(
        &mut self,
        alloc: Global,
        taken: Option<u32>,
        sent: &[Sent<K>],
    ) -> Result<(), Memory>
        ensures ok { OnOk result (waiting_from 1 self.new
            ≡ with_printed sent.now (without_taken taken (waiting_from 1 self.old))) }
        ensures places { length self.new ≡ length self.old }
        ensures err { OnErr result (self.new ≡ self.old) }
    {
        let waits = self.if_waiting(taken);
        self.add(alloc, sent)?;
        self.drop_taken(waits);
        Ok(())
    }

    // The place, where a message waits there.
    fn if_waiting(&self, taken: Option<u32>) -> Option<u32>
        ensures { (sent : List (SentValue K))
            → without_taken result (with_printed sent (waiting_from 1 self.now))
            ≡ with_printed sent (without_taken taken (waiting_from 1 self.now)) }
    {
        match taken {
            None => None,
            Some(face) => match self.first(face) {
                None => None,
                Some(_) => Some(face),
            },
        }
    }

    // The oldest message that waits at a place goes, where one is named.
    fn drop_taken(&mut self, taken: Option<u32>)
        ensures waits { waiting_from 1 self.new ≡ without_taken taken (waiting_from 1 self.old) }
        ensures places { length self.new ≡ length self.old }
    {
        if let Some(face) = taken {
            self.drop_first(face);
        }
    }

    /// A place ends no link any more, and what waits there goes.
    pub fn close(&mut self, face: u32)
        ensures waits { waiting_from 1 self.new ≡ without_id face (waiting_from 1 self.old) }
        ensures places { length self.new ≡ length self.old }
    {
        close(&mut self.queues, face);
    }
}
