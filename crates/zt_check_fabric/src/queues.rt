// The messages that wait for the other end of a link.
ghost use Rattle.std.specs.Prelude.{◌≡◌, ◌++◌, ◌∷◌, [], IfOk, OnOk, map};
ghost use Rattle.zt_model.specs.Fabric.{printed_for};
ghost use Rattle.zt_model.specs.Lists.{rest_of};
ghost use Rattle.zt_check_fabric.specs.Waiting.{row_taken, row_with};

use std::alloc::Global;
use std::marker::Model;
use zt_check_faces::{Change, change_each};
use zt_keys::{Key, Memory};
use zt_protocol::{Message, Sent};

/// Messages that wait, oldest first.
#[derive(Drop)]
pub struct ShownQueue<K: Key> {
    messages: Vec<Message<K>>,
}

impl<K: Key> Model for ShownQueue<K> {
    ghost use Rattle.std.specs.Prelude.{List};
    ghost use Rattle.zt_protocol.specs.declared.messages.Message.{Message};

    ghost Value = { List (Message K) };

    ghost view = { λ q. q.messages.items };
}

// Equal messages.
fn copy_messages<K: Key>(alloc: Global, messages: &[Message<K>]) -> Result<Vec<Message<K>>, Memory>
    ensures { IfOk result (λ copies. copies.items ≡ messages.now) }
{
    let mut copies = Vec::new(alloc);
    for message in messages {
        let copy = message.copy(alloc)?;
        copies.push(copy)?;
    }
    Ok(copies)
}

// The oldest message is taken.
fn take_first<K: Key>(messages: &mut Vec<Message<K>>)
    ensures { messages.new.items ≡ rest_of messages.old.items }
{
    if !messages.is_empty() {
        messages.remove(0);
    }
}

// A message that is printed for the face is put behind the others.
fn add_one<K: Key>(
    alloc: Global,
    messages: &mut Vec<Message<K>>,
    face: u32,
    sent: &Sent<K>,
) -> Result<(), Memory>
    ensures { OnOk result (messages.new.items
        ≡ messages.old.items ++ printed_for face (sent.now ∷ [])) }
{
    if face != sent.face {
        return Ok(());
    }
    let copy = sent.message.copy(alloc)?;
    messages.push(copy)?;
    Ok(())
}

// What is printed for the face is put behind the others.
fn add_all<K: Key>(
    alloc: Global,
    messages: &mut Vec<Message<K>>,
    face: u32,
    sents: &[Sent<K>],
) -> Result<(), Memory>
    ensures { OnOk result (messages.new.items
        ≡ messages.old.items ++ printed_for face sents.now) }
{
    for sent in sents {
        add_one(alloc, messages, face, sent)?;
    }
    Ok(())
}

impl<K: Key> ShownQueue<K> {
    /// Nothing waits.
    pub fn new(alloc: Global) -> Self
        ensures { result ≡ [] }
    {
        ShownQueue {
            messages: Vec::new(alloc),
        }
    }

    /// What waits, oldest first.
    pub fn messages(&self) -> &[Message<K>]
        ensures { result.now ≡ self.now }
    {
        &self.messages
    }

    /// The oldest message is taken.
    pub fn take_oldest(&mut self)
        ensures { self.new ≡ rest_of self.old }
    {
        take_first(&mut self.messages);
    }

    /// What is printed for a face waits behind the others.
    pub fn add_printed(&mut self, alloc: Global, face: u32, sents: &[Sent<K>]) -> Result<(), Memory>
        ensures { OnOk result (self.new ≡ self.old ++ printed_for face sents.now) }
    {
        add_all(alloc, &mut self.messages, face, sents)
    }

    // An equal queue.
    fn copy(&self, alloc: Global) -> Result<Self, Memory>
        ensures { IfOk result (λ copy. copy ≡ self.now) }
    {
        Ok(ShownQueue {
            messages: copy_messages(alloc, &self.messages)?,
        })
    }
}

// An equal row.
fn copy_row<K: Key>(
    alloc: Global,
    row: &(u32, ShownQueue<K>),
) -> Result<(u32, ShownQueue<K>), Memory>
    ensures { IfOk result (λ copy. copy ≡ row.now) }
{
    Ok((row.0, row.1.copy(alloc)?))
}

/// Equal rows.
pub(crate) fn copy_queues<K: Key>(
    alloc: Global,
    rows: &[(u32, ShownQueue<K>)],
) -> Result<Vec<(u32, ShownQueue<K>)>, Memory>
    ensures { IfOk result (λ copies. copies.items ≡ rows.now) }
{
    let mut copies = Vec::new(alloc);
    for row in rows {
        let copy = copy_row(alloc, row)?;
        copies.push(copy)?;
    }
    Ok(copies)
}

// The oldest message of a face's row is taken.
fn take_from<K: Key>(row: &mut (u32, ShownQueue<K>), face: u32)
    ensures { row.new ≡ row_taken face row.old }
{
    if face == row.0 {
        row.1.take_oldest();
    }
}

/// The oldest message of a face is taken.
pub(crate) fn take_oldest<K: Key>(waiting: &mut Vec<(u32, ShownQueue<K>)>, face: u32)
    ensures { waiting.new.items ≡ map (row_taken face) waiting.old.items }
{
    for place in 0..waiting.len() {
        take_from(&mut waiting[place], face);
    }
}

// What is printed for the face of a row waits there.
#[derive(Drop)]
struct AddPrinted<'a, K: Key> {
    sents: &'a [Sent<K>],
}

impl<'a, K: Key> Change<(u32, ShownQueue<K>)> for AddPrinted<'a, K> {
    ghost use Rattle.zt_check_fabric.specs.Waiting.{row_with};

    ghost changed = { λ c. row_with c.sents.now };

    fn change(&self, alloc: Global, member: &mut (u32, ShownQueue<K>)) -> Result<(), Memory> {
        let face = member.0;
        member.1.add_printed(alloc, face, self.sents)
    }
}

/// What is printed for the faces of rows waits there.
pub(crate) fn add_printed<K: Key>(
    alloc: Global,
    waiting: &mut Vec<(u32, ShownQueue<K>)>,
    sents: &[Sent<K>],
) -> Result<(), Memory>
    ensures { OnOk result (waiting.new.items ≡ map (row_with sents.now) waiting.old.items) }
{
    change_each(alloc, waiting, &AddPrinted { sents })
}
