// Copies of what a journal keeps.
ghost use Rattle.std.specs.Prelude.{◌≡◌, IfOk, map};
ghost use Rattle.zt_gateway.specs.Running.{by_face, sent_alone};
ghost use Rattle.zt_shared.specs.Recorded.{journalled, plain_outcome};

use crate::entries::JournalEntry;
use std::alloc::Global;
use zt_gateway::Prepared;
use zt_keys::{Key, Memory};
use zt_protocol::{Refusal, Sent};
use zt_rollback::copy_call;

/// Copies of the messages of a prepared call, in order of face, as those of a gateway with the
/// number 1.
pub fn sent_by<K: Key>(alloc: Global, prepared: &Prepared<K>) -> Result<Vec<Sent<K>>, Memory>
    ensures { IfOk result (λ sent. sent.items ≡ map sent_alone (by_face prepared.now.said)) }
{
    let mut sent = Vec::new(alloc);
    for place in 0..prepared.sends() {
        match prepared.sent(place) {
            None => unreachable!(),
            Some((face, message)) => sent.push(Sent {
                gateway: 1,
                face,
                message: message.copy(alloc)?,
            })?,
        }
    }
    Ok(sent)
}

// A copy of messages.
fn copy_sent<K: Key>(alloc: Global, sent: &[Sent<K>]) -> Result<Vec<Sent<K>>, Memory>
    ensures { IfOk result (λ copies. copies.items ≡ sent.now) }
{
    let mut copies = Vec::new(alloc);
    for one in sent {
        copies.push(Sent {
            gateway: one.gateway,
            face: one.face,
            message: one.message.copy(alloc)?,
        })?;
    }
    Ok(copies)
}

// A copy of what a call came to.
fn copy_outcome<K: Key>(
    alloc: Global,
    outcome: &Result<Vec<Sent<K>>, Refusal>,
) -> Result<Result<Vec<Sent<K>>, Refusal>, Memory>
    ensures { IfOk result (λ copy. plain_outcome copy ≡ plain_outcome outcome.now) }
{
    match outcome {
        Ok(sent) => Ok(Ok(copy_sent(alloc, sent.as_slice())?)),
        Err(refusal) => Ok(Err(*refusal)),
    }
}

// A copy of an entry.
pub(crate) fn copy_entry<K: Key>(
    alloc: Global,
    entry: &JournalEntry<K>,
) -> Result<JournalEntry<K>, Memory>
    ensures { IfOk result (λ copy. journalled copy ≡ journalled entry.now) }
{
    Ok(JournalEntry {
        pass: entry.pass,
        call: copy_call(alloc, &entry.call)?,
        made: entry.made,
        outcome: copy_outcome(alloc, &entry.outcome)?,
    })
}
