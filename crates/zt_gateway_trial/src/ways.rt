// The ways in which a call is made on a gateway.
ghost use Rattle.zt_laws.specs.Sound.{CallHasFirstIds};
ghost use Rattle.zt_protocol.specs.Plain.{plain_call};

use crate::fault::{Fault, TRIES};
use crate::naming::call_by_name;
use std::alloc::Global;
use zt_gateway::{Gateway, Prepared};
use zt_keys::{Key, Memory};
use zt_protocol::{Call, CallError, Refusal, Sent};

/// How calls come to a gateway. Whichever way it is, they say the same.
#[derive(Clone, Copy, PartialEq, Eq)]
pub enum Way {
    /// By their names.
    Named,
    /// Prepared and then carried out.
    Prepared,
    /// Prepared and dropped, then prepared again and carried out.
    Dropped,
    /// Prepared and dropped, and made after the gateway is rebuilt.
    Rebuilt,
    /// Made, and then a copy of the gateway takes its place.
    Copied,
}

/// Each way once. The first is what the others are compared with.
pub const WAYS: [Way; 5] = [
    Way::Named,
    Way::Prepared,
    Way::Dropped,
    Way::Rebuilt,
    Way::Copied,
];

impl Way {
    /// What differs where a gateway to which calls come in this way says something else.
    pub fn name(self) -> &'static str {
        match self {
            Way::Named => "a call by its name differs\n",
            Way::Prepared => "a prepared call differs\n",
            Way::Dropped => "a call prepared again differs\n",
            Way::Rebuilt => "a call on a rebuilt gateway differs\n",
            Way::Copied => "a call on a copied gateway differs\n",
        }
    }
}

// Copies of the messages of a prepared call.
fn copy_sent<K: Key>(
    alloc: Global,
    prepared: &Prepared<K>,
    sents: &mut Vec<Sent<K>>,
) -> Result<(), Memory> {
    for place in 0..prepared.sends() {
        if let Some((face, message)) = prepared.sent(place) {
            let message = message.copy(alloc)?;
            sents.push(Sent {
                gateway: 1,
                face,
                message,
            })?;
        }
    }
    Ok(())
}

// Prepares the call and carries it out. Its messages are copied before and not taken.
fn prepare_and_commit<K: Key>(
    alloc: Global,
    gateway: &mut Gateway<K>,
    call: &Call<K>,
    sents: &mut Vec<Sent<K>>,
) -> Result<Option<u32>, CallError>
    requires { CallHasFirstIds (plain_call call.now) }
{
    match gateway.prepare(call) {
        Ok(prepared) => {
            if copy_sent(alloc, &prepared, sents).is_err() {
                return Err(CallError::Memory);
            }
            let made = gateway.commit(prepared);
            gateway.clear_outbox();
            Ok(made)
        }
        Err(error) => Err(error),
    }
}

/// Prepares the call, which isn't carried out then.
pub fn prepare_and_drop<K: Key>(gateway: &mut Gateway<K>, call: &Call<K>) -> Result<(), CallError>
    requires { CallHasFirstIds (plain_call call.now) }
{
    match gateway.prepare(call) {
        Ok(_) => Ok(()),
        Err(error) => Err(error),
    }
}

// Prepares the call twice, and carries it out.
fn prepare_again<K: Key>(gateway: &mut Gateway<K>, call: &Call<K>) -> Result<Option<u32>, CallError>
    requires { CallHasFirstIds (plain_call call.now) }
{
    prepare_and_drop(gateway, call)?;
    match gateway.prepare(call) {
        Ok(prepared) => Ok(gateway.commit_call(prepared, call)),
        Err(error) => Err(error),
    }
}

/// Rebuilds what the gateway keeps. It has look-ups then.
pub fn rebuild<K: Key>(gateway: &mut Gateway<K>) -> Result<(), CallError> {
    if gateway.rebuild().is_ok() && gateway.lookups().is_some() {
        Ok(())
    } else {
        Err(CallError::Memory)
    }
}

// Prepares the call, and makes it after the gateway is rebuilt.
fn rebuild_and_call<K: Key>(
    gateway: &mut Gateway<K>,
    call: &Call<K>,
) -> Result<Option<u32>, CallError>
    requires { CallHasFirstIds (plain_call call.now) }
{
    prepare_and_drop(gateway, call)?;
    rebuild(gateway)?;
    gateway.call(call)
}

// Makes the call in this way, and answers the number of the face that it makes.
fn call_by<K: Key>(
    alloc: Global,
    way: Way,
    gateway: &mut Gateway<K>,
    call: &Call<K>,
    sents: &mut Vec<Sent<K>>,
) -> Result<Option<u32>, CallError>
    requires { CallHasFirstIds (plain_call call.now) }
{
    match way {
        Way::Named => call_by_name(gateway, call),
        Way::Prepared => prepare_and_commit(alloc, gateway, call, sents),
        Way::Dropped => prepare_again(gateway, call),
        Way::Rebuilt => rebuild_and_call(gateway, call),
        Way::Copied => gateway.call(call),
    }
}

/// What the call answers once it doesn't run out of memory: the number of the face that it makes,
/// or why it is refused. One that is prepared and then carried out leaves its messages in `sents`.
pub fn call_again<K: Key>(
    alloc: Global,
    way: Way,
    gateway: &mut Gateway<K>,
    call: &Call<K>,
    sents: &mut Vec<Sent<K>>,
) -> Result<Result<Option<u32>, Refusal>, Fault>
    requires { CallHasFirstIds (plain_call call.now) }
{
    for _ in 0..TRIES {
        sents.clear();
        match call_by(alloc, way, gateway, call, sents) {
            Ok(made) => return Ok(Ok(made)),
            Err(CallError::Refused(refusal)) => return Ok(Err(refusal)),
            Err(CallError::Memory) => {}
        }
    }
    Err(Fault::Memory)
}
