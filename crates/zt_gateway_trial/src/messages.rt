// The messages that wait at a gateway.
use crate::fault::{Fault, TRIES};
use zt_gateway::Gateway;
use zt_keys::Key;
use zt_protocol::Sent;

// So many messages may wait for a face, and for so many faces.
const MOST: u32 = 1 << 20;

// Makes room for one more, before it is taken.
fn room_again<K>(sents: &mut Vec<Sent<K>>) -> Result<(), Fault> {
    for _ in 0..TRIES {
        if sents.reserve(1).is_ok() {
            return Ok(());
        }
    }
    Err(Fault::Memory)
}

// Takes what waits for a face, the oldest first.
fn take_face<K: Key>(
    gateway: &mut Gateway<K>,
    face: u32,
    sents: &mut Vec<Sent<K>>,
) -> Result<(), Fault> {
    for _ in 0..MOST {
        room_again(sents)?;
        let Some(message) = gateway.take_outbox(face) else {
            return Ok(());
        };
        let sent = Sent {
            gateway: 1,
            face,
            message,
        };
        if sents.push(sent).is_err() {
            return Err(Fault::Memory);
        }
    }
    Err(Fault::TooLong)
}

/// Takes all that waits, in order of face.
pub fn take_all<K: Key>(gateway: &mut Gateway<K>, sents: &mut Vec<Sent<K>>) -> Result<(), Fault> {
    let mut after = 0;
    for _ in 0..MOST {
        let Some(face) = gateway.next_outbox(after) else {
            return Ok(());
        };
        take_face(gateway, face, sents)?;
        after = face;
    }
    Err(Fault::TooLong)
}
