// Messages with their numbers in scripts.
ghost use Rattle.std.specs.Prelude.{◌≡◌, IfOk, map};
ghost use Rattle.zt_laws.proofs.Sorting.{printed};

use std::alloc::Global;
use zt_keys::{Key, Memory};
use zt_link_queues::Places;
use zt_protocol::{Message, Sent};

/// A gateway's messages as they are printed, in the order sent.
pub(crate) fn print_all<K: Key>(
    alloc: Global,
    places: &Places,
    gateway: u32,
    sends: Vec<(u32, Message<K>)>,
) -> Result<Vec<Sent<K>>, Memory>
    ensures { IfOk result (λ printed_. printed_.items
        ≡ map (printed places.now gateway) sends.items) }
{
    let faces = places.faces_of(gateway);
    let mut printed = Vec::with_capacity(alloc, sends.len())?;
    for (face, message) in sends {
        printed.push(Sent {
            gateway,
            face: faces.number(face),
            message,
        })?;
    }
    Ok(printed)
}
