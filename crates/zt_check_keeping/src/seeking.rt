// Which faces a call opens, and which of them hold other interests after it: read before it.
ghost use Rattle.std.specs.Prelude.{◌≡◌, ◌+◌, ◌==◌, ◌&&◌, ◌++◌, IfOk, OnOk};
ghost use Rattle.zt_protocol.specs.Plain.{plain_call};
ghost use Rattle.zt_model.specs.Lists.{has_id};
ghost use Rattle.zt_check_keeping.specs.Changed.{held_of, is_holding, opened_of, unheld_of};

use zt_check_faces::ShownFace;
use zt_check_rows::ShownRows;
use zt_keys::{Key, Memory};
use zt_protocol::Call;

// Whether one of the interests that a face holds has the id.
fn has_interest<K: Key>(face: &ShownFace<K>, id: u32) -> bool
    ensures { result ≡ has_id id face.now.held }
{
    for row in face.held_of(id) {
        if id == row.0 {
            return true;
        }
    }
    false
}

// Whether the face is of the number, and holds an interest of the id.
fn is_holder<K: Key>(face: &ShownFace<K>, number: u32, id: u32) -> bool
    ensures { result ≡ ((number == face.now.number) && has_id id face.now.held) }
{
    number == face.number() && has_interest(face, id)
}

// Whether a face of the number holds an interest of the id.
fn is_holding<K: Key>(rows: &ShownRows<K>, number: u32, id: u32) -> bool
    ensures { result ≡ is_holding number id rows.now.faces }
{
    for face in rows.faces_of(number) {
        if is_holder(face, number, id) {
            return true;
        }
    }
    false
}

// The number of the face that a gateway makes next; running out of numbers counts as out of memory.
pub(crate) fn next_number<K: Key>(rows: &ShownRows<K>, more: u32) -> Result<u32, Memory>
    ensures { IfOk result (λ number. number ≡ rows.now.made + more) }
{
    match rows.made().checked_add(more) {
        None => Err(Memory),
        Some(number) => Ok(number),
    }
}

/// Adds the face that a call opens.
pub(crate) fn add_opened<K: Key>(
    opened: &mut Vec<(u32, u32)>,
    gateway: u32,
    rows: &ShownRows<K>,
    call: &Call<K>,
) -> Result<(), Memory>
    ensures { OnOk result (opened.new.items
        ≡ opened.old.items ++ opened_of gateway rows.now (plain_call call.now)) }
{
    match call {
        Call::NewSession { .. } | Call::NewTransport { .. } => {
            let number = next_number(rows, 1)?;
            opened.push((gateway, number))?;
            Ok(())
        }
        _ => Ok(()),
    }
}

/// Adds the face that begins to hold an interest, with its id.
pub(crate) fn add_held<K: Key>(
    held: &mut Vec<(u32, u32, u32)>,
    gateway: u32,
    call: &Call<K>,
) -> Result<(), Memory>
    ensures { OnOk result (held.new.items
        ≡ held.old.items ++ held_of gateway (plain_call call.now)) }
{
    match call {
        Call::Interest { face, id, mode, .. } => {
            if mode.is_future() {
                held.push((gateway, *face, *id))?;
                return Ok(());
            }
            Ok(())
        }
        _ => Ok(()),
    }
}

/// Adds the face that holds an interest no more, or holds another under its id.
pub(crate) fn add_unheld<K: Key>(
    unheld: &mut Vec<(u32, u32)>,
    gateway: u32,
    rows: &ShownRows<K>,
    call: &Call<K>,
) -> Result<(), Memory>
    ensures { OnOk result (unheld.new.items
        ≡ unheld.old.items ++ unheld_of gateway rows.now (plain_call call.now)) }
{
    match call {
        Call::InterestFinal { face, .. } => {
            unheld.push((gateway, *face))?;
            Ok(())
        }
        Call::Interest { face, id, mode, .. } => {
            if mode.is_future() && is_holding(rows, *face, *id) {
                unheld.push((gateway, *face))?;
                return Ok(());
            }
            Ok(())
        }
        _ => Ok(()),
    }
}
