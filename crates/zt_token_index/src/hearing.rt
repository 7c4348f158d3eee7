// What an index of told tokens finds, as one face hears a message or goes.
ghost use Rattle.std.specs.Prelude.{◌≡◌, ℕ, [], None, Some, IfOk, IfSome, OnOk};
ghost use Rattle.zt_model.specs.Hearing.{heard, told_pair, untold};
ghost use Rattle.zt_rows.specs.ById.{IsInOrder};
ghost use Rattle.zt_token_index.specs.Retold.{IsRetold, gone_id};
ghost use Rattle.zt_token_index.specs.Told.{id_of, told_at};

use crate::ToldIndex;
use std::alloc::Global;
use zt_face::FaceState;
use zt_keys::{Key, Memory};
use zt_protocol::Message;

// A face is told an expression under an id. An expression that it was told under another id never
// comes up in a gateway, and counts as out of memory.
fn tell<K: Key>(
    alloc: Global,
    told: &mut ToldIndex<K>,
    f: &FaceState<K>,
    id: u32,
    expr: &K,
) -> Result<(), Memory>
    ensures { OnOk result (IsRetold K.cmp f.now.number f.now.told
        (told_pair K.cmp id expr.now f.now.told) told.old told.new) }
{
    if id == 0 {
        return Ok(());
    }
    match told.tell(alloc, expr, f.number(), id)? {
        Some(known) if known != id => Err(Memory),
        _ => Ok(()),
    }
}

// The token that a face was told under an id goes, beside that its tokens stand in order of id.
fn untell_id<K: Key>(told: &mut ToldIndex<K>, f: &FaceState<K>, id: u32)
    ensures retold { IsRetold K.cmp f.now.number f.now.told (untold K.cmp id None f.now.told)
        told.old told.new }
    ensures ordered { IsInOrder f.now.told }
{
    if let Some(expr) = f.told().find(id) {
        told.untell(expr, f.number());
    }
}

// The token of an expression goes, if the face was told it: the id under which it was, beside that
// the face's tokens stand in order of id.
fn untell_expression<K: Key>(told: &mut ToldIndex<K>, f: &FaceState<K>, expr: &K) -> Option<u32>
    ensures retold { (id : ℕ) → IsRetold K.cmp f.now.number f.now.told
        (untold K.cmp id (Some expr.now) f.now.told) told.old told.new }
    ensures known { result ≡ id_of f.now.number (told_at K.cmp expr.now told.old) }
    ensures ordered { IfSome result (λ known. IsInOrder f.now.told) }
{
    let known = told.id_at(expr, f.number())?;
    untell_id(told, f, known);
    Some(known)
}

/// A face hears a message. Where this says that an expression is gone, the answer is the id under
/// which the face was told it, if it was. An expression that is told anew under another id never
/// comes up in a gateway, and counts as out of memory.
pub(crate) fn hear_message<K: Key>(
    alloc: Global,
    told: &mut ToldIndex<K>,
    f: &FaceState<K>,
    message: &Message<K>,
) -> Result<Option<u32>, Memory>
    ensures retold { OnOk result ((moment : ℕ) → IsRetold K.cmp f.now.number f.now.told
        (heard K.cmp moment message.now f.now).told told.old told.new) }
    ensures known { IfOk result (λ known. known
        ≡ gone_id K.cmp f.now.number message.now told.old) }
    ensures ordered { IfOk result (λ known. IfSome known (λ id. IsInOrder f.now.told)) }
{
    match message {
        Message::DeclareToken { id, expr, .. } => {
            tell(alloc, told, f, *id, expr)?;
            Ok(None)
        }
        Message::UndeclareToken { id, expr, .. } => match expr {
            None => {
                untell_id(told, f, *id);
                Ok(None)
            }
            Some(expr) => Ok(untell_expression(told, f, expr)),
        },
        Message::DeclareFinal { .. }
        | Message::Interest { .. }
        | Message::InterestFinal { .. }
        | Message::DeclareSubscriber { .. }
        | Message::DeclareQueryable { .. } => Ok(None),
    }
}

/// All that a face was told goes.
pub(crate) fn untell_all<K: Key>(told: &mut ToldIndex<K>, f: &FaceState<K>)
    ensures { IsRetold K.cmp f.now.number f.now.told [] told.old told.new }
{
    for place in f.told().places() {
        if let Some(expr) = place.row() {
            told.untell(expr, f.number());
        }
    }
}
