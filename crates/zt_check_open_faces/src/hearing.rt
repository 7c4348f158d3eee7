// Which faces were told an expression, by look-ups.
ghost use Rattle.std.specs.Prelude.{◌≡◌, ◌==◌, ◌&&◌, map, IfOk, OnOk};
ghost use Rattle.std.specs.List.{list_any};
ghost use Rattle.zt_model.specs.Hearing.{heard};
ghost use Rattle.zt_check_faces.specs.Faces.{if_number};
ghost use Rattle.zt_check_hints.specs.Hinted.{Keeps, KeepsBut};
ghost use Rattle.zt_check_open_faces.specs.Open.{NumbersRise};
ghost use Rattle.zt_check_open_faces.specs.Found.{AreOfTold, AreTold, IsTelling, was_told};

use crate::found::{change_in, part_of};
use std::alloc::Global;
use zt_check_faces::{Hear, ShownFace};
use zt_check_hints::Hints;
use zt_keys::{Key, Memory};
use zt_protocol::Message;

// What a message tells a face is hinted.
fn add_told<K: Key>(
    alloc: Global,
    told: &mut Hints<K, u32>,
    number: u32,
    message: &Message<K>,
) -> Result<(), Memory>
    ensures kept { Keeps K.cmp told.old told.new }
    ensures telling { OnOk result (IsTelling K.cmp message.now number told.new) }
{
    match message {
        Message::DeclareToken { expr, .. } => told.add(alloc, expr, number),
        _ => Ok(()),
    }
}

// The expressions that stand under an id are more.
fn add_named<K: Key>(
    alloc: Global,
    gone: &mut Vec<K>,
    rows: &[(u32, K)],
    id: u32,
) -> Result<(), Memory> {
    for row in rows {
        if id == row.0 {
            gone.push(row.1.copy(alloc)?)?;
        }
    }
    Ok(())
}

// The expressions that one of these faces may be told no more after a message.
fn named_gone<K: Key>(
    alloc: Global,
    faces: &[ShownFace<K>],
    message: &Message<K>,
) -> Result<Vec<K>, Memory> {
    let mut gone = Vec::new(alloc);
    let Message::UndeclareToken { id, expr, .. } = message else {
        return Ok(gone);
    };
    if let Some(expr) = expr {
        gone.push(expr.copy(alloc)?)?;
        return Ok(gone);
    }
    for face in faces {
        add_named(alloc, &mut gone, face.told_of(*id), *id)?;
    }
    Ok(gone)
}

// Whether a face of the number was told the expression.
fn is_told_in<K: Key>(faces: &[ShownFace<K>], number: u32, expr: &K) -> bool
    ensures { result
        ≡ list_any (λ f. number == f.number && was_told K.cmp expr.now f) faces.now }
{
    for face in faces {
        if number == face.number() && face.has_told(expr) {
            return true;
        }
    }
    false
}

// The hint of a face goes at an expression that it was told no more.
fn forget_untold<K: Key>(told: &mut Hints<K, u32>, faces: &[ShownFace<K>], number: u32, expr: &K)
    requires rise { NumbersRise 0 faces.now }
    requires told { AreTold K.cmp told.old faces.now }
    ensures { AreTold K.cmp told.new faces.now }
{
    if !is_told_in(part_of(faces, number), number, expr) {
        told.drop_alike(expr, &number);
    }
}

// So it does at each of these expressions.
fn forget_gone<K: Key>(told: &mut Hints<K, u32>, faces: &[ShownFace<K>], number: u32, gone: &[K])
    requires rise { NumbersRise 0 faces.now }
    requires told { AreTold K.cmp told.old faces.now }
    ensures { AreTold K.cmp told.new faces.now }
{
    for expr in gone {
        forget_untold(told, faces, number, expr);
    }
}

/// The face of a number hears a message. A look-up.
pub(crate) fn hear_in<K: Key>(
    alloc: Global,
    faces: &mut Vec<ShownFace<K>>,
    told: &mut Hints<K, u32>,
    number: u32,
    moment: u64,
    message: &Message<K>,
) -> Result<(), Memory>
    requires rise { NumbersRise 0 faces.old.items }
    requires told { AreTold K.cmp told.old faces.old.items }
    ensures heard { OnOk result (faces.new.items
        ≡ map (if_number number (heard K.cmp moment message.now)) faces.old.items) }
    ensures told { OnOk result (AreTold K.cmp told.new faces.new.items) }
{
    add_told(alloc, told, number, message)?;
    let gone = named_gone(alloc, part_of(faces.as_slice(), number), message)?;
    let heard = Hear {
        face: number,
        moment,
        message,
    };
    change_in(alloc, faces, number, &heard)?;
    forget_gone(told, faces.as_slice(), number, gone.as_slice());
    Ok(())
}

// The hints of what a face was told go.
fn forget_rows<K: Key>(told: &mut Hints<K, u32>, rows: &[(u32, K)], number: u32)
    ensures { KeepsBut K.cmp (λ n. number == n) told.old told.new }
{
    for row in rows {
        told.drop_alike(&row.1, &number);
    }
}

/// The hints of a face go. A look-up of the face.
pub(crate) fn forget_told<K: Key>(told: &mut Hints<K, u32>, faces: &[ShownFace<K>], number: u32)
    ensures { KeepsBut K.cmp (λ n. number == n) told.old told.new }
{
    for face in faces {
        forget_rows(told, face.told(), number);
    }
}

// What a face was told is hinted too.
fn add_rows<K: Key>(
    alloc: Global,
    told: &mut Hints<K, u32>,
    rows: &[(u32, K)],
    number: u32,
) -> Result<(), Memory>
    ensures kept { Keeps K.cmp told.old told.new }
    ensures rows { OnOk result (AreOfTold K.cmp told.new number rows.now) }
{
    for row in rows {
        told.add(alloc, &row.1, number)?;
    }
    Ok(())
}

/// Hints of all that faces were told.
pub(crate) fn told_hints<K: Key>(
    alloc: Global,
    faces: &[ShownFace<K>],
) -> Result<Hints<K, u32>, Memory>
    ensures { IfOk result (λ told. AreTold K.cmp told faces.now) }
{
    let mut told = Hints::new(alloc);
    for face in faces {
        add_rows(alloc, &mut told, face.told(), face.number())?;
    }
    Ok(told)
}
