// Faces that something may be owed to, in a list.
ghost use Rattle.std.specs.Prelude.{◌≡◌, ◌==◌, ◌&&◌, true, map, IfOk, OnOk};
ghost use Rattle.std.specs.List.{list_any};
ghost use Rattle.zt_region.specs.Region.{is_north};
ghost use Rattle.zt_protocol.specs.Interest.{is_current};
ghost use Rattle.zt_model.specs.Seen.{concerns, is_owed};
ghost use Rattle.zt_model.specs.Shown.{with_held, with_question};
ghost use Rattle.zt_check_faces.specs.Faces.{if_number};
ghost use Rattle.zt_check_hints.specs.Hinted.{Has, KeepsAll, KeepsAllBut};
ghost use Rattle.zt_check_open_faces.specs.Found.{AreListed, may_be_owed};
ghost use Rattle.zt_check_open_faces.specs.Open.{NumbersRise};

use crate::found::change_in;
use crate::trying::FaceTest;
use bitflags::Flags;
use std::alloc::Global;
use zt_check_faces::{AddInterest, ShownFace, ShownInterest};
use zt_check_hints::HintList;
use zt_keys::{Key, Memory};
use zt_protocol::InterestOptions;
use zt_region::Region;

// Whether the region is the north.
pub(crate) fn is_north(region: Region) -> bool
    ensures { result ≡ is_north region }
{
    region == Region::North
}

// Whether an interest concerns the expression, and asked for what was there too.
fn asks_now<K: Key>(interest: &ShownInterest<K>, expr: &K) -> bool
    ensures { result
        ≡ (concerns K.matching interest.now expr.now && is_current interest.now.mode) }
{
    if !interest.mode().is_current() || !interest.options().contains(InterestOptions::TOKENS) {
        return false;
    }
    match interest.expr() {
        None => true,
        Some(key) => key.matches(expr),
    }
}

// Whether one of the interests that a face holds does.
fn asks_any_now<K: Key>(held: &[(u32, ShownInterest<K>)], expr: &K) -> bool
    ensures { result
        ≡ list_any (λ row. concerns K.matching row.1 expr.now && is_current row.1.mode) held.now }
{
    for row in held {
        if asks_now(&row.1, expr) {
            return true;
        }
    }
    false
}

/// Whether a face is to know all of the expression's tokens.
pub fn is_owed<K: Key>(face: &ShownFace<K>, expr: &K) -> bool
    ensures { result ≡ is_owed K.matching face.now expr.now }
{
    is_north(face.region()) || asks_any_now(face.held(), expr)
}

/// Passed by faces that the expression is owed to and that pass the test.
#[derive(Drop)]
pub(crate) struct IsOwed<'a, K: Key, T: FaceTest<K>> {
    pub(crate) expr: &'a K,
    pub(crate) test: &'a T,
}

impl<'a, K: Key, T: FaceTest<K>> FaceTest<K> for IsOwed<'a, K, T> {
    ghost use Rattle.std.specs.Prelude.{◌&&◌};
    ghost use Rattle.zt_model.specs.Seen.{is_owed};

    ghost passes = { λ w f. is_owed K.matching f w.expr.now && T.passes w.test.now f };

    fn passes(&self, face: &ShownFace<K>) -> bool {
        is_owed(face, self.expr) && self.test.passes(face)
    }
}

/// The face of a number is listed, if something may be owed to it.
pub(crate) fn list_if(owing: &mut HintList<u32>, is_owing: bool, number: u32) -> Result<(), Memory>
    ensures kept { KeepsAll owing.old owing.new }
    ensures has { OnOk result (is_owing ≡ true → Has number owing.new) }
{
    if is_owing {
        owing.add(number)?;
    }
    Ok(())
}

/// The face of a number asks and holds an interest, and is listed where that may be owed something.
pub(crate) fn hold_in<K: Key>(
    alloc: Global,
    faces: &mut Vec<ShownFace<K>>,
    owing: &mut HintList<u32>,
    number: u32,
    id: u32,
    pendings: &[(u32, u32)],
    interest: &ShownInterest<K>,
) -> Result<(), Memory>
    requires { NumbersRise 0 faces.old.items }
    ensures held { OnOk result (faces.new.items
        ≡ map (if_number number (λ f. with_question pendings.now id interest.now
        (with_held id interest.now f))) faces.old.items) }
    ensures kept { KeepsAll owing.old owing.new }
    ensures has { OnOk result (is_current interest.now.mode ≡ true → Has number owing.new) }
{
    list_if(owing, interest.mode().is_current(), number)?;
    let added = AddInterest {
        face: number,
        id,
        interest,
        pendings,
    };
    change_in(alloc, faces, number, &added)
}

// Whether one of the interests that a face holds asked for what was there too.
fn holds_current<K: Key>(held: &[(u32, ShownInterest<K>)]) -> bool
    ensures { result ≡ list_any (λ row. is_current row.1.mode) held.now }
{
    for row in held {
        if row.1.mode().is_current() {
            return true;
        }
    }
    false
}

// Whether something may be owed to a face.
fn may_be_owed<K: Key>(face: &ShownFace<K>) -> bool
    ensures { result ≡ may_be_owed face.now }
{
    is_north(face.region()) || holds_current(face.held())
}

/// The numbers of those faces that something may be owed to.
pub(crate) fn owing_of<K: Key>(
    alloc: Global,
    faces: &[ShownFace<K>],
) -> Result<HintList<u32>, Memory>
    ensures { IfOk result (λ owing. AreListed may_be_owed owing faces.now) }
{
    let mut owing = HintList::new(alloc);
    for face in faces {
        list_if(&mut owing, may_be_owed(face), face.number())?;
    }
    Ok(owing)
}
