// Where expressions are declared, by look-ups.
ghost use Rattle.std.specs.Prelude.{◌≡◌, ◌==◌, ◌&&◌, IfOk, OnOk};
ghost use Rattle.std.specs.List.{list_any};
ghost use Rattle.zt_region.specs.Admission.{admits};
ghost use Rattle.zt_model.specs.Lists.{same};
ghost use Rattle.zt_model.specs.Seen.{sees};
ghost use Rattle.zt_check_hints.specs.Hinted.{Keeps, KeepsBut};
ghost use Rattle.zt_check_open_faces.specs.Open.{NumbersRise};
ghost use Rattle.zt_check_open_faces.specs.Places.{AreDeclared, AreOfFace, is_declared_at};

use crate::admission::is_shown_and_admitted;
use crate::found::part_of;
use std::alloc::Global;
use std::cmp::Ordering;
use zt_check_faces::ShownFace;
use zt_check_hints::{Hint, Hints};
use zt_keys::{Key, Memory};
use zt_region::Region;

/// Where a token is declared: under an id of a face.
#[derive(Drop)]
pub(crate) struct TokenPlace {
    pub(crate) face: u32,
    pub(crate) id: u32,
}

impl Hint for TokenPlace {
    ghost use Rattle.std.specs.Prelude.{◌==◌, ◌&&◌};
    ghost use Rattle.zt_check_open_faces.specs.Places.{one_place};

    ghost alike = { λ one other. one.face == other.face && one.id == other.id };

    ghost alike_is_same = { λ one other same. one_place one other same };

    fn is_alike(&self, other: &TokenPlace) -> bool {
        self.face == other.face && self.id == other.id
    }

    fn compare(&self, other: &TokenPlace) -> Ordering {
        match self.face.cmp(&other.face) {
            Ordering::Equal => self.id.cmp(&other.id),
            unequal => unequal,
        }
    }
}

// The hints of one id go, at these rows of a face.
fn forget_id<K: Key>(declared: &mut Hints<K, TokenPlace>, rows: &[(u32, K)], face: u32, id: u32)
    ensures { KeepsBut K.cmp (λ place. face == place.face && id == place.id)
        declared.old declared.new }
{
    for row in rows {
        if id == row.0 {
            declared.drop_alike(&row.1, &TokenPlace { face, id });
        }
    }
}

/// The hints of a face's id go. A look-up of the face.
pub(crate) fn forget_token<K: Key>(
    declared: &mut Hints<K, TokenPlace>,
    faces: &[ShownFace<K>],
    number: u32,
    id: u32,
)
    ensures { KeepsBut K.cmp (λ place. number == place.face && id == place.id)
        declared.old declared.new }
{
    for face in faces {
        forget_id(declared, face.live_of(id), number, id);
    }
}

// The hints of these rows of a face go.
fn forget_rows<K: Key>(declared: &mut Hints<K, TokenPlace>, rows: &[(u32, K)], face: u32)
    ensures { KeepsBut K.cmp (λ place. face == place.face) declared.old declared.new }
{
    for row in rows {
        declared.drop_alike(&row.1, &TokenPlace { face, id: row.0 });
    }
}

/// The hints of a face go. A look-up of the face.
pub(crate) fn forget_face<K: Key>(
    declared: &mut Hints<K, TokenPlace>,
    faces: &[ShownFace<K>],
    number: u32,
)
    ensures { KeepsBut K.cmp (λ place. number == place.face) declared.old declared.new }
{
    for face in faces {
        forget_rows(declared, face.live(), number);
    }
}

// These rows of a face are hinted too.
fn add_rows<K: Key>(
    alloc: Global,
    declared: &mut Hints<K, TokenPlace>,
    rows: &[(u32, K)],
    face: u32,
) -> Result<(), Memory>
    ensures kept { Keeps K.cmp declared.old declared.new }
    ensures rows { OnOk result (AreOfFace K.cmp declared.new face rows.now) }
{
    for row in rows {
        declared.add(alloc, &row.1, TokenPlace { face, id: row.0 })?;
    }
    Ok(())
}

/// Hints of all tokens that faces declare.
pub(crate) fn hints_of<K: Key>(
    alloc: Global,
    faces: &[ShownFace<K>],
) -> Result<Hints<K, TokenPlace>, Memory>
    ensures { IfOk result (λ declared. AreDeclared K.cmp declared faces.now) }
{
    let mut declared = Hints::new(alloc);
    for face in faces {
        add_rows(alloc, &mut declared, face.live(), face.number())?;
    }
    Ok(declared)
}

// Whether the expression is declared under an id.
fn has_row<K: Key>(rows: &[(u32, K)], id: u32, expr: &K) -> bool
    ensures { result ≡ list_any (λ row. id == row.0 && same K.cmp expr.now row.1) rows.now }
{
    rows.iter().any(|row| id == row.0 && *expr == row.1)
}

// Whether the face declares the expression under the id.
fn has_token<K: Key>(face: &ShownFace<K>, id: u32, expr: &K) -> bool
    ensures { result
        ≡ list_any (λ row. id == row.0 && same K.cmp expr.now row.1) face.now.live }
{
    has_row(face.live_of(id), id, expr)
}

// Whether a face is of a region that is shown, and has the token.
fn is_shown_by<K: Key>(
    face: &ShownFace<K>,
    place: &TokenPlace,
    refused: &[(Region, Region)],
    own: Region,
    expr: &K,
) -> bool
    ensures { result ≡ (place.now.face == face.now.number
        && ((sees own face.now.region && admits refused.now face.now.region own)
        && list_any (λ row. place.now.id == row.0 && same K.cmp expr.now row.1) face.now.live)) }
{
    place.face == face.number()
        && is_shown_and_admitted(refused, own, face.region())
        && has_token(face, place.id, expr)
}

// Whether one of these faces does.
fn is_shown_in<K: Key>(
    faces: &[ShownFace<K>],
    place: &TokenPlace,
    refused: &[(Region, Region)],
    own: Region,
    expr: &K,
) -> bool
    ensures { result ≡ is_declared_at K.cmp
        (λ source. sees own source && admits refused.now source own) expr.now faces.now place.now }
{
    for face in faces {
        if is_shown_by(face, place, refused, own, expr) {
            return true;
        }
    }
    false
}

// Whether a token of the expression stands at the place, and is shown. A look-up of the face.
fn is_shown_of<K: Key>(
    faces: &[ShownFace<K>],
    place: &TokenPlace,
    refused: &[(Region, Region)],
    own: Region,
    expr: &K,
) -> bool
    requires { NumbersRise 0 faces.now }
    ensures { result ≡ is_declared_at K.cmp
        (λ source. sees own source && admits refused.now source own) expr.now faces.now place.now }
{
    is_shown_in(part_of(faces, place.face), place, refused, own, expr)
}

/// Whether one does at one of these places.
pub(crate) fn is_shown_at<K: Key>(
    places: &[TokenPlace],
    faces: &[ShownFace<K>],
    refused: &[(Region, Region)],
    own: Region,
    expr: &K,
) -> bool
    requires { NumbersRise 0 faces.now }
    ensures { result ≡ list_any
        (is_declared_at K.cmp (λ source. sees own source && admits refused.now source own)
        expr.now faces.now) places.now }
{
    for place in places {
        if is_shown_of(faces, place, refused, own, expr) {
            return true;
        }
    }
    false
}
