// Faces that are tried, by the numbers of those that may pass.
ghost use Rattle.std.specs.Prelude.{◌≡◌, ◌==◌, ◌&&◌};
ghost use Rattle.std.specs.List.{list_any};
ghost use Rattle.zt_check_open_faces.specs.Open.{NumbersRise};
ghost use Rattle.zt_check_open_faces.specs.Found.{passes_at, was_told};

use crate::found::part_of;
use zt_check_faces::ShownFace;
use zt_keys::Key;

/// A test of faces.
pub trait FaceTest<K: Key> {
    ghost use Rattle.std.specs.Prelude.{◌≡◌, Bool};
    ghost use Rattle.zt_model.specs.Rows.{Face};

    // Whether a face passes.
    ghost passes: { Self → Face K → Bool };

    /// Whether a face passes.
    fn passes(&self, face: &ShownFace<K>) -> bool
        ensures { result ≡ passes self.now face.now };
}

/// Passed by faces that were told the expression and pass the test.
#[derive(Drop)]
pub(crate) struct WasTold<'a, K: Key, T: FaceTest<K>> {
    pub(crate) expr: &'a K,
    pub(crate) test: &'a T,
}

impl<'a, K: Key, T: FaceTest<K>> FaceTest<K> for WasTold<'a, K, T> {
    ghost use Rattle.std.specs.Prelude.{◌&&◌};
    ghost use Rattle.zt_check_open_faces.specs.Found.{was_told};

    ghost passes = { λ w f. was_told K.cmp w.expr.now f && T.passes w.test.now f };

    fn passes(&self, face: &ShownFace<K>) -> bool {
        face.has_told(self.expr) && self.test.passes(face)
    }
}

// Whether a face of the number passes.
fn any_of_number<K: Key, T: FaceTest<K>>(faces: &[ShownFace<K>], number: u32, test: &T) -> bool
    ensures { result ≡ passes_at (T.passes test.now) faces.now number }
{
    for face in faces {
        if number == face.number() && test.passes(face) {
            return true;
        }
    }
    false
}

// Whether the face of a number passes. A look-up of the face.
fn passes_at<K: Key, T: FaceTest<K>>(faces: &[ShownFace<K>], number: u32, test: &T) -> bool
    requires { NumbersRise 0 faces.now }
    ensures { result ≡ passes_at (T.passes test.now) faces.now number }
{
    any_of_number(part_of(faces, number), number, test)
}

/// Whether a face of one of the numbers passes. A look-up of each face.
pub(crate) fn any_at<K: Key, T: FaceTest<K>>(
    numbers: &[u32],
    faces: &[ShownFace<K>],
    test: &T,
) -> bool
    requires { NumbersRise 0 faces.now }
    ensures { result ≡ list_any (passes_at (T.passes test.now) faces.now) numbers.now }
{
    for number in numbers {
        if passes_at(faces, *number, test) {
            return true;
        }
    }
    false
}
