// Faces and tokens that pass a test: tried are those alone that may concern an expression.
ghost use Rattle.std.specs.Prelude.{◌≡◌, ◌&&◌};
ghost use Rattle.std.specs.List.{list_any};
ghost use Rattle.zt_model.specs.Lists.{same};
ghost use Rattle.zt_model.specs.Seen.{is_owed};

use crate::faces::ShownFaces;
use crate::owing::IsOwed;
use crate::trying::{FaceTest, WasTold, any_at};
use zt_check_faces::ShownFace;
use zt_keys::Key;

/// A test of tokens: of their expressions, and of the faces that declare them.
pub trait TokenTest<K: Key> {
    ghost use Rattle.std.specs.Prelude.{◌≡◌, Bool};
    ghost use Rattle.zt_model.specs.Rows.{Face};

    // Whether a token passes.
    ghost passes: { Self → Face K → K → Bool };

    /// Whether a token passes that a face declares.
    fn passes(&self, source: &ShownFace<K>, expr: &K) -> bool
        ensures { result ≡ passes self.now source.now expr.now };
}

// Whether a token of a face passes whose expression matches the key.
fn any_of_face<K: Key, T: TokenTest<K>>(
    source: &ShownFace<K>,
    live: &[(u32, K)],
    key: &K,
    test: &T,
) -> bool
    ensures { result ≡ list_any
        (λ row. K.matching key.now row.1 && T.passes test.now source.now row.1) live.now }
{
    for row in live {
        if key.matches(&row.1) && test.passes(source, &row.1) {
            return true;
        }
    }
    false
}

// Whether a token passes whose expression matches the key.
fn any_near_of<K: Key, T: TokenTest<K>>(faces: &[ShownFace<K>], key: &K, test: &T) -> bool
    ensures { result ≡ list_any (λ f. list_any
        (λ row. K.matching key.now row.1 && T.passes test.now f row.1) f.live) faces.now }
{
    for face in faces {
        if any_of_face(face, face.live(), key, test) {
            return true;
        }
    }
    false
}

impl<K: Key> ShownFaces<K> {
    /// Whether a face passes that was told the expression. Only such faces are tried.
    pub fn any_told<T: FaceTest<K>>(&self, expr: &K, test: &T) -> bool
        ensures { result ≡ list_any
            (λ f. list_any (λ row. same K.cmp expr.now row.1) f.told && T.passes test.now f)
            self.now.open_faces }
    {
        any_at(self.told.at(expr), &self.faces, &WasTold { expr, test })
    }

    /// Whether a face passes that the expression is owed to. Only faces are tried that are to the
    /// north, or hold an interest in what is there now too.
    pub fn any_owed<T: FaceTest<K>>(&self, expr: &K, test: &T) -> bool
        ensures { result ≡ list_any
            (λ f. is_owed K.matching f expr.now && T.passes test.now f) self.now.open_faces }
    {
        any_at(self.owing.hints(), &self.faces, &IsOwed { expr, test })
    }

    /// Whether a token passes whose expression matches the key. Only tokens near the key are tried.
    pub fn any_near<T: TokenTest<K>>(&self, key: &K, test: &T) -> bool
        ensures { result ≡ list_any (λ f. list_any
            (λ row. K.matching key.now row.1 && T.passes test.now f row.1) f.live)
            self.now.open_faces }
    {
        any_near_of(self.faces(), key, test)
    }
}
