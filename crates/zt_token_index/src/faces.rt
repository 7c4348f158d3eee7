// The faces that were told one expression.
ghost use Rattle.std.specs.Prelude.{◌≡◌, ◌==◌, ◌∷◌, [], length, IfOk, OnErr, OnOk};
ghost use Rattle.zt_token_index.specs.Held.{pairs_of};
ghost use Rattle.zt_token_index.specs.Told.{AreRising, id_of, with_face, without_face};

use crate::many::Many;
use std::alloc::Global;
use std::cmp::Ordering;
use std::marker::Model;
use std::slice;
use zt_keys::Memory;
use zt_ordered::place_of_number;

/// The id of a face among pairs of face and id, which are in order of face. Found at once where
/// faces follow one another or lie evenly apart, else by binary search.
pub fn id_in(pairs: &[(u32, u32)], face: u32) -> Option<u32>
    requires { AreRising pairs.now }
    ensures { result ≡ id_of face pairs.now }
{
    match place_of_number(pairs, face) {
        Ok(place) => Some(pairs[place].1),
        Err(_) => None,
    }
}

// The faces that were told an expression: none, or one alone, as mostly, or those in a box, which
// keeps this small where there is one.
#[derive(Drop)]
enum Faces {
    Empty,
    One((u32, u32)),
    More(Box<Many>),
}

// Two pairs.
fn two(alloc: Global, first: (u32, u32), second: (u32, u32)) -> Result<Faces, Memory>
    ensures { IfOk result (λ faces. pairs_of faces ≡ first ∷ second ∷ []) }
{
    let many = Many::two(alloc, first, second)?;
    Ok(Faces::More(Box::new(alloc, many)?))
}

// The face with the id, beside one pair or instead of it.
fn beside_one(alloc: Global, pair: (u32, u32), face: u32, id: u32) -> Result<Faces, Memory>
    ensures { IfOk result (λ faces. pairs_of faces ≡ with_face face id (pair ∷ [])) }
{
    match face.cmp(&pair.0) {
        Ordering::Less => two(alloc, (face, id), pair),
        Ordering::Equal => Ok(Faces::One((face, id))),
        Ordering::Greater => two(alloc, pair, (face, id)),
    }
}

/// The faces that were told an expression, each once with the id under which it was told, in order
/// of the face's number. One face takes no memory beside the struct, since mostly there is no
/// other. More are in a box: these stand side by side in tables, and are many.
#[derive(Drop)]
pub(crate) struct ToldFaces {
    faces: Faces,
}

impl Model for ToldFaces {
    ghost use Rattle.std.specs.Prelude.{ℕ, List};
    ghost use Rattle.zt_token_index.specs.Held.{pairs_of};
    ghost use Rattle.zt_token_index.specs.Told.{AreRising};

    ghost Value = { List (ℕ × ℕ) };

    ghost view = { λ t. pairs_of t.faces };

    ghost invariant = { λ t. AreRising (pairs_of t.faces) };
}

impl ToldFaces {
    /// One face, with its id. It takes no memory.
    pub(crate) fn one(face: u32, id: u32) -> Self
        ensures { result ≡ (face, id) ∷ [] }
    {
        ToldFaces {
            faces: Faces::One((face, id)),
        }
    }

    /// The pairs of face and id, in order of face, each face once.
    pub(crate) fn as_slice(&self) -> &[(u32, u32)]
        ensures pairs { result.now ≡ self.now }
        ensures in_order { AreRising result.now }
    {
        match &self.faces {
            Faces::Empty => &[],
            Faces::One(pair) => slice::from_ref(pair),
            Faces::More(many) => many.as_slice(),
        }
    }

    /// The id under which the face was told.
    pub(crate) fn id_of(&self, face: u32) -> Option<u32>
        ensures { result ≡ id_of face self.now }
    {
        id_in(self.as_slice(), face)
    }

    /// Whether there is no face.
    pub(crate) fn is_empty(&self) -> bool
        ensures { result ≡ (length self.now == 0) }
    {
        self.as_slice().is_empty()
    }

    /// The face was told under the id. It answers the id that the face had, if it had one. After an
    /// error the faces stay.
    pub(crate) fn put(&mut self, alloc: Global, face: u32, id: u32) -> Result<Option<u32>, Memory>
        ensures ok { OnOk result (self.new ≡ with_face face id self.old) }
        ensures known { IfOk result (λ known. known ≡ id_of face self.old) }
        ensures err { OnErr result (self.new ≡ self.old) }
    {
        match &mut self.faces {
            Faces::Empty => {
                self.faces = Faces::One((face, id));
                Ok(None)
            }
            Faces::One(pair) => {
                let known = (face == pair.0).then_some(pair.1);
                self.faces = beside_one(alloc, *pair, face, id)?;
                Ok(known)
            }
            Faces::More(many) => many.put(face, id),
        }
    }

    /// The face goes, if it is here.
    pub(crate) fn remove(&mut self, face: u32)
        ensures { self.new ≡ without_face face self.old }
    {
        match &mut self.faces {
            Faces::Empty => {}
            Faces::One(pair) => {
                if face == pair.0 {
                    self.faces = Faces::Empty;
                }
            }
            Faces::More(many) => many.remove(face),
        }
    }

    /// Equal faces.
    pub(crate) fn copy(&self, alloc: Global) -> Result<Self, Memory>
        ensures { IfOk result (λ copy. copy ≡ self.now) }
    {
        let faces = match &self.faces {
            Faces::Empty => Faces::Empty,
            Faces::One(pair) => Faces::One(*pair),
            Faces::More(many) => Faces::More(Box::new(alloc, many.copy(alloc)?)?),
        };
        Ok(ToldFaces { faces })
    }
}
