// Whose asks were sent upstream, found by the face and the id that they were sent as.
ghost use Rattle.std.specs.Prelude.{◌≡◌, ℕ, true, IfOk, OnOk};
ghost use Rattle.zt_faces.specs.Asked.{AreAsked, AreKnown, IsKnown, KnowsMore, asked_in, knows};

use crate::walk::OpenFaces;
use std::alloc::Global;
use std::collections::HashMap;
use zt_face::{AskState, FaceState};
use zt_keys::{Key, Memory};
use zt_rows::RowsById;

/// Whose asks were sent upstream to a face under an id: where an interest that waits there comes
/// from, as Zenoh's `CurrentInterest` says.
#[derive(Clone, Copy, Drop)]
pub enum Asker {
    /// Nobody's.
    Nobody,
    /// The ask of this face under this id, and no other. `place`, from 0, is where the interest may
    /// be found among those as which the ask was sent upstream.
    One { face: u32, id: u32, place: u32 },
    /// Maybe those of several.
    Several,
}

impl Asker {
    // Whether this is the ask of a face under an id, and of no other.
    fn is_one(self, face: u32, id: u32) -> bool
        ensures { result ≡ true → knows self face id ≡ true }
    {
        match self {
            Asker::One {
                face: other,
                id: under,
                place: _,
            } => other == face && under == id,
            Asker::Nobody | Asker::Several => false,
        }
    }

    // These, and the ask of a face under an id, which was sent so too: it may be found at a place.
    fn with(self, face: u32, id: u32, place: u32) -> Self
        ensures here { knows result face id ≡ true }
        ensures kept { (n k : ℕ) → knows self n k ≡ true → knows result n k ≡ true }
    {
        match self {
            Asker::Nobody => Asker::One { face, id, place },
            Asker::One { .. } if self.is_one(face, id) => self,
            Asker::One { .. } | Asker::Several => Asker::Several,
        }
    }
}

// So many entries are left alone.
const FEW: usize = 64;

// Whose asks were sent as this.
fn find_in(askers: &HashMap<(u32, u32), Asker>, sent: (u32, u32)) -> Asker
    ensures { result ≡ asked_in askers.now sent }
{
    match askers.get(&sent) {
        None => Asker::Nobody,
        Some(asker) => *asker,
    }
}

// The ask of a face under an id was sent as this too.
fn note(
    askers: &mut HashMap<(u32, u32), Asker>,
    sent: (u32, u32),
    face: u32,
    id: u32,
    place: u32,
) -> Result<(), Memory>
    ensures here { OnOk result (knows (asked_in askers.new sent) face id ≡ true) }
    ensures kept { KnowsMore (asked_in askers.old) (asked_in askers.new) }
{
    let asker = find_in(askers, sent).with(face, id, place);
    askers.insert(sent, asker)?;
    Ok(())
}

// The ask of a face under an id was sent as these too.
fn note_all(
    askers: &mut HashMap<(u32, u32), Asker>,
    face: u32,
    id: u32,
    pendings: &[(u32, u32)],
) -> Result<(), Memory>
    ensures here { OnOk result (IsKnown (asked_in askers.new) face id pendings.now) }
    ensures kept { KnowsMore (asked_in askers.old) (asked_in askers.new) }
{
    let mut place = 0u32;
    for sent in pendings {
        note(askers, *sent, face, id, place)?;
        place = place.saturating_add(1);
    }
    Ok(())
}

/// Whose asks were sent upstream, by the face and the id that they were sent as. An ask that is
/// gone may be known still.
#[derive(Drop)]
pub(crate) struct Askers {
    rows: HashMap<(u32, u32), Asker>,
    // So many were put since all were.
    entries: usize,
    // From so many on those that are gone are dropped.
    many: usize,
}

impl Askers {
    // No ask.
    pub(crate) fn new(alloc: Global) -> Self {
        Askers {
            rows: HashMap::new(alloc),
            entries: 0,
            many: FEW,
        }
    }

    // Whose asks were sent to the face under the id. A look-up.
    pub(crate) fn find(&self, face: u32, id: u32) -> Asker
        ensures { result ≡ asked_in self.now.rows (face, id) }
    {
        find_in(&self.rows, (face, id))
    }

    // The ask of a face under an id was sent upstream as these.
    pub(crate) fn note_ask(
        &mut self,
        face: u32,
        id: u32,
        pendings: &[(u32, u32)],
    ) -> Result<(), Memory>
        ensures here { OnOk result (IsKnown (asked_in self.new.rows) face id pendings.now) }
        ensures kept { KnowsMore (asked_in self.old.rows) (asked_in self.new.rows) }
    {
        self.entries = self.entries.saturating_add(pendings.len());
        note_all(&mut self.rows, face, id, pendings)
    }

    // These asks of a face were sent upstream.
    fn note_asks<K: Key>(&mut self, face: u32, asks: &RowsById<AskState<K>>) -> Result<(), Memory>
        ensures here { OnOk result (AreKnown (asked_in self.new.rows) face asks.now) }
        ensures kept { KnowsMore (asked_in self.old.rows) (asked_in self.new.rows) }
    {
        for (id, ask) in asks.iter() {
            self.note_ask(face, *id, ask.pendings())?;
        }
        Ok(())
    }

    // The asks of the face were sent upstream.
    pub(crate) fn note_face<K: Key>(&mut self, f: &FaceState<K>) -> Result<(), Memory>
        ensures here { OnOk result (AreKnown (asked_in self.new.rows) f.now.number f.now.asks) }
        ensures kept { KnowsMore (asked_in self.old.rows) (asked_in self.new.rows) }
    {
        self.note_asks(f.number(), f.asks())
    }

    // The asks of these faces were sent upstream.
    fn note_faces<K: Key>(&mut self, faces: OpenFaces<'_, K>) -> Result<(), Memory>
        ensures { OnOk result (AreAsked (asked_in self.new.rows) faces.entry) }
    {
        for f in faces {
            self.note_face(f)?;
        }
        Ok(())
    }

    // Those of the asks of these faces, `count` in all, and of none that is gone.
    pub(crate) fn of_faces<K: Key>(
        alloc: Global,
        faces: OpenFaces<'_, K>,
        count: usize,
    ) -> Result<Self, Memory>
        ensures { IfOk result (λ askers. AreAsked (asked_in askers.rows) faces.entry) }
    {
        let mut askers = Askers::new(alloc);
        askers.note_faces(faces)?;
        let twice = askers.entries.saturating_mul(2);
        askers.many = twice.saturating_add(count).saturating_add(FEW);
        Ok(askers)
    }

    // Whether so many are known that those that are gone should be dropped.
    pub(crate) fn are_many(&self) -> bool {
        self.entries >= self.many
    }
}
