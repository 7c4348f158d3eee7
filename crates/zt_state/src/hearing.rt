// What faces hear: what a message changes at the face that it is sent to.
ghost use Rattle.std.specs.Prelude.{◌≡◌, ◌==◌, ◌∷◌, [], if◌then◌else◌, map, OnOk};
ghost use Rattle.zt_model.specs.Hearing.{heard, rows_heard};
ghost use Rattle.zt_model.specs.Parts.{with_face};
ghost use Rattle.zt_state.specs.Pendings.{awaits_final};
ghost use Rattle.zt_token_index.specs.Seekers.{AreSeekers};

use crate::changes::empty;
use crate::gateway::GatewayState;
use std::alloc::Global;
use zt_face::FaceState;
use zt_faces::{FaceAddition, Faces};
use zt_keys::{Key, Memory};
use zt_protocol::Message;
use zt_token_index::Seekers;

// The interest that a message is, if it asks for what is there now: from this moment on it waits for
// its final.
#[inline(always)]
fn awaited_by<K: Key>(moment: u64, message: &Message<K>) -> Option<(u64, u32)>
    ensures { result ≡ awaits_final moment message.now }
{
    match message {
        Message::Interest { id, mode, .. } => mode.is_current().then_some((moment, *id)),
        _ => None,
    }
}

// A message that is sent to a face at a moment. Of one that says of an expression that it is gone,
// `known` is the id under which the face was told the expression, if it was.
#[derive(Drop)]
struct Hears<'a, K: Key> {
    moment: u64,
    message: &'a Message<K>,
    known: Option<u32>,
}

impl<'a, K: Key> FaceAddition<K> for Hears<'a, K> {
    ghost use Rattle.zt_face.specs.Told.{heard_known};
    ghost use Rattle.zt_state.specs.Keeps.{known-keeps, known-keeps-asks, known-keeps-router};
    ghost use Rattle.zt_state.specs.Pendings.{awaits_final, known-awaits};

    ghost added = { λ c. heard_known K.cmp c.moment c.message.now c.known };

    ghost awaited = { λ c. awaits_final c.moment c.message.now };

    ghost keeps_number = { λ c f. (known-keeps K.cmp c.moment c.message.now c.known f).number };

    ghost keeps_router = { λ c f. known-keeps-router K.cmp c.moment c.message.now c.known f };

    ghost keeps_asks = { λ c f. known-keeps-asks K.cmp c.moment c.message.now c.known f };

    ghost awaits_only = { λ c f. known-awaits K.cmp c.moment c.message.now c.known f };

    fn awaits(&self) -> Option<(u64, u32)> {
        awaited_by(self.moment, self.message)
    }

    fn add(&self, alloc: Global, f: &mut FaceState<K>) -> Result<(), Memory> {
        f.hear(alloc, self.moment, self.message, self.known)
    }
}

// The face of the number is sent a message. Ids that run out count as out of memory.
fn hear_in<K: Key>(
    alloc: Global,
    faces: &mut Faces<K>,
    seekers: &mut Seekers<K>,
    face: u32,
    moment: u64,
    message: &Message<K>,
) -> Result<(), Memory>
    requires { AreSeekers K.cmp K.anchored seekers.old faces.old }
    ensures faces { OnOk result (faces.new ≡ map (λ f. if face == f.number
        then heard K.cmp moment message.now f else f) faces.old) }
    ensures seekers { OnOk result (AreSeekers K.cmp K.anchored seekers.new faces.new) }
{
    let Some(f) = faces.find(face) else {
        return Ok(());
    };
    let known = seekers.hear(alloc, f, message)?;
    let hears = Hears {
        moment,
        message,
        known,
    };
    faces.add(alloc, face, &hears)
}

impl<K: Key> GatewayState<K> {
    // The face of the number is sent a message. Ids that run out count as out of memory.
    #[tactic(auto, unfolding(zt_model::specs::Parts::with_face))]
    fn hear_at(&mut self, alloc: Global, face: u32, message: &Message<K>) -> Result<(), Memory>
        ensures { OnOk result (self.new
            ≡ with_face face (heard K.cmp self.old.moment message.now) self.old) }
    {
        match hear_in(
            alloc,
            &mut self.faces,
            &mut self.seekers,
            face,
            self.moment,
            message,
        ) {
            Ok(()) => Ok(()),
            Err(error) => {
                empty(
                    alloc,
                    &mut self.faces,
                    &mut self.routed,
                    &mut self.live,
                    &mut self.seekers,
                );
                Err(error)
            }
        }
    }

    /// A face hears a message that it is sent. Ids that run out count as out of memory.
    #[tactic(auto, using(crate::proofs::Heard::one_heard))]
    pub fn hear(&mut self, alloc: Global, face: u32, message: &Message<K>) -> Result<(), Memory>
        ensures { OnOk result (self.new ≡ rows_heard K.cmp ((face, message.now) ∷ []) self.old) }
    {
        self.hear_at(alloc, face, message)
    }

    /// Each face hears the messages that it is sent, in their order. Ids that run out count as out
    /// of memory.
    pub fn hear_all(&mut self, alloc: Global, sends: &[(u32, Message<K>)]) -> Result<(), Memory>
        ensures { OnOk result (self.new ≡ rows_heard K.cmp sends.now self.old) }
    {
        for (face, message) in sends {
            self.hear(alloc, *face, message)?;
        }
        Ok(())
    }
}
