// What faces ask for and hold.
ghost use Rattle.std.specs.Prelude.{◌≡◌, ◌==◌, if◌then◌else◌, map, OnOk};
ghost use Rattle.zt_model.specs.Parts.{with_face};
ghost use Rattle.zt_model.specs.Routing.{asked_as, unheld};
ghost use Rattle.zt_token_index.specs.Seekers.{AreSeekers};

use crate::changes::empty;
use crate::gateway::GatewayState;
use std::alloc::Global;
use zt_face::{FaceState, RemoteInterest};
use zt_faces::{FaceChange, Faces};
use zt_keys::{Key, Memory};
use zt_protocol::InterestId;
use zt_token_index::Seekers;

// An interest that a face holds no more.
#[derive(Drop)]
struct Unhold(InterestId);

impl<K: Key> FaceChange<K> for Unhold {
    ghost use Rattle.std.specs.Prelude.{refl};
    ghost use Rattle.zt_model.specs.Routing.{unheld};

    ghost changed = { λ c. unheld c.0 };

    ghost keeps_number = { λ _ _. refl };

    ghost keeps_router = { λ _ _. record { region = refl; zid = refl } };

    ghost keeps_next = { λ _ _. refl };

    ghost keeps_asks = { λ _ _ _ known. known };

    ghost keeps_pendings = { λ _ _ _ _ waits. waits };

    fn change(&self, f: &mut FaceState<K>) {
        f.unhold(self.0);
    }
}

// The face of the number asks.
fn ask_in<K: Key>(
    alloc: Global,
    faces: &mut Faces<K>,
    seekers: &mut Seekers<K>,
    face: u32,
    id: InterestId,
    interest: &RemoteInterest<K>,
    pendings: &[(u32, u32)],
) -> Result<(), Memory>
    requires { AreSeekers K.cmp K.anchored seekers.old faces.old }
    ensures faces { OnOk result (faces.new ≡ map (λ f. if face == f.number
        then asked_as pendings.now id interest.now f else f) faces.old) }
    ensures seekers { OnOk result (AreSeekers K.cmp K.anchored seekers.new faces.new) }
{
    let Some(f) = faces.find(face) else {
        return Ok(());
    };
    seekers.hold(alloc, f, id, interest)?;
    faces.ask(alloc, face, id, interest, pendings)
}

// The face of the number holds an interest no more.
fn unhold_in<K: Key>(faces: &mut Faces<K>, seekers: &mut Seekers<K>, face: u32, id: InterestId)
    requires { AreSeekers K.cmp K.anchored seekers.old faces.old }
    ensures faces { faces.new ≡ map (λ f. if face == f.number then unheld id f else f) faces.old }
    ensures seekers { AreSeekers K.cmp K.anchored seekers.new faces.new }
{
    let Some(f) = faces.find(face) else {
        return;
    };
    seekers.unhold(f, id);
    faces.change(face, &Unhold(id));
}

#[tactic(auto, unfolding(zt_model::specs::Parts::with_face))]
impl<K: Key> GatewayState<K> {
    /// The face holds an interest that asks for what comes later, and asks one that asks for what
    /// is there now, which was sent upstream as these, each a face and an id.
    pub fn ask(
        &mut self,
        alloc: Global,
        face: u32,
        id: InterestId,
        interest: &RemoteInterest<K>,
        pendings: &[(u32, u32)],
    ) -> Result<(), Memory>
        ensures { OnOk result (self.new
            ≡ with_face face (asked_as pendings.now id interest.now) self.old) }
    {
        match ask_in(
            alloc,
            &mut self.faces,
            &mut self.seekers,
            face,
            id,
            interest,
            pendings,
        ) {
            Ok(()) => Ok(()),
            Err(error) => {
                empty(
                    alloc,
                    &mut self.faces,
                    &mut self.routed,
                    &mut self.live,
                    &mut self.seekers,
                );
                Err(error)
            }
        }
    }

    /// The face holds the interest of the id no more.
    pub fn unhold(&mut self, face: u32, id: InterestId)
        ensures { self.new ≡ with_face face (unheld id) self.old }
    {
        unhold_in(&mut self.faces, &mut self.seekers, face, id);
    }
}
