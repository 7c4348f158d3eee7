// What changes at one face without memory, but for what it declares and holds.
ghost use Rattle.std.specs.Prelude.{◌≡◌};
ghost use Rattle.zt_model.specs.Closing.{without_asks};
ghost use Rattle.zt_model.specs.Parts.{with_face};
ghost use Rattle.zt_model.specs.Routing.{ended, initial_finalised};

use crate::changes::QuietChange;
use crate::gateway::GatewayState;
use zt_face::FaceState;
use zt_faces::FaceChange;
use zt_keys::Key;
use zt_protocol::InterestId;

#[derive(Drop)]
struct EndPending(InterestId);

impl<K: Key> FaceChange<K> for EndPending {
    ghost use Rattle.std.specs.Prelude.{refl};
    ghost use Rattle.zt_model.specs.Routing.{ended};
    ghost use Rattle.zt_state.specs.Pendings.{ended-keeps};

    ghost changed = { λ c. ended c.0 };

    ghost keeps_number = { λ _ _. refl };

    ghost keeps_router = { λ _ _. record { region = refl; zid = refl } };

    ghost keeps_next = { λ _ _. refl };

    ghost keeps_asks = { λ _ _ _ known. known };

    ghost keeps_pendings = { λ c f. ended-keeps c.0 f };

    fn change(&self, f: &mut FaceState<K>) {
        f.end_pending(self.0);
    }
}

impl<K: Key> QuietChange<K> for EndPending {
    ghost use Rattle.std.specs.Prelude.{refl};

    ghost keeps_live = { λ _ _.
        record { number = refl; region = refl; live = refl; held = refl; told = refl } };
}

#[derive(Drop)]
struct FinaliseInitial(InterestId);

impl<K: Key> FaceChange<K> for FinaliseInitial {
    ghost use Rattle.std.specs.Prelude.{refl};
    ghost use Rattle.zt_model.specs.Routing.{initial_finalised};

    ghost changed = { λ c. initial_finalised c.0 };

    ghost keeps_number = { λ _ _. refl };

    ghost keeps_router = { λ _ _. record { region = refl; zid = refl } };

    ghost keeps_next = { λ _ _. refl };

    ghost keeps_asks = { λ _ _ _ known. known };

    ghost keeps_pendings = { λ _ _ _ _ waits. waits };

    fn change(&self, f: &mut FaceState<K>) {
        f.finalise_initial(self.0);
    }
}

impl<K: Key> QuietChange<K> for FinaliseInitial {
    ghost use Rattle.std.specs.Prelude.{refl};

    ghost keeps_live = { λ _ _.
        record { number = refl; region = refl; live = refl; held = refl; told = refl } };
}

#[derive(Drop)]
struct DropAsks;

impl<K: Key> FaceChange<K> for DropAsks {
    ghost use Rattle.std.specs.Prelude.{refl};
    ghost use Rattle.zt_model.specs.Closing.{without_asks};

    ghost changed = { λ _. without_asks };

    ghost keeps_number = { λ _ _. refl };

    ghost keeps_router = { λ _ _. record { region = refl; zid = refl } };

    ghost keeps_next = { λ _ _. refl };

    ghost keeps_asks = { λ _ _ _ _. tt };

    ghost keeps_pendings = { λ _ _ _ _ waits. waits };

    fn change(&self, f: &mut FaceState<K>) {
        f.drop_asks();
    }
}

impl<K: Key> QuietChange<K> for DropAsks {
    ghost use Rattle.std.specs.Prelude.{refl};

    ghost keeps_live = { λ _ _.
        record { number = refl; region = refl; live = refl; held = refl; told = refl } };
}

#[tactic(auto, unfolding(zt_model::specs::Parts::with_face))]
impl<K: Key> GatewayState<K> {
    /// The interest that the face was sent under the id is finished.
    pub fn end_pending(&mut self, face: u32, id: InterestId)
        ensures { self.new ≡ with_face face (ended id) self.old }
    {
        self.change_face(face, &EndPending(id));
    }

    /// A final with the id 0 finalises the face's initial interest, where it has one.
    pub fn finalise_initial(&mut self, face: u32, id: InterestId)
        ensures { self.new ≡ with_face face (initial_finalised id) self.old }
    {
        self.change_face(face, &FinaliseInitial(id));
    }

    /// The face asks nothing any more.
    pub fn drop_asks(&mut self, face: u32)
        ensures { self.new ≡ with_face face without_asks self.old }
    {
        self.change_face(face, &DropAsks);
    }

    /// The gateway's moment becomes this one.
    pub fn set_moment(&mut self, now: u64)
        ensures { self.new ≡ record self.old { moment = now } }
    {
        self.moment = now;
    }
}
