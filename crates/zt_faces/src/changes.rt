// Changes of one face.
use std::alloc::Global;
use zt_face::FaceState;
use zt_keys::{Key, Memory};

/// A change of a face that takes no memory.
pub trait FaceChange<K: Key> {
    ghost use Rattle.std.specs.Prelude.{◌≡◌};
    ghost use Rattle.zt_model.specs.Rows.{Face};
    ghost use Rattle.zt_faces.specs.Asked.{KeepsAsks};
    ghost use Rattle.zt_faces.specs.Routers.{KeepsRouter};
    ghost use Rattle.zt_faces.specs.Timed.{KeepsPendings};

    /// The face after the change.
    ghost changed: { Self → Face K → Face K };

    /// Changes the face.
    fn change(&self, f: &mut FaceState<K>)
        ensures { f.new ≡ changed self.now f.old };

    /// The face keeps its number.
    ghost keeps_number: { (c : Self) (f : Face K) → (changed c f).number ≡ f.number };

    /// The face keeps its region and the router behind it.
    ghost keeps_router: { (c : Self) (f : Face K) → KeepsRouter f (changed c f) };

    /// The face draws no id.
    ghost keeps_next: { (c : Self) (f : Face K) → (changed c f).next ≡ f.next };

    /// No ask is new, or was sent upstream as anything new.
    ghost keeps_asks: { (c : Self) (f : Face K) → KeepsAsks f (changed c f) };

    /// No interest waits for its final that didn't before.
    ghost keeps_pendings: { (c : Self) (f : Face K) → KeepsPendings f (changed c f) };
}

/// A change of a face that takes memory.
pub trait FaceAddition<K: Key> {
    ghost use Rattle.std.specs.Prelude.{◌≡◌, ℕ, Option, OnOk};
    ghost use Rattle.zt_model.specs.Rows.{Face};
    ghost use Rattle.zt_faces.specs.Asked.{KeepsAsks};
    ghost use Rattle.zt_faces.specs.Routers.{KeepsRouter};
    ghost use Rattle.zt_faces.specs.Timed.{AwaitsOnly};

    /// The face after the change.
    ghost added: { Self → Face K → Face K };

    /// The interest that the face is sent, if it then waits for a final: when, and under which id.
    ghost awaited: { Self → Option (ℕ × ℕ) };

    /// Changes the face.
    fn add(&self, alloc: Global, f: &mut FaceState<K>) -> Result<(), Memory>
        ensures { OnOk result (f.new ≡ added self.now f.old) };

    /// The interest that the face is sent, if it then waits for a final: when, and under which id.
    fn awaits(&self) -> Option<(u64, u32)>
        ensures { result ≡ awaited self.now };

    /// The face keeps its number.
    ghost keeps_number: { (c : Self) (f : Face K) → (added c f).number ≡ f.number };

    /// The face keeps its region and the router behind it.
    ghost keeps_router: { (c : Self) (f : Face K) → KeepsRouter f (added c f) };

    /// No ask is new, or was sent upstream as anything new.
    ghost keeps_asks: { (c : Self) (f : Face K) → KeepsAsks f (added c f) };

    /// No other interest waits for its final that didn't before.
    ghost awaits_only: { (c : Self) (f : Face K) → AwaitsOnly (awaited c) f (added c f) };
}
