// What faces declare, and how many live tokens of each expression that makes in each region.
ghost use Rattle.std.specs.Prelude.{◌≡◌, ◌==◌, [], true, filter, flat_map, if◌then◌else◌, map, not};
ghost use Rattle.std.specs.Prelude.{OnOk};
ghost use Rattle.std.specs.FinMap.Entries.{is_sorted};
ghost use Rattle.std.specs.List.{AllByRecursion};
ghost use Rattle.std.specs.Option.{option_copied};
ghost use Rattle.std.specs.Ordering.{nat_cmp};
ghost use Rattle.zt_indexes.specs.Recounts.{Recounts};
ghost use Rattle.zt_model.specs.Closing.{without_face};
ghost use Rattle.zt_model.specs.Lists.{at_id};
ghost use Rattle.zt_model.specs.Parts.{with_face};
ghost use Rattle.zt_model.specs.Telling.{registered, unregistered};
ghost use Rattle.zt_model.specs.Visible.{rows_of_face};
ghost use Rattle.zt_token_index.specs.Seekers.{AreSeekers};
ghost use Rattle.zt_state.specs.Indexed.{HasLiveInOrder};

use crate::changes::empty;
use crate::gateway::GatewayState;
use std::alloc::Global;
use zt_face::FaceState;
use zt_faces::{FaceAddition, FaceChange, Faces};
use zt_indexes::LiveCounts;
use zt_keys::{Key, Memory};
use zt_protocol::TokenId;
use zt_token_index::Seekers;

// A token that a face declares.
#[derive(Drop)]
struct Registers<'a, K: Key> {
    id: TokenId,
    expr: &'a K,
}

impl<'a, K: Key> FaceAddition<K> for Registers<'a, K> {
    ghost use Rattle.std.specs.Prelude.{None, refl};
    ghost use Rattle.zt_model.specs.Telling.{registered};

    ghost added = { λ c. registered c.id c.expr.now };

    ghost awaited = { λ _. None };

    ghost keeps_number = { λ _ _. refl };

    ghost keeps_router = { λ _ _. record { region = refl; zid = refl } };

    ghost keeps_asks = { λ _ _ _ known. known };

    ghost awaits_only = { λ _ _ _ _ waits. waits };

    fn awaits(&self) -> Option<(u64, u32)> {
        None
    }

    fn add(&self, alloc: Global, f: &mut FaceState<K>) -> Result<(), Memory> {
        f.register(alloc, self.id, self.expr)
    }
}

// A token that a face undeclares.
#[derive(Drop)]
struct Unregisters(TokenId);

impl<K: Key> FaceChange<K> for Unregisters {
    ghost use Rattle.std.specs.Prelude.{refl};
    ghost use Rattle.zt_model.specs.Telling.{unregistered};

    ghost changed = { λ c. unregistered c.0 };

    ghost keeps_number = { λ _ _. refl };

    ghost keeps_router = { λ _ _. record { region = refl; zid = refl } };

    ghost keeps_next = { λ _ _. refl };

    ghost keeps_asks = { λ _ _ _ known. known };

    ghost keeps_pendings = { λ _ _ _ _ waits. waits };

    fn change(&self, f: &mut FaceState<K>) {
        f.unregister(self.0);
    }
}

// The token of the id is counted no more.
fn uncount<K: Key>(live: &mut LiveCounts<K>, f: &FaceState<K>, id: TokenId)
    requires { HasLiveInOrder f.now }
    ensures { Recounts K.cmp (rows_of_face f.now) (rows_of_face (unregistered id f.now))
        live.old live.new }
{
    if let Some(expr) = f.live().at(id) {
        live.remove(f.region(), expr);
    }
}

// A token of the id is counted in place of the one that was there, if any.
fn recount<K: Key>(
    alloc: Global,
    live: &mut LiveCounts<K>,
    f: &FaceState<K>,
    id: TokenId,
    expr: &K,
) -> Result<(), Memory>
    requires { HasLiveInOrder f.now }
    ensures { OnOk result (Recounts K.cmp (rows_of_face f.now)
        (rows_of_face (registered id expr.now f.now))
        live.old live.new) }
{
    uncount(live, f, id);
    live.add(alloc, f.region(), expr)
}

// No token of the face is counted any more.
fn uncount_all<K: Key>(live: &mut LiveCounts<K>, f: &FaceState<K>)
    ensures { Recounts K.cmp (rows_of_face f.now) [] live.old live.new }
{
    for (_, expr) in f.live().iter() {
        live.remove(f.region(), expr);
    }
}

// The face of the number declares a token.
fn register_in<K: Key>(
    alloc: Global,
    faces: &mut Faces<K>,
    live: &mut LiveCounts<K>,
    face: u32,
    id: TokenId,
    expr: &K,
) -> Result<(), Memory>
    requires { AllByRecursion HasLiveInOrder faces.old }
    ensures faces { OnOk result (faces.new
        ≡ map (λ f. if face == f.number then registered id expr.now f else f) faces.old) }
    ensures counts { OnOk result (Recounts K.cmp (flat_map rows_of_face faces.old)
        (flat_map rows_of_face faces.new) live.old live.new) }
{
    let Some(f) = faces.find(face) else {
        return Ok(());
    };
    recount(alloc, live, f, id, expr)?;
    faces.add(alloc, face, &Registers { id, expr })
}

// The face of the number undeclares a token.
fn unregister_in<K: Key>(faces: &mut Faces<K>, live: &mut LiveCounts<K>, face: u32, id: TokenId)
    requires { AllByRecursion HasLiveInOrder faces.old }
    ensures faces { faces.new
        ≡ map (λ f. if face == f.number then unregistered id f else f) faces.old }
    ensures counts { Recounts K.cmp (flat_map rows_of_face faces.old)
        (flat_map rows_of_face faces.new) live.old live.new }
{
    let Some(f) = faces.find(face) else {
        return;
    };
    uncount(live, f, id);
    faces.change(face, &Unregisters(id));
}

// The face of the number goes, with what it declares.
fn close_in<K: Key>(
    faces: &mut Faces<K>,
    live: &mut LiveCounts<K>,
    seekers: &mut Seekers<K>,
    face: u32,
)
    requires { AreSeekers K.cmp K.anchored seekers.old faces.old }
    ensures faces { faces.new ≡ filter (λ f. not (face == f.number)) faces.old }
    ensures counts { Recounts K.cmp (flat_map rows_of_face faces.old)
        (flat_map rows_of_face faces.new) live.old live.new }
    ensures seekers { AreSeekers K.cmp K.anchored seekers.new faces.new }
{
    let Some(f) = faces.find(face) else {
        return;
    };
    uncount_all(live, f);
    seekers.close(f);
    faces.remove(face);
}

#[tactic(auto, unfolding(zt_model::specs::Parts::with_face))]
impl<K: Key> GatewayState<K> {
    /// The face declares a token under an id.
    pub fn register(
        &mut self,
        alloc: Global,
        face: u32,
        id: TokenId,
        expr: &K,
    ) -> Result<(), Memory>
        ensures { OnOk result (self.new ≡ with_face face (registered id expr.now) self.old) }
    {
        match register_in(alloc, &mut self.faces, &mut self.live, face, id, expr) {
            Ok(()) => Ok(()),
            Err(error) => {
                empty(
                    alloc,
                    &mut self.faces,
                    &mut self.routed,
                    &mut self.live,
                    &mut self.seekers,
                );
                Err(error)
            }
        }
    }

    /// The token of the face's id is undeclared.
    pub fn unregister(&mut self, face: u32, id: TokenId)
        ensures { self.new ≡ with_face face (unregistered id) self.old }
    {
        unregister_in(&mut self.faces, &mut self.live, face, id);
    }

    /// The face goes.
    pub fn close(&mut self, face: u32)
        ensures { self.new ≡ without_face face self.old }
    {
        close_in(&mut self.faces, &mut self.live, &mut self.seekers, face);
    }
}
