// The numbers of expressions, and the entities of faces, whose expressions have one.
ghost use Rattle.std.specs.Prelude.{◌≡◌, map, OnOk};
ghost use Rattle.zt_model.specs.Entities.{entity_expressions, numbered_with, with_entities};
ghost use Rattle.zt_model.specs.Entities.{with_numbers};
ghost use Rattle.zt_model.specs.Parts.{with_face};

use crate::changes::QuietAddition;
use crate::gateway::GatewayState;
use std::alloc::Global;
use zt_face::FaceState;
use zt_faces::FaceAddition;
use zt_keys::{Key, Memory};
use zt_lookups::Dictionary;
use zt_protocol::QueryableInfo;

// The expressions of queryables get numbers, in this order.
#[tactic(auto, unfolding(zt_model::specs::Entities::numbered_with))]
fn number_queryables<K: Key>(
    alloc: Global,
    known: &mut Dictionary<K>,
    queryables: &[(K, QueryableInfo)],
) -> Result<(), Memory>
    ensures { OnOk result (known.new
        ≡ numbered_with K.cmp (map (λ q. q.0) queryables.now) known.old) }
{
    for queryable in queryables {
        known.number(alloc, &queryable.0)?;
    }
    Ok(())
}

// The expressions of a face's entities get numbers.
#[tactic(auto, using(crate::proofs::Numbered::numbered_with_both))]
fn number_entities<K: Key>(
    alloc: Global,
    known: &mut Dictionary<K>,
    subscribers: &[K],
    queryables: &[(K, QueryableInfo)],
) -> Result<(), Memory>
    ensures { OnOk result (known.new
        ≡ numbered_with K.cmp (entity_expressions K.cmp subscribers.now queryables.now)
        known.old) }
{
    known.number_all(alloc, subscribers)?;
    number_queryables(alloc, known, queryables)
}

// The entities that a face is to have.
#[derive(Drop)]
struct SetsEntities<'a, K: Key> {
    subscribers: &'a [K],
    queryables: &'a [(K, QueryableInfo)],
}

impl<'a, K: Key> FaceAddition<K> for SetsEntities<'a, K> {
    ghost use Rattle.std.specs.Prelude.{None, refl};

    ghost added = { λ c f.
        record f { subscribers = c.subscribers.now; queryables = c.queryables.now } };

    ghost awaited = { λ _. None };

    ghost keeps_number = { λ _ _. refl };

    ghost keeps_router = { λ _ _. record { region = refl; zid = refl } };

    ghost keeps_asks = { λ _ _ _ known. known };

    ghost awaits_only = { λ _ _ _ _ waits. waits };

    fn awaits(&self) -> Option<(u64, u32)> {
        None
    }

    fn add(&self, alloc: Global, f: &mut FaceState<K>) -> Result<(), Memory> {
        f.set_entities(alloc, self.subscribers, self.queryables)
    }
}

impl<'a, K: Key> QuietAddition<K> for SetsEntities<'a, K> {
    ghost use Rattle.std.specs.Prelude.{refl};

    ghost keeps_live = { λ _ _.
        record { number = refl; region = refl; live = refl; held = refl; told = refl } };
}

impl<K: Key> GatewayState<K> {
    /// Expressions get numbers, in this order, that have none yet.
    pub fn give_numbers(&mut self, alloc: Global, exprs: &[K]) -> Result<(), Memory>
        ensures { OnOk result (self.new ≡ with_numbers K.cmp exprs.now self.old) }
    {
        self.dictionary.number_all(alloc, exprs)
    }

    /// The face's subscribers and queryables are replaced, and their expressions get numbers.
    #[tactic(auto, unfolding(zt_model::specs::Parts::with_face))]
    pub fn set_entities(
        &mut self,
        alloc: Global,
        face: u32,
        subscribers: &[K],
        queryables: &[(K, QueryableInfo)],
    ) -> Result<(), Memory>
        ensures { OnOk result (self.new
            ≡ with_entities K.cmp face subscribers.now queryables.now self.old) }
    {
        number_entities(alloc, &mut self.dictionary, subscribers, queryables)?;
        let sets = SetsEntities {
            subscribers,
            queryables,
        };
        self.add_to_face(alloc, face, &sets)
    }
}
