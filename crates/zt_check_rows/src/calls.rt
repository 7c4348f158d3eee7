// What accepted calls change.
ghost use Rattle.std.specs.Prelude.{◌≡◌, map, IfOk, OnOk};
ghost use Rattle.std.specs.Option.{option_copied};
ghost use Rattle.zt_protocol.specs.Plain.{plain_call};
ghost use Rattle.zt_model.specs.Entities.{with_entities};
ghost use Rattle.zt_model.specs.Lists.{at_id};
ghost use Rattle.zt_model.specs.Parts.{with_face};
ghost use Rattle.zt_model.specs.Shown.{by_face, counts_as_declared, interest_kept};
ghost use Rattle.zt_model.specs.Shown.{options_that_count, rows_shown, with_declared};
ghost use Rattle.zt_model.specs.Shown.{with_initial_final, with_interest, with_token};
ghost use Rattle.zt_model.specs.Shown.{without_declared, without_expired, without_held};
ghost use Rattle.zt_model.specs.Shown.{without_pending, without_token};

use crate::numbers::{add_interest_number, add_numbers, add_queryable_numbers};
use crate::rows::ShownRows;
use bitflags::Flags;
use std::alloc::Global;
use zt_check_faces::{
    EndInitial, EndPending, ExpirePendings, SetEntities, ShownFace, ShownInterest, ShownPending,
};
use zt_keys::{Key, Memory};
use zt_protocol::{Call, InterestMode, InterestOptions, QueryableInfo, copy_expression};
use zt_region::{NodeId, WhatAmI};

// The options of an interest that count, by the mode of who asks.
fn options_that_count(mode: WhatAmI, options: InterestOptions) -> InterestOptions
    ensures { result ≡ options_that_count mode options }
{
    if mode == WhatAmI::Peer || options.contains(InterestOptions::TOKENS) {
        options.difference(InterestOptions::AGGREGATE)
    } else {
        options
    }
}

/// An interest of a face, with the options that count.
pub(crate) fn interest_kept<K: Key>(
    alloc: Global,
    face: &ShownFace<K>,
    mode: InterestMode,
    options: InterestOptions,
    expr: &Option<K>,
) -> Result<ShownInterest<K>, Memory>
    ensures { IfOk result (λ kept. kept ≡ interest_kept face.now mode options expr.now) }
{
    let expr = copy_expression(expr, alloc)?;
    Ok(ShownInterest::new(mode, options_that_count(face.mode(), options), expr))
}

// The pending of an id.
fn pending_at(pendings: &[(u32, ShownPending)], id: u32) -> Option<&ShownPending>
    ensures { option_copied result ≡ at_id id pendings.now }
{
    for row in pendings {
        if id == row.0 {
            return Some(&row.1);
        }
    }
    None
}

// Whether a declaration counts as one of a token of its face, by the interest that it names.
fn counts_as_declared<K: Key>(face: &ShownFace<K>, interest: Option<u32>) -> bool
    ensures { result ≡ counts_as_declared face.now interest }
{
    let Some(id) = interest else {
        return true;
    };
    match pending_at(face.pendings(), id) {
        None => true,
        Some(pending) => pending.mode().is_future(),
    }
}

impl<K: Key> ShownRows<K> {
    /// The pendings that have waited for the timeout go.
    pub fn expire(&mut self, alloc: Global, now: u64) -> Result<(), Memory>
        ensures { OnOk result (self.new ≡ record self.old {
          moment = now;
          faces = map (without_expired now self.old.timeout) self.old.faces;
        }) }
    {
        let timeout = self.timeout;
        self.faces
            .change_each(alloc, &ExpirePendings { now, timeout })?;
        self.moment = now;
        Ok(())
    }

    /// A face declares a token under an id.
    #[tactic(auto, unfolding(zt_model::specs::Parts::with_face))]
    pub fn add_token(&mut self, alloc: Global, face: u32, id: u32, expr: &K) -> Result<(), Memory>
        ensures { OnOk result (self.new ≡ with_face face (with_token id expr.now) self.old) }
    {
        self.faces.add_token(alloc, face, id, expr)
    }

    /// The token of an id goes.
    #[tactic(auto, unfolding(zt_model::specs::Parts::with_face))]
    pub fn drop_token(&mut self, alloc: Global, face: u32, id: u32) -> Result<(), Memory>
        ensures { OnOk result (self.new ≡ with_face face (without_token id) self.old) }
    {
        self.faces.drop_token(alloc, face, id)
    }

    /// A face holds the interest of an id no more.
    #[tactic(auto, unfolding(zt_model::specs::Parts::with_face))]
    pub fn unhold(&mut self, alloc: Global, face: u32, id: u32) -> Result<(), Memory>
        ensures { OnOk result (self.new ≡ with_face face (without_held id) self.old) }
    {
        self.faces.drop_interest(alloc, face, id)
    }

    /// What was asked of a face by an id has its final.
    #[tactic(auto, unfolding(zt_model::specs::Parts::with_face))]
    pub fn finish(&mut self, alloc: Global, face: u32, id: u32) -> Result<(), Memory>
        ensures { OnOk result (self.new
            ≡ with_face face (without_pending id) (with_face face (with_initial_final id) self.old)) }
    {
        self.faces.change(alloc, face, &EndInitial { face, id })?;
        self.faces.change(alloc, face, &EndPending { face, id })
    }

    /// A face asks and holds an interest, which was sent upstream as these.
    #[tactic(auto, unfolding(zt_model::specs::Parts::with_face))]
    pub fn add_interest(
        &mut self,
        alloc: Global,
        face: u32,
        id: u32,
        pendings: &[(u32, u32)],
        interest: &ShownInterest<K>,
    ) -> Result<(), Memory>
        ensures { OnOk result (self.new
            ≡ with_interest K.cmp face id pendings.now interest.now self.old) }
    {
        add_interest_number(alloc, &mut self.dictionary, interest)?;
        self.faces.add_interest(alloc, face, id, pendings, interest)
    }

    /// The subscribers and queryables of a face are these.
    #[tactic(auto, unfolding(zt_model::specs::Parts::with_face), using(crate::proofs::Counted::number_both))]
    pub fn set_entities(
        &mut self,
        alloc: Global,
        face: u32,
        subscribers: &[K],
        queryables: &[(K, QueryableInfo)],
    ) -> Result<(), Memory>
        ensures { OnOk result (self.new
            ≡ with_entities K.cmp face subscribers.now queryables.now self.old) }
    {
        add_numbers(alloc, &mut self.dictionary, subscribers)?;
        add_queryable_numbers(alloc, &mut self.dictionary, queryables)?;
        let entities = SetEntities {
            face,
            subscribers,
            queryables,
        };
        self.faces.change(alloc, face, &entities)
    }

    /// A face declares a token.
    pub fn declare(
        &mut self,
        alloc: Global,
        face: u32,
        id: u32,
        expr: &K,
        node: NodeId,
        interest: Option<u32>,
    ) -> Result<(), Memory>
        ensures { OnOk result (self.new ≡ by_face K.cmp face self.old
            (with_declared K.cmp face id expr.now node interest self.old)) }
    {
        let Some(found) = self.face(face) else {
            return Ok(());
        };
        if self.is_routed(found) {
            let Some(source) = self.router_meant(found, node) else {
                return Ok(());
            };
            let region = found.region();
            return self.add_source(alloc, region, source, expr);
        }
        if counts_as_declared(found, interest) {
            return self.add_token(alloc, face, id, expr);
        }
        Ok(())
    }

    /// A face undeclares a token.
    pub fn undeclare(
        &mut self,
        alloc: Global,
        face: u32,
        id: u32,
        expr: &Option<K>,
        node: NodeId,
    ) -> Result<(), Memory>
        ensures { OnOk result (self.new ≡ by_face K.cmp face self.old
            (without_declared K.cmp face id expr.now node self.old)) }
    {
        let Some(found) = self.face(face) else {
            return Ok(());
        };
        if !self.is_routed(found) {
            return self.drop_token(alloc, face, id);
        }
        let Some(source) = self.router_meant(found, node) else {
            return Ok(());
        };
        let region = found.region();
        match expr {
            None => Ok(()),
            Some(expr) => self.drop_source(alloc, region, source, expr),
        }
    }

    /// A face asks and holds an interest, which was sent upstream as these.
    pub fn interest(
        &mut self,
        alloc: Global,
        pendings: &[(u32, u32)],
        face: u32,
        id: u32,
        mode: InterestMode,
        options: InterestOptions,
        expr: &Option<K>,
    ) -> Result<(), Memory>
        ensures { OnOk result (self.new ≡ by_face K.cmp face self.old
            (λ f. with_interest K.cmp face id pendings.now
            (interest_kept f mode options expr.now) self.old)) }
    {
        let Some(found) = self.face(face) else {
            return Ok(());
        };
        let interest = interest_kept(alloc, found, mode, options, expr)?;
        self.add_interest(alloc, face, id, pendings, &interest)
    }

    /// What an accepted call changes. An ask was sent upstream as these pendings. That the numbers
    /// of faces are given out counts as out of memory.
    #[tactic(auto, unfolding(zt_model::specs::Shown::rows_shown))]
    pub fn apply(
        &mut self,
        alloc: Global,
        pendings: &[(u32, u32)],
        call: &Call<K>,
    ) -> Result<(), Memory>
        ensures { OnOk result (self.new
            ≡ rows_shown K.cmp pendings.now (plain_call call.now) self.old) }
    {
        match call {
            Call::NewSession { first } => self.open_session(alloc, *first),
            Call::NewTransport {
                zid,
                whatami,
                region,
                remote_bound,
                first,
            } => self.open_transport(alloc, *zid, *whatami, *region, *remote_bound, *first),
            Call::DeclareToken {
                face,
                id,
                expr,
                node_id,
                interest_id,
            } => self.declare(alloc, *face, *id, expr, *node_id, *interest_id),
            Call::UndeclareToken {
                face,
                id,
                expr,
                node_id,
            } => self.undeclare(alloc, *face, *id, expr, *node_id),
            Call::Interest {
                face,
                id,
                mode,
                options,
                expr,
            } => self.interest(alloc, pendings, *face, *id, *mode, *options, expr),
            Call::InterestFinal { face, id } => self.unhold(alloc, *face, *id),
            Call::DeclareFinal { face, interest_id } => self.finish(alloc, *face, *interest_id),
            Call::CloseFace { face } => {
                self.close(*face);
                Ok(())
            }
            Call::Expire { now } => self.expire(alloc, *now),
            Call::SetTrees { region, table } => self.set_trees(alloc, *region, table),
            Call::SetEntities {
                face,
                subscribers,
                queryables,
            } => self.set_entities(alloc, *face, subscribers, queryables),
        }
    }
}
