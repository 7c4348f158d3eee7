// An open face with its rows.
ghost use Rattle.std.specs.Prelude.{◌≡◌, ◌-◌, [], filter, nat_le, not, IfOk, OnOk};
ghost use Rattle.std.specs.List.{list_any};
ghost use Rattle.zt_model.specs.Lists.{same};
ghost use Rattle.zt_model.specs.Shown.{with_held, with_initial_final, with_question, with_token};
ghost use Rattle.zt_model.specs.Shown.{without_expired, without_held, without_pending};
ghost use Rattle.zt_model.specs.Shown.{without_token};
ghost use Rattle.zt_check_faces.specs.Parts.{HasThoseOf};

use crate::copies::{copy_each, copy_keys, copy_queryables};
use crate::interest::{ShownAsk, ShownInterest, ShownPending};
use crate::rising::RowsById;
use crate::told::ToldRows;
use std::alloc::Global;
use std::marker::Model;
use zt_keys::{Key, Memory};
use zt_protocol::QueryableInfo;
use zt_region::{Bound, Region, WhatAmI, Zid};

/// An open face, as a transcript shows it.
#[derive(Drop)]
pub struct ShownFace<K: Key> {
    pub(crate) number: u32,
    pub(crate) region: Region,
    pub(crate) bound: Bound,
    pub(crate) mode: WhatAmI,
    pub(crate) zid: Zid,
    // The next id may be one past the last.
    pub(crate) next: u64,
    pub(crate) live: RowsById<K>,
    pub(crate) told: ToldRows<K>,
    pub(crate) held: RowsById<ShownInterest<K>>,
    pub(crate) locals: RowsById<ShownInterest<K>>,
    pub(crate) pendings: RowsById<ShownPending>,
    pub(crate) asks: RowsById<ShownAsk<K>>,
    pub(crate) initial: Option<bool>,
    pub(crate) subscribers: Vec<K>,
    pub(crate) queryables: Vec<(K, QueryableInfo)>,
}

impl<K: Key> Model for ShownFace<K> {
    ghost use Rattle.zt_model.specs.Rows.{Face};

    ghost Value = { Face K };

    ghost view = { λ f. record {
      number = f.number;
      region = f.region;
      bound = f.bound;
      mode = f.mode;
      zid = f.zid;
      next = f.next;
      live = f.live;
      told = f.told;
      held = f.held;
      locals = f.locals;
      pendings = f.pendings;
      asks = f.asks;
      initial = f.initial;
      subscribers = f.subscribers.items;
      queryables = f.queryables.items;
    } };
}

// Whether a pending has waited for the timeout.
fn is_expired(pending: &ShownPending, now: u64, timeout: u64) -> bool
    ensures { result ≡ nat_le timeout (now - pending.now.since) }
{
    timeout <= now.saturating_sub(pending.since())
}

// The pendings go that have waited for the timeout.
fn drop_expired(pendings: &mut Vec<(u32, ShownPending)>, now: u64, timeout: u64)
    ensures { pendings.new.items
        ≡ filter (λ row. not (nat_le timeout (now - row.1.since))) pendings.old.items }
{
    pendings.retain(|row| !is_expired(&row.1, now, timeout));
}

impl RowsById<ShownPending> {
    // The pendings go that have waited for the timeout.
    fn expire(&mut self, now: u64, timeout: u64)
        ensures { self.new ≡ filter (λ row. not (nat_le timeout (now - row.1.since))) self.old }
    {
        drop_expired(&mut self.rows, now, timeout);
    }
}

impl<K: Key> ShownFace<K> {
    /// A new face, which has no rows yet.
    pub fn new(
        alloc: Global,
        number: u32,
        region: Region,
        bound: Bound,
        mode: WhatAmI,
        zid: Zid,
        first: u32,
        initial: Option<bool>,
    ) -> Self
        ensures { result ≡ record {
          number = number;
          region = region;
          bound = bound;
          mode = mode;
          zid = zid;
          next = first;
          live = [];
          told = [];
          held = [];
          locals = [];
          pendings = [];
          asks = [];
          initial = initial;
          subscribers = [];
          queryables = [];
        } }
    {
        ShownFace {
            number,
            region,
            bound,
            mode,
            zid,
            next: u64::from(first),
            live: RowsById::new(alloc),
            told: ToldRows::new(alloc),
            held: RowsById::new(alloc),
            locals: RowsById::new(alloc),
            pendings: RowsById::new(alloc),
            asks: RowsById::new(alloc),
            initial,
            subscribers: Vec::new(alloc),
            queryables: Vec::new(alloc),
        }
    }

    /// Its number at its gateway.
    pub fn number(&self) -> u32
        ensures { result ≡ self.now.number }
    {
        self.number
    }

    /// Its region.
    pub fn region(&self) -> Region
        ensures { result ≡ self.now.region }
    {
        self.region
    }

    /// Its remote's bound.
    pub fn bound(&self) -> Bound
        ensures { result ≡ self.now.bound }
    {
        self.bound
    }

    /// Its remote's mode.
    pub fn mode(&self) -> WhatAmI
        ensures { result ≡ self.now.mode }
    {
        self.mode
    }

    /// Its remote's zid.
    pub fn zid(&self) -> Zid
        ensures { result ≡ self.now.zid }
    {
        self.zid
    }

    /// The id that is drawn next, which may be one past the last.
    pub fn next(&self) -> u64
        ensures { result ≡ self.now.next }
    {
        self.next
    }

    /// The tokens that it declares, by their ids.
    pub fn live(&self) -> &[(u32, K)]
        ensures { result.now ≡ self.now.live }
    {
        self.live.rows()
    }

    /// The tokens that it was told and not told to be gone, each with its id.
    pub fn told(&self) -> &[(u32, K)]
        ensures { result.now ≡ self.now.told }
    {
        self.told.rows()
    }

    /// Whether it was told the expression, and not told it to be gone. A look-up.
    pub fn has_told(&self, expr: &K) -> bool
        ensures { result ≡ list_any (λ row. same K.cmp expr.now row.1) self.now.told }
    {
        self.told.has(expr)
    }

    /// The interests that it holds, by their ids.
    pub fn held(&self) -> &[(u32, ShownInterest<K>)]
        ensures { result.now ≡ self.now.held }
    {
        self.held.rows()
    }

    /// The interests that were sent to it and ask for what comes later, by their ids.
    pub fn locals(&self) -> &[(u32, ShownInterest<K>)]
        ensures { result.now ≡ self.now.locals }
    {
        self.locals.rows()
    }

    /// The unfinished interests that were sent to it, by their ids.
    pub fn pendings(&self) -> &[(u32, ShownPending)]
        ensures { result.now ≡ self.now.pendings }
    {
        self.pendings.rows()
    }

    /// Its questions whose finals weren't printed, by their ids.
    pub fn asks(&self) -> &[(u32, ShownAsk<K>)]
        ensures { result.now ≡ self.now.asks }
    {
        self.asks.rows()
    }

    /// The tokens that it declares under an id. A look-up: a part of the rows that has all of the
    /// id.
    pub fn live_of(&self, id: u32) -> &[(u32, K)]
        ensures { HasThoseOf (λ row. row.0) id result.now self.now.live }
    {
        self.live.of(id)
    }

    /// What it was told under an id: a part of the rows that has all of the id. A look-up, where
    /// ids rose as they came; else all rows.
    pub fn told_of(&self, id: u32) -> &[(u32, K)]
        ensures { HasThoseOf (λ row. row.0) id result.now self.now.told }
    {
        self.told.of(id)
    }

    /// The interests that it holds under an id. A look-up: a part of the rows that has all of the
    /// id.
    pub fn held_of(&self, id: u32) -> &[(u32, ShownInterest<K>)]
        ensures { HasThoseOf (λ row. row.0) id result.now self.now.held }
    {
        self.held.of(id)
    }

    /// The interests that were sent to it under an id and ask for what comes later. A look-up: a
    /// part of the rows that has all of the id.
    pub fn locals_of(&self, id: u32) -> &[(u32, ShownInterest<K>)]
        ensures { HasThoseOf (λ row. row.0) id result.now self.now.locals }
    {
        self.locals.of(id)
    }

    /// The unfinished interests that were sent to it under an id. A look-up: a part of the rows
    /// that has all of the id.
    pub fn pendings_of(&self, id: u32) -> &[(u32, ShownPending)]
        ensures { HasThoseOf (λ row. row.0) id result.now self.now.pendings }
    {
        self.pendings.of(id)
    }

    /// Its questions under an id. A look-up: a part of the rows that has all of the id.
    pub fn asks_of(&self, id: u32) -> &[(u32, ShownAsk<K>)]
        ensures { HasThoseOf (λ row. row.0) id result.now self.now.asks }
    {
        self.asks.of(id)
    }

    /// Of a mutual peer, whether its initial interest is finished.
    pub fn initial(&self) -> Option<bool>
        ensures { result ≡ self.now.initial }
    {
        self.initial
    }

    /// The face has the token under the id, and no other under that.
    pub(crate) fn add_token(&mut self, alloc: Global, id: u32, expr: &K) -> Result<(), Memory>
        ensures { OnOk result (self.new ≡ with_token id expr.now self.old) }
    {
        self.live.put(id, expr.copy(alloc)?)
    }

    /// The token of the id goes.
    pub(crate) fn drop_token(&mut self, id: u32)
        ensures { self.new ≡ without_token id self.old }
    {
        self.live.remove(id);
    }

    /// The face holds an interest that asks for what comes later.
    pub(crate) fn hold(
        &mut self,
        alloc: Global,
        id: u32,
        interest: &ShownInterest<K>,
    ) -> Result<(), Memory>
        ensures { OnOk result (self.new ≡ with_held id interest.now self.old) }
    {
        if interest.mode().is_future() {
            self.held.put(id, interest.copy(alloc)?)?;
        }
        Ok(())
    }

    /// The face holds the interest of the id no more.
    pub(crate) fn unhold(&mut self, id: u32)
        ensures { self.new ≡ without_held id self.old }
    {
        self.held.remove(id);
    }

    /// An interest that asks for what is there now is a question of the face.
    pub(crate) fn ask(
        &mut self,
        alloc: Global,
        pendings: &[(u32, u32)],
        id: u32,
        interest: &ShownInterest<K>,
    ) -> Result<(), Memory>
        ensures { OnOk result (self.new ≡ with_question pendings.now id interest.now self.old) }
    {
        if interest.mode().is_current() {
            let copy = interest.copy(alloc)?;
            let question = ShownAsk::new(alloc, copy, pendings.to_vec(alloc)?);
            self.asks.put(id, question)?;
        }
        Ok(())
    }

    /// What was asked of the face by the id has its final.
    pub(crate) fn end_pending(&mut self, id: u32)
        ensures { self.new ≡ without_pending id self.old }
    {
        self.pendings.remove(id);
    }

    /// A final with the id 0 is that of the initial interest, where the face has one.
    pub(crate) fn end_initial(&mut self, id: u32)
        ensures { self.new ≡ with_initial_final id self.old }
    {
        if id == 0 && self.initial.is_some() {
            self.initial = Some(true);
        }
    }

    /// The pendings go that have waited for the timeout.
    pub(crate) fn expire(&mut self, now: u64, timeout: u64)
        ensures { self.new ≡ without_expired now timeout self.old }
    {
        self.pendings.expire(now, timeout);
    }

    /// The face's subscribers and queryables are these.
    pub(crate) fn set_entities(
        &mut self,
        alloc: Global,
        subscribers: &[K],
        queryables: &[(K, QueryableInfo)],
    ) -> Result<(), Memory>
        ensures { OnOk result (self.new ≡ record self.old {
          subscribers = subscribers.now;
          queryables = queryables.now;
        }) }
    {
        self.subscribers = copy_keys(alloc, subscribers)?;
        self.queryables = copy_queryables(alloc, queryables)?;
        Ok(())
    }

    /// A face equal to this one.
    pub fn copy(&self, alloc: Global) -> Result<Self, Memory>
        ensures { IfOk result (λ copy. copy ≡ self.now) }
    {
        Ok(ShownFace {
            number: self.number,
            region: self.region,
            bound: self.bound,
            mode: self.mode,
            zid: self.zid,
            next: self.next,
            live: RowsById::from_rows(copy_each(alloc, self.live.rows())?),
            told: self.told.copy(alloc)?,
            held: RowsById::from_rows(copy_each(alloc, self.held.rows())?),
            locals: RowsById::from_rows(copy_each(alloc, self.locals.rows())?),
            pendings: RowsById::from_rows(copy_each(alloc, self.pendings.rows())?),
            asks: RowsById::from_rows(copy_each(alloc, self.asks.rows())?),
            initial: self.initial,
            subscribers: copy_keys(alloc, &self.subscribers)?,
            queryables: copy_queryables(alloc, &self.queryables)?,
        })
    }
}
