// An open face with its rows.
ghost use Rattle.std.specs.Prelude.{◌≡◌, [], IfOk};
ghost use Rattle.zt_model.specs.Lists.{is_among};
ghost use Rattle.zt_model.specs.Parts.{new_face};

use crate::interest::RemoteInterest;
use crate::local_interests::LocalInterests;
use crate::local_tokens::LocalTokens;
use indexmap::IndexSet;
use std::alloc::Global;
use std::marker::Model;
use zt_keys::{Key, Memory};
use zt_protocol::{InterestMode, QueryableInfo};
use zt_region::{Bound, Region, WhatAmI, Zid};
use zt_rows::RowsById;

/// A current-mode interest that was sent upstream and isn't finished, with the gateway's moment
/// when it was sent: Zenoh's pending current interest.
#[derive(Drop)]
pub struct PendingInterest {
    mode: InterestMode,
    since: u64,
}

impl Model for PendingInterest {
    ghost use Rattle.zt_model.specs.Rows.{Pending};

    ghost Value = { Pending };

    ghost view = { λ p. record { mode = p.mode; since = p.since } };
}

impl PendingInterest {
    /// A pending of this mode, sent at this moment.
    pub fn new(mode: InterestMode, since: u64) -> Self
        ensures { result ≡ record { mode = mode; since = since } }
    {
        PendingInterest { mode, since }
    }

    /// The interest's mode.
    pub fn mode(&self) -> InterestMode
        ensures { result ≡ self.now.mode }
    {
        self.mode
    }

    /// The gateway's moment when it was sent.
    pub fn since(&self) -> u64
        ensures { result ≡ self.now.since }
    {
        self.since
    }
}

/// A current-mode interest whose final wasn't sent: the face and id of each interest that it sent
/// upstream, and the expressions that it was answered. One ask may be answered many, and each
/// answer asks whether its expression is among them: that is a look-up.
#[derive(Drop)]
pub struct AskState<K: Key> {
    pub(crate) interest: RemoteInterest<K>,
    pub(crate) pendings: Vec<(u32, u32)>,
    pub(crate) answered: IndexSet<K>,
}

impl<K: Key> Model for AskState<K> {
    ghost use Rattle.zt_model.specs.Rows.{Ask};

    ghost Value = { Ask K };

    ghost view = { λ a. record {
      interest = a.interest;
      pendings = a.pendings.items;
      answered = a.answered.keys;
    } };
}

impl<K: Key> AskState<K> {
    /// An ask that wasn't answered yet, which sent these interests upstream.
    pub fn new(alloc: Global, interest: RemoteInterest<K>, pendings: Vec<(u32, u32)>) -> Self
        ensures { result ≡ record {
          interest = interest;
          pendings = pendings.items;
          answered = [];
        } }
    {
        AskState {
            interest,
            pendings,
            answered: IndexSet::new(alloc),
        }
    }

    /// What was asked for.
    pub fn interest(&self) -> &RemoteInterest<K>
        ensures { result.now ≡ self.now.interest }
    {
        &self.interest
    }

    /// The interests that it sent upstream, each by face and id.
    pub fn pendings(&self) -> &[(u32, u32)]
        ensures { result.now ≡ self.now.pendings }
    {
        &self.pendings
    }

    /// The expressions that it was answered, in the order of the answers.
    pub fn answered(&self) -> &[K]
        ensures { result.now ≡ self.now.answered }
    {
        self.answered.as_slice()
    }

    /// Whether it was answered an expression. A look-up.
    pub fn was_answered(&self, expr: &K) -> bool
        ensures { result ≡ is_among K.cmp expr.now self.now.answered }
    {
        self.answered.contains(expr)
    }
}

/// What a face keeps beside its number and region.
#[derive(Drop)]
pub(crate) struct FaceRows<K: Key> {
    pub(crate) bound: Bound,
    pub(crate) mode: WhatAmI,
    pub(crate) zid: Zid,
    pub(crate) next: u32,
    pub(crate) live: RowsById<K>,
    pub(crate) told: LocalTokens<K>,
    pub(crate) held: RowsById<RemoteInterest<K>>,
    pub(crate) locals: LocalInterests<K>,
    pub(crate) pendings: RowsById<PendingInterest>,
    pub(crate) asks: RowsById<AskState<K>>,
    pub(crate) initial: Option<bool>,
    pub(crate) subscribers: Vec<K>,
    pub(crate) queryables: Vec<(K, QueryableInfo)>,
}

/// An open face with its rows, each kind in order of id. With Zenoh's words `live` are the remote
/// tokens, `told` the local tokens, `held` the remote interests and `locals` the local interests.
/// The rows stand in a box: faces stand side by side, and are moved where gaps between them are
/// closed.
#[derive(Drop)]
pub struct FaceState<K: Key> {
    pub(crate) number: u32,
    pub(crate) region: Region,
    pub(crate) rows: Box<FaceRows<K>>,
}

impl<K: Key> Model for FaceState<K> {
    ghost use Rattle.zt_model.specs.Rows.{Face};

    ghost Value = { Face K };

    ghost view = { λ f. record {
      number = f.number;
      region = f.region;
      bound = f.rows.value.bound;
      mode = f.rows.value.mode;
      zid = f.rows.value.zid;
      next = f.rows.value.next;
      live = f.rows.value.live;
      told = f.rows.value.told;
      held = f.rows.value.held;
      locals = f.rows.value.locals;
      pendings = f.rows.value.pendings;
      asks = f.rows.value.asks;
      initial = f.rows.value.initial;
      subscribers = f.rows.value.subscribers.items;
      queryables = f.rows.value.queryables.items;
    } };
}

impl<K: Key> FaceState<K> {
    /// A face without rows.
    pub fn new(
        alloc: Global,
        number: u32,
        region: Region,
        bound: Bound,
        mode: WhatAmI,
        zid: Zid,
        first: u32,
        initial: Option<bool>,
    ) -> Result<Self, Memory>
        ensures { IfOk result (λ face. face ≡ record
            (new_face number region bound mode zid first) { initial = initial }) }
    {
        let rows = FaceRows {
            bound,
            mode,
            zid,
            next: first,
            live: RowsById::new(alloc),
            told: LocalTokens::new(alloc),
            held: RowsById::new(alloc),
            locals: LocalInterests::new(alloc),
            pendings: RowsById::new(alloc),
            asks: RowsById::new(alloc),
            initial,
            subscribers: Vec::new(alloc),
            queryables: Vec::new(alloc),
        };
        let rows = Box::new(alloc, rows)?;
        Ok(FaceState {
            number,
            region,
            rows,
        })
    }

    /// The face's number at its gateway.
    pub fn number(&self) -> u32
        ensures { result ≡ self.now.number }
    {
        self.number
    }

    /// The region that the face belongs to.
    pub fn region(&self) -> Region
        ensures { result ≡ self.now.region }
    {
        self.region
    }

    /// The remote's bound.
    pub fn bound(&self) -> Bound
        ensures { result ≡ self.now.bound }
    {
        self.rows.bound
    }

    /// The remote's mode.
    pub fn mode(&self) -> WhatAmI
        ensures { result ≡ self.now.mode }
    {
        self.rows.mode
    }

    /// The remote's number.
    pub fn zid(&self) -> Zid
        ensures { result ≡ self.now.zid }
    {
        self.rows.zid
    }

    /// The id that is drawn next.
    pub fn next(&self) -> u32
        ensures { result ≡ self.now.next }
    {
        self.rows.next
    }

    /// The tokens that the face declares, each under its id.
    pub fn live(&self) -> &RowsById<K>
        ensures { result.now ≡ self.now.live }
    {
        &self.rows.live
    }

    /// The tokens that the face was told, each under its id.
    pub fn told(&self) -> &LocalTokens<K>
        ensures { result.now ≡ self.now.told }
    {
        &self.rows.told
    }

    /// The interests that the face holds, each under its id.
    pub fn held(&self) -> &RowsById<RemoteInterest<K>>
        ensures { result.now ≡ self.now.held }
    {
        &self.rows.held
    }

    /// The future-mode interests that the face was sent, each under its id.
    pub fn locals(&self) -> &LocalInterests<K>
        ensures { result.now ≡ self.now.locals }
    {
        &self.rows.locals
    }

    /// The current-mode interests that the face was sent and hasn't finished, each under its id.
    pub fn pendings(&self) -> &RowsById<PendingInterest>
        ensures { result.now ≡ self.now.pendings }
    {
        &self.rows.pendings
    }

    /// The face's own interests whose final wasn't sent, each under its id.
    pub fn asks(&self) -> &RowsById<AskState<K>>
        ensures { result.now ≡ self.now.asks }
    {
        &self.rows.asks
    }

    /// Whether the initial interest is finalised, for a mutual north peer.
    pub fn initial(&self) -> Option<bool>
        ensures { result ≡ self.now.initial }
    {
        self.rows.initial
    }

    /// The subscribers last handed in for the face.
    pub fn subscribers(&self) -> &[K]
        ensures { result.now ≡ self.now.subscribers }
    {
        &self.rows.subscribers
    }

    /// The queryables last handed in for the face.
    pub fn queryables(&self) -> &[(K, QueryableInfo)]
        ensures { result.now ≡ self.now.queryables }
    {
        &self.rows.queryables
    }
}
