// What a gateway keeps, and what it kept earlier, with the calls since.
ghost use Rattle.std.specs.Prelude.{◌≡◌, ◌++◌, ◌∷◌, [], IfOk, IfSome, OnErr, OnOk, map};
ghost use Rattle.zt_laws.specs.Sound.{opens_face, rows_after_call};
ghost use Rattle.zt_model.specs.Says.{said};
ghost use Rattle.zt_protocol.specs.Plain.{plain_call};
ghost use Rattle.zt_rollback.specs.After.{rows_after_calls};
ghost use Rattle.zt_rollback.specs.Kept.{kept_call};

use crate::boxed::{BoxedState, boxed_copy, exchange};
use crate::kept::{KeptCall, call_of, keep_call};
use std::alloc::Global;
use std::marker::Model;
use std::mem;
use zt_calls::carry_out;
use zt_keys::{Key, Memory};
use zt_protocol::{Call, Message, TreeTable};
use zt_rows::Iter;
use zt_state::{FaceState, GatewayState};

// How much calls may hold at least before all is copied.
const LEAST_HELD: usize = 64;

// How much calls may hold for each row. To copy a row costs about a quarter of a call, and at
// least two calls come before it is copied again, so a call costs at most an eighth more.
// Most calls are of tokens, and four such take 128 bytes, about what a token takes in the copy
// with what finds it.
const HELD_FOR_A_ROW: usize = 4;

/// What a gateway keeps, with the way back to it: what it kept earlier, and the calls that were
/// carried out since. A call is carried out on what the gateway keeps, in place. One that lacks
/// memory leaves that half changed: it is dropped, and rebuilt from what was kept earlier by the
/// calls since, before the next call. Calls may hold four times as much as the gateway has rows,
/// and 64 more: when they hold as much as the rows allowed that were counted last, these are
/// counted anew, and if the calls hold more than half of what they may then, all is copied, and
/// they are forgotten. Where memory lacks for that, they go on growing, and so does the way back.
pub struct RestorableState<K: Key> {
    // What the gateway kept earlier.
    earlier: GatewayState<K>,
    // The calls since.
    calls: Vec<KeptCall<K>>,
    // How much the calls hold.
    held: usize,
    // So much they may hold before rows are counted.
    most: usize,
    // What the gateway keeps, unless a call ran out of memory or isn't committed yet. Where there
    // is none and no call came since, it is what was kept earlier.
    current: Option<BoxedState<K>>,
}

// A drop of its own: the crates above prove one call, and not the drop of each field.
impl<K: Key> Drop for RestorableState<K> {
    fn drop(self) {
        let RestorableState {
            earlier: _,
            calls: _,
            held: _,
            most: _,
            current: _,
        } = self;
    }
}

impl<K: Key> Model for RestorableState<K> {
    ghost use Rattle.std.specs.Prelude.{◌≡◌, IfSome, map};
    ghost use Rattle.zt_model.specs.Rows.{Rows};
    ghost use Rattle.zt_rollback.specs.After.{rows_after_calls};
    ghost use Rattle.zt_rollback.specs.Kept.{kept_call};

    ghost Value = { Rows K };

    ghost view = { λ r.
        rows_after_calls K.cmp K.matching (map kept_call r.calls.items) r.earlier };

    ghost invariant = { λ r. IfSome r.current (λ now. now
        ≡ rows_after_calls K.cmp K.matching (map kept_call r.calls.items) r.earlier) };
}

/// What a gateway keeps after a call, and what the call says. It isn't committed: the gateway
/// itself is as before the call.
#[derive(Drop)]
pub struct Ahead<K: Key> {
    pub state: BoxedState<K>,
    pub said: Vec<(u32, Message<K>)>,
}

// Whether a call opens a face.
fn opens_face<K: Key>(call: &Call<K>) -> bool
    ensures { result ≡ opens_face (plain_call call.now) }
{
    matches!(call, Call::NewSession { .. } | Call::NewTransport { .. })
}

// Carries a call out in place, and answers what it says. Want of memory, and of a number for the
// face that it opens, leave the state in between.
fn carry_on<K: Key>(
    alloc: Global,
    state: &mut BoxedState<K>,
    call: &Call<K>,
) -> Result<Vec<(u32, Message<K>)>, Memory>
    ensures state { OnOk result (state.new
        ≡ rows_after_call K.cmp K.matching (plain_call call.now) state.old) }
    ensures said { IfOk result (λ sends. sends.items
        ≡ said K.cmp K.matching (plain_call call.now) state.old) }
{
    if opens_face(call) && state.inner.made() == u32::MAX {
        return Err(Memory);
    }
    carry_out(alloc, &mut *state.inner, call)
}

// A state after calls, one behind another. That a face has no number counts as out of memory.
fn after_calls<K: Key>(
    alloc: Global,
    earlier: &GatewayState<K>,
    calls: &[KeptCall<K>],
) -> Result<BoxedState<K>, Memory>
    ensures { IfOk result (λ state. state
        ≡ rows_after_calls K.cmp K.matching (map kept_call calls.now) earlier.now) }
{
    let mut state = boxed_copy(alloc, earlier)?;
    for kept in calls {
        let call = call_of(alloc, kept)?;
        let _ = carry_on(alloc, &mut state, &call)?;
    }
    Ok(state)
}

// How many entries a table has.
fn entries_in(table: &TreeTable) -> usize {
    let lists = table.routers.len().saturating_add(table.links.len());
    lists.saturating_add(table.children.len())
}

// How much a call holds, in rows.
fn held_by<K: Key>(call: &Call<K>) -> usize {
    match call {
        Call::SetTrees { table, .. } => entries_in(table).saturating_add(1),
        Call::SetEntities {
            subscribers,
            queryables,
            ..
        } => subscribers
            .len()
            .saturating_add(queryables.len())
            .saturating_add(1),
        _ => 1,
    }
}

// How much asks keep: each itself, what it was sent as, and what it was answered.
fn held_by_asks<K: Key>(f: &FaceState<K>) -> usize {
    let mut held = 0usize;
    for (_, ask) in f.asks().iter() {
        let own = ask.pendings().len().saturating_add(ask.answered().len());
        held = held.saturating_add(own).saturating_add(1);
    }
    held
}

// How many rows there are.
fn how_many<X>(rows: Iter<'_, X>) -> usize {
    let mut count = 0usize;
    for _ in rows {
        count = count.saturating_add(1);
    }
    count
}

// How many rows a face keeps, with the places of tokens that are gone, and one for itself.
fn rows_at<K: Key>(f: &FaceState<K>) -> usize {
    let counts = [
        how_many(f.live().iter()),
        f.told().places().len(),
        how_many(f.held().iter()),
        how_many(f.locals().iter()),
        how_many(f.pendings().iter()),
        held_by_asks(f),
        f.subscribers().len(),
        f.queryables().len(),
    ];
    counts
        .iter()
        .fold(1usize, |sum, more| sum.saturating_add(*more))
}

// How many rows a gateway keeps: how much is copied with it.
fn rows_in<K: Key>(state: &GatewayState<K>) -> usize {
    let mut rows = state.dictionary().len();
    for f in state.faces() {
        rows = rows.saturating_add(rows_at(f));
    }
    for (_, table) in state.trees() {
        rows = rows.saturating_add(entries_in(table.table()));
    }
    for (_, keys) in state.routed().by_origin() {
        rows = rows.saturating_add(keys.len());
    }
    rows
}

// How much calls may hold beside a state.
fn held_at_most<K: Key>(state: &GatewayState<K>) -> usize {
    LEAST_HELD.saturating_add(rows_in(state).saturating_mul(HELD_FOR_A_ROW))
}

// A call that is kept, behind others. After an error the others stay.
fn push_kept<K: Key>(calls: &mut Vec<KeptCall<K>>, kept: KeptCall<K>) -> Result<(), Memory>
    ensures ok { OnOk result (map kept_call calls.new.items
        ≡ map kept_call calls.old.items ++ kept_call kept ∷ []) }
    ensures err { OnErr result (calls.new.items ≡ calls.old.items) }
{
    calls.push(kept)?;
    Ok(())
}

// A call behind others. After an error the others stay.
fn push_call<K: Key>(
    alloc: Global,
    calls: &mut Vec<KeptCall<K>>,
    call: &Call<K>,
) -> Result<(), Memory>
    ensures ok { OnOk result (map kept_call calls.new.items
        ≡ map kept_call calls.old.items ++ plain_call call.now ∷ []) }
    ensures err { OnErr result (calls.new.items ≡ calls.old.items) }
{
    let kept = keep_call(alloc, call)?;
    push_kept(calls, kept)
}

// Equal calls.
fn copy_calls<K: Key>(alloc: Global, calls: &[KeptCall<K>]) -> Result<Vec<KeptCall<K>>, Memory>
    ensures { IfOk result (λ copies. map kept_call copies.items ≡ map kept_call calls.now) }
{
    let mut copies = Vec::new(alloc);
    for kept in calls {
        copies.push(keep_call(alloc, &call_of(alloc, kept)?)?)?;
    }
    Ok(copies)
}

/// What a gateway was before a call: what it kept earlier, the calls since, and the call itself.
#[derive(Drop)]
pub struct Former<K: Key> {
    earlier: BoxedState<K>,
    calls: Vec<KeptCall<K>>,
    held: usize,
    most: usize,
    call: KeptCall<K>,
    // How much the call holds.
    more: usize,
}

impl<K: Key> Model for Former<K> {
    ghost use Rattle.std.specs.Prelude.{map};
    ghost use Rattle.zt_rollback.specs.After.{Before, rows_after_calls};
    ghost use Rattle.zt_rollback.specs.Kept.{kept_call};

    ghost Value = { Before K };

    ghost view = { λ f. record {
      rows = rows_after_calls K.cmp K.matching (map kept_call f.calls.items) f.earlier;
      call = kept_call f.call;
    } };
}

/// What a gateway was before a call, and what the call says.
#[derive(Drop)]
pub struct Turn<K: Key> {
    pub former: Former<K>,
    pub said: Vec<(u32, Message<K>)>,
}

impl<K: Key> RestorableState<K> {
    /// A state that no call came to yet.
    pub fn new(alloc: Global, state: GatewayState<K>) -> Self
        ensures { result ≡ state }
    {
        RestorableState {
            earlier: state,
            calls: Vec::new(alloc),
            held: 0,
            most: LEAST_HELD,
            current: None,
        }
    }

    /// What the gateway keeps; `None` after a call that ran out of memory, or isn't committed yet,
    /// until it is restored.
    pub fn state(&self) -> Option<&GatewayState<K>>
        ensures { IfSome result (λ state. state.now ≡ self.now) }
    {
        match &self.current {
            Some(current) => Some(&*current.inner),
            None if self.calls.is_empty() => Some(&self.earlier),
            None => None,
        }
    }

    /// What the gateway keeps, made anew: a copy of what it kept earlier, and the calls since.
    pub fn restored(&self, alloc: Global) -> Result<BoxedState<K>, Memory>
        ensures { IfOk result (λ state. state ≡ self.now) }
    {
        after_calls(alloc, &self.earlier, &self.calls)
    }

    /// What the gateway keeps is there again.
    pub fn restore(&mut self, alloc: Global) -> Result<(), Memory>
        ensures { self.new ≡ self.old }
    {
        if self.current.is_none() {
            self.current = Some(self.restored(alloc)?);
        }
        Ok(())
    }

    // Copies all, where the calls hold too much for the rows that there are, and forgets them.
    // Where rows are so many more by now that the calls hold no more than half of what they may,
    // they stay, and so they do where memory lacks for the copy: no call fails for that.
    fn save(&mut self, alloc: Global)
        ensures { self.new ≡ self.old }
    {
        if self.held < self.most {
            return;
        }
        let Some(current) = &self.current else {
            return;
        };
        self.most = held_at_most(&*current.inner);
        if self.held <= self.most / 2 {
            return;
        }
        match boxed_copy(alloc, &*current.inner) {
            Ok(mut copy) => {
                exchange(&mut self.earlier, &mut copy);
                self.calls.clear();
                self.held = 0;
            }
            Err(_) => self.most = self.most.saturating_add(self.held),
        }
    }

    /// Carries a call out on what the gateway keeps, which isn't committed: the gateway is as
    /// before the call. That there is no number for a face that the call opens counts as out of
    /// memory.
    pub fn prepare(&mut self, alloc: Global, call: &Call<K>) -> Result<Ahead<K>, Memory>
        ensures state { IfOk result (λ ahead. ahead.state
            ≡ rows_after_call K.cmp K.matching (plain_call call.now) self.old) }
        ensures said { IfOk result (λ ahead. ahead.said.items
            ≡ said K.cmp K.matching (plain_call call.now) self.old) }
        ensures same { self.new ≡ self.old }
    {
        self.restore(alloc)?;
        self.save(alloc);
        let Some(mut state) = self.current.take() else {
            return Err(Memory);
        };
        let said = carry_on(alloc, &mut state, call)?;
        Ok(Ahead { state, said })
    }

    /// Replaces what the gateway keeps. The next call copies it.
    pub fn put(&mut self, mut state: BoxedState<K>)
        ensures { self.new ≡ state }
    {
        exchange(&mut self.earlier, &mut state);
        self.calls.clear();
        self.held = 0;
        self.most = LEAST_HELD;
        self.current = None;
    }

    /// The gateway keeps what a call that was prepared leaves. Where memory lacks for what brings
    /// it back, the next call copies it.
    pub fn commit(&mut self, alloc: Global, state: BoxedState<K>, call: &Call<K>)
        requires { state ≡ rows_after_call K.cmp K.matching (plain_call call.now) self.old }
        ensures { self.new ≡ state }
    {
        match push_call(alloc, &mut self.calls, call) {
            Ok(()) => {
                self.held = self.held.saturating_add(held_by(call));
                self.current = Some(state);
            }
            Err(_) => self.put(state),
        }
    }

    /// Carries a call out for a line that may fail yet, and answers what the gateway was before: by
    /// that the call is undone, or settled. After an error the gateway is as before.
    pub fn turn(&mut self, alloc: Global, call: &Call<K>) -> Result<Turn<K>, Memory>
        ensures state { OnOk result (self.new
            ≡ rows_after_call K.cmp K.matching (plain_call call.now) self.old) }
        ensures former { IfOk result (λ turn. turn.former.rows ≡ self.old) }
        ensures call { IfOk result (λ turn. turn.former.call ≡ plain_call call.now) }
        ensures said { IfOk result (λ turn. turn.said.items
            ≡ said K.cmp K.matching (plain_call call.now) self.old) }
        ensures err { OnErr result (self.new ≡ self.old) }
    {
        let kept = keep_call(alloc, call)?;
        let Ahead { mut state, said } = self.prepare(alloc, call)?;
        self.current = None;
        exchange(&mut self.earlier, &mut state);
        let former = Former {
            earlier: state,
            calls: mem::replace(&mut self.calls, Vec::new(alloc)),
            held: mem::replace(&mut self.held, 0),
            most: mem::replace(&mut self.most, LEAST_HELD),
            call: kept,
            more: held_by(call),
        };
        Ok(Turn { former, said })
    }

    /// The gateway is again what it was before a call, and what it keeps is rebuilt before the next
    /// one.
    pub fn undo(&mut self, former: Former<K>)
        ensures { self.new ≡ former.rows }
    {
        let mut earlier = former.earlier;
        exchange(&mut self.earlier, &mut earlier);
        self.calls = former.calls;
        self.held = former.held;
        self.most = former.most;
        self.current = None;
    }

    /// A call that was carried out by `turn` stays, behind those before it. Where another came
    /// since, or memory lacks for what brings it back, the next call copies the gateway.
    pub fn settle(&mut self, former: Former<K>)
        requires { self.old
            ≡ rows_after_call K.cmp K.matching former.call former.rows }
        ensures { self.new ≡ self.old }
    {
        if !self.calls.is_empty() {
            return;
        }
        let Former {
            mut earlier,
            mut calls,
            held,
            most,
            call,
            more,
        } = former;
        match push_kept(&mut calls, call) {
            Ok(()) => {
                exchange(&mut self.earlier, &mut earlier);
                self.calls = calls;
                self.held = held.saturating_add(more);
                self.most = most;
                self.current = Some(earlier);
            }
            Err(_) => {}
        }
    }

    /// An equal state.
    pub fn copy(&self, alloc: Global) -> Result<Self, Memory>
        ensures { IfOk result (λ copy. copy ≡ self.now) }
    {
        let mut copy = RestorableState {
            earlier: self.earlier.copy(alloc)?,
            calls: copy_calls(alloc, &self.calls)?,
            held: self.held,
            most: self.most,
            current: None,
        };
        copy.restore(alloc)?;
        Ok(copy)
    }
}
