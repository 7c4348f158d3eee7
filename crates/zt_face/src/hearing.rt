// What a face hears: what a message changes at the face that it is sent to.
ghost use Rattle.std.specs.Prelude.{◌≡◌, map, IfOk, OnOk};
ghost use Rattle.zt_face.specs.Told.{answered_with, heard_known, untold_known};
ghost use Rattle.zt_model.specs.Hearing.{asks_answered, next_after, put_if, told_pair};
ghost use Rattle.zt_model.specs.Hearing.{with_answer};
ghost use Rattle.zt_model.specs.Lists.{without_id};
ghost use Rattle.zt_protocol.specs.Interest.{is_current, is_future};

use crate::face::{AskState, FaceState, PendingInterest};
use crate::interest::RemoteInterest;
use crate::local_interests::LocalInterests;
use std::alloc::Global;
use zt_keys::{Key, Memory};
use zt_protocol::{InterestMode, InterestOptions, Message, copy_expression};
use zt_rows::RowsById;

// The next id after one was sent. Ids that run out count as out of memory.
fn next_after(id: u32, next: u32) -> Result<u32, Memory>
    ensures { IfOk result (λ after. after ≡ next_after id next) }
{
    match id.checked_add(1) {
        Some(above) => Ok(next.max(above)),
        None => Err(Memory),
    }
}

// The ask of the id is answered an expression. After an error the ask may be gone.
fn answer_asks<K: Key>(
    alloc: Global,
    asks: &mut RowsById<AskState<K>>,
    id: u32,
    expr: &K,
) -> Result<(), Memory>
    ensures { OnOk result (asks.new ≡ map (with_answer K.cmp id expr.now) asks.old) }
{
    match asks.take(id) {
        None => Ok(()),
        Some(mut ask) => {
            ask.answer(alloc, expr)?;
            asks.put(id, ask)
        }
    }
}

// Asks are answered, where the message answers one.
fn answer_named<K: Key>(
    alloc: Global,
    asks: &mut RowsById<AskState<K>>,
    id: Option<u32>,
    expr: &K,
) -> Result<(), Memory>
    ensures { OnOk result (asks.new ≡ asks_answered K.cmp id expr.now asks.old) }
{
    match id {
        None => Ok(()),
        Some(id) => answer_asks(alloc, asks, id, expr),
    }
}

// Puts an interest that was sent, where it asks for what comes later.
fn put_future<K: Key>(
    alloc: Global,
    locals: &mut LocalInterests<K>,
    id: u32,
    mode: InterestMode,
    options: InterestOptions,
    expr: &Option<K>,
) -> Result<(), Memory>
    ensures { OnOk result (locals.new
        ≡ put_if (is_future mode) id
        (record { mode = mode; options = options; expr = expr.now }) locals.old) }
{
    if mode.is_future() {
        let expr = copy_expression(expr, alloc)?;
        locals.put(alloc, id, RemoteInterest::new(mode, options, expr))?;
    }
    Ok(())
}

// Puts a pending, where the interest that was sent asks for what is there now.
fn put_pending(
    rows: &mut RowsById<PendingInterest>,
    id: u32,
    mode: InterestMode,
    moment: u64,
) -> Result<(), Memory>
    ensures { OnOk result (rows.new
        ≡ put_if (is_current mode) id (record { mode = mode; since = moment }) rows.old) }
{
    if mode.is_current() {
        rows.put(id, PendingInterest::new(mode, moment))?;
    }
    Ok(())
}

impl<K: Key> AskState<K> {
    // An expression is answered, which is there once.
    fn answer(&mut self, alloc: Global, expr: &K) -> Result<(), Memory>
        ensures { OnOk result (self.new ≡ answered_with K.cmp expr.now self.old) }
    {
        self.answered.insert(expr.copy(alloc)?)?;
        Ok(())
    }
}

impl<K: Key> FaceState<K> {
    // A declaration is sent to the face. Ids that run out count as out of memory.
    fn hear_token(
        &mut self,
        alloc: Global,
        id: u32,
        expr: &K,
        interest: Option<u32>,
    ) -> Result<(), Memory>
        ensures { OnOk result (self.new ≡ record self.old {
          next = next_after id self.old.next;
          told = told_pair K.cmp id expr.now self.old.told;
          asks = asks_answered K.cmp interest expr.now self.old.asks;
        }) }
    {
        self.rows.next = next_after(id, self.rows.next)?;
        self.rows.told.tell(alloc, id, expr)?;
        answer_named(alloc, &mut self.rows.asks, interest, expr)
    }

    // An interest is sent to the face. Ids that run out count as out of memory.
    fn hear_interest(
        &mut self,
        alloc: Global,
        moment: u64,
        id: u32,
        mode: InterestMode,
        options: InterestOptions,
        expr: &Option<K>,
    ) -> Result<(), Memory>
        ensures { OnOk result (self.new ≡ record self.old {
          next = next_after id self.old.next;
          pendings = put_if (is_current mode) id
              (record { mode = mode; since = moment }) self.old.pendings;
          locals = put_if (is_future mode) id
              (record { mode = mode; options = options; expr = expr.now }) self.old.locals;
        }) }
    {
        self.rows.next = next_after(id, self.rows.next)?;
        put_pending(&mut self.rows.pendings, id, mode, moment)?;
        put_future(alloc, &mut self.rows.locals, id, mode, options, expr)
    }

    // The face is told that a token is gone.
    fn hear_gone(&mut self, id: u32, expr: &Option<K>, known: Option<u32>)
        ensures { self.new ≡ record self.old {
          told = untold_known id expr.now known self.old.told;
        } }
    {
        self.rows.told.untell(id, expr, known);
    }

    // The ask of the face ends.
    fn hear_final(&mut self, id: u32)
        ensures { self.new ≡ record self.old { asks = without_id id self.old.asks } }
    {
        self.rows.asks.remove(id);
    }

    // An interest that the face was sent ends.
    fn hear_interest_final(&mut self, id: u32)
        ensures { self.new ≡ record self.old { locals = without_id id self.old.locals } }
    {
        self.rows.locals.remove(id);
    }

    /// The face is sent a message, at this moment. Where this says that an expression is gone,
    /// `known` is the id under which the face was told it, if it was. Ids that run out count as out
    /// of memory.
    pub fn hear(
        &mut self,
        alloc: Global,
        moment: u64,
        message: &Message<K>,
        known: Option<u32>,
    ) -> Result<(), Memory>
        ensures { OnOk result (self.new ≡ heard_known K.cmp moment message.now known self.old) }
    {
        match message {
            Message::DeclareToken {
                id,
                expr,
                interest_id,
                node_id: _,
            } => self.hear_token(alloc, *id, expr, *interest_id),
            Message::UndeclareToken {
                id,
                expr,
                node_id: _,
            } => {
                self.hear_gone(*id, expr, known);
                Ok(())
            }
            Message::DeclareFinal { interest_id } => {
                self.hear_final(*interest_id);
                Ok(())
            }
            Message::Interest {
                id,
                mode,
                options,
                expr,
            } => self.hear_interest(alloc, moment, *id, *mode, *options, expr),
            Message::InterestFinal { id } => {
                self.hear_interest_final(*id);
                Ok(())
            }
            Message::DeclareSubscriber { .. } | Message::DeclareQueryable { .. } => Ok(()),
        }
    }
}
