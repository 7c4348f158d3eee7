// What printed messages change at the faces that they are printed for.
ghost use Rattle.std.specs.Prelude.{◌≡◌, ◌==◌, ◌&&◌, filter, map, not, OnOk};
ghost use Rattle.std.specs.List.{list_any};
ghost use Rattle.zt_protocol.specs.Interest.{is_current, is_future};
ghost use Rattle.zt_model.specs.Hearing.{asks_answered, heard, next_after, put_if, told_pair};
ghost use Rattle.zt_model.specs.Hearing.{untold, with_answer};
ghost use Rattle.zt_model.specs.Lists.{same, without_id};
ghost use Rattle.zt_check_faces.specs.Rising.{Rise, answered_once};

use crate::among::is_among;
use crate::face::ShownFace;
use crate::interest::{ShownAsk, ShownInterest, ShownPending};
use crate::rising::{RowsById, place_of};
use std::alloc::Global;
use zt_keys::{Key, Memory};
use zt_protocol::{InterestMode, InterestOptions, Message, copy_expression};

// The next id after one was sent.
fn next_after(id: u32, next: u64) -> u64
    ensures { result ≡ next_after id next }
{
    next.max(u64::from(id) + 1)
}

impl<K: Key> ShownAsk<K> {
    // It is answered an expression, which is there once.
    fn answer(&mut self, alloc: Global, expr: &K) -> Result<(), Memory>
        ensures { OnOk result (self.new ≡ answered_once K.cmp expr.now self.old) }
    {
        if !is_among(expr, self.answered()) {
            self.answered.push(expr.copy(alloc)?)?;
        }
        Ok(())
    }
}

// The ask of an id is answered an expression, among asks whose ids rise.
fn answer_row<K: Key>(
    alloc: Global,
    asks: &mut Vec<(u32, ShownAsk<K>)>,
    id: u32,
    expr: &K,
) -> Result<(), Memory>
    requires { Rise asks.old.items }
    ensures answered { OnOk result
        (asks.new.items ≡ map (with_answer K.cmp id expr.now) asks.old.items) }
    ensures rise { Rise asks.new.items }
{
    if let Ok(place) = place_of(asks.as_slice(), id) {
        let ask = &mut asks[place];
        ask.1.answer(alloc, expr)?;
    }
    Ok(())
}

impl<K: Key> RowsById<ShownAsk<K>> {
    // The ask is answered an expression, where a message answers one.
    fn answer(&mut self, alloc: Global, id: Option<u32>, expr: &K) -> Result<(), Memory>
        ensures { OnOk result (self.new ≡ asks_answered K.cmp id expr.now self.old) }
    {
        match id {
            None => Ok(()),
            Some(id) => answer_row(alloc, &mut self.rows, id, expr),
        }
    }
}

// Puts an interest that was sent, where it asks for what comes later.
fn put_local<K: Key>(
    alloc: Global,
    locals: &mut RowsById<ShownInterest<K>>,
    id: u32,
    mode: InterestMode,
    options: InterestOptions,
    expr: &Option<K>,
) -> Result<(), Memory>
    ensures { OnOk result (locals.new
        ≡ put_if (is_future mode) id
        (record { mode = mode; options = options; expr = expr.now }) locals.old) }
{
    if mode.is_future() {
        let expr = copy_expression(expr, alloc)?;
        locals.put(id, ShownInterest::new(mode, options, expr))?;
    }
    Ok(())
}

// Puts a pending, where the interest that was sent asks for what is there now.
fn put_pending(
    pendings: &mut RowsById<ShownPending>,
    id: u32,
    mode: InterestMode,
    moment: u64,
) -> Result<(), Memory>
    ensures { OnOk result (pendings.new
        ≡ put_if (is_current mode) id (record { mode = mode; since = moment })
        pendings.old) }
{
    if mode.is_current() {
        pendings.put(id, ShownPending::new(mode, moment))?;
    }
    Ok(())
}

impl<K: Key> ShownFace<K> {
    // A declaration is printed for the face.
    fn hear_token(
        &mut self,
        alloc: Global,
        id: u32,
        expr: &K,
        interest: Option<u32>,
    ) -> Result<(), Memory>
        ensures { OnOk result (self.new ≡ record self.old {
          next = next_after id self.old.next;
          told = told_pair K.cmp id expr.now self.old.told;
          asks = asks_answered K.cmp interest expr.now self.old.asks;
        }) }
    {
        self.next = next_after(id, self.next);
        self.told.tell(alloc, id, expr)?;
        self.asks.answer(alloc, interest, expr)
    }

    // An interest is printed for the face.
    fn hear_interest(
        &mut self,
        alloc: Global,
        moment: u64,
        id: u32,
        mode: InterestMode,
        options: InterestOptions,
        expr: &Option<K>,
    ) -> Result<(), Memory>
        ensures { OnOk result (self.new ≡ record self.old {
          next = next_after id self.old.next;
          pendings = put_if (is_current mode) id
              (record { mode = mode; since = moment }) self.old.pendings;
          locals = put_if (is_future mode) id
              (record { mode = mode; options = options; expr = expr.now }) self.old.locals;
        }) }
    {
        self.next = next_after(id, self.next);
        put_pending(&mut self.pendings, id, mode, moment)?;
        put_local(alloc, &mut self.locals, id, mode, options, expr)
    }

    // The face is told that a token is gone.
    fn hear_gone(&mut self, id: u32, expr: &Option<K>)
        ensures { self.new ≡ record self.old { told = untold K.cmp id expr.now self.old.told } }
    {
        self.told.untell(id, expr);
    }

    // The asks of an id end.
    fn hear_final(&mut self, id: u32)
        ensures { self.new ≡ record self.old { asks = without_id id self.old.asks } }
    {
        self.asks.remove(id);
    }

    // An interest that the face was sent ends.
    fn hear_interest_final(&mut self, id: u32)
        ensures { self.new ≡ record self.old { locals = without_id id self.old.locals } }
    {
        self.locals.remove(id);
    }

    /// A message is printed for the face, at this moment.
    pub fn hear(&mut self, alloc: Global, moment: u64, message: &Message<K>) -> Result<(), Memory>
        ensures { OnOk result (self.new ≡ heard K.cmp moment message.now self.old) }
    {
        match message {
            Message::DeclareToken {
                id,
                expr,
                interest_id,
                node_id: _,
            } => self.hear_token(alloc, *id, expr, *interest_id)?,
            Message::UndeclareToken {
                id,
                expr,
                node_id: _,
            } => self.hear_gone(*id, expr),
            Message::DeclareFinal { interest_id } => self.hear_final(*interest_id),
            Message::Interest {
                id,
                mode,
                options,
                expr,
            } => self.hear_interest(alloc, moment, *id, *mode, *options, expr)?,
            Message::InterestFinal { id } => self.hear_interest_final(*id),
            Message::DeclareSubscriber { .. } | Message::DeclareQueryable { .. } => {}
        }
        Ok(())
    }
}
