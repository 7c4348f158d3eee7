// What a face declares and asks for.
ghost use Rattle.std.specs.Prelude.{◌≡◌, [], OnOk};
ghost use Rattle.zt_protocol.specs.Interest.{is_current, is_future};
ghost use Rattle.zt_model.specs.Hearing.{put_if};
ghost use Rattle.zt_model.specs.Routing.{asked_as};
ghost use Rattle.zt_model.specs.Telling.{registered};

use crate::face::{AskState, FaceState};
use crate::interest::RemoteInterest;
use std::alloc::Global;
use zt_keys::{Key, Memory};
use zt_protocol::{InterestId, TokenId};
use zt_rows::RowsById;

// Holds an interest that asks for what comes later.
fn put_held<K: Key>(
    alloc: Global,
    held: &mut RowsById<RemoteInterest<K>>,
    id: u32,
    interest: &RemoteInterest<K>,
) -> Result<(), Memory>
    ensures { OnOk result (held.new
        ≡ put_if (is_future interest.now.mode) id interest.now held.old) }
{
    if interest.mode().is_future() {
        held.put(id, interest.copy(alloc)?)?;
    }
    Ok(())
}

// Asks by an interest that asks for what is there now.
fn put_ask<K: Key>(
    alloc: Global,
    asks: &mut RowsById<AskState<K>>,
    id: u32,
    interest: &RemoteInterest<K>,
    pendings: &[(u32, u32)],
) -> Result<(), Memory>
    ensures { OnOk result (asks.new
        ≡ put_if (is_current interest.now.mode) id
        (record { interest = interest.now; pendings = pendings.now; answered = [] })
        asks.old) }
{
    if interest.mode().is_current() {
        let interest = interest.copy(alloc)?;
        let pendings = pendings.to_vec(alloc)?;
        asks.put(id, AskState::new(alloc, interest, pendings))?;
    }
    Ok(())
}

impl<K: Key> FaceState<K> {
    /// The face declares a token.
    pub fn register(&mut self, alloc: Global, id: TokenId, expr: &K) -> Result<(), Memory>
        ensures { OnOk result (self.new ≡ registered id expr.now self.old) }
    {
        self.rows.live.put(id, expr.copy(alloc)?)
    }

    /// Keeps an interest of the face: as held, if it asks for what comes later, and as an ask, if
    /// it asks for what is there now. `pendings` are the interests as which the ask was sent
    /// upstream, each a face and an id.
    pub fn ask(
        &mut self,
        alloc: Global,
        id: InterestId,
        interest: &RemoteInterest<K>,
        pendings: &[(u32, u32)],
    ) -> Result<(), Memory>
        ensures { OnOk result (self.new ≡ asked_as pendings.now id interest.now self.old) }
    {
        put_held(alloc, &mut self.rows.held, id, interest)?;
        put_ask(alloc, &mut self.rows.asks, id, interest, pendings)
    }
}
