// The pendings of an ask: the interests that its own entry prints.
ghost use Rattle.std.specs.Prelude.{◌≡◌, ◌∷◌, ◌++◌, [], IfOk, OnOk};
ghost use Rattle.std.specs.List.{list_any};
ghost use Rattle.std.specs.Option.{option_to_list};
ghost use Rattle.zt_protocol.specs.Plain.{plain_call};
ghost use Rattle.zt_model.specs.Transcript.{current_ids};
ghost use Rattle.zt_check_fabric.specs.Made.{is_current_interest, pendings_at, pendings_for};
ghost use Rattle.zt_check_fabric.specs.Made.{pendings_in, pendings_of};

use crate::fabric::ShownFabric;
use std::alloc::Global;
use zt_check_faces::ShownFace;
use zt_check_rows::ShownRows;
use zt_keys::{Key, Memory};
use zt_protocol::{Call, Message, Sent};
use zt_region::Region;

// The id of an interest in what is there now.
fn current_id<K: Key>(message: &Message<K>) -> Option<u32>
    ensures { option_to_list result ≡ current_ids (message.now ∷ []) }
{
    match message {
        Message::Interest { id, mode, .. } => { if mode.is_current() { Some(*id) } else { None } }
        Message::DeclareToken { .. }
        | Message::UndeclareToken { .. }
        | Message::DeclareFinal { .. }
        | Message::InterestFinal { .. }
        | Message::DeclareSubscriber { .. }
        | Message::DeclareQueryable { .. } => None,
    }
}

// Adds the id of an interest in what is there now that is printed for a face.
fn add_pending<K: Key>(
    pendings: &mut Vec<(u32, u32)>,
    face: u32,
    number: u64,
    sent: &Sent<K>,
) -> Result<(), Memory>
    ensures { OnOk result (pendings.new.items
        ≡ pendings.old.items ++ pendings_in face number (sent.now ∷ [])) }
{
    if number != u64::from(sent.face) {
        return Ok(());
    }
    let Some(id) = current_id(&sent.message) else {
        return Ok(());
    };
    pendings.push((face, id))?;
    Ok(())
}

// Adds the ids of the interests in what is there now that are printed for a face.
fn add_pendings<K: Key>(
    pendings: &mut Vec<(u32, u32)>,
    face: u32,
    number: u64,
    sents: &[Sent<K>],
) -> Result<(), Memory>
    ensures { OnOk result (pendings.new.items
        ≡ pendings.old.items ++ pendings_in face number sents.now) }
{
    for sent in sents {
        add_pending(pendings, face, number, sent)?;
    }
    Ok(())
}

// Whether a message is an interest in what is there now.
fn is_current_interest<K: Key>(message: &Message<K>) -> bool
    ensures { result ≡ is_current_interest message.now }
{
    match message {
        Message::Interest { mode, .. } => mode.is_current(),
        _ => false,
    }
}

// Whether one of these messages is.
fn has_current_interest<K: Key>(sents: &[Sent<K>]) -> bool
    ensures { result ≡ list_any (λ m. is_current_interest m.message) sents.now }
{
    for sent in sents {
        if is_current_interest(&sent.message) {
            return true;
        }
    }
    false
}

impl<'a, K: Key> ShownFabric<'a, K> {
    // Adds those that are printed for a face of a gateway, where it is to the north.
    fn add_for_face(
        &self,
        pendings: &mut Vec<(u32, u32)>,
        gateway: u32,
        face: &ShownFace<K>,
        sents: &[Sent<K>],
    ) -> Result<(), Memory>
        ensures { OnOk result (pendings.new.items
            ≡ pendings.old.items ++ pendings_for self.now sents.now gateway face.now) }
    {
        if face.region() == Region::North {
            let number = self.number_of_place(gateway, face.number());
            return add_pendings(pendings, face.number(), number, sents);
        }
        Ok(())
    }

    // The interests in what is there now that are printed for north-bound faces of a gateway, each
    // by face and id.
    fn pendings_at(
        &self,
        alloc: Global,
        gateway: u32,
        rows: &ShownRows<K>,
        sents: &[Sent<K>],
    ) -> Result<Vec<(u32, u32)>, Memory>
        ensures { IfOk result
            (λ pendings. pendings.items ≡ pendings_at self.now sents.now gateway rows.now) }
    {
        let mut pendings = Vec::new(alloc);
        if !has_current_interest(sents) {
            return Ok(pendings);
        }
        for face in rows.faces() {
            self.add_for_face(&mut pendings, gateway, face, sents)?;
        }
        Ok(pendings)
    }

    /// The pendings of a call's ask at the rows of a gateway, which are none where the call asks
    /// nothing.
    pub(crate) fn pendings_printed(
        &self,
        alloc: Global,
        gateway: u32,
        rows: &ShownRows<K>,
        call: &Call<K>,
        sents: &[Sent<K>],
    ) -> Result<Vec<(u32, u32)>, Memory>
        ensures { IfOk result (λ pendings. pendings.items
            ≡ pendings_of self.now sents.now gateway rows.now (plain_call call.now)) }
    {
        match call {
            Call::Interest { .. } => self.pendings_at(alloc, gateway, rows, sents),
            _ => Ok(Vec::new(alloc)),
        }
    }
}
