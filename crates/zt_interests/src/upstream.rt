// An interest ends upstream, and the end of what was sent upstream ends asks.
ghost use Rattle.std.specs.Prelude.{◌≡◌, ℕ, ◌&&◌, ◌++◌, ◌==◌, IfOk, OnOk, map, not, true};
ghost use Rattle.std.specs.List.{list_any};
ghost use Rattle.zt_faces.specs.Asked.{IsAskerOf};
ghost use Rattle.zt_faces.specs.Rising.{IsRising};
ghost use Rattle.zt_faces.specs.declared.asked.Asker.TheVariants.{One};
ghost use Rattle.zt_interests.specs.Chosen.{all_chosen, chosen};
ghost use Rattle.zt_interests.specs.Held.{holds_south_as, is_held_as};
ghost use Rattle.zt_model.specs.Routing.{asks_same, end_upstream, finish, finish_to};
ghost use Rattle.zt_model.specs.Routing.{is_finished_by, is_held_south, stands};
ghost use Rattle.zt_model.specs.Rows.{Ask};
ghost use Rattle.zt_model.specs.Telling.{was_sent_as};
ghost use Rattle.zt_region.specs.Region.{is_north};
ghost use Rattle.zt_protocol.specs.Interest.{has_tokens};
ghost use Rattle.zt_protocol.specs.declared.messages.Message.TheVariants as message;

use crate::ordering::expression_order;
use crate::routing::is_north;
use bitflags::Flags;
use std::alloc::Global;
use zt_keys::{Key, Memory};
use zt_protocol::{InterestId, InterestOptions, Message};
use zt_state::{AskState, Asker, FaceState, GatewayState, RemoteInterest};
use zt_tokens::{FaceRule, find_face, say_at};

// Whether the face holds such an interest under the id.
fn holds_as<K: Key>(f: &FaceState<K>, id: InterestId, interest: &RemoteInterest<K>) -> bool
    ensures { result ≡ list_any (λ row. id == row.0
        && asks_same K.cmp K.matching interest.now row.1) f.now.held }
{
    match f.held().at(id) {
        None => false,
        Some(held) => interest.asks_same(held),
    }
}

// Whether the face, to the south, holds such an interest under the id.
fn holds_south_as<K: Key>(f: &FaceState<K>, id: InterestId, interest: &RemoteInterest<K>) -> bool
    ensures { result ≡ holds_south_as K.cmp K.matching interest.now id f.now }
{
    !is_north(f) && holds_as(f, id, interest)
}

// Whether an interest in an expression, of a face under an id, is such an interest of a face to the
// south.
fn is_held_as<K: Key>(
    g: &GatewayState<K>,
    interest: &RemoteInterest<K>,
    row: &((u32, u32), Option<K>),
) -> bool
    ensures { result ≡ is_held_as K.cmp K.matching g.now interest.now row.now }
{
    if !expression_order(interest.expr(), &row.1).is_eq() {
        return false;
    }
    match find_face(g, row.0.0) {
        None => false,
        Some(f) => holds_south_as(f, row.0.1, interest),
    }
}

// Whether one of these is such an interest of a face to the south.
fn is_one_held_as<K: Key>(
    g: &GatewayState<K>,
    interest: &RemoteInterest<K>,
    rows: &[((u32, u32), Option<K>)],
) -> bool
    ensures { result ≡ list_any (is_held_as K.cmp K.matching g.now interest.now) rows.now }
{
    rows.iter().any(|row| is_held_as(g, interest, row))
}

// Whether an interest is one in tokens.
fn is_in_tokens<K: Key>(interest: &RemoteInterest<K>) -> bool
    ensures { result ≡ has_tokens interest.now.options }
{
    interest.options().contains(InterestOptions::TOKENS)
}

// Whether some south-bound face holds such an interest, in any mode. A look-up.
fn is_held_south<K: Key>(g: &GatewayState<K>, interest: &RemoteInterest<K>) -> bool
    ensures { result ≡ is_held_south K.cmp K.matching g.now interest.now }
{
    if is_in_tokens(interest) {
        is_one_held_as(g, interest, g.interests_in(interest.expr()))
    } else {
        is_one_held_as(g, interest, g.others_in(interest.expr()))
    }
}

// Adds that the interests of these ids end at the face.
fn end_all<K: Key>(
    f: &FaceState<K>,
    ids: &[InterestId],
    sends: &mut Vec<(u32, Message<K>)>,
) -> Result<(), Memory>
    ensures { OnOk result (sends.new.items ≡ sends.old.items
        ++ map (λ id. (f.now.number, message.InterestFinal id)) ids.now) }
{
    for id in ids {
        sends.push((f.number(), Message::InterestFinal { id: *id }))?;
    }
    Ok(())
}

// Adds that the interests that ask for the same end at the face.
fn end_same<K: Key>(
    alloc: Global,
    interest: &RemoteInterest<K>,
    f: &FaceState<K>,
    sends: &mut Vec<(u32, Message<K>)>,
) -> Result<(), Memory>
    ensures { OnOk result (sends.new.items ≡ sends.old.items
        ++ all_chosen (λ r. asks_same K.cmp K.matching interest.now r.1)
        (λ r. (f.now.number, message.InterestFinal r.0)) f.now.locals) }
{
    let ids = f.locals().ids_of_same(alloc, interest)?;
    end_all(f, ids.as_slice(), sends)
}

// An interest that ends at the faces to the north that were sent it.
#[derive(Drop)]
struct Ends<'a, K: Key>(&'a RemoteInterest<K>);

impl<'a, K: Key> FaceRule<K> for Ends<'a, K> {
    ghost use Rattle.zt_interests.specs.Ended.{ended_at};

    ghost given = { λ t g. ended_at K.cmp K.matching t.0.now };

    fn say(
        &self,
        alloc: Global,
        _g: &GatewayState<K>,
        f: &FaceState<K>,
        sends: &mut Vec<(u32, Message<K>)>,
    ) -> Result<(), Memory> {
        if !is_north(f) {
            return Ok(());
        }
        if !f.locals().has_same(self.0) {
            return Ok(());
        }
        end_same(alloc, self.0, f, sends)?;
        Ok(())
    }
}

/// An interest ends upstream when no south-bound face holds it any more: Zenoh's
/// `route_interest_final`. Where there is no face to the north this isn't asked.
pub fn end_upstream<K: Key>(
    alloc: Global,
    g: &GatewayState<K>,
    interest: &RemoteInterest<K>,
) -> Result<Vec<(u32, Message<K>)>, Memory>
    ensures { IfOk result (λ sends. sends.items
        ≡ end_upstream K.cmp K.matching interest.now g.now) }
{
    let north = g.north();
    if north.is_empty() {
        return Ok(Vec::new(alloc));
    }
    if is_held_south(g, interest) {
        return Ok(Vec::new(alloc));
    }
    say_at(alloc, g, north, &Ends(interest))
}

// Whether the pending stands: its face is open, and it is neither finalised nor expired.
fn stands<K: Key>(g: &GatewayState<K>, pending: (u32, u32)) -> bool
    ensures { result ≡ stands g.now pending }
{
    match find_face(g, pending.0) {
        None => false,
        Some(f) => f.pendings().has(pending.1),
    }
}

// Whether the ask was sent upstream to this face, under this id. It is looked for at a place first.
fn was_sent_as<K: Key>(ask: &AskState<K>, place: usize, face: u32, id: InterestId) -> bool
    ensures { result ≡ was_sent_as face id ask.now }
{
    let pendings = ask.pendings();
    match pendings.get(place) {
        Some(p) if face == p.0 && id == p.1 => true,
        _ => pendings.iter().any(|p| face == p.0 && id == p.1),
    }
}

// Whether one of these pendings stands.
fn does_any_stand<K: Key>(g: &GatewayState<K>, pendings: &[(u32, u32)]) -> bool
    ensures { result ≡ list_any (stands g.now) pendings.now }
{
    pendings.iter().any(|p| stands(g, *p))
}

// Whether one of the pendings still waits in a window of `reach` places before `place` and from it
// on.
fn does_near_stand<K: Key>(
    g: &GatewayState<K>,
    pendings: &[(u32, u32)],
    place: usize,
    reach: usize,
) -> bool
    ensures { result ≡ true → list_any (stands g.now) pendings.now ≡ true }
{
    let from = place.saturating_sub(reach);
    let to = place.saturating_add(reach).min(pendings.len());
    from < to && does_any_stand(g, &pendings[from..to])
}

// Whether one of these pendings stands. It is looked for around a place, ever farther: where one
// after another ends, in whatever order, the next that stands is near to most of them.
fn does_one_stand<K: Key>(g: &GatewayState<K>, pendings: &[(u32, u32)], place: usize) -> bool
    ensures { result ≡ list_any (stands g.now) pendings.now }
{
    let mut reach: usize = 4;
    while reach < pendings.len() {
        if does_near_stand(g, pendings, place, reach) {
            return true;
        }
        reach = reach.saturating_mul(4);
    }
    does_any_stand(g, pendings)
}

// Whether the ask had this pending, which may be found at a place, and has none any more.
fn is_finished_by<K: Key>(
    g: &GatewayState<K>,
    face: u32,
    id: InterestId,
    place: u32,
    ask: &AskState<K>,
) -> bool
    ensures { result ≡ is_finished_by g.now face id ask.now }
{
    let place = place as usize;
    was_sent_as(ask, place, face, id) && !does_one_stand(g, ask.pendings(), place)
}

// Adds the final of the ask under an id, where it is finished.
fn finish_row<K: Key>(
    g: &GatewayState<K>,
    face: u32,
    id: InterestId,
    place: u32,
    f: &FaceState<K>,
    under: InterestId,
    ask: &AskState<K>,
    sends: &mut Vec<(u32, Message<K>)>,
) -> Result<(), Memory>
    ensures { OnOk result (sends.new.items ≡ sends.old.items
        ++ chosen (λ (r : ℕ × Ask K). is_finished_by g.now face id r.1)
        (λ r. (f.now.number, message.DeclareFinal r.0)) (under, ask.now)) }
{
    if is_finished_by(g, face, id, place, ask) {
        sends.push((f.number(), Message::DeclareFinal { interest_id: under }))?;
    }
    Ok(())
}

// Adds the finals of the face's asks that are finished.
fn finish_to<K: Key>(
    g: &GatewayState<K>,
    face: u32,
    id: InterestId,
    f: &FaceState<K>,
    sends: &mut Vec<(u32, Message<K>)>,
) -> Result<(), Memory>
    ensures { OnOk result (sends.new.items ≡ sends.old.items
        ++ map (λ m. (f.now.number, m)) (finish_to g.now face id f.now)) }
{
    for (under, ask) in f.asks().iter() {
        finish_row(g, face, id, 0, f, *under, ask, sends)?;
    }
    Ok(())
}

// The finals of all asks that are finished, asking each.
fn finish_each<K: Key>(
    alloc: Global,
    g: &GatewayState<K>,
    face: u32,
    id: InterestId,
) -> Result<Vec<(u32, Message<K>)>, Memory>
    ensures { IfOk result (λ sends. sends.items ≡ finish face id g.now) }
{
    let mut sends = Vec::new(alloc);
    for f in g.faces() {
        finish_to(g, face, id, f, &mut sends)?;
    }
    Ok(sends)
}

// The final of the one ask that was sent so, of a face under an id, where it is finished.
fn finish_asker<K: Key>(
    alloc: Global,
    g: &GatewayState<K>,
    face: u32,
    id: InterestId,
    asker: u32,
    under: InterestId,
    place: u32,
) -> Result<Vec<(u32, Message<K>)>, Memory>
    requires rising { IsRising (λ f. f.number) g.now.faces }
    requires asker { IsAskerOf (One asker under place) face id g.now.faces }
    ensures { IfOk result (λ sends. sends.items ≡ finish face id g.now) }
{
    let mut sends = Vec::new(alloc);
    let Some(f) = find_face(g, asker) else {
        return Ok(sends);
    };
    let Some(ask) = f.asks().at(under) else {
        return Ok(sends);
    };
    finish_row(g, face, id, place, f, under, ask, &mut sends)?;
    Ok(sends)
}

/// The asks whose last pending was that of the face under this id get their finals.
pub fn finish<K: Key>(
    alloc: Global,
    g: &GatewayState<K>,
    face: u32,
    id: InterestId,
) -> Result<Vec<(u32, Message<K>)>, Memory>
    ensures { IfOk result (λ sends. sends.items ≡ finish face id g.now) }
{
    match g.asker(face, id) {
        Asker::Nobody => Ok(Vec::new(alloc)),
        Asker::One {
            face: asker,
            id: under,
            place,
        } => finish_asker(alloc, g, face, id, asker, under, place),
        Asker::Several => finish_each(alloc, g, face, id),
    }
}
