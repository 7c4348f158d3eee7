// Each ask gets its one final when it ends, and nothing behind it.
ghost use Rattle.std.specs.Prelude.{◌≡◌, ◌==◌, ◌&&◌, if◌then◌else◌, not, Some};
ghost use Rattle.std.specs.List.{list_all, list_any};
ghost use Rattle.zt_model.specs.Lists.{has_id};
ghost use Rattle.zt_check_keeping.specs.Changed.{is_sought};
ghost use Rattle.zt_check_asks.specs.Answering.{is_that};
ghost use Rattle.zt_check_finals.specs.Ending.{is_ended};
ghost use Rattle.zt_check_finals.specs.Finishing.{answers_for, are_finished_at, are_finished_by};
ghost use Rattle.zt_check_finals.specs.Finishing.{are_finished_for, are_finished_of};
ghost use Rattle.zt_check_finals.specs.Finishing.{are_finished_under, ended_are_finished, ends_ask};
ghost use Rattle.zt_check_finals.specs.Finishing.{finals_are_sent, finals_from, finals_one};
ghost use Rattle.zt_check_finals.specs.Finishing.{is_finished, is_finished_at, is_finished_under};
ghost use Rattle.zt_check_finals.specs.Finishing.{is_followed_by_none, is_of_some_ask};
ghost use Rattle.zt_check_finals.specs.Finishing.{nothing_follows, of_some_at, of_some_in};
ghost use Rattle.zt_check_finals.specs.Finishing.{stands_after, touched_is_finished};

use crate::ending::{Ending, is_open};
use crate::pendings::{answers_interest, stands_after};
use zt_check_fabric::{ShownFabric, ShownPlace};
use zt_check_faces::{ShownAsk, ShownFace};
use zt_check_rows::ShownRows;
use zt_keys::Key;
use zt_protocol::{Message, Sent};

// Whether a message is the final of an id for a face.
fn is_final<K: Key>(sent: &Sent<K>, number: u64, id: u32) -> bool
    ensures { result ≡ finals_one number id sent.now }
{
    match &sent.message {
        Message::DeclareFinal { interest_id } => {
            number == u64::from(sent.face) && id == *interest_id
        }
        _ => false,
    }
}

// One where it is so, and else none.
fn one_if(holds: bool) -> usize
    ensures { result ≡ (if holds then 1 else 0) }
{
    if holds {
        return 1;
    }
    0
}

/// How many finals of an id are printed for a face.
pub fn finals_in<K: Key>(sents: &[Sent<K>], number: u64, id: u32) -> usize
    ensures { result ≡ finals_from id number sents.now }
{
    let mut count = 0usize;
    for sent in sents {
        count += one_if(is_final(sent, number, id));
    }
    count
}

// Whether none of an ask's pendings stands once the messages are heard.
fn has_no_pending<'a, K: Key>(
    fabric: &ShownFabric<'a, K>,
    sents: &[Sent<K>],
    gateway: u32,
    rows: &ShownRows<K>,
    pendings: &[(u32, u32)],
) -> bool
    ensures { result ≡ not
        (list_any (stands_after fabric.now sents.now gateway rows.now) pendings.now) }
{
    for pending in pendings {
        if stands_after(fabric, gateway, rows, sents, *pending) {
            return false;
        }
    }
    true
}

/// Whether this is the ask or interest of an id of a gateway's face.
pub fn is_that(that: Option<(u32, u32, u32)>, gateway: u32, face: u32, id: u32) -> bool
    ensures { result ≡ is_that that gateway face id }
{
    match that {
        None => false,
        Some(that) => gateway == that.0 && face == that.1 && id == that.2,
    }
}

// Whether the line ends an ask.
fn ends_ask<'a, K: Key>(
    fabric: &ShownFabric<'a, K>,
    finalised: Option<(u32, u32, u32)>,
    sents: &[Sent<K>],
    gateway: u32,
    rows: &ShownRows<K>,
    face: &ShownFace<K>,
    row: &(u32, ShownAsk<K>),
) -> bool
    ensures { result ≡ ends_ask
        fabric.now finalised sents.now gateway rows.now face.now row.now }
{
    has_no_pending(fabric, sents, gateway, rows, row.1.pendings())
        || (row.1.interest().mode().is_future()
            && is_that(finalised, gateway, face.number(), row.0))
}

// Whether an ask gets the one final that its end gives it, or none.
fn is_finished<'a, K: Key>(
    fabric: &ShownFabric<'a, K>,
    finalised: Option<(u32, u32, u32)>,
    sents: &[Sent<K>],
    gateway: u32,
    rows: &ShownRows<K>,
    face: &ShownFace<K>,
    row: &(u32, ShownAsk<K>),
) -> bool
    ensures { result ≡ is_finished
        fabric.now finalised sents.now gateway rows.now face.now row.now }
{
    let number = fabric.number_of_place(gateway, face.number());
    let finals = finals_in(sents, number, row.0);
    if ends_ask(fabric, finalised, sents, gateway, rows, face, row) {
        finals == 1
    } else {
        finals == 0
    }
}

// Whether an ask does, if it is of this id.
fn is_finished_at<'a, K: Key>(
    fabric: &ShownFabric<'a, K>,
    finalised: Option<(u32, u32, u32)>,
    sents: &[Sent<K>],
    gateway: u32,
    rows: &ShownRows<K>,
    face: &ShownFace<K>,
    id: u32,
    row: &(u32, ShownAsk<K>),
) -> bool
    ensures { result ≡ is_finished_at
        fabric.now finalised sents.now gateway rows.now face.now id row.now }
{
    id != row.0 || is_finished(fabric, finalised, sents, gateway, rows, face, row)
}

// A face's asks of an id do.
fn are_finished_among<'a, K: Key>(
    fabric: &ShownFabric<'a, K>,
    finalised: Option<(u32, u32, u32)>,
    sents: &[Sent<K>],
    gateway: u32,
    rows: &ShownRows<K>,
    face: &ShownFace<K>,
    id: u32,
) -> bool
    ensures { result ≡ list_all (is_finished_at
        fabric.now finalised sents.now gateway rows.now face.now id) face.now.asks }
{
    for row in face.asks_of(id) {
        if !is_finished_at(fabric, finalised, sents, gateway, rows, face, id, row) {
            return false;
        }
    }
    true
}

// A face's asks of an id do, if the face is of this number.
fn are_finished_of<'a, K: Key>(
    fabric: &ShownFabric<'a, K>,
    finalised: Option<(u32, u32, u32)>,
    sents: &[Sent<K>],
    gateway: u32,
    rows: &ShownRows<K>,
    number: u32,
    id: u32,
    face: &ShownFace<K>,
) -> bool
    ensures { result ≡ are_finished_of
        fabric.now finalised sents.now gateway rows.now number id face.now }
{
    number != face.number() || are_finished_among(fabric, finalised, sents, gateway, rows, face, id)
}

// Those of an id of a gateway's face do.
fn are_finished_in<'a, K: Key>(
    fabric: &ShownFabric<'a, K>,
    finalised: Option<(u32, u32, u32)>,
    sents: &[Sent<K>],
    gateway: u32,
    rows: &ShownRows<K>,
    number: u32,
    id: u32,
) -> bool
    ensures { result ≡ list_all (are_finished_of
        fabric.now finalised sents.now gateway rows.now number id) rows.now.faces }
{
    for face in rows.faces_of(number) {
        if !are_finished_of(fabric, finalised, sents, gateway, rows, number, id, face) {
            return false;
        }
    }
    true
}

// The asks of an id of a face do.
fn are_finished_at<'a, K: Key>(
    fabric: &ShownFabric<'a, K>,
    finalised: Option<(u32, u32, u32)>,
    sents: &[Sent<K>],
    gateway: u32,
    face: u32,
    id: u32,
) -> bool
    ensures { result ≡ are_finished_at fabric.now finalised sents.now gateway face id }
{
    match fabric.node(gateway) {
        None => true,
        Some(node) => {
            let rows = node.rows();
            are_finished_in(fabric, finalised, sents, gateway, rows, face, id)
        }
    }
}

// The one does that the line makes, or whose interest it ends.
fn touched_is_finished<'a, K: Key>(
    fabric: &ShownFabric<'a, K>,
    finalised: Option<(u32, u32, u32)>,
    sents: &[Sent<K>],
    touched: Option<(u32, u32, u32)>,
) -> bool
    ensures { result ≡ touched_is_finished fabric.now finalised sents.now touched }
{
    match touched {
        None => true,
        Some(touched) => {
            are_finished_at(fabric, finalised, sents, touched.0, touched.1, touched.2)
        }
    }
}

// Whether an id is the one that is sought, where one is.
fn is_sought(sought: Option<u32>, id: u32) -> bool
    ensures { result ≡ is_sought sought id }
{
    match sought {
        None => true,
        Some(sought) => sought == id,
    }
}

// Whether a pending may end by this.
fn is_ended(ended: &(u32, Option<u32>, Option<u32>), pending: &(u32, u32)) -> bool
    ensures { result ≡ is_ended ended.now pending.now }
{
    is_sought(ended.1, pending.0) && is_sought(ended.2, pending.1)
}

// Whether one of these pendings may.
fn may_end(ended: &(u32, Option<u32>, Option<u32>), pendings: &[(u32, u32)]) -> bool
    ensures { result ≡ list_any (is_ended ended.now) pendings.now }
{
    for pending in pendings {
        if is_ended(ended, pending) {
            return true;
        }
    }
    false
}

// Whether an ask does, if one of its pendings may end by this.
fn is_finished_under<'a, K: Key>(
    fabric: &ShownFabric<'a, K>,
    finalised: Option<(u32, u32, u32)>,
    sents: &[Sent<K>],
    ended: &(u32, Option<u32>, Option<u32>),
    rows: &ShownRows<K>,
    face: &ShownFace<K>,
    row: &(u32, ShownAsk<K>),
) -> bool
    ensures { result ≡ is_finished_under
        fabric.now finalised sents.now ended.now rows.now face.now row.now }
{
    !may_end(ended, row.1.pendings())
        || is_finished(fabric, finalised, sents, ended.0, rows, face, row)
}

// Those of these asks do.
fn all_finished_under<'a, K: Key>(
    fabric: &ShownFabric<'a, K>,
    finalised: Option<(u32, u32, u32)>,
    sents: &[Sent<K>],
    ended: &(u32, Option<u32>, Option<u32>),
    rows: &ShownRows<K>,
    face: &ShownFace<K>,
    asks: &[(u32, ShownAsk<K>)],
) -> bool
    ensures { result ≡ list_all (is_finished_under
        fabric.now finalised sents.now ended.now rows.now face.now) asks.now }
{
    for row in asks {
        if !is_finished_under(fabric, finalised, sents, ended, rows, face, row) {
            return false;
        }
    }
    true
}

// Those of a face do.
fn are_finished_under<'a, K: Key>(
    fabric: &ShownFabric<'a, K>,
    finalised: Option<(u32, u32, u32)>,
    sents: &[Sent<K>],
    ended: &(u32, Option<u32>, Option<u32>),
    rows: &ShownRows<K>,
    face: &ShownFace<K>,
) -> bool
    ensures { result ≡ are_finished_under
        fabric.now finalised sents.now ended.now rows.now face.now }
{
    all_finished_under(fabric, finalised, sents, ended, rows, face, face.asks())
}

// Those of a gateway's faces do.
fn are_finished_below<'a, K: Key>(
    fabric: &ShownFabric<'a, K>,
    finalised: Option<(u32, u32, u32)>,
    sents: &[Sent<K>],
    ended: &(u32, Option<u32>, Option<u32>),
    rows: &ShownRows<K>,
    faces: &[ShownFace<K>],
) -> bool
    ensures { result ≡ list_all (are_finished_under
        fabric.now finalised sents.now ended.now rows.now) faces.now }
{
    for face in faces {
        if !are_finished_under(fabric, finalised, sents, ended, rows, face) {
            return false;
        }
    }
    true
}

// The asks do of which a pending may end by this.
fn ended_is_finished<'a, K: Key>(
    fabric: &ShownFabric<'a, K>,
    finalised: Option<(u32, u32, u32)>,
    sents: &[Sent<K>],
    ended: &(u32, Option<u32>, Option<u32>),
) -> bool
    ensures { result ≡ ended_are_finished fabric.now finalised sents.now ended.now }
{
    match fabric.node(ended.0) {
        None => true,
        Some(node) => {
            let rows = node.rows();
            are_finished_below(fabric, finalised, sents, ended, rows, rows.faces())
        }
    }
}

fn ended_are_finished<'a, K: Key>(
    fabric: &ShownFabric<'a, K>,
    finalised: Option<(u32, u32, u32)>,
    sents: &[Sent<K>],
    all: &[(u32, Option<u32>, Option<u32>)],
) -> bool
    ensures { result
        ≡ list_all (ended_are_finished fabric.now finalised sents.now) all.now }
{
    for ended in all {
        if !ended_is_finished(fabric, finalised, sents, ended) {
            return false;
        }
    }
    true
}

// The asks do that a message for a place is the final of.
fn are_finished_for<'a, K: Key>(
    fabric: &ShownFabric<'a, K>,
    finalised: Option<(u32, u32, u32)>,
    sents: &[Sent<K>],
    message: &Message<K>,
    place: &ShownPlace,
) -> bool
    ensures { result
        ≡ are_finished_for fabric.now finalised sents.now message.now (Some place.now) }
{
    match message {
        Message::DeclareFinal { interest_id } => {
            let (gateway, face) = (place.gateway(), place.face());
            are_finished_at(fabric, finalised, sents, gateway, face, *interest_id)
        }
        _ => true,
    }
}

// The asks do that a message is the final of.
fn are_finished_by<'a, K: Key>(
    fabric: &ShownFabric<'a, K>,
    finalised: Option<(u32, u32, u32)>,
    sents: &[Sent<K>],
    sent: &Sent<K>,
) -> bool
    ensures { result ≡ are_finished_by fabric.now finalised sents.now sent.now }
{
    match fabric.place(sent.face) {
        None => true,
        Some(place) => are_finished_for(fabric, finalised, sents, &sent.message, place),
    }
}

// The asks do that these messages are the finals of.
fn all_finished_by<'a, K: Key>(
    fabric: &ShownFabric<'a, K>,
    finalised: Option<(u32, u32, u32)>,
    all: &[Sent<K>],
    sents: &[Sent<K>],
) -> bool
    ensures { result
        ≡ list_all (are_finished_by fabric.now finalised all.now) sents.now }
{
    for sent in sents {
        if !are_finished_by(fabric, finalised, all, sent) {
            return false;
        }
    }
    true
}

// Whether a face has an ask of an id.
fn has_ask<K: Key>(face: &ShownFace<K>, id: u32) -> bool
    ensures { result ≡ has_id id face.now.asks }
{
    for row in face.asks_of(id) {
        if id == row.0 {
            return true;
        }
    }
    false
}

// Whether a number is among others.
fn is_one_of(numbers: &[u32], number: u32) -> bool
    ensures { result ≡ list_any (λ k. number == k) numbers.now }
{
    for other in numbers {
        if number == *other {
            return true;
        }
    }
    false
}

// Whether a face may get a final of an id: it has such an ask, or is a new mutual peer.
fn may_be_final<K: Key>(face: &ShownFace<K>, id: u32, number: u32, unopened: &[u32]) -> bool
    ensures { result ≡ of_some_in unopened.now number id face.now }
{
    has_ask(face, id) || (id == 0 && face.initial().is_some() && is_one_of(unopened, number))
}

// Whether the face of a place may.
fn may_be_final_at<'a, K: Key>(
    fabric: &ShownFabric<'a, K>,
    place: &ShownPlace,
    id: u32,
    number: u32,
    unopened: &[u32],
) -> bool
    ensures { result ≡ of_some_at fabric.now unopened.now number id (Some place.now) }
{
    let Some(node) = fabric.node(place.gateway()) else {
        return false;
    };
    match node.rows().face(place.face()) {
        None => false,
        Some(face) => may_be_final(face, id, number, unopened),
    }
}

/// Whether a final is that of an ask, or that of a new mutual peer; other messages are no final of
/// nobody. `unopened` are the faces that aren't open before the line.
pub fn is_final_of_some<'a, K: Key>(
    fabric: &ShownFabric<'a, K>,
    unopened: &[u32],
    sent: &Sent<K>,
) -> bool
    ensures { result ≡ is_of_some_ask fabric.now unopened.now sent.now }
{
    let Message::DeclareFinal { interest_id } = &sent.message else {
        return true;
    };
    match fabric.place(sent.face) {
        None => false,
        Some(place) => may_be_final_at(fabric, place, *interest_id, sent.face, unopened),
    }
}

// All are.
fn are_of_some<'a, K: Key>(fabric: &ShownFabric<'a, K>, unopened: &[u32], sents: &[Sent<K>]) -> bool
    ensures { result ≡ list_all (is_of_some_ask fabric.now unopened.now) sents.now }
{
    for sent in sents {
        if !is_final_of_some(fabric, unopened, sent) {
            return false;
        }
    }
    true
}

// Whether a message is for this face, and answers an interest of an id.
fn answers_for<K: Key>(sent: &Sent<K>, face: u32, id: u32) -> bool
    ensures { result ≡ answers_for face id sent.now }
{
    sent.face == face && answers_interest(&sent.message, id)
}

// Whether one of these does.
fn is_answered_in<K: Key>(sents: &[Sent<K>], face: u32, id: u32) -> bool
    ensures { result ≡ list_any (answers_for face id) sents.now }
{
    for sent in sents {
        if answers_for(sent, face, id) {
            return true;
        }
    }
    false
}

/// Whether no later message for the face answers what a message finishes.
pub fn nothing_follows<'a, K: Key>(
    fabric: &ShownFabric<'a, K>,
    sent: &Sent<K>,
    later: &[Sent<K>],
) -> bool
    ensures { result
        ≡ is_followed_by_none fabric.now sent.now.face sent.now.message later.now }
{
    let Message::DeclareFinal { interest_id } = &sent.message else {
        return true;
    };
    !is_open(fabric, sent.face) || !is_answered_in(later, sent.face, *interest_id)
}

// Whether one does.
fn is_followed<'a, K: Key>(fabric: &ShownFabric<'a, K>, sent: &Sent<K>, later: &[Sent<K>]) -> bool
    ensures { result
        ≡ not (is_followed_by_none fabric.now sent.now.face sent.now.message later.now) }
{
    !nothing_follows(fabric, sent, later)
}

// Whether none does that is behind another.
fn nothing_follows_finals<'a, K: Key>(fabric: &ShownFabric<'a, K>, sents: &[Sent<K>]) -> bool
    ensures { result ≡ nothing_follows fabric.now sents.now }
{
    for place in 0..sents.len() {
        let sent = &sents[place];
        if is_followed(fabric, sent, &sents[place + 1..]) {
            return false;
        }
    }
    true
}

/// Each ask gets its one final when it ends, and nothing behind it, where none had ended before the
/// line: it is looked at for each ask that the line makes, whose pendings or interests it may end,
/// or of which a final is printed. The fabric is that with what the line itself changes, and doesn't
/// hear its messages yet.
pub fn sends_finals<'a, K: Key>(
    fabric: &ShownFabric<'a, K>,
    ending: &Ending,
    sents: &[Sent<K>],
) -> bool
    ensures { result ≡ finals_are_sent fabric.now ending.now.finalised sents.now
        ending.now.ended.items ending.now.touched ending.now.unopened.items }
{
    let finalised = ending.finalised;
    (ended_are_finished(fabric, finalised, sents, ending.ended.as_slice())
        && touched_is_finished(fabric, finalised, sents, ending.touched))
        && ((all_finished_by(fabric, finalised, sents, sents)
            && are_of_some(fabric, ending.unopened.as_slice(), sents))
            && nothing_follows_finals(fabric, sents))
}
