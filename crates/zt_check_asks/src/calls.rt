// What of a turn's call its asks are judged by.
ghost use Rattle.std.specs.Prelude.{◌≡◌};
ghost use Rattle.std.specs.Option.{option_copied};
ghost use Rattle.zt_protocol.specs.Plain.{plain_call};
ghost use Rattle.zt_check_fabric.specs.Made.{made_at};
ghost use Rattle.zt_check_asks.specs.Answering.{declared_for, is_of, is_that};
ghost use Rattle.zt_check_asks.specs.Calls.{answered_at, answered_by, asked_at, asked_by};
ghost use Rattle.zt_check_asks.specs.Calls.{declared_at, declared_by, told_of};

use crate::asks::{stands, was_sent_as};
use std::marker::Model;
use zt_check_fabric::ShownFabric;
use zt_check_faces::ShownAsk;
use zt_check_rows::ShownRows;
use zt_keys::Key;
use zt_protocol::{Call, Sent};

/// What of a turn its asks are judged by.
#[derive(Drop)]
pub struct Told<'b, K: Key> {
    asking: Option<(u32, u32, u32)>,
    pending: Option<(u32, u32, u32)>,
    expr: Option<&'b K>,
    sents: &'b [Sent<K>],
}

impl<'b, K: Key> Model for Told<'b, K> {
    ghost use Rattle.std.specs.Option.{option_copied};
    ghost use Rattle.zt_check_asks.specs.Calls.{PlainTold};

    ghost Value = { PlainTold K };

    ghost view = { λ t. record {
      asking = t.asking;
      pending = t.pending;
      expr = option_copied t.expr;
      sents = t.sents.now;
    } };
}

impl<'b, K: Key> Told<'b, K> {
    /// The gateway, the face and the id of the ask that the turn makes.
    pub fn asking(&self) -> Option<(u32, u32, u32)>
        ensures { result ≡ self.now.asking }
    {
        self.asking
    }

    /// The gateway, the face and the id of the pending that the turn's token answers.
    pub fn pending(&self) -> Option<(u32, u32, u32)>
        ensures { result ≡ self.now.pending }
    {
        self.pending
    }

    /// The expression that the turn declares.
    pub fn expr(&self) -> Option<&'b K>
        ensures { option_copied result ≡ self.now.expr }
    {
        self.expr
    }

    /// What is printed.
    pub fn sents(&self) -> &'b [Sent<K>]
        ensures { result.now ≡ self.now.sents }
    {
        self.sents
    }
}

// The ask that a call makes.
fn asked_by<K: Key>(gateway: u32, call: &Call<K>) -> Option<(u32, u32, u32)>
    ensures { result ≡ asked_by gateway (plain_call call.now) }
{
    match call {
        Call::Interest { face, id, mode, .. } => {
            if mode.is_current() {
                return Some((gateway, *face, *id));
            }
            None
        }
        _ => None,
    }
}

fn asked_at<'a, K: Key>(
    fabric: &ShownFabric<'a, K>,
    found: &Option<(u32, Call<K>)>,
) -> Option<(u32, u32, u32)>
    ensures { result ≡ asked_at (made_at fabric.now found.now) }
{
    let Some((gateway, call)) = found else {
        return None;
    };
    let Some(_) = fabric.node(*gateway) else {
        return None;
    };
    asked_by(*gateway, call)
}

// The pending that a call's token answers, where it stands.
fn answered_by<K: Key>(gateway: u32, rows: &ShownRows<K>, call: &Call<K>) -> Option<(u32, u32, u32)>
    ensures { result ≡ answered_by gateway rows.now (plain_call call.now) }
{
    match call {
        Call::DeclareToken {
            face,
            interest_id: Some(interest),
            ..
        } => {
            if stands(rows, (*face, *interest)) {
                return Some((gateway, *face, *interest));
            }
            None
        }
        _ => None,
    }
}

fn answered_at<'a, K: Key>(
    fabric: &ShownFabric<'a, K>,
    found: &Option<(u32, Call<K>)>,
) -> Option<(u32, u32, u32)>
    ensures { result ≡ answered_at (made_at fabric.now found.now) }
{
    let Some((gateway, call)) = found else {
        return None;
    };
    let Some(node) = fabric.node(*gateway) else {
        return None;
    };
    answered_by(*gateway, node.rows(), call)
}

// The expression that a call declares.
fn declared_by<K: Key>(call: &Call<K>) -> Option<&K>
    ensures { option_copied result ≡ declared_by (plain_call call.now) }
{
    match call {
        Call::DeclareToken { expr, .. } => Some(expr),
        _ => None,
    }
}

fn declared_at<'a, 'b, K: Key>(
    fabric: &ShownFabric<'a, K>,
    found: &'b Option<(u32, Call<K>)>,
) -> Option<&'b K>
    ensures { option_copied result ≡ declared_at (made_at fabric.now found.now) }
{
    let Some((gateway, call)) = found else {
        return None;
    };
    let Some(_) = fabric.node(*gateway) else {
        return None;
    };
    declared_by(call)
}

/// What of a turn its asks are judged by. The fabric is that before the line, and `found` the
/// line's call.
pub fn told_of<'a, 'b, K: Key>(
    fabric: &ShownFabric<'a, K>,
    found: &'b Option<(u32, Call<K>)>,
    sents: &'b [Sent<K>],
) -> Told<'b, K>
    ensures { result ≡ told_of (made_at fabric.now found.now) sents.now }
{
    Told {
        asking: asked_at(fabric, found),
        pending: answered_at(fabric, found),
        expr: declared_at(fabric, found),
        sents,
    }
}

/// Whether the turn makes the ask of an id of a gateway's face.
pub fn is_made<'b, K: Key>(told: &Told<'b, K>, gateway: u32, face: u32, id: u32) -> bool
    ensures { result ≡ is_that told.now.asking gateway face id }
{
    match told.asking() {
        None => false,
        Some(asking) => gateway == asking.0 && face == asking.1 && id == asking.2,
    }
}

// Whether an ask of a gateway was sent upstream as this pending.
fn is_of<K: Key>(pending: Option<(u32, u32, u32)>, gateway: u32, ask: &ShownAsk<K>) -> bool
    ensures { result ≡ is_of pending gateway ask.now }
{
    match pending {
        None => false,
        Some(pending) => gateway == pending.0 && was_sent_as(ask, pending.1, pending.2),
    }
}

/// The expression that the turn declares under a pending of an ask of a gateway.
pub fn declared_for<'b, K: Key>(
    told: &Told<'b, K>,
    gateway: u32,
    ask: &ShownAsk<K>,
) -> Option<&'b K>
    ensures { option_copied result ≡ declared_for told.now gateway ask.now }
{
    if is_of(told.pending(), gateway, ask) {
        told.expr()
    } else {
        None
    }
}
