// Tokens that faces declare and undeclare, in whichever region.
ghost use Rattle.std.specs.Prelude.{◌≡◌, ◌++◌, ℕ, OnOk};
ghost use Rattle.zt_calls.specs.Does.{Does};
ghost use Rattle.zt_calls.specs.Speaking.{answering_asked, declaring_from, declaring_if};
ghost use Rattle.zt_calls.specs.Speaking.{undeclaring_from, undeclaring_plain};
ghost use Rattle.zt_model.specs.Says.{parts_of};
ghost use Rattle.zt_model.specs.Telling.{answering, registers};
ghost use Rattle.zt_protocol.specs.Plain as plain;

use crate::finding::copy_undeclared;
use crate::routed::{declare_routed, undeclare_routed};
use crate::speech::{Speech, say};
use crate::tokens::{declare, hide_token, undeclare};
use std::alloc::Global;
use zt_keys::{Key, Memory};
use zt_protocol::{InterestId, TokenId};
use zt_region::{NodeId, Region, Zid};
use zt_routers::source_of;
use zt_state::{FaceState, GatewayState};
use zt_tokens::{answer, find_face, is_routed};

// The interest that a declaration names, where it waits at the face.
fn asked_by<K: Key>(f: &FaceState<K>, interest: Option<InterestId>) -> Option<InterestId>
    ensures { (n : ℕ) (e : K) → answering_asked K.cmp K.matching n result e
        ≡ answering K.cmp K.matching n interest e f.now }
{
    match interest {
        Some(id) if f.pendings().has(id) => Some(id),
        _ => None,
    }
}

// Whether a declaration adds a live row: it does, unless it answers an interest that asked for what
// is there now alone.
fn registers<K: Key>(f: &FaceState<K>, interest: Option<InterestId>) -> bool
    ensures { result ≡ registers f.now interest }
{
    match interest {
        None => true,
        Some(id) => match f.pendings().at(id) {
            None => true,
            Some(pending) => pending.mode().is_future(),
        },
    }
}

// A token that came as an answer is passed on to the asks for which the gateway asked upstream,
// where an interest still waits under the id.
fn answer_asked<K: Key>(
    alloc: Global,
    g: &mut GatewayState<K>,
    speech: &mut Speech<K>,
    face: u32,
    asked: Option<InterestId>,
    expr: &K,
) -> Result<(), Memory>
    ensures { OnOk result (Does K.cmp K.matching
        (answering_asked K.cmp K.matching face asked expr.now)
        g.old g.new speech.old speech.new) }
{
    let Some(id) = asked else {
        return Ok(());
    };
    let answers = answer(alloc, g, face, id, expr)?;
    say(alloc, g, speech, answers)
}

// The token is declared, if it registers.
fn declare_if<K: Key>(
    alloc: Global,
    g: &mut GatewayState<K>,
    speech: &mut Speech<K>,
    registers: bool,
    face: u32,
    region: Region,
    id: TokenId,
    expr: &K,
) -> Result<(), Memory>
    ensures { OnOk result (Does K.cmp K.matching
        (declaring_if K.cmp K.matching registers face region id expr.now)
        g.old g.new speech.old speech.new) }
{
    if registers {
        declare(alloc, g, speech, face, region, id, expr)
    } else {
        Ok(())
    }
}

// A face outside router regions declares a token.
fn declare_plain<K: Key>(
    alloc: Global,
    g: &mut GatewayState<K>,
    speech: &mut Speech<K>,
    face: u32,
    region: Region,
    id: TokenId,
    expr: &K,
    asked: Option<InterestId>,
    registers: bool,
) -> Result<(), Memory>
    ensures { OnOk result (Does K.cmp K.matching
        (answering_asked K.cmp K.matching face asked expr.now
        ++ declaring_if K.cmp K.matching registers face region id expr.now)
        g.old g.new speech.old speech.new) }
{
    answer_asked(alloc, g, speech, face, asked, expr)?;
    declare_if(alloc, g, speech, registers, face, region, id, expr)
}

// A token of a router comes, where the face means one.
fn declare_from<K: Key>(
    alloc: Global,
    g: &mut GatewayState<K>,
    speech: &mut Speech<K>,
    face: u32,
    region: Region,
    source: Option<Zid>,
    expr: &K,
) -> Result<(), Memory>
    ensures { OnOk result (Does K.cmp K.matching
        (declaring_from K.cmp K.matching face region source expr.now)
        g.old g.new speech.old speech.new) }
{
    match source {
        None => Ok(()),
        Some(source) => declare_routed(alloc, g, speech, face, region, source, expr),
    }
}

/// A face declares a token. In a router region the token is that of the router which the node id
/// names; elsewhere it is the face's own, and may answer an interest.
pub(crate) fn declare_token<K: Key>(
    alloc: Global,
    g: &mut GatewayState<K>,
    speech: &mut Speech<K>,
    face: u32,
    id: TokenId,
    expr: &K,
    node_id: NodeId,
    interest: Option<InterestId>,
) -> Result<(), Memory>
    ensures { OnOk result (Does K.cmp K.matching
        (parts_of K.cmp K.matching (plain.DeclareToken face id expr.now node_id interest) g.old)
        g.old g.new speech.old speech.new) }
{
    let Some(f) = find_face(g, face) else {
        return Ok(());
    };
    let region = f.region();
    if is_routed(g, f) {
        let source = source_of(g, f, node_id);
        return declare_from(alloc, g, speech, face, region, source, expr);
    }
    let asked = asked_by(f, interest);
    let registers = registers(f, interest);
    declare_plain(alloc, g, speech, face, region, id, expr, asked, registers)
}

// An undeclaration by a face outside router regions, which is about this expression, if about any:
// the faces and the router regions hear that it is gone.
fn undeclare_plain<K: Key>(
    alloc: Global,
    g: &mut GatewayState<K>,
    speech: &mut Speech<K>,
    face: u32,
    region: Region,
    id: TokenId,
    expr: &Option<K>,
) -> Result<(), Memory>
    ensures { OnOk result (Does K.cmp K.matching
        (undeclaring_plain K.cmp K.matching face region id expr.now)
        g.old g.new speech.old speech.new) }
{
    let Some(expr) = expr else {
        return Ok(());
    };
    undeclare(alloc, g, speech, face, region, id, expr)?;
    hide_token(alloc, g, speech, region, expr)
}

// A token of a router goes, where the face means one and names the expression.
fn undeclare_from<K: Key>(
    alloc: Global,
    g: &mut GatewayState<K>,
    speech: &mut Speech<K>,
    face: u32,
    region: Region,
    source: Option<Zid>,
    given: &Option<K>,
) -> Result<(), Memory>
    ensures { OnOk result (Does K.cmp K.matching
        (undeclaring_from K.cmp K.matching face region source given.now)
        g.old g.new speech.old speech.new) }
{
    let Some(source) = source else {
        return Ok(());
    };
    match given {
        None => Ok(()),
        Some(expr) => undeclare_routed(alloc, g, speech, face, region, source, expr),
    }
}

/// A face undeclares a token.
pub(crate) fn undeclare_token<K: Key>(
    alloc: Global,
    g: &mut GatewayState<K>,
    speech: &mut Speech<K>,
    face: u32,
    id: TokenId,
    given: &Option<K>,
    node_id: NodeId,
) -> Result<(), Memory>
    ensures { OnOk result (Does K.cmp K.matching
        (parts_of K.cmp K.matching (plain.UndeclareToken face id given.now node_id) g.old)
        g.old g.new speech.old speech.new) }
{
    let Some(f) = find_face(g, face) else {
        return Ok(());
    };
    let region = f.region();
    if is_routed(g, f) {
        let source = source_of(g, f, node_id);
        return undeclare_from(alloc, g, speech, face, region, source, given);
    }
    let expr = copy_undeclared(alloc, f, id, given)?;
    undeclare_plain(alloc, g, speech, face, region, id, &expr)
}
