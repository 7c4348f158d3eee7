// A call is carried out part by part.
ghost use Rattle.std.specs.Prelude.{◌≡◌, ◌<◌, ◌+◌, ◌^◌, true, false, IfOk, None, OnOk};
ghost use Rattle.zt_calls.specs.Does.{Does};
ghost use Rattle.zt_laws.specs.Sound.{opens_face, rows_after_call};
ghost use Rattle.zt_calls.specs.Speaking.{closing_if, is_spoken, leaving_unless};
ghost use Rattle.zt_model.specs.Closing.{leaving};
ghost use Rattle.zt_model.specs.Parts.{unsaid_to};
ghost use Rattle.zt_model.specs.Says.{parts_of, row_of, said};
ghost use Rattle.zt_model.specs.Wants.{kept_options};
ghost use Rattle.zt_protocol.specs.Interest.{has_tokens, without_aggregate};
ghost use Rattle.zt_protocol.specs.Plain.{plain_call};
ghost use Rattle.zt_protocol.specs.Plain as plain;

use crate::asking::ask;
use crate::closing::leave;
use crate::ending::{declare_final, finalise};
use crate::expiring::expire;
use crate::opening::open;
use crate::routed::change_table;
use crate::speaking::{declare_token, undeclare_token};
use crate::speech::Speech;
use bitflags::Flags;
use std::alloc::Global;
use zt_keys::{Key, Memory};
use zt_protocol::{Call, InterestId, InterestMode, InterestOptions, Message, copy_expression};
use zt_region::WhatAmI;
use zt_state::{FaceState, GatewayState, RemoteInterest};
use zt_tokens::{find_face, is_routed};

// Whether the options ask for tokens.
fn asks_for_tokens(options: InterestOptions) -> bool
    ensures { result ≡ has_tokens options }
{
    options.contains(InterestOptions::TOKENS)
}

// The options but AGGREGATE.
fn without_aggregate(options: InterestOptions) -> InterestOptions
    ensures { result ≡ without_aggregate options }
{
    InterestOptions::from_bits_retain(options.bits() & 239)
}

// The options that a gateway keeps of a face's interest: AGGREGATE of no face of mode Peer, and of
// no interest in tokens.
fn kept_options(mode: WhatAmI, options: InterestOptions) -> InterestOptions
    ensures { result ≡ kept_options mode options }
{
    if mode == WhatAmI::Peer || asks_for_tokens(options) {
        without_aggregate(options)
    } else {
        options
    }
}

// An interest of a face, with the options that the gateway keeps.
fn interest_of<K: Key>(
    alloc: Global,
    f: &FaceState<K>,
    mode: InterestMode,
    options: InterestOptions,
    expr: &Option<K>,
) -> Result<RemoteInterest<K>, Memory>
    ensures { IfOk result (λ interest. interest
        ≡ row_of K.cmp K.matching f.now mode options expr.now) }
{
    let expr = copy_expression(expr, alloc)?;
    Ok(RemoteInterest::new(mode, kept_options(f.mode(), options), expr))
}

// A face asks.
fn interest<K: Key>(
    alloc: Global,
    g: &mut GatewayState<K>,
    speech: &mut Speech<K>,
    face: u32,
    id: InterestId,
    mode: InterestMode,
    options: InterestOptions,
    expr: &Option<K>,
) -> Result<(), Memory>
    ensures { OnOk result (Does K.cmp K.matching
        (parts_of K.cmp K.matching (plain.Interest face id mode options expr.now) g.old)
        g.old g.new speech.old speech.new) }
{
    let Some(f) = find_face(g, face) else {
        return Ok(());
    };
    let interest = interest_of(alloc, f, mode, options, expr)?;
    let asker = f.region();
    ask(alloc, g, speech, face, asker, id, &interest)
}

// A face ends an interest.
fn interest_final<K: Key>(
    alloc: Global,
    g: &mut GatewayState<K>,
    speech: &mut Speech<K>,
    face: u32,
    id: InterestId,
) -> Result<(), Memory>
    ensures { OnOk result (Does K.cmp K.matching
        (parts_of K.cmp K.matching (plain.InterestFinal face id) g.old)
        g.old g.new speech.old speech.new) }
{
    let Some(f) = find_face(g, face) else {
        return Ok(());
    };
    let Some(held) = f.held().at(id) else {
        return Ok(());
    };
    let interest = held.copy(alloc)?;
    finalise(alloc, g, speech, face, id, &interest)
}

// A face has answered what is there now.
fn final_from_north<K: Key>(
    alloc: Global,
    g: &mut GatewayState<K>,
    speech: &mut Speech<K>,
    face: u32,
    id: InterestId,
) -> Result<(), Memory>
    ensures { OnOk result (Does K.cmp K.matching
        (parts_of K.cmp K.matching (plain.DeclareFinal face id) g.old)
        g.old g.new speech.old speech.new) }
{
    let Some(f) = find_face(g, face) else {
        return Ok(());
    };
    let waits = f.pendings().has(id);
    declare_final(alloc, g, speech, face, id, waits)
}

// A face outside router regions leaves; nothing is said to it.
fn leave_silently<K: Key>(
    alloc: Global,
    g: &mut GatewayState<K>,
    speech: &mut Speech<K>,
    f: &FaceState<K>,
) -> Result<(), Memory>
    requires { speech.old.spared ≡ None }
    ensures { OnOk result (Does K.cmp K.matching
        (unsaid_to f.now.number (leaving K.cmp K.matching f.now.number f.now))
        g.old g.new speech.old speech.new) }
{
    speech.spared = Some(f.number());
    leave(alloc, g, speech, f)?;
    speech.spared = None;
    Ok(())
}

// A face leaves, without a word where its region is of routers.
fn leave_unless<K: Key>(
    alloc: Global,
    g: &mut GatewayState<K>,
    speech: &mut Speech<K>,
    is_routed: bool,
    f: &FaceState<K>,
) -> Result<(), Memory>
    requires { speech.old.spared ≡ None }
    ensures { OnOk result (Does K.cmp K.matching
        (leaving_unless K.cmp K.matching is_routed f.now.number f.now)
        g.old g.new speech.old speech.new) }
{
    if is_routed {
        Ok(())
    } else {
        leave_silently(alloc, g, speech, f)
    }
}

// A face that is open closes.
fn close_open<K: Key>(
    alloc: Global,
    g: &mut GatewayState<K>,
    speech: &mut Speech<K>,
    is_routed: bool,
    f: &FaceState<K>,
) -> Result<(), Memory>
    requires { speech.old.spared ≡ None }
    ensures { OnOk result (Does K.cmp K.matching
        (closing_if K.cmp K.matching is_routed f.now.number f.now)
        g.old g.new speech.old speech.new) }
{
    leave_unless(alloc, g, speech, is_routed, f)?;
    g.close(f.number());
    Ok(())
}

// A face closes.
fn close_face<K: Key>(
    alloc: Global,
    g: &mut GatewayState<K>,
    speech: &mut Speech<K>,
    face: u32,
) -> Result<(), Memory>
    requires { speech.old.spared ≡ None }
    ensures { OnOk result (Does K.cmp K.matching
        (parts_of K.cmp K.matching (plain.CloseFace face) g.old)
        g.old g.new speech.old speech.new) }
{
    let Some(f) = find_face(g, face) else {
        return Ok(());
    };
    let is_routed = is_routed(g, f);
    let f = f.copy(alloc)?;
    close_open(alloc, g, speech, is_routed, &f)
}

// Carries out a call that no face speaks: openings, what time ends, and what a gateway is handed.
fn carry_out_handed<K: Key>(
    alloc: Global,
    g: &mut GatewayState<K>,
    speech: &mut Speech<K>,
    call: &Call<K>,
) -> Result<(), Memory>
    requires room { opens_face (plain_call call.now) ≡ true → g.old.made + 1 < 2 ^ 32 }
    requires handed { is_spoken (plain_call call.now) ≡ false }
    ensures { OnOk result (Does K.cmp K.matching
        (parts_of K.cmp K.matching (plain_call call.now) g.old)
        g.old g.new speech.old speech.new) }
{
    match call {
        Call::NewSession { first } => g.open_session(alloc, *first),
        Call::NewTransport {
            zid,
            whatami,
            region,
            remote_bound,
            first,
        } => open(
            alloc,
            g,
            speech,
            *zid,
            *whatami,
            *region,
            *remote_bound,
            *first,
        ),
        Call::Expire { now } => expire(alloc, g, speech, *now),
        Call::SetTrees { region, table } => change_table(alloc, g, speech, *region, table),
        Call::SetEntities {
            face,
            subscribers,
            queryables,
        } => g.set_entities(alloc, *face, subscribers, queryables),
        _ => unreachable!(),
    }
}

// Carries out a call that a face speaks.
fn carry_out_spoken<K: Key>(
    alloc: Global,
    g: &mut GatewayState<K>,
    speech: &mut Speech<K>,
    call: &Call<K>,
) -> Result<(), Memory>
    requires spoken { is_spoken (plain_call call.now) ≡ true }
    requires unspared { speech.old.spared ≡ None }
    ensures { OnOk result (Does K.cmp K.matching
        (parts_of K.cmp K.matching (plain_call call.now) g.old)
        g.old g.new speech.old speech.new) }
{
    match call {
        Call::DeclareToken {
            face,
            id,
            expr,
            node_id,
            interest_id,
        } => declare_token(alloc, g, speech, *face, *id, expr, *node_id, *interest_id),
        Call::UndeclareToken {
            face,
            id,
            expr,
            node_id,
        } => undeclare_token(alloc, g, speech, *face, *id, expr, *node_id),
        Call::Interest {
            face,
            id,
            mode,
            options,
            expr,
        } => interest(alloc, g, speech, *face, *id, *mode, *options, expr),
        Call::InterestFinal { face, id } => interest_final(alloc, g, speech, *face, *id),
        Call::DeclareFinal { face, interest_id } => {
            final_from_north(alloc, g, speech, *face, *interest_id)
        }
        Call::CloseFace { face } => close_face(alloc, g, speech, *face),
        _ => unreachable!(),
    }
}

// Whether a face speaks the call.
fn is_spoken<K>(call: &Call<K>) -> bool
    ensures { result ≡ is_spoken (plain_call call.now) }
{
    match call {
        Call::DeclareToken { .. }
        | Call::UndeclareToken { .. }
        | Call::Interest { .. }
        | Call::InterestFinal { .. }
        | Call::DeclareFinal { .. }
        | Call::CloseFace { .. } => true,
        _ => false,
    }
}

// Carries out a call.
fn do_parts<K: Key>(
    alloc: Global,
    g: &mut GatewayState<K>,
    speech: &mut Speech<K>,
    call: &Call<K>,
) -> Result<(), Memory>
    requires room { opens_face (plain_call call.now) ≡ true → g.old.made + 1 < 2 ^ 32 }
    requires unspared { speech.old.spared ≡ None }
    ensures { OnOk result (Does K.cmp K.matching
        (parts_of K.cmp K.matching (plain_call call.now) g.old)
        g.old g.new speech.old speech.new) }
{
    if is_spoken(call) {
        carry_out_spoken(alloc, g, speech, call)
    } else {
        carry_out_handed(alloc, g, speech, call)
    }
}

/// Carries out a call that nothing refuses, and answers its messages in the order sent, each with
/// the number of its face. After an error the gateway may be left in between: the caller drops it,
/// and has another that is as before. Ids that run out count as out of memory; a call that would
/// need so many is refused.
pub fn carry_out<K: Key>(
    alloc: Global,
    g: &mut GatewayState<K>,
    call: &Call<K>,
) -> Result<Vec<(u32, Message<K>)>, Memory>
    requires { opens_face (plain_call call.now) ≡ true → g.old.made + 1 < 2 ^ 32 }
    ensures rows { OnOk result (g.new
        ≡ rows_after_call K.cmp K.matching (plain_call call.now) g.old) }
    ensures sends { IfOk result (λ sends. sends.items
        ≡ said K.cmp K.matching (plain_call call.now) g.old) }
{
    let mut speech = Speech {
        said: Vec::new(alloc),
        spared: None,
    };
    do_parts(alloc, g, &mut speech, call)?;
    Ok(speech.said)
}
