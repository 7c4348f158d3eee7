// What asks are answered wrongly in a turn.
use std::alloc::Global;
use zt_breaks::{Answer, FaceNumber, Finding};
use zt_check_asks::{Told, answers_in, declared_for, is_made};
use zt_check_fabric::ShownFabric;
use zt_check_faces::{ShownAsk, ShownFace, is_among};
use zt_check_keeping::{has_tokens, is_about, is_seen, sees};
use zt_check_rows::ShownRows;
use zt_keys::{Key, Memory};

// An ask, with its face and the rows of its gateway.
#[derive(Drop)]
struct AskAt<'c, K: Key> {
    at: FaceNumber,
    rows: &'c ShownRows<K>,
    face: &'c ShownFace<K>,
    id: u32,
    ask: &'c ShownAsk<K>,
}

// Whether the turn makes the ask.
fn makes<'b, 'c, K: Key>(told: &Told<'b, K>, ask: &AskAt<'c, K>) -> bool {
    is_made(told, ask.at.gateway, ask.face.number(), ask.id)
}

// What the turn's token declares in answer to what the ask sent upstream.
fn declared_to<'b, 'c, K: Key>(told: &Told<'b, K>, ask: &AskAt<'c, K>) -> Option<&'b K> {
    declared_for(told, ask.at.gateway, ask.ask)
}

// How an answer to an ask that the turn makes is wrong.
fn wrong_at_once<'c, K: Key>(ask: &AskAt<'c, K>, expr: &K) -> Option<Answer> {
    if !is_about(ask.ask.interest().expr(), expr) {
        return Some(Answer::Unasked);
    }
    if !is_seen(ask.rows, ask.face.region(), expr) {
        return Some(Answer::Unseen);
    }
    None
}

// How an answer to an ask that stood is wrong.
fn wrong_later<'b, 'c, K: Key>(told: &Told<'b, K>, ask: &AskAt<'c, K>, expr: &K) -> Option<Answer> {
    match declared_to(told, ask) {
        Some(declared) if *declared == *expr => None,
        _ => Some(Answer::Undeclared),
    }
}

// How an answer is wrong, behind the earlier ones of the turn.
fn wrong_answer<'b, 'c, K: Key>(
    told: &Told<'b, K>,
    ask: &AskAt<'c, K>,
    expr: &K,
    earlier: &[K],
) -> Option<Answer> {
    if is_among(expr, ask.ask.answered()) || is_among(expr, earlier) {
        return Some(Answer::Repeated);
    }
    if makes(told, ask) {
        wrong_at_once(ask, expr)
    } else {
        wrong_later(told, ask, expr)
    }
}

// Adds that an ask is answered an expression wrongly.
fn add<'c, K: Key>(
    alloc: Global,
    findings: &mut Vec<Finding<K>>,
    ask: &AskAt<'c, K>,
    expr: &K,
    answer: Answer,
) -> Result<(), Memory> {
    findings.push(Finding::Answered {
        at: ask.at,
        interest: ask.id,
        expr: expr.copy(alloc)?,
        answer,
    })?;
    Ok(())
}

// Adds that an ask isn't answered an expression, where it asks for it.
fn add_unanswered<'c, K: Key>(
    alloc: Global,
    findings: &mut Vec<Finding<K>>,
    ask: &AskAt<'c, K>,
    expr: &K,
    answers: &[K],
    answer: Answer,
) -> Result<(), Memory> {
    if !is_about(ask.ask.interest().expr(), expr) || is_among(expr, answers) {
        return Ok(());
    }
    add(alloc, findings, ask, expr, answer)
}

// Adds what of all that is seen an ask isn't answered that the turn makes.
fn add_unseen_to<'c, K: Key>(
    alloc: Global,
    findings: &mut Vec<Finding<K>>,
    ask: &AskAt<'c, K>,
    answers: &[K],
) -> Result<(), Memory> {
    let own = ask.face.region();
    for source in ask.rows.faces() {
        if sees(own, source.region()) {
            for row in source.live() {
                add_unanswered(alloc, findings, ask, &row.1, answers, Answer::Unanswered)?;
            }
        }
    }
    for row in ask.rows.routed() {
        if row.source() != ask.rows.zid() && sees(own, row.region()) {
            add_unanswered(
                alloc,
                findings,
                ask,
                row.expr(),
                answers,
                Answer::Unanswered,
            )?;
        }
    }
    Ok(())
}

// Adds what an ask isn't answered.
fn add_missing<'b, 'c, K: Key>(
    alloc: Global,
    findings: &mut Vec<Finding<K>>,
    told: &Told<'b, K>,
    ask: &AskAt<'c, K>,
    answers: &[K],
) -> Result<(), Memory> {
    if makes(told, ask) {
        return add_unseen_to(alloc, findings, ask, answers);
    }
    match declared_to(told, ask) {
        Some(expr) if !is_among(expr, ask.ask.answered()) => {
            add_unanswered(alloc, findings, ask, expr, answers, Answer::NotPassedOn)
        }
        _ => Ok(()),
    }
}

// Adds what an ask is answered wrongly.
fn add_of_ask<'b, 'c, K: Key>(
    alloc: Global,
    findings: &mut Vec<Finding<K>>,
    told: &Told<'b, K>,
    ask: &AskAt<'c, K>,
) -> Result<(), Memory> {
    if !has_tokens(ask.ask.interest()) {
        return Ok(());
    }
    let answers = answers_in(alloc, told.sents(), ask.at.face, ask.id)?;
    for place in 0..answers.len() {
        let expr = &answers[place];
        if let Some(answer) = wrong_answer(told, ask, expr, &answers[..place]) {
            add(alloc, findings, ask, expr, answer)?;
        }
    }
    add_missing(alloc, findings, told, ask, answers.as_slice())
}

/// What asks are answered wrongly. The fabric is that with what the line itself changes, and
/// doesn't hear its messages yet.
pub(crate) fn wrongly_answered<'a, 'b, K: Key>(
    alloc: Global,
    fabric: &ShownFabric<'a, K>,
    told: &Told<'b, K>,
) -> Result<Vec<Finding<K>>, Memory> {
    let mut findings = Vec::new(alloc);
    let places = fabric.faces();
    for index in 0..places.len() {
        let place = &places[index];
        let at = FaceNumber {
            gateway: place.gateway(),
            face: index as u64 + 1,
        };
        let Some(node) = fabric.node(place.gateway()) else {
            continue;
        };
        let rows = node.rows();
        let Some(face) = rows.face(place.face()) else {
            continue;
        };
        for row in face.asks() {
            let ask = AskAt {
                at,
                rows,
                face,
                id: row.0,
                ask: &row.1,
            };
            add_of_ask(alloc, &mut findings, told, &ask)?;
        }
    }
    Ok(findings)
}
