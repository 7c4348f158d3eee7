// What finals are wrong in a turn.
use std::alloc::Global;
use zt_breaks::{Ending as WrongEnding, FaceNumber, Finding};
use zt_check_fabric::ShownFabric;
use zt_check_faces::{ShownAsk, ShownFace};
use zt_check_finals::{
    Ending, finals_in, is_final_of_some, is_that, nothing_follows, stands_after,
};
use zt_check_rows::ShownRows;
use zt_keys::{Key, Memory};
use zt_protocol::{Message, Sent};

// The first of an ask's pendings that stands once the messages are heard, by its face in the script
// and its id.
fn unfinished<'a, K: Key>(
    fabric: &ShownFabric<'a, K>,
    gateway: u32,
    rows: &ShownRows<K>,
    sents: &[Sent<K>],
    ask: &ShownAsk<K>,
) -> Option<(u64, u32)> {
    for pending in ask.pendings() {
        if stands_after(fabric, gateway, rows, sents, *pending) {
            return Some((fabric.number_of_place(gateway, pending.0), pending.1));
        }
    }
    None
}

// How the final of an ask is wrong, of which so many are printed.
fn wrong_ending(
    unfinished: Option<(u64, u32)>,
    is_ended: bool,
    finals: usize,
) -> Option<WrongEnding> {
    match unfinished {
        Some((face, interest)) if !is_ended => {
            if finals == 0 {
                return None;
            }
            Some(WrongEnding::Early { face, interest })
        }
        _ => match finals {
            0 => Some(WrongEnding::Missing),
            1 => None,
            _ => Some(WrongEnding::Doubled),
        },
    }
}

// Adds the asks of a face whose finals are wrong.
fn add_of_face<'a, K: Key>(
    findings: &mut Vec<Finding<K>>,
    fabric: &ShownFabric<'a, K>,
    ending: &Ending,
    sents: &[Sent<K>],
    at: FaceNumber,
    rows: &ShownRows<K>,
    face: &ShownFace<K>,
) -> Result<(), Memory> {
    for row in face.asks() {
        let unfinished = unfinished(fabric, at.gateway, rows, sents, &row.1);
        let is_ended = row.1.interest().mode().is_future()
            && is_that(ending.finalised, at.gateway, face.number(), row.0);
        let finals = finals_in(sents, at.face, row.0);
        if let Some(wrong) = wrong_ending(unfinished, is_ended, finals) {
            findings.push(Finding::Finished {
                at,
                interest: row.0,
                ending: wrong,
            })?;
        }
    }
    Ok(())
}

// Adds the asks whose finals are wrong.
fn add_of_asks<'a, K: Key>(
    findings: &mut Vec<Finding<K>>,
    fabric: &ShownFabric<'a, K>,
    ending: &Ending,
    sents: &[Sent<K>],
) -> Result<(), Memory> {
    let places = fabric.faces();
    for index in 0..places.len() {
        let place = &places[index];
        let at = FaceNumber {
            gateway: place.gateway(),
            face: index as u64 + 1,
        };
        if let Some(node) = fabric.node(place.gateway()) {
            if let Some(face) = node.rows().face(place.face()) {
                add_of_face(findings, fabric, ending, sents, at, node.rows(), face)?;
            }
        }
    }
    Ok(())
}

// How a message that is a final is wrong by itself, before the later ones.
fn wrong_final<'a, K: Key>(
    fabric: &ShownFabric<'a, K>,
    unopened: &[u32],
    sent: &Sent<K>,
    later: &[Sent<K>],
) -> Option<WrongEnding> {
    if !is_final_of_some(fabric, unopened, sent) {
        return Some(WrongEnding::Nobodys);
    }
    if !nothing_follows(fabric, sent, later) {
        return Some(WrongEnding::Followed);
    }
    None
}

// Adds the finals that are nobody's, and those that answers follow.
fn add_of_messages<'a, K: Key>(
    findings: &mut Vec<Finding<K>>,
    fabric: &ShownFabric<'a, K>,
    unopened: &[u32],
    sents: &[Sent<K>],
) -> Result<(), Memory> {
    for place in 0..sents.len() {
        let sent = &sents[place];
        if let Message::DeclareFinal { interest_id } = &sent.message {
            if let Some(ending) = wrong_final(fabric, unopened, sent, &sents[place + 1..]) {
                findings.push(Finding::Finished {
                    at: FaceNumber {
                        gateway: sent.gateway,
                        face: u64::from(sent.face),
                    },
                    interest: *interest_id,
                    ending,
                })?;
            }
        }
    }
    Ok(())
}

/// What finals are wrong. The fabric is that with what the line itself changes, and doesn't hear
/// its messages yet.
pub(crate) fn wrongly_finished<'a, K: Key>(
    alloc: Global,
    fabric: &ShownFabric<'a, K>,
    ending: &Ending,
    sents: &[Sent<K>],
) -> Result<Vec<Finding<K>>, Memory> {
    let mut findings = Vec::new(alloc);
    add_of_asks(&mut findings, fabric, ending, sents)?;
    add_of_messages(&mut findings, fabric, ending.unopened.as_slice(), sents)?;
    Ok(findings)
}
