//! A fabric of gateways and the links between them.
ghost use Rattle.std.specs.Prelude.{◌≡◌, true, IfOk, IfSome, OnErr};
ghost use Rattle.zt_model.specs.Fabric.{after_refusal, call_of, empty_fabric, entry_of};
ghost use Rattle.zt_model.specs.Fabric.{fabric_after};
ghost use Rattle.zt_protocol.specs.Plain.{plain_entry, plain_line};
ghost use Rattle.zt_laws.specs.Order.{FabricIsInOrder};
ghost use Rattle.zt_laws.specs.Sound.{HasFirstIds, opens_face};
ghost use Rattle.zt_links.specs.Lines.{is_opening, made_at};

use crate::accepting::{accept, taken_of};
use crate::calls::{CallMade, call_of_line};
use crate::deciding::cause_of_line;
use std::alloc::Global;
use std::marker::Model;
use zt_fabric_state::{FabricState, take_message};
use zt_keys::{Key, Memory};
use zt_protocol::{Entry, Line, Refusal};

/// Gateways with their faces and the links between them, on which the lines of a script are carried
/// out. Gateways, links, and the faces of all gateways, are numbered from 1 in order of making.
#[derive(Drop)]
pub struct Fabric<K: Key> {
    alloc: Global,
    state: FabricState<K>,
}

impl<K: Key> Model for Fabric<K> {
    ghost use Rattle.zt_model.specs.Fabric.{Fabric as FabricOfModel};
    ghost use Rattle.zt_laws.specs.Order.{FabricIsInOrder as IsInOrder};

    ghost Value = { FabricOfModel K };

    ghost view = { λ fabric. fabric.state };

    ghost invariant = { λ fabric. IsInOrder K.cmp K.matching fabric.state };
}

impl<K: Key> Fabric<K> {
    /// A fabric without gateways.
    pub fn new(alloc: Global) -> Self
        ensures { result ≡ empty_fabric }
    {
        Fabric {
            alloc,
            state: FabricState::new(alloc),
        }
    }

    /// Carries out one line, and answers its entry: the messages that are sent, in order of face,
    /// or why the line is refused. A refusal changes nothing, but that a message whose call is
    /// refused has left its link. The first id of a face is at least 1. After an error
    /// nothing is changed.
    pub fn step_line(&mut self, line: &Line<K>) -> Result<Entry<K>, Memory>
        requires { HasFirstIds (plain_line line.now) }
        ensures entry { IfOk result (λ entry. plain_entry entry
            ≡ entry_of K.cmp K.matching (plain_line line.now) self.old) }
        ensures ok { IfOk result (λ entry. self.new
            ≡ fabric_after K.cmp K.matching (plain_line line.now) (plain_entry entry) self.old) }
        ensures err { OnErr result (self.new ≡ self.old) }
    {
        carry_out(self.alloc, &mut self.state, line)
    }
}

/// What a refused line changes: a message whose call is refused has left its link.
fn refuse<K: Key>(s: &mut FabricState<K>, line: &Line<K>, refusal: Refusal)
    ensures { s.new ≡ after_refusal K.cmp K.matching (plain_line line.now) refusal s.old }
{
    match line {
        Line::Step { link, back } if refusal.number() > 3 => {
            let taken = taken_of(s, *link, *back);
            take_message(s, taken);
        }
        _ => {}
    }
}

/// Carries out a line. After an error nothing is changed, and what a gateway lost by it is brought
/// back before the next line.
fn carry_out<K: Key>(
    alloc: Global,
    s: &mut FabricState<K>,
    line: &Line<K>,
) -> Result<Entry<K>, Memory>
    requires ids { HasFirstIds (plain_line line.now) }
    requires order { FabricIsInOrder K.cmp K.matching s.old }
    ensures entry { IfOk result (λ entry. plain_entry entry
        ≡ entry_of K.cmp K.matching (plain_line line.now) s.old) }
    ensures ok { IfOk result (λ entry. s.new
        ≡ fabric_after K.cmp K.matching (plain_line line.now) (plain_entry entry) s.old) }
    ensures err { OnErr result (s.new ≡ s.old) }
{
    s.restore(alloc)?;
    let made = call_of_line(alloc, s, line)?;
    carry_made(alloc, s, line, &made)
}

/// Carries out a line whose call is `made`. After an error nothing is changed.
fn carry_made<K: Key>(
    alloc: Global,
    s: &mut FabricState<K>,
    line: &Line<K>,
    made: &Option<CallMade<K>>,
) -> Result<Entry<K>, Memory>
    requires ids { HasFirstIds (plain_line line.now) }
    requires call { made_at s.old made.now ≡ call_of (plain_line line.now) s.old }
    requires opens { IfSome made.now (λ m. opens_face m.1 ≡ is_opening (plain_line line.now)) }
    requires order { FabricIsInOrder K.cmp K.matching s.old }
    ensures entry { IfOk result (λ entry. plain_entry entry
        ≡ entry_of K.cmp K.matching (plain_line line.now) s.old) }
    ensures ok { IfOk result (λ entry. s.new
        ≡ fabric_after K.cmp K.matching (plain_line line.now) (plain_entry entry) s.old) }
    ensures err { OnErr result (s.new ≡ s.old) }
{
    match cause_of_line(alloc, s, line, made)? {
        Some(refusal) => {
            refuse(s, line, refusal);
            Ok(Entry {
                outcome: Err(refusal),
            })
        }
        None => {
            let sent = accept(alloc, s, line, made)?;
            Ok(Entry { outcome: Ok(sent) })
        }
    }
}
