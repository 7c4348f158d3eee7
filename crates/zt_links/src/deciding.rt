// The first cause of a line, by its kind.
ghost use Rattle.std.specs.Prelude.{◌≡◌, not, IfOk};
ghost use Rattle.zt_protocol.specs.Plain.{Unlink, plain_line};
ghost use Rattle.zt_model.specs.Fabric.{call_of};
ghost use Rattle.zt_laws.specs.Order.{FabricIsInOrder};
ghost use Rattle.zt_links.specs.Lines.{cause_of_line, made_at};

use crate::calls::CallMade;
use crate::causes::{
    cause_at_gateway, face_cause, gateway_cause, session_cause, speak_cause, step_cause,
};
use crate::link_causes::link_cause;
use std::alloc::Global;
use zt_fabric_state::{FabricState, is_open_link};
use zt_keys::{Key, Memory};
use zt_protocol::{Line, Refusal};

/// Why a link isn't closed.
#[tactic(auto, using(crate::proofs::Refusing::unlink_cause))]
fn unlink_cause<K: Key>(s: &FabricState<K>, link: u32) -> Option<Refusal>
    ensures { result ≡ cause_of_line K.cmp K.matching (Unlink link) s.now }
{
    if is_open_link(s, link) {
        None
    } else {
        Some(Refusal::UnknownLink)
    }
}

/// Why a line is refused; `made` is its call.
pub(crate) fn cause_of_line<K: Key>(
    alloc: Global,
    s: &FabricState<K>,
    line: &Line<K>,
    made: &Option<CallMade<K>>,
) -> Result<Option<Refusal>, Memory>
    requires call { made_at s.now made.now ≡ call_of (plain_line line.now) s.now }
    requires order { FabricIsInOrder K.cmp K.matching s.now }
    ensures { IfOk result (λ cause. cause
        ≡ cause_of_line K.cmp K.matching (plain_line line.now) s.now) }
{
    match line {
        Line::Gateway {
            mode,
            regions,
            refuse,
            ..
        } => Ok(gateway_cause(s, *mode, regions.as_slice(), refuse)),
        Line::Session { gateway, .. } => Ok(session_cause(s, *gateway)),
        Line::Face { gateway, .. } => face_cause(alloc, s, *gateway, made),
        Line::Link {
            one,
            two,
            first,
            back,
        } => link_cause(alloc, s, *one, *two, *first, *back),
        Line::Unlink { link } => Ok(unlink_cause(s, *link)),
        Line::Step { link, back } => step_cause(alloc, s, *link, *back, made),
        Line::Speak { call } => speak_cause(alloc, s, call, made),
        Line::Moment { gateway, .. } => cause_at_gateway(alloc, s, *gateway, made),
        Line::Trees { gateway, .. } => cause_at_gateway(alloc, s, *gateway, made),
    }
}
