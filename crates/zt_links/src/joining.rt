// Links that are made between two gateways.
ghost use Rattle.std.specs.Prelude.{◌≡◌, ◌≤◌, None, Ok, IfOk, OnErr, option_map};
ghost use Rattle.zt_model.specs.Fabric.{fabric_after, said_by_line, sorted_by_face};
ghost use Rattle.zt_model.specs.Lists.{nth};
ghost use Rattle.zt_protocol.specs.Plain.{Link as LinkLine, plain_call};
ghost use Rattle.zt_laws.specs.Order.{FabricIsInOrder};
ghost use Rattle.zt_links.specs.Lines.{cause_of_line, opening_call};

use crate::linking::{end_call, end_region, make_link};
use std::alloc::Global;
use zt_fabric_state::{FabricState, member_at};
use zt_keys::{Key, Memory};
use zt_protocol::{Call, Sent};

/// The call that opens the face of a gateway to another, where both exist and it has a region.
fn opening_call<K: Key>(
    alloc: Global,
    s: &FabricState<K>,
    own: u32,
    other: u32,
    first: u32,
) -> Result<Option<Call<K>>, Memory>
    ensures { IfOk result (λ call. option_map plain_call call
        ≡ opening_call (nth own s.now.gateways) (nth other s.now.gateways) first) }
{
    let Some(node) = member_at(s.gateways(), own) else {
        return Ok(None);
    };
    let Some(beyond) = member_at(s.gateways(), other) else {
        return Ok(None);
    };
    let answer = end_region(alloc, node, beyond)?;
    end_call(&answer, beyond, first)
}

/// Opens the faces of an accepted link, and makes the link. After an error nothing is changed.
pub(crate) fn link<K: Key>(
    alloc: Global,
    s: &mut FabricState<K>,
    one: u32,
    two: u32,
    first: u32,
    back: u32,
) -> Result<Vec<Sent<K>>, Memory>
    requires accepted { cause_of_line K.cmp K.matching (LinkLine one two first back) s.old ≡ None }
    requires first_id { 1 ≤ first }
    requires back_id { 1 ≤ back }
    requires order { FabricIsInOrder K.cmp K.matching s.old }
    ensures says { IfOk result (λ sent. sent.items
        ≡ sorted_by_face (said_by_line K.cmp K.matching (LinkLine one two first back) s.old)) }
    ensures does { IfOk result (λ sent. s.new
        ≡ fabric_after K.cmp K.matching (LinkLine one two first back) (Ok sent.items) s.old) }
    ensures err { OnErr result (s.new ≡ s.old) }
{
    let Some(forth) = opening_call(alloc, s, one, two, first)? else {
        unreachable!();
    };
    let Some(answer) = opening_call(alloc, s, two, one, back)? else {
        unreachable!();
    };
    make_link(alloc, s, one, &forth, two, &answer)
}
