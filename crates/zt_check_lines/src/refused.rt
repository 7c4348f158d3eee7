// Whether an entry refuses a line exactly where it has a cause, and by that cause.
ghost use Rattle.std.specs.Prelude.{◌≡◌, IfOk};
ghost use Rattle.std.specs.Bool.{Decides};
ghost use Rattle.std.specs.List.{list_any};
ghost use Rattle.zt_protocol.specs.Plain.{plain_entry, plain_line};
ghost use Rattle.zt_protocol.specs.declared.errors.Refusal.TheVariants.{IdsSpent};
ghost use Rattle.zt_model.specs.Lists.{is_some_and};
ghost use Rattle.zt_model.specs.Transcript.{IsRefusedByCause, comes_to_ids};
ghost use Rattle.zt_model.specs.Transcript.{line_may_lack_ids};
ghost use Rattle.zt_check_lines.specs.Lines.{has_face_that_may_lack, is_refused_by, is_same};

use crate::lines::line_cause;
use std::alloc::Global;
use zt_check_causes::may_lack_ids;
use zt_check_fabric::{ShownFabric, ShownNode};
use zt_keys::{Key, Memory};
use zt_protocol::{Entry, Line, Refusal};

// Whether no cause is tried before the want of ids.
fn comes_to_ids(cause: Option<Refusal>) -> bool
    ensures { result ≡ comes_to_ids cause }
{
    match cause {
        None => true,
        Some(refusal) => 24 < refusal.number(),
    }
}

// Whether this is the cause.
fn is_cause(cause: Option<Refusal>, refusal: Refusal) -> bool
    ensures { result ≡ is_some_and cause (is_same refusal) }
{
    match cause {
        None => false,
        Some(cause) => refusal.number() == cause.number(),
    }
}

// Whether a refusal says that too few ids are left.
fn is_want_of_ids(refusal: Refusal) -> bool
    ensures { result ≡ is_same refusal IdsSpent }
{
    refusal.number() == 24
}

// Whether some face of these gateways may have too few ids left.
fn may_any_lack<'a, K: Key>(alloc: Global, nodes: &[ShownNode<'a, K>]) -> Result<bool, Memory>
    ensures { IfOk result (λ lack. lack
        ≡ list_any (has_face_that_may_lack K.cmp K.matching) nodes.now) }
{
    for node in nodes {
        if may_lack_ids(alloc, node.rows())? {
            return Ok(true);
        }
    }
    Ok(false)
}

// Whether some face may have too few ids left once a line is carried out.
fn may_line_lack_ids<'a, K: Key>(
    alloc: Global,
    fabric: &ShownFabric<'a, K>,
    line: &'a Line<K>,
) -> Result<bool, Memory>
    ensures { IfOk result (λ lack. lack
        ≡ line_may_lack_ids K.cmp K.matching (plain_line line.now) fabric.now) }
{
    let mut after = fabric.copy(alloc)?;
    let unprinted = Vec::new(alloc);
    after.carry_out(alloc, line, &unprinted)?;
    may_any_lack(alloc, after.gateways())
}

// Whether a line is refused by this cause, where `cause` is its first if enough ids are left.
fn is_refused_by<'a, K: Key>(
    alloc: Global,
    fabric: &ShownFabric<'a, K>,
    line: &'a Line<K>,
    cause: Option<Refusal>,
    refusal: Refusal,
) -> Result<bool, Memory>
    ensures { IfOk result (λ refused. refused
        ≡ is_refused_by K.cmp K.matching (plain_line line.now) fabric.now cause refusal) }
{
    if is_cause(cause, refusal) {
        return Ok(true);
    }
    if !is_want_of_ids(refusal) {
        return Ok(false);
    }
    if !comes_to_ids(cause) {
        return Ok(false);
    }
    may_line_lack_ids(alloc, fabric, line)
}

/// Whether a line's entry refuses it exactly where the line has a cause, and by that cause. That
/// too few ids are left is read by what the line could draw at the most.
pub fn is_refused_by_cause<'a, K: Key>(
    alloc: Global,
    fabric: &ShownFabric<'a, K>,
    line: &'a Line<K>,
    entry: &Entry<K>,
) -> Result<bool, Memory>
    ensures { IfOk result (λ refused. Decides refused
        (IsRefusedByCause K.cmp K.matching
        (plain_line line.now) (plain_entry entry.now) fabric.now)) }
{
    let cause = line_cause(alloc, fabric, line)?;
    match &entry.outcome {
        Ok(_) => Ok(cause.is_none()),
        Err(refusal) => is_refused_by(alloc, fabric, line, cause, *refusal),
    }
}
