// Which faces tokens go on to: looked up by the routers behind them, so that no others are visited.
ghost use Rattle.std.specs.Prelude.{◌≡◌, false, [], IfOk, OnOk};
ghost use Rattle.zt_model.specs.Parts.{to_each};
ghost use Rattle.zt_model.specs.Rows.{Face};
ghost use Rattle.zt_routers.specs.Reached.{IsInOrder, KeepsAll, Notes, are_at_children, has};
ghost use Rattle.zt_routers.specs.Reached.{is_at_child};

use std::alloc::Global;
use zt_keys::{Key, Memory};
use zt_protocol::Message;
use zt_region::{Region, Zid};
use zt_state::GatewayState;
use zt_tokens::{FaceRule, say_at, say_each};

// Adds the number of the face that stands for a child in a region, if one does.
pub(crate) fn note_child<K: Key>(
    g: &GatewayState<K>,
    region: Region,
    child: &(Zid, Zid),
    numbers: &mut Vec<u32>,
) -> Result<(), Memory>
    ensures { OnOk result (Notes (is_at_child g.now region child.now)
        numbers.old.items numbers.new.items) }
{
    if let Some(f) = g.find_face_of(region, child.1) {
        numbers.push(f.number())?;
    }
    Ok(())
}

// Adds the numbers of the faces that stand for children in a region.
pub(crate) fn note_children<K: Key>(
    g: &GatewayState<K>,
    region: Region,
    children: &[(Zid, Zid)],
    numbers: &mut Vec<u32>,
) -> Result<(), Memory>
    ensures { OnOk result (Notes (are_at_children g.now region children.now)
        numbers.old.items numbers.new.items) }
{
    for child in children {
        note_child(g, region, child, numbers)?;
    }
    Ok(())
}

// Puts numbers in order, each once.
fn put_in_order(numbers: &mut Vec<u32>)
    ensures in_order { IsInOrder numbers.new.items }
    ensures kept { KeepsAll numbers.old.items numbers.new.items }
{
    numbers.sort_unstable();
    numbers.dedup();
}

/// What each face is sent by a rule that gives nothing to faces of other numbers than these.
pub(crate) fn say_among<K: Key, R: FaceRule<K>>(
    alloc: Global,
    g: &GatewayState<K>,
    mut numbers: Vec<u32>,
    rule: &R,
) -> Result<Vec<(u32, Message<K>)>, Memory>
    requires { (f : Face K) → has f.number numbers.items ≡ false → R.given rule.now g.now f ≡ [] }
    ensures { IfOk result (λ sends. sends.items
        ≡ to_each (R.given rule.now g.now) g.now.faces) }
{
    put_in_order(&mut numbers);
    let _north = g.north();
    say_at(alloc, g, &numbers, rule)
}

/// What each face is sent by a rule that gives nothing to faces but those that stand for these
/// children in a region.
pub(crate) fn say_to_children<K: Key, R: FaceRule<K>>(
    alloc: Global,
    g: &GatewayState<K>,
    region: Region,
    children: &[(Zid, Zid)],
    rule: &R,
) -> Result<Vec<(u32, Message<K>)>, Memory>
    requires { (f : Face K) → are_at_children g.now region children.now f ≡ false →
        R.given rule.now g.now f ≡ [] }
    ensures { IfOk result (λ sends. sends.items
        ≡ to_each (R.given rule.now g.now) g.now.faces) }
{
    // With more children than faces a walk over the faces is shorter.
    if children.len() > g.faces().places() {
        return say_each(alloc, g, rule);
    }
    let mut numbers = Vec::new(alloc);
    note_children(g, region, children, &mut numbers)?;
    say_among(alloc, g, numbers, rule)
}
