// Faces that are new among a source's children.
ghost use Rattle.std.specs.Prelude.{◌≡◌, ◌++◌, IfOk, OnOk, map};
ghost use Rattle.std.specs.List.{flat_map};
ghost use Rattle.zt_model.specs.Parts.{to_each};
ghost use Rattle.zt_model.specs.Trees.{counted_table, greet_to, routers_in_order};
ghost use Rattle.zt_routers.specs.Greeting.{declared, greeted, greeted_by, is_new_child};
ghost use Rattle.zt_routers.specs.Reached.{Notes, are_at_new_children, is_at_new_child};

use crate::ordering::routed_expressions;
use crate::passing::is_face_of_router;
use crate::reaching::{note_child, say_among};
use crate::tables::table_in;
use std::alloc::Global;
use zt_keys::{Key, Memory};
use zt_link_state::KeptTable;
use zt_protocol::Message;
use zt_region::{NodeId, Region, Zid};
use zt_state::{FaceState, GatewayState};
use zt_tokens::FaceRule;

// Adds that the tokens are declared to the face, under the node id.
fn declare<K: Key>(
    alloc: Global,
    exprs: &[K],
    node_id: NodeId,
    f: &FaceState<K>,
    sends: &mut Vec<(u32, Message<K>)>,
) -> Result<(), Memory>
    ensures { OnOk result (sends.new.items ≡ sends.old.items
        ++ map (λ m. (f.now.number, m)) (declared node_id exprs.now)) }
{
    for expr in exprs {
        let message = Message::DeclareToken {
            id: 0,
            expr: expr.copy(alloc)?,
            interest_id: None,
            node_id,
        };
        sends.push((f.number(), message))?;
    }
    Ok(())
}

// Whether the router is new among the source's children, by the table that counts now and the one
// that counted before.
fn is_new_child(source: Zid, router: Zid, table: &KeptTable, before: &KeptTable) -> bool
    ensures { result
        ≡ is_new_child source router (counted_table table.now) (counted_table before.now) }
{
    table.has_child(source, router) && !before.has_child(source, router)
}

// Adds what the face is told of the tokens of one router.
fn greet_from<K: Key>(
    alloc: Global,
    g: &GatewayState<K>,
    region: Region,
    table: &KeptTable,
    before: &KeptTable,
    router: &(NodeId, Zid),
    f: &FaceState<K>,
    sends: &mut Vec<(u32, Message<K>)>,
) -> Result<(), Memory>
    ensures { OnOk result (sends.new.items ≡ sends.old.items
        ++ map (λ m. (f.now.number, m)) (greeted K.cmp g.now region
        (counted_table table.now) (counted_table before.now) f.now router.now)) }
{
    if is_new_child(router.1, f.zid(), table, before) {
        let exprs = routed_expressions(alloc, g, region, router.1)?;
        declare(alloc, &exprs, router.0, f, sends)?;
    }
    Ok(())
}

// Adds what the face is told of the tokens of each router.
fn greet_from_each<K: Key>(
    alloc: Global,
    g: &GatewayState<K>,
    region: Region,
    table: &KeptTable,
    before: &KeptTable,
    f: &FaceState<K>,
    sends: &mut Vec<(u32, Message<K>)>,
) -> Result<(), Memory>
    ensures { OnOk result (sends.new.items ≡ sends.old.items
        ++ map (λ m. (f.now.number, m)) (flat_map (greeted K.cmp g.now region
        (counted_table table.now) (counted_table before.now) f.now)
        (routers_in_order K.cmp (counted_table table.now)))) }
{
    for router in table.routers_in_order() {
        greet_from(alloc, g, region, table, before, router, f, sends)?;
    }
    Ok(())
}

// Adds what the face is told, by the table of the region and the one that counted before.
fn greet_to<K: Key>(
    alloc: Global,
    g: &GatewayState<K>,
    region: Region,
    table: &KeptTable,
    before: &KeptTable,
    f: &FaceState<K>,
    sends: &mut Vec<(u32, Message<K>)>,
) -> Result<(), Memory>
    ensures { OnOk result (sends.new.items ≡ sends.old.items
        ++ map (λ m. (f.now.number, m)) (greeted_by
        K.cmp g.now region (counted_table table.now) (counted_table before.now) f.now)) }
{
    if f.region() == region && is_face_of_router(g, f) {
        greet_from_each(alloc, g, region, table, before, f, sends)?;
    }
    Ok(())
}

// What the faces of a region are told, by its table and the one that counted before.
#[derive(Drop)]
struct Greets<'a> {
    region: Region,
    table: &'a KeptTable,
    before: &'a KeptTable,
}

impl<'a, K: Key> FaceRule<K> for Greets<'a> {
    ghost use Rattle.zt_model.specs.Trees.{counted_table};
    ghost use Rattle.zt_routers.specs.Greeting.{greeted_by};

    ghost given = { λ r g. greeted_by
        K.cmp g r.region (counted_table r.table.now) (counted_table r.before.now) };

    fn say(
        &self,
        alloc: Global,
        g: &GatewayState<K>,
        f: &FaceState<K>,
        sends: &mut Vec<(u32, Message<K>)>,
    ) -> Result<(), Memory> {
        greet_to(alloc, g, self.region, self.table, self.before, f, sends)
    }
}

// Adds the number of the face that stands for a child in a region, if one does and the child is
// new.
fn note_new_child<K: Key>(
    g: &GatewayState<K>,
    region: Region,
    before: &KeptTable,
    child: &(Zid, Zid),
    numbers: &mut Vec<u32>,
) -> Result<(), Memory>
    ensures { OnOk result (Notes (is_at_new_child g.now region (counted_table before.now)
        child.now) numbers.old.items numbers.new.items) }
{
    if !before.has_child(child.0, child.1) {
        note_child(g, region, child, numbers)?;
    }
    Ok(())
}

// Adds the numbers of the faces that stand for new children in a region.
fn note_new_children<K: Key>(
    g: &GatewayState<K>,
    region: Region,
    before: &KeptTable,
    children: &[(Zid, Zid)],
    numbers: &mut Vec<u32>,
) -> Result<(), Memory>
    ensures { OnOk result (Notes (are_at_new_children g.now region (counted_table before.now)
        children.now) numbers.old.items numbers.new.items) }
{
    for child in children {
        note_new_child(g, region, before, child, numbers)?;
    }
    Ok(())
}

/// Faces that are new among a source's children are told the source's tokens; `before` is the table
/// that counted until now.
pub fn greet<K: Key>(
    alloc: Global,
    g: &GatewayState<K>,
    region: Region,
    before: &KeptTable,
) -> Result<Vec<(u32, Message<K>)>, Memory>
    ensures { IfOk result (λ sends. sends.items
        ≡ to_each (greet_to K.cmp g.now region (counted_table before.now)) g.now.faces) }
{
    let mut numbers = Vec::new(alloc);
    let Some(table) = table_in(g, region) else {
        return Ok(Vec::new(alloc));
    };
    note_new_children(g, region, before, &table.table().children, &mut numbers)?;
    let rule = Greets {
        region,
        table,
        before,
    };
    say_among(alloc, g, numbers, &rule)
}
