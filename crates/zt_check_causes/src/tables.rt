// Why the trees of a router region aren't set.
ghost use Rattle.std.specs.Prelude.{◌≡◌, ◌||◌, not, IfOk};
ghost use Rattle.std.specs.List.{list_any};
ghost use Rattle.zt_protocol.specs.Plain.{SetTrees, trees_of};
ghost use Rattle.zt_model.specs.Hat.{hat_of};
ghost use Rattle.zt_model.specs.Refusals.{is_unknown_face, names_unlisted};
ghost use Rattle.zt_model.specs.Strategy.{is_region_of};
ghost use Rattle.zt_model.specs.Trees.{counted_table, is_listed};
ghost use Rattle.zt_check_causes.specs.Causes.{call_cause};

use crate::regions::is_region_of;
use std::alloc::Global;
use zt_check_rows::{ShownRows, goes_by_trees};
use zt_check_tables::ShownTable;
use zt_keys::{Key, Memory};
use zt_protocol::{Refusal, TreeTable};
use zt_region::{NodeId, Region, Zid};

// Whether no open face has the number.
fn is_unknown_face<K: Key>(rows: &ShownRows<K>, face: u32) -> bool
    ensures { result ≡ is_unknown_face face rows.now }
{
    rows.face(face).is_none()
}

// Whether a link that counts is for a face that isn't open.
fn links_unknown_face<K: Key>(rows: &ShownRows<K>, table: &ShownTable) -> bool
    ensures { result
        ≡ list_any (λ l. is_unknown_face l.0 rows.now) (counted_table table.now).links }
{
    table
        .counted_links()
        .iter()
        .any(|link| is_unknown_face(rows, link.0))
}

// Whether the gateway has no such region, or it doesn't go by trees.
fn lacks_region<K: Key>(rows: &ShownRows<K>, region: Region) -> bool
    ensures { result
        ≡ (not (is_region_of rows.now.regions region)
        || not (hat_of rows.now.mode region).goes_by_trees) }
{
    !is_region_of(rows.regions(), region) || !goes_by_trees(rows.mode(), region)
}

// Whether a link that counts means a router that isn't listed.
fn links_unlisted(table: &ShownTable, links: &[(u32, NodeId, Zid)]) -> bool
    ensures { result ≡ list_any (λ l. not (is_listed l.2 (counted_table table.now))) links.now }
{
    links.iter().any(|link| !table.is_listed(link.2))
}

// Whether a source isn't listed, or a router to which its tokens go on.
fn children_unlisted(table: &ShownTable, children: &[(Zid, Zid)]) -> bool
    ensures { result ≡ list_any (λ c. not (is_listed c.0 (counted_table table.now))
        || not (is_listed c.1 (counted_table table.now))) children.now }
{
    children.iter().any(|child| !table.is_listed(child.0) || !table.is_listed(child.1))
}

// Whether the table names a router that it doesn't list, or doesn't list the gateway.
fn names_unlisted<K: Key>(rows: &ShownRows<K>, table: &ShownTable) -> bool
    ensures { result ≡ names_unlisted (counted_table table.now) rows.now }
{
    if !table.is_listed(rows.zid()) {
        return true;
    }
    if links_unlisted(table, table.counted_links()) {
        return true;
    }
    children_unlisted(table, table.children())
}

/// Why the trees of a router region aren't set.
#[tactic(auto, unfolding(crate::specs::Causes::call_cause, zt_model::specs::Refusals::call_causes, zt_model::specs::Refusals::first_cause))]
pub(crate) fn trees_cause<K: Key>(
    alloc: Global,
    rows: &ShownRows<K>,
    region: Region,
    table: &TreeTable,
) -> Result<Option<Refusal>, Memory>
    ensures { IfOk result (λ cause. cause
        ≡ call_cause K.cmp K.matching (SetTrees region (trees_of table.now)) rows.now) }
{
    let table = ShownTable::new(alloc, table)?;
    if links_unknown_face(rows, &table) {
        return Ok(Some(Refusal::UnknownFace));
    }
    if lacks_region(rows, region) {
        return Ok(Some(Refusal::NoSuchRegion));
    }
    if names_unlisted(rows, &table) {
        return Ok(Some(Refusal::UnknownRouter));
    }
    Ok(None)
}
