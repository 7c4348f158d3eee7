// What the gateway itself shows in router regions.
ghost use Rattle.std.specs.Prelude.{◌≡◌, ◌&&◌, ◌++◌, [], ◌∷◌, IfOk, IfSome, OnOk, filter};
ghost use Rattle.std.specs.List.Sorted.{IsStrictlySortedBy};
ghost use Rattle.zt_region.specs.Region.{zid_eq};
ghost use Rattle.zt_model.specs.Hat.{hat_of};
ghost use Rattle.zt_model.specs.Lists.{is_among};
ghost use Rattle.zt_model.specs.Parts.{to_each};
ghost use Rattle.zt_link_state.specs.Routed.{rows_of};
ghost use Rattle.zt_routers.specs.Hiding.{hidden_among};
ghost use Rattle.zt_routers.specs.Reached.{HasOnlyTable, Notes, is_hidden_by, is_shown_by};
ghost use Rattle.zt_model.specs.Trees.{hide_to, is_hidden, is_newly_shown, is_own_row};
ghost use Rattle.zt_model.specs.Trees.{router_regions, show_to};

use crate::passing::{own_branch, pass_on, pass_to, unpass, unpass_to};
use crate::reaching::{note_children, say_among};
use std::alloc::Global;
use std::collections::BTreeSet;
use zt_hats::hat_of;
use zt_keys::{Key, Memory};
use zt_link_state::{KeptTable, Origin};
use zt_protocol::Message;
use zt_region::Region;
use zt_state::{FaceState, GatewayState};
use zt_tokens::{FaceRule, is_visible, say_each};

// Whether tokens of the region go by trees, as its hat says: whether it is a router region.
fn goes_by_trees<K: Key>(g: &GatewayState<K>, region: Region) -> bool
    ensures { result ≡ (hat_of g.now.mode region).goes_by_trees }
{
    hat_of(g.mode(), region).goes_by_trees()
}

// Whether the gateway shows the expression in the region.
fn is_own_row<K: Key>(g: &GatewayState<K>, region: Region, expr: &K) -> bool
    ensures { result ≡ is_own_row K.cmp g.now region expr.now }
{
    g.routed().contains(region, g.zid(), expr)
}

// Whether the region is newly shown a token of the region `source`.
#[tactic(auto, unfolding(zt_model::specs::Trees::is_newly_shown))]
fn is_newly_shown<K: Key>(g: &GatewayState<K>, source: Region, expr: &K, region: Region) -> bool
    ensures { result ≡ is_newly_shown K.cmp g.now source expr.now region }
{
    goes_by_trees(g, region)
        && region != source
        && g.admits(source, region)
        && !is_own_row(g, region, expr)
}

// Whether the region can't see the expression any more, which is gone from the region `source`.
#[tactic(auto, unfolding(zt_model::specs::Trees::is_hidden))]
fn is_hidden<K: Key>(g: &GatewayState<K>, source: Region, expr: &K, region: Region) -> bool
    ensures { result ≡ is_hidden K.cmp g.now source expr.now region }
{
    goes_by_trees(g, region) && region != source && !is_visible(g, region, expr)
}

// Whether the tables list more children of the gateway's own than there are faces, so that a walk
// over the faces is shorter than one over the children.
fn has_many_children<K: Key>(g: &GatewayState<K>) -> bool {
    let mut left = g.faces().places();
    for (_region, table) in g.trees() {
        let count = table.children_of(g.zid()).len();
        if count > left {
            return true;
        }
        left -= count;
    }
    false
}

// The region that alone was handed a table.
fn only_table<K: Key>(g: &GatewayState<K>) -> Option<Region>
    ensures { IfSome result (λ region. HasOnlyTable region g.now) }
{
    let mut tables = g.trees().iter();
    let (region, _table) = tables.next()?;
    if tables.next().is_some() {
        return None;
    }
    Some(*region)
}

// What a face is sent where its region is newly shown a token of the region `source`.
#[derive(Drop)]
struct Shows<'a, K: Key> {
    source: Region,
    expr: &'a K,
}

impl<'a, K: Key> FaceRule<K> for Shows<'a, K> {
    ghost use Rattle.zt_model.specs.Trees.{show_to};

    ghost given = { λ s g. show_to K.cmp g s.source s.expr.now };

    fn say(
        &self,
        alloc: Global,
        g: &GatewayState<K>,
        f: &FaceState<K>,
        sends: &mut Vec<(u32, Message<K>)>,
    ) -> Result<(), Memory> {
        let goes_on = is_newly_shown(g, self.source, self.expr, f.region());
        let branch = own_branch(g, f.region(), goes_on);
        pass_to(alloc, g, &branch, self.expr, f, sends)
    }
}

// Adds the numbers of the faces that the gateway's own tokens go on to by the table of a region, if
// this is newly shown a token of the region `source`.
fn note_shown<K: Key>(
    g: &GatewayState<K>,
    source: Region,
    expr: &K,
    region: Region,
    table: &KeptTable,
    numbers: &mut Vec<u32>,
) -> Result<(), Memory>
    ensures { OnOk result (Notes (is_shown_by K.cmp g.now source expr.now (region, table.now))
        numbers.old.items numbers.new.items) }
{
    let children = table.children_of(g.zid());
    if children.is_empty() {
        return Ok(());
    }
    if is_newly_shown(g, source, expr, region) {
        note_children(g, region, children, numbers)?;
    }
    Ok(())
}

// What faces are sent where one region alone was handed a table.
fn show_in<K: Key>(
    alloc: Global,
    g: &GatewayState<K>,
    source: Region,
    expr: &K,
    region: Region,
) -> Result<Vec<(u32, Message<K>)>, Memory>
    requires { HasOnlyTable region g.now }
    ensures { IfOk result (λ sends. sends.items
        ≡ to_each (show_to K.cmp g.now source expr.now) g.now.faces) }
{
    if is_newly_shown(g, source, expr, region) {
        pass_on(alloc, g, region, g.zid(), expr)
    } else {
        Ok(Vec::new(alloc))
    }
}

/// The gateway shows a token of the region `source` in its router regions that are newly shown it.
/// Where it was handed no table there is nobody to tell.
pub fn show<K: Key>(
    alloc: Global,
    g: &GatewayState<K>,
    source: Region,
    expr: &K,
) -> Result<Vec<(u32, Message<K>)>, Memory>
    ensures { IfOk result (λ sends. sends.items
        ≡ to_each (show_to K.cmp g.now source expr.now) g.now.faces) }
{
    if let Some(region) = only_table(g) {
        return show_in(alloc, g, source, expr, region);
    }
    let rule = Shows { source, expr };
    if has_many_children(g) {
        return say_each(alloc, g, &rule);
    }
    let mut numbers = Vec::new(alloc);
    for (region, table) in g.trees() {
        note_shown(g, source, expr, *region, table, &mut numbers)?;
    }
    say_among(alloc, g, numbers, &rule)
}

// Adds the region, if it is a router region that is newly shown the token.
fn add_newly_shown<K: Key>(
    g: &GatewayState<K>,
    source: Region,
    expr: &K,
    region: Region,
    regions: &mut Vec<Region>,
) -> Result<(), Memory>
    ensures { OnOk result (regions.new.items ≡ regions.old.items
        ++ filter (is_newly_shown K.cmp g.now source expr.now)
        (filter (λ r. (hat_of g.now.mode r).goes_by_trees) (region ∷ []))) }
{
    if goes_by_trees(g, region) && is_newly_shown(g, source, expr, region) {
        regions.push(region)?;
    }
    Ok(())
}

/// The router regions that are newly shown a token of the region `source`.
pub fn newly_shown<K: Key>(
    alloc: Global,
    g: &GatewayState<K>,
    source: Region,
    expr: &K,
) -> Result<Vec<Region>, Memory>
    ensures { IfOk result (λ regions. regions.items
        ≡ filter (is_newly_shown K.cmp g.now source expr.now) (router_regions g.now)) }
{
    let mut regions = Vec::new(alloc);
    add_newly_shown(g, source, expr, Region::North, &mut regions)?;
    for region in g.regions_of_routers() {
        add_newly_shown(g, source, expr, *region, &mut regions)?;
    }
    Ok(regions)
}

// Whether the origin is the gateway itself, in a region that can't see the expression any more,
// which is among its keys there.
fn is_hidden_at<K: Key>(
    g: &GatewayState<K>,
    source: Region,
    expr: &K,
    origin: Origin,
    keys: &BTreeSet<K>,
) -> bool
    ensures { result ≡ (zid_eq origin.source g.now.zid
        && (is_among K.cmp expr.now keys.now.keys
        && is_hidden K.cmp g.now source expr.now origin.region)) }
{
    origin.source == g.zid() && keys.contains(expr) && is_hidden(g, source, expr, origin.region)
}

// Adds the region of an origin, if the gateway has an own row of the expression there and the
// region can't see it any more.
fn add_hidden<K: Key>(
    g: &GatewayState<K>,
    source: Region,
    expr: &K,
    origin: Origin,
    keys: &BTreeSet<K>,
    regions: &mut Vec<Region>,
) -> Result<(), Memory>
    requires { IsStrictlySortedBy K.cmp keys.now.keys }
    ensures { OnOk result (regions.new.items ≡ regions.old.items
        ++ hidden_among K.cmp g.now source expr.now (rows_of (origin, keys.now))) }
{
    if is_hidden_at(g, source, expr, origin, keys) {
        regions.push(origin.region)?;
    }
    Ok(())
}

/// The router regions in which the gateway has an own row of an expression that they can't see any
/// more, since it is gone from the region `source`.
pub fn hidden_regions<K: Key>(
    alloc: Global,
    g: &GatewayState<K>,
    source: Region,
    expr: &K,
) -> Result<Vec<Region>, Memory>
    ensures { IfOk result (λ regions. regions.items
        ≡ hidden_among K.cmp g.now source expr.now g.now.routed) }
{
    let mut regions = Vec::new(alloc);
    for (origin, keys) in g.routed().by_origin() {
        add_hidden(g, source, expr, *origin, keys, &mut regions)?;
    }
    Ok(regions)
}

// What a face is sent where its region can't see the expression any more, which is gone from the
// region `source`.
#[derive(Drop)]
struct Hides<'a, K: Key> {
    source: Region,
    expr: &'a K,
}

impl<'a, K: Key> FaceRule<K> for Hides<'a, K> {
    ghost use Rattle.zt_model.specs.Trees.{hide_to};

    ghost given = { λ h g. hide_to K.cmp g h.source h.expr.now };

    fn say(
        &self,
        alloc: Global,
        g: &GatewayState<K>,
        f: &FaceState<K>,
        sends: &mut Vec<(u32, Message<K>)>,
    ) -> Result<(), Memory> {
        let goes_on = is_hidden(g, self.source, self.expr, f.region());
        let branch = own_branch(g, f.region(), goes_on);
        unpass_to(alloc, g, &branch, self.expr, f, sends)
    }
}

// Adds the numbers of the faces that the gateway's own tokens go on to by the table of a region, if
// this can't see the expression any more, which is gone from the region `source`.
fn note_hidden<K: Key>(
    g: &GatewayState<K>,
    source: Region,
    expr: &K,
    region: Region,
    table: &KeptTable,
    numbers: &mut Vec<u32>,
) -> Result<(), Memory>
    ensures { OnOk result (Notes (is_hidden_by K.cmp g.now source expr.now (region, table.now))
        numbers.old.items numbers.new.items) }
{
    let children = table.children_of(g.zid());
    if children.is_empty() {
        return Ok(());
    }
    if is_hidden(g, source, expr, region) {
        note_children(g, region, children, numbers)?;
    }
    Ok(())
}

// What faces are sent where one region alone was handed a table.
fn hide_in<K: Key>(
    alloc: Global,
    g: &GatewayState<K>,
    source: Region,
    expr: &K,
    region: Region,
) -> Result<Vec<(u32, Message<K>)>, Memory>
    requires { HasOnlyTable region g.now }
    ensures { IfOk result (λ sends. sends.items
        ≡ to_each (hide_to K.cmp g.now source expr.now) g.now.faces) }
{
    if is_hidden(g, source, expr, region) {
        unpass(alloc, g, region, g.zid(), expr)
    } else {
        Ok(Vec::new(alloc))
    }
}

/// The gateway hides an expression that is gone from the region `source` in its router regions that
/// can't see it now. Where it was handed no table there is nobody to tell.
pub fn hide<K: Key>(
    alloc: Global,
    g: &GatewayState<K>,
    source: Region,
    expr: &K,
) -> Result<Vec<(u32, Message<K>)>, Memory>
    ensures { IfOk result (λ sends. sends.items
        ≡ to_each (hide_to K.cmp g.now source expr.now) g.now.faces) }
{
    if let Some(region) = only_table(g) {
        return hide_in(alloc, g, source, expr, region);
    }
    let rule = Hides { source, expr };
    if has_many_children(g) {
        return say_each(alloc, g, &rule);
    }
    let mut numbers = Vec::new(alloc);
    for (region, table) in g.trees() {
        note_hidden(g, source, expr, *region, table, &mut numbers)?;
    }
    say_among(alloc, g, numbers, &rule)
}
