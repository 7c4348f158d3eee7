// The tokens of the router regions of a gateway.
ghost use Rattle.std.specs.Prelude.{◌≡◌, ◌&&◌, [], filter, length, not, IfOk, OnOk};
ghost use Rattle.std.specs.List.{list_any};
ghost use Rattle.std.specs.List.Sorted.{IsSearchInRange};
ghost use Rattle.zt_region.specs.Admission.{admits};
ghost use Rattle.zt_region.specs.Region.{region_eq, zid_eq};
ghost use Rattle.zt_model.specs.Lists.{same, with_key};
ghost use Rattle.zt_model.specs.Seen.{sees};
ghost use Rattle.zt_model.specs.Trees.{counted_table, is_left_out, is_listed, is_routed_row};
ghost use Rattle.zt_model.specs.Trees.{routed_order, row_at};
ghost use Rattle.zt_check_faces.specs.Placed.{FindsPlace};
ghost use Rattle.zt_check_hints.specs.Hinted.{KeepsBut};
ghost use Rattle.zt_check_rows.specs.Routed.{AreRouted, Rises, is_routed_at};

use crate::order::compare_regions;
use crate::routed::ShownRouted;
use std::alloc::Global;
use std::cmp::Ordering;
use std::marker::Model;
use zt_check_faces::copy_each;
use zt_check_hints::{Hint, Hints};
use zt_check_open_faces::is_shown_and_admitted;
use zt_check_tables::ShownTable;
use zt_keys::{Key, Memory};
use zt_region::{Region, Zid};

/// Where a token of a router region stands: under its router.
#[derive(Drop)]
pub(crate) struct RouterPlace {
    pub(crate) region: Region,
    pub(crate) source: Zid,
}

impl Hint for RouterPlace {
    ghost use Rattle.std.specs.Prelude.{◌&&◌};
    ghost use Rattle.zt_region.specs.Region.{region_eq, zid_eq};
    ghost use Rattle.zt_check_rows.specs.Routed.{one_place};

    ghost alike = { λ one other.
        region_eq one.region other.region && zid_eq one.source other.source };

    ghost alike_is_same = { λ one other same. one_place one other same };

    fn is_alike(&self, other: &RouterPlace) -> bool {
        self.region == other.region && self.source == other.source
    }

    fn compare(&self, other: &RouterPlace) -> Ordering {
        match compare_regions(self.region, other.region) {
            Ordering::Equal => self.source.0.cmp(&other.source.0),
            unequal => unequal,
        }
    }
}

/// The tokens of router regions, in order of region, router and expression.
#[derive(Drop)]
pub struct RoutedRows<K: Key> {
    rows: Vec<ShownRouted<K>>,
    // Each row's router is hinted by its expression.
    places: Hints<K, RouterPlace>,
}

impl<K: Key> Model for RoutedRows<K> {
    ghost use Rattle.std.specs.Prelude.{List};
    ghost use Rattle.zt_model.specs.Rows.{RoutedRow};
    ghost use Rattle.zt_check_rows.specs.Routed.{IsRoutedKept};

    ghost Value = { List (RoutedRow K) };

    ghost view = { λ r. r.rows.items };

    ghost invariant = { λ r. IsRoutedKept K.cmp r.places r.rows.items };
}

// The place of a row.
fn place_of<K: Key>(row: &ShownRouted<K>) -> RouterPlace
    ensures { result ≡ record { region = row.now.region; source = row.now.source } }
{
    RouterPlace {
        region: row.region(),
        source: row.source(),
    }
}

// How a row stands to what is sought.
fn compare_to<K: Key>(row: &ShownRouted<K>, place: &RouterPlace, expr: &K) -> Ordering
    ensures { result ≡ routed_order K.cmp row.now
        (row_at K.cmp place.now.region place.now.source expr.now) }
{
    match compare_regions(row.region(), place.region) {
        Ordering::Equal => {}
        unequal => return unequal,
    }
    match row.source().0.cmp(&place.source.0) {
        Ordering::Equal => {}
        unequal => return unequal,
    }
    row.expr().cmp(expr)
}

// Where the row of a router and an expression stands, or else would stand. By halves.
fn place_in<K: Key>(rows: &[ShownRouted<K>], place: &RouterPlace, expr: &K) -> Result<usize, usize>
    requires { Rises (routed_order K.cmp) rows.now }
    ensures place { FindsPlace (routed_order K.cmp
        (row_at K.cmp place.now.region place.now.source expr.now)) rows.now result }
    ensures in_range { IsSearchInRange result (length rows.now) }
{
    rows.binary_search_by(|row| compare_to(row, place, expr))
}

// Whether such a row is there.
fn has_row<K: Key>(rows: &[ShownRouted<K>], place: &RouterPlace, expr: &K) -> bool
    requires { Rises (routed_order K.cmp) rows.now }
    ensures { result ≡ list_any (λ row. region_eq place.now.region row.region
        && (zid_eq place.now.source row.source && same K.cmp expr.now row.expr)) rows.now }
{
    match place_in(rows, place, expr) {
        Ok(_at) => true,
        Err(_at) => false,
    }
}

// Whether a row of another router stands at the place, and is shown.
fn is_shown_at<K: Key>(
    rows: &[ShownRouted<K>],
    place: &RouterPlace,
    refused: &[(Region, Region)],
    zid: Zid,
    own: Region,
    expr: &K,
) -> bool
    requires { Rises (routed_order K.cmp) rows.now }
    ensures { result ≡ is_routed_at K.cmp
        (λ source. sees own source && admits refused.now source own)
        zid expr.now rows.now place.now }
{
    is_shown_and_admitted(refused, own, place.region)
        && place.source != zid
        && has_row(rows, place, expr)
}

// Whether one does at one of these places.
fn is_shown_in<K: Key>(
    places: &[RouterPlace],
    rows: &[ShownRouted<K>],
    refused: &[(Region, Region)],
    zid: Zid,
    own: Region,
    expr: &K,
) -> bool
    requires { Rises (routed_order K.cmp) rows.now }
    ensures { result ≡ list_any
        (is_routed_at K.cmp (λ source. sees own source && admits refused.now source own)
        zid expr.now rows.now) places.now }
{
    for place in places {
        if is_shown_at(rows, place, refused, zid, own, expr) {
            return true;
        }
    }
    false
}

// A token goes, where it stands.
fn drop_routed<K: Key>(rows: &mut Vec<ShownRouted<K>>, gone: &ShownRouted<K>, place: &RouterPlace)
    requires rise { Rises (routed_order K.cmp) rows.old.items }
    requires there { place.now ≡ record { region = gone.now.region; source = gone.now.source } }
    ensures gone { rows.new.items
        ≡ filter (λ row. not (is_routed_row K.cmp gone.now row)) rows.old.items }
    ensures rise { Rises (routed_order K.cmp) rows.new.items }
{
    if let Ok(at) = place_in(rows.as_slice(), place, gone.expr()) {
        drop(rows.remove(at));
    }
}

// Whether a token is of the region, and its router isn't listed.
fn is_left_out<K: Key>(row: &ShownRouted<K>, region: Region, table: &ShownTable) -> bool
    ensures { result ≡ is_left_out K.cmp region (counted_table table.now) row.now }
{
    region == row.region() && !table.is_listed(row.source())
}

// The tokens of a region go whose routers a table doesn't list.
fn drop_left_out<K: Key>(rows: &mut Vec<ShownRouted<K>>, region: Region, table: &ShownTable)
    ensures { rows.new.items
        ≡ filter (λ row. not (is_left_out K.cmp region (counted_table table.now) row))
        rows.old.items }
{
    rows.retain(|row| !is_left_out(row, region, table));
}

// And so do the hints of these rows.
fn forget_left_out<K: Key>(
    places: &mut Hints<K, RouterPlace>,
    rows: &[ShownRouted<K>],
    region: Region,
    table: &ShownTable,
)
    ensures { KeepsBut K.cmp (λ place. region_eq region place.region
        && not (is_listed place.source (counted_table table.now))) places.old places.new }
{
    for row in rows {
        if is_left_out(row, region, table) {
            places.drop_alike(row.expr(), &place_of(row));
        }
    }
}

// Hints of these rows.
fn hints_of<K: Key>(alloc: Global, rows: &[ShownRouted<K>]) -> Result<Hints<K, RouterPlace>, Memory>
    ensures { IfOk result (λ places. AreRouted K.cmp places rows.now) }
{
    let mut places = Hints::new(alloc);
    for row in rows {
        places.add(alloc, row.expr(), place_of(row))?;
    }
    Ok(places)
}

impl<K: Key> RoutedRows<K> {
    /// No tokens. It takes no memory.
    pub(crate) fn new(alloc: Global) -> Self
        ensures { result ≡ [] }
    {
        RoutedRows {
            rows: Vec::new(alloc),
            places: Hints::new(alloc),
        }
    }

    /// The tokens, in order.
    pub(crate) fn rows(&self) -> &[ShownRouted<K>]
        ensures { result.now ≡ self.now }
    {
        &self.rows
    }

    /// Whether a token of the expression is of another router, in a region that is seen and
    /// admitted. A look-up.
    pub(crate) fn is_shown(
        &self,
        refused: &[(Region, Region)],
        zid: Zid,
        own: Region,
        expr: &K,
    ) -> bool
        ensures { result
            ≡ list_any (λ row. ((sees own row.region && admits refused.now row.region own)
            && same K.cmp expr.now row.expr) && not (zid_eq row.source zid)) self.now }
    {
        is_shown_in(self.places.at(expr), &self.rows, refused, zid, own, expr)
    }

    /// A token is added in its place, where it isn't there.
    pub(crate) fn add(&mut self, alloc: Global, row: ShownRouted<K>) -> Result<(), Memory>
        ensures { OnOk result (self.new ≡ with_key (routed_order K.cmp) row self.old) }
    {
        let place = place_of(&row);
        let Err(at) = place_in(self.rows.as_slice(), &place, row.expr()) else {
            return Ok(());
        };
        self.places.add(alloc, row.expr(), place)?;
        self.rows.insert(at, row)?;
        Ok(())
    }

    /// A token goes.
    pub(crate) fn drop_row(&mut self, gone: &ShownRouted<K>)
        ensures { self.new ≡ filter (λ row. not (is_routed_row K.cmp gone.now row)) self.old }
    {
        let place = place_of(gone);
        self.places.drop_alike(gone.expr(), &place);
        drop_routed(&mut self.rows, gone, &place);
    }

    /// The tokens of a region go whose routers a table doesn't list.
    pub(crate) fn drop_left_out(&mut self, region: Region, table: &ShownTable)
        ensures { self.new
            ≡ filter (λ row. not (is_left_out K.cmp region (counted_table table.now) row))
            self.old }
    {
        forget_left_out(&mut self.places, &self.rows, region, table);
        drop_left_out(&mut self.rows, region, table);
    }

    /// Equal tokens.
    pub(crate) fn copy(&self, alloc: Global) -> Result<Self, Memory>
        ensures { IfOk result (λ copy. copy ≡ self.now) }
    {
        let rows = copy_each(alloc, &self.rows)?;
        let places = hints_of(alloc, rows.as_slice())?;
        Ok(RoutedRows { rows, places })
    }
}
