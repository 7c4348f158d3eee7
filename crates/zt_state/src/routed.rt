// The tokens of router regions, and the tables of these.
ghost use Rattle.std.specs.Prelude.{◌≡◌, ◌∷◌, [], not, filter, map, OnOk};
ghost use Rattle.std.specs.FinMap.Entries.{put};
ghost use Rattle.zt_model.specs.Lists.{with_key};
ghost use Rattle.zt_model.specs.Trees.{counted_table, is_routed_row, region_order};
ghost use Rattle.zt_model.specs.Trees.{routed_order, row_at};
ghost use Rattle.zt_model.specs.Trees.{with_own_rows, with_routed, with_table, without_left_out};
ghost use Rattle.zt_model.specs.Trees.{without_routed};
ghost use Rattle.zt_indexes.specs.Recounts.{Recounts};
ghost use Rattle.zt_link_state.specs.Routed.{rows_of};
ghost use Rattle.zt_state.specs.Indexed.{routed_live};
ghost use Rattle.zt_state.specs.OwnRows.{listed_rows, without_own_in};

use crate::changes::empty;
use crate::gateway::GatewayState;
use std::alloc::Global;
use std::collections::{BTreeMap, BTreeSet};
use zt_indexes::LiveCounts;
use zt_keys::{Key, Memory};
use zt_link_state::{KeptTable, Origin, RoutedTokens, is_left_out};
use zt_region::{Region, Zid};

// Counts a router's token, where it is another router's.
fn count_token<K: Key>(
    alloc: Global,
    live: &mut LiveCounts<K>,
    zid: Zid,
    region: Region,
    source: Zid,
    expr: &K,
) -> Result<(), Memory>
    ensures { OnOk result (Recounts K.cmp []
        (routed_live zid (row_at K.cmp region source expr.now ∷ []))
        live.old live.new) }
{
    if source != zid {
        live.add(alloc, region, expr)?;
    }
    Ok(())
}

// A router's token is counted no more, where it is another router's.
fn uncount_token<K: Key>(live: &mut LiveCounts<K>, zid: Zid, region: Region, source: Zid, expr: &K)
    ensures { Recounts K.cmp (routed_live zid (row_at K.cmp region source expr.now ∷ [])) []
        live.old live.new }
{
    if source != zid {
        live.remove(region, expr);
    }
}

// Adds a router's token in its place, where it isn't there yet.
fn add_row<K: Key>(
    alloc: Global,
    routed: &mut RoutedTokens<K>,
    live: &mut LiveCounts<K>,
    zid: Zid,
    region: Region,
    source: Zid,
    expr: &K,
) -> Result<(), Memory>
    ensures rows { OnOk result (routed.new
        ≡ with_key (routed_order K.cmp) (row_at K.cmp region source expr.now) routed.old) }
    ensures counts { OnOk result (Recounts K.cmp (routed_live zid routed.old)
        (routed_live zid routed.new) live.old live.new) }
{
    if routed.insert(alloc, region, source, expr)? {
        count_token(alloc, live, zid, region, source, expr)?;
    }
    Ok(())
}

// A router's token goes, with what is counted of it.
fn drop_row<K: Key>(
    routed: &mut RoutedTokens<K>,
    live: &mut LiveCounts<K>,
    zid: Zid,
    region: Region,
    source: Zid,
    expr: &K,
)
    ensures rows { routed.new
        ≡ filter (λ row. not (is_routed_row K.cmp (row_at K.cmp region source expr.now) row))
        routed.old }
    ensures counts { Recounts K.cmp (routed_live zid routed.old)
        (routed_live zid routed.new) live.old live.new }
{
    if routed.remove(region, source, expr) {
        uncount_token(live, zid, region, source, expr);
    }
}

// The tokens of these expressions are counted no more in a region.
fn uncount_keys<K: Key>(live: &mut LiveCounts<K>, region: Region, keys: &BTreeSet<K>)
    ensures { Recounts K.cmp (map (λ e. (region, e)) keys.now.keys) [] live.old live.new }
{
    for expr in keys {
        live.remove(region, expr);
    }
}

// The tokens of an origin are counted no more, where they are another router's.
fn uncount_origin<K: Key>(live: &mut LiveCounts<K>, zid: Zid, origin: Origin, keys: &BTreeSet<K>)
    ensures { Recounts K.cmp (routed_live zid (rows_of (origin, keys.now))) [] live.old live.new }
{
    if origin.source != zid {
        uncount_keys(live, origin.region, keys);
    }
}

// The tokens of an origin are counted no more, where the table leaves it out.
fn uncount_if_left_out<K: Key>(
    live: &mut LiveCounts<K>,
    zid: Zid,
    region: Region,
    table: &KeptTable,
    origin: Origin,
    keys: &BTreeSet<K>,
)
    ensures { Recounts K.cmp (routed_live zid (rows_of (origin, keys.now)))
        (routed_live zid (listed_rows K.cmp region (counted_table table.now)
        (rows_of (origin, keys.now))))
        live.old live.new }
{
    if is_left_out(region, table, origin) {
        uncount_origin(live, zid, origin, keys);
    }
}

// The tokens of a region are counted no more whose router the table doesn't list.
fn uncount_left_out<K: Key>(
    live: &mut LiveCounts<K>,
    zid: Zid,
    routed: &RoutedTokens<K>,
    region: Region,
    table: &KeptTable,
)
    ensures { Recounts K.cmp (routed_live zid routed.now)
        (routed_live zid (listed_rows K.cmp region (counted_table table.now) routed.now)) live.old
        live.new }
{
    for (origin, keys) in routed.by_origin() {
        uncount_if_left_out(live, zid, region, table, *origin, keys);
    }
}

// The tokens of a region go whose router the table doesn't list, with what is counted of them.
fn drop_rows_left_out<K: Key>(
    routed: &mut RoutedTokens<K>,
    live: &mut LiveCounts<K>,
    zid: Zid,
    region: Region,
    table: &KeptTable,
)
    ensures rows { routed.new ≡ listed_rows K.cmp region (counted_table table.now) routed.old }
    ensures counts { Recounts K.cmp (routed_live zid routed.old)
        (routed_live zid routed.new) live.old live.new }
{
    uncount_left_out(live, zid, routed, region, table);
    routed.drop_left_out(region, table);
}

// Keeps a table under its region.
fn put_table(
    trees: &mut BTreeMap<Region, KeptTable>,
    region: Region,
    table: KeptTable,
) -> Result<(), Memory>
    ensures { OnOk result (trees.new.entries ≡ put region_order region table trees.old.entries) }
{
    trees.insert(region, table)?;
    Ok(())
}

impl<K: Key> GatewayState<K> {
    /// The token of a router is gone from a region.
    #[tactic(auto, unfolding(zt_model::specs::Trees::without_routed))]
    pub fn drop_routed(&mut self, region: Region, source: Zid, expr: &K)
        ensures { self.new ≡ without_routed K.cmp region source expr.now self.old }
    {
        drop_row(
            &mut self.routed,
            &mut self.live,
            self.zid,
            region,
            source,
            expr,
        );
    }

    /// The rows of a region go whose source its new table doesn't list.
    pub fn drop_left_out(&mut self, region: Region, table: &KeptTable)
        ensures { self.new ≡ without_left_out K.cmp region (counted_table table.now) self.old }
    {
        drop_rows_left_out(&mut self.routed, &mut self.live, self.zid, region, table);
    }

    /// The gateway shows the expression no more in these regions.
    pub fn drop_own_rows(&mut self, regions: &[Region], expr: &K)
        ensures { self.new ≡ without_own_in K.cmp regions.now expr.now self.old }
    {
        for region in regions {
            let own = self.zid();
            self.drop_routed(*region, own, expr);
        }
    }

    /// A router declares a token in a region.
    #[tactic(auto, unfolding(zt_model::specs::Trees::with_routed))]
    pub fn add_routed(
        &mut self,
        alloc: Global,
        region: Region,
        source: Zid,
        expr: &K,
    ) -> Result<(), Memory>
        ensures { OnOk result (self.new ≡ with_routed K.cmp region source expr.now self.old) }
    {
        match add_row(
            alloc,
            &mut self.routed,
            &mut self.live,
            self.zid,
            region,
            source,
            expr,
        ) {
            Ok(()) => Ok(()),
            Err(error) => {
                empty(
                    alloc,
                    &mut self.faces,
                    &mut self.routed,
                    &mut self.live,
                    &mut self.seekers,
                );
                Err(error)
            }
        }
    }

    /// The gateway shows the expression in these regions.
    #[tactic(auto, unfolding(zt_model::specs::Trees::with_own_rows))]
    pub fn add_own_rows(
        &mut self,
        alloc: Global,
        regions: &[Region],
        expr: &K,
    ) -> Result<(), Memory>
        ensures { OnOk result (self.new ≡ with_own_rows K.cmp regions.now expr.now self.old) }
    {
        for region in regions {
            let own = self.zid();
            self.add_routed(alloc, *region, own, expr)?;
        }
        Ok(())
    }

    /// The table of a router region is kept as it was handed in.
    pub fn keep_table(&mut self, region: Region, table: KeptTable) -> Result<(), Memory>
        ensures { OnOk result (self.new ≡ with_table K.cmp region table self.old) }
    {
        put_table(&mut self.trees, region, table)
    }
}
