// The tokens of router regions.
ghost use Rattle.std.specs.Prelude.{◌≡◌, [], filter, map, not, IfOk, OnOk};
ghost use Rattle.std.specs.List.{list_any};
ghost use Rattle.zt_model.specs.Lists.{in_key_order, with_key};
ghost use Rattle.zt_model.specs.Trees.{counted_table, is_left_out, is_routed_row, routed_order};
ghost use Rattle.zt_model.specs.Trees.{row_at};
ghost use Rattle.zt_link_state.specs.More.{IsMoreBy};
ghost use Rattle.zt_link_state.specs.Routed.{AreInOrder, is_row_of, rows_in};

use crate::KeptTable;
use crate::origin::Origin;
use crate::sources::{
    contains_in, copy_sources, drop_bare, drop_left_out_in, expressions_in, insert_in, remove_in,
};
use std::alloc::Global;
use std::collections::{BTreeMap, BTreeSet};
use std::marker::Model;
use zt_keys::{Key, Memory};
use zt_region::{Region, Zid};

/// The tokens of a gateway's router regions, each once. Contracts see their rows, in order of
/// region, source and expression.
#[derive(Drop)]
pub struct RoutedTokens<K: Key> {
    sources: BTreeMap<Origin, BTreeSet<K>>,
}

impl<K: Key> Model for RoutedTokens<K> {
    ghost use Rattle.std.specs.Prelude.{List};
    ghost use Rattle.zt_model.specs.Rows.{RoutedRow};
    ghost use Rattle.zt_link_state.specs.Routed.{AreInOrder, rows_in};

    ghost Value = { List (RoutedRow K) };

    ghost view = { λ t. rows_in t.sources.entries };

    ghost invariant = { λ t. AreInOrder K.cmp t.sources.entries };
}

impl<K: Key> RoutedTokens<K> {
    /// No token. It takes no memory.
    pub fn new(alloc: Global) -> Self
        ensures { result ≡ [] }
    {
        RoutedTokens {
            sources: BTreeMap::new(alloc),
        }
    }

    /// Puts a token in its place, if it isn't there yet: whether it is new.
    pub fn insert(
        &mut self,
        alloc: Global,
        region: Region,
        source: Zid,
        expr: &K,
    ) -> Result<bool, Memory>
        ensures rows { OnOk result (self.new
            ≡ with_key (routed_order K.cmp) (row_at K.cmp region source expr.now) self.old) }
        ensures more { IfOk result (λ is_new.
            IsMoreBy is_new (row_at K.cmp region source expr.now) self.old self.new) }
    {
        let origin = Origin { region, source };
        insert_in(alloc, &mut self.sources, origin, expr.copy(alloc)?)
    }

    /// Takes a token away: whether it was there.
    pub fn remove(&mut self, region: Region, source: Zid, expr: &K) -> bool
        ensures rows { self.new
            ≡ filter (λ row. not (is_routed_row K.cmp (row_at K.cmp region source expr.now) row))
            self.old }
        ensures less { IsMoreBy result (row_at K.cmp region source expr.now) self.new self.old }
    {
        let origin = Origin { region, source };
        let was_there = remove_in(&mut self.sources, origin, expr);
        drop_bare(&mut self.sources, origin);
        was_there
    }

    /// Whether a token is there.
    pub fn contains(&self, region: Region, source: Zid, expr: &K) -> bool
        ensures { result ≡ list_any
            (is_routed_row K.cmp (row_at K.cmp region source expr.now)) self.now }
    {
        contains_in(&self.sources, Origin { region, source }, expr)
    }

    /// The tokens of a region go whose router the table doesn't list.
    pub fn drop_left_out(&mut self, region: Region, table: &KeptTable)
        ensures { self.new
            ≡ filter (λ row. not (is_left_out K.cmp region (counted_table table.now) row))
            self.old }
    {
        drop_left_out_in(&mut self.sources, region, table);
    }

    /// The expressions of a source's tokens in a region, in order.
    pub fn expressions(&self, alloc: Global, region: Region, source: Zid) -> Result<Vec<K>, Memory>
        ensures { IfOk result (λ exprs. exprs.items
            ≡ in_key_order K.cmp
            (map (λ row. row.expr)
            (filter (is_row_of (record { region = region; source = source })) self.now))) }
    {
        expressions_in(alloc, &self.sources, Origin { region, source })
    }

    /// The expressions of the tokens, in order, by where they come from.
    pub fn by_origin(&self) -> &BTreeMap<Origin, BTreeSet<K>>
        ensures rows { rows_in result.now.entries ≡ self.now }
        ensures in_order { AreInOrder K.cmp result.now.entries }
    {
        &self.sources
    }

    /// Equal tokens.
    pub fn copy(&self, alloc: Global) -> Result<Self, Memory>
        ensures { IfOk result (λ copy. copy ≡ self.now) }
    {
        Ok(RoutedTokens {
            sources: copy_sources(alloc, &self.sources)?,
        })
    }
}
