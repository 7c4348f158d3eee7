// A gateway with its faces.
ghost use Rattle.std.specs.Prelude.{◌≡◌, ◌&&◌, [], count_by, filter, map, IfNone, IfOk, IfSome};
ghost use Rattle.std.specs.List.{flat_map, list_any};
ghost use Rattle.std.specs.Option.{option_copied};
ghost use Rattle.zt_faces.specs.Asked.{IsAskerOf};
ghost use Rattle.zt_faces.specs.Rising.{AreUpTo, IsRising};
ghost use Rattle.zt_model.specs.Fabric.{new_rows};
ghost use Rattle.zt_model.specs.Lists.{first_where};
ghost use Rattle.zt_model.specs.Parts.{find_face};
ghost use Rattle.zt_model.specs.Trees.{counted_table, table_of};
ghost use Rattle.zt_model.specs.Visible.{live_rows};
ghost use Rattle.zt_model.specs.Wants.{seeks};
ghost use Rattle.zt_indexes.specs.Rows.{AreCountsOf, is_row_at};
ghost use Rattle.zt_interest_index.specs.Holders.{HasAllIn};
ghost use Rattle.zt_lookups.specs.Listed.{may_go_by_trees};
ghost use Rattle.zt_token_index.specs.Seekers.{other_rows, token_rows};
ghost use Rattle.zt_token_index.specs.Retold.{told_id_at};
ghost use Rattle.zt_region.specs.Admission.{admits};
ghost use Rattle.zt_region.specs.Region.{is_north, region_eq, zid_eq};
ghost use Rattle.zt_state.specs.Told.{AreToldIds};
ghost use Rattle.zt_token_index.specs.Told.{AreRising};

use std::alloc::Global;
use std::collections::BTreeMap;
use std::marker::Model;
use zt_face::FaceState;
use zt_faces::{Asker, Faces, OpenFaces};
use zt_indexes::LiveCounts;
use zt_keys::{Key, Memory};
use zt_link_state::{KeptTable, RoutedTokens};
use zt_lookups::{Dictionary, ListedRegions, RefusedPairs};
use zt_protocol::InterestId;
use zt_region::{Admission, Region, WhatAmI, Zid};
use zt_token_index::Seekers;

/// A gateway: its settings, its open faces in order of number, the tokens of its router regions,
/// the tables of these, and the numbers of expressions. A change that ran out of memory may be half
/// made: such changes are for a copy that is dropped then.
pub struct GatewayState<K: Key> {
    pub(crate) mode: WhatAmI,
    pub(crate) zid: Zid,
    pub(crate) regions: ListedRegions,
    pub(crate) admission: RefusedPairs,
    pub(crate) timeout: u64,
    pub(crate) moment: u64,
    pub(crate) made: u32,
    pub(crate) trees: BTreeMap<Region, KeptTable>,
    pub(crate) routed: RoutedTokens<K>,
    pub(crate) dictionary: Dictionary<K>,
    pub(crate) faces: Faces<K>,
    pub(crate) live: LiveCounts<K>,
    pub(crate) seekers: Seekers<K>,
}

// A drop of its own: the crates above prove one call, and not the drop of each field.
impl<K: Key> Drop for GatewayState<K> {
    fn drop(self) {
        let GatewayState {
            mode: _,
            zid: _,
            regions: _,
            admission: _,
            timeout: _,
            moment: _,
            made: _,
            trees: _,
            routed: _,
            dictionary: _,
            faces: _,
            live: _,
            seekers: _,
        } = self;
    }
}

impl<K: Key> Model for GatewayState<K> {
    ghost use Rattle.zt_model.specs.Rows.{Rows};
    ghost use Rattle.zt_state.specs.Indexed.{IsIndexed};

    ghost Value = { Rows K };

    ghost view = { λ g. record {
      mode = g.mode;
      zid = g.zid;
      regions = g.regions;
      refused = g.admission;
      timeout = g.timeout;
      moment = g.moment;
      made = g.made;
      trees = g.trees.entries;
      routed = g.routed;
      dictionary = g.dictionary;
      faces = g.faces;
    } };

    ghost invariant = { λ g. IsIndexed K.cmp K.anchored g.zid g.made g.routed g.faces g.live
        g.seekers };
}

impl<K: Key> GatewayState<K> {
    /// A gateway without faces.
    pub fn new(
        alloc: Global,
        mode: WhatAmI,
        zid: Zid,
        regions: Vec<Region>,
        timeout: u64,
        admission: Admission,
    ) -> Self
        ensures { result ≡ new_rows mode zid regions.items timeout admission.refused.items }
    {
        GatewayState {
            mode,
            zid,
            regions: ListedRegions::new(alloc, regions),
            admission: RefusedPairs::new(alloc, admission),
            timeout,
            moment: 0,
            made: 0,
            trees: BTreeMap::new(alloc),
            routed: RoutedTokens::new(alloc),
            dictionary: Dictionary::new(alloc),
            faces: Faces::new(alloc),
            live: LiveCounts::new(alloc),
            seekers: Seekers::new(alloc),
        }
    }

    /// The gateway's mode.
    pub fn mode(&self) -> WhatAmI
        ensures { result ≡ self.now.mode }
    {
        self.mode
    }

    /// The gateway's number.
    pub fn zid(&self) -> Zid
        ensures { result ≡ self.now.zid }
    {
        self.zid
    }

    /// The south regions that are listed.
    pub fn regions(&self) -> &[Region]
        ensures { result.now ≡ self.now.regions }
    {
        self.regions.as_slice()
    }

    /// Whether the south region is listed. A look-up.
    pub fn lists(&self, region: Region) -> bool
        ensures { result ≡ list_any (region_eq region) self.now.regions }
    {
        self.regions.has(region)
    }

    /// Listed regions among which are all those that can be router regions, in the order listed,
    /// and mostly no others.
    pub fn regions_of_routers(&self) -> &[Region]
        ensures { filter may_go_by_trees result.now ≡ filter may_go_by_trees self.now.regions }
    {
        self.regions.of_routers()
    }

    /// Whether tokens of `src` may be told to faces of `dst`: whether the pair isn't refused. A
    /// look-up.
    pub fn admits(&self, src: Region, dst: Region) -> bool
        ensures { result ≡ admits self.now.refused src dst }
    {
        self.admission.admits(src, dst)
    }

    /// How long an interest that was sent upstream may wait for its final.
    pub fn timeout(&self) -> u64
        ensures { result ≡ self.now.timeout }
    {
        self.timeout
    }

    /// The gateway's moment.
    pub fn moment(&self) -> u64
        ensures { result ≡ self.now.moment }
    {
        self.moment
    }

    /// How many faces were made. No open face's number is above it.
    pub fn made(&self) -> u32
        ensures made { result ≡ self.now.made }
        ensures up_to { AreUpTo (λ f. f.number) result self.now.faces }
    {
        self.made
    }

    /// A number that no open face's next id is above. It never falls while a face is open.
    pub fn highest_next(&self) -> u32
        ensures { AreUpTo (λ f. f.next) result self.now.faces }
    {
        self.faces.highest_next()
    }

    /// The tables that were handed in, by region.
    pub fn trees(&self) -> &BTreeMap<Region, KeptTable>
        ensures { result.now.entries ≡ self.now.trees }
    {
        &self.trees
    }

    /// The table that was handed in for the region; `None` where none was, and nothing is listed. A
    /// look-up.
    pub fn table_of(&self, region: Region) -> Option<&KeptTable>
        ensures some { IfSome result (λ table. counted_table table.now ≡ table_of self.now region) }
        ensures none { IfNone result (table_of self.now region
            ≡ record { routers = []; links = []; children = [] }) }
    {
        self.trees.get(&region)
    }

    /// The tokens of the router regions.
    pub fn routed(&self) -> &RoutedTokens<K>
        ensures { result.now ≡ self.now.routed }
    {
        &self.routed
    }

    /// The expressions that have a number, from 1 in this order.
    pub fn dictionary(&self) -> &Dictionary<K>
        ensures { result.now ≡ self.now.dictionary }
    {
        &self.dictionary
    }

    /// How many live tokens of each expression there are, by region.
    pub fn live(&self) -> &LiveCounts<K>
        ensures { AreCountsOf K.cmp result.now (live_rows self.now) }
    {
        &self.live
    }

    /// How many live tokens of the expression stand in the region: how many declare it there. A
    /// look-up, which takes no memory.
    pub fn declarers(&self, region: Region, expr: &K) -> u64
        ensures { result ≡ count_by (is_row_at K.cmp expr.now region) (live_rows self.now) }
    {
        self.live.count(region, expr)
    }

    /// The live expressions that match the key can be looked for among few from here on, where
    /// memory suffices: see `LiveCounts::prepare`.
    pub fn prepare_live(&mut self, alloc: Global, key: &K)
        ensures { self.new ≡ self.old }
    {
        self.live.prepare(alloc, key);
    }

    /// The numbers of the faces to the north, in order.
    pub fn north(&self) -> &[u32]
        ensures rising { IsRising (λ f. f.number) self.now.faces }
        ensures north { result.now
            ≡ map (λ f. f.number) (filter (λ f. is_north f.region) self.now.faces) }
    {
        self.seekers.north()
    }

    /// The numbers of the faces that may be told of the expression, in order: those to the north,
    /// and those that hold an interest in its tokens. A look-up. `None` where the expression can't
    /// be looked up, as a key expression with wild ends.
    pub fn find_seekers(&self, alloc: Global, expr: &K) -> Result<Option<Vec<u32>>, Memory>
        ensures rising { IsRising (λ f. f.number) self.now.faces }
        ensures found { IfOk result (λ found. IfSome found (λ numbers. numbers.items
            ≡ map (λ f. f.number) (filter (λ f. seeks K.matching self.now.mode f expr.now) self.now.faces))) }
    {
        self.seekers.find(alloc, expr)
    }

    /// The faces that were told the expression and not told that it is gone, each with the id under
    /// which it was told, in order of number. A look-up.
    pub fn told_at(&self, expr: &K) -> &[(u32, u32)]
        ensures told { AreToldIds K.cmp expr.now result.now self.now.faces }
        ensures in_order { AreRising result.now }
    {
        self.seekers.told_at(expr)
    }

    /// The id under which a face was told the expression, if it was. A look-up, and a search among
    /// the faces that were told it.
    pub fn told_id(&self, expr: &K, face: u32) -> Option<u32>
        ensures { result ≡ told_id_at K.cmp expr.now self.now.faces face }
    {
        self.seekers.told_id(expr, face)
    }

    /// The interests in tokens of the expression, or in all tokens where it is `None`, each under
    /// its face and id, and maybe interests in other expressions among them. A look-up, which takes
    /// no memory.
    pub fn interests_in(&self, about: &Option<K>) -> &[((u32, u32), Option<K>)]
        ensures rising { IsRising (λ f. f.number) self.now.faces }
        ensures all { HasAllIn about.now (flat_map token_rows self.now.faces) result.now }
    {
        self.seekers.interests_in(about)
    }

    /// The interests in the expression, or in all where it is `None`, that aren't in tokens, each
    /// under its face and id, and maybe interests in other expressions among them. A look-up, which
    /// takes no memory.
    pub fn others_in(&self, about: &Option<K>) -> &[((u32, u32), Option<K>)]
        ensures rising { IsRising (λ f. f.number) self.now.faces }
        ensures all { HasAllIn about.now (flat_map other_rows self.now.faces) result.now }
    {
        self.seekers.others_in(about)
    }

    /// The open face of this number. Found at once where none below it was closed, else by binary
    /// search.
    pub fn find_face(&self, number: u32) -> Option<&FaceState<K>>
        ensures { option_copied result ≡ find_face number self.now }
    {
        self.faces.find(number)
    }

    /// Whose asks were sent upstream to a face under an id. A look-up.
    pub fn asker(&self, face: u32, id: InterestId) -> Asker
        ensures asker { IsAskerOf result face id self.now.faces }
        ensures rising { IsRising (λ f. f.number) self.now.faces }
    {
        self.faces.asker(face, id)
    }

    /// The lowest open face of a region behind which the router stands. Found by binary search.
    pub fn find_face_of(&self, region: Region, zid: Zid) -> Option<&FaceState<K>>
        ensures { option_copied result
            ≡ first_where (λ f. region_eq f.region region && zid_eq f.zid zid) self.now.faces }
    {
        self.faces.find_of_router(region, zid)
    }

    /// The open faces, in order of number.
    pub fn faces(&self) -> OpenFaces<'_, K>
        ensures { result ≡ self.now.faces }
    {
        self.faces.iter()
    }
}
