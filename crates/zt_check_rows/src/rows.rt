// The rows of one gateway.
ghost use Rattle.std.specs.Prelude.{◌≡◌, ◌&&◌, IfOk, OnOk};
ghost use Rattle.std.specs.List.{list_any};
ghost use Rattle.std.specs.Option.{option_copied};
ghost use Rattle.zt_model.specs.Fabric.{new_rows};
ghost use Rattle.zt_model.specs.Hearing.{heard};
ghost use Rattle.zt_model.specs.Lists.{same};
ghost use Rattle.zt_model.specs.Parts.{find_face, is_routed, with_face};
ghost use Rattle.zt_model.specs.Seen.{is_owed, is_seen, is_seen_and_admitted};
ghost use Rattle.zt_check_faces.specs.Parts.{HasThoseOf};

use crate::order::goes_by_trees;
use crate::routed::ShownRouted;
use crate::routers::RoutedRows;
use crate::tables::copy_tables;
use std::alloc::Global;
use std::marker::Model;
use zt_check_faces::{ShownFace, copy_keys};
use zt_check_open_faces::{FaceTest, ShownFaces, TokenTest};
use zt_check_tables::ShownTable;
use zt_keys::{Key, Memory};
use zt_protocol::Message;
use zt_region::{Region, WhatAmI, Zid};

/// The rows of one gateway, as a transcript shows them.
#[derive(Drop)]
pub struct ShownRows<K: Key> {
    pub(crate) mode: WhatAmI,
    pub(crate) zid: Zid,
    pub(crate) regions: Vec<Region>,
    pub(crate) refused: Vec<(Region, Region)>,
    pub(crate) timeout: u64,
    pub(crate) moment: u64,
    pub(crate) trees: Vec<(Region, ShownTable)>,
    pub(crate) routed: RoutedRows<K>,
    pub(crate) dictionary: Vec<K>,
    pub(crate) faces: ShownFaces<K>,
}

impl<K: Key> Model for ShownRows<K> {
    ghost use Rattle.zt_model.specs.Rows.{Rows};

    ghost Value = { Rows K };

    ghost view = { λ g. record {
      mode = g.mode;
      zid = g.zid;
      regions = g.regions.items;
      refused = g.refused.items;
      timeout = g.timeout;
      moment = g.moment;
      made = g.faces.made;
      trees = g.trees.items;
      routed = g.routed;
      dictionary = g.dictionary.items;
      faces = g.faces.open_faces;
    } };
}

impl<K: Key> ShownRows<K> {
    /// A new gateway.
    pub fn new(
        alloc: Global,
        mode: WhatAmI,
        zid: Zid,
        regions: Vec<Region>,
        timeout: u64,
        refused: Vec<(Region, Region)>,
    ) -> Self
        ensures { result ≡ new_rows mode zid regions.items timeout refused.items }
    {
        ShownRows {
            mode,
            zid,
            regions,
            refused,
            timeout,
            moment: 0,
            trees: Vec::new(alloc),
            routed: RoutedRows::new(alloc),
            dictionary: Vec::new(alloc),
            faces: ShownFaces::new(alloc),
        }
    }

    /// The gateway's mode.
    pub fn mode(&self) -> WhatAmI
        ensures { result ≡ self.now.mode }
    {
        self.mode
    }

    /// The gateway's zid.
    pub fn zid(&self) -> Zid
        ensures { result ≡ self.now.zid }
    {
        self.zid
    }

    /// Its south regions.
    pub fn regions(&self) -> &[Region]
        ensures { result.now ≡ self.now.regions }
    {
        &self.regions
    }

    /// The pairs of regions that its admission table refuses.
    pub fn refused(&self) -> &[(Region, Region)]
        ensures { result.now ≡ self.now.refused }
    {
        &self.refused
    }

    /// How long a pending may wait.
    pub fn timeout(&self) -> u64
        ensures { result ≡ self.now.timeout }
    {
        self.timeout
    }

    /// The moment of its last accepted `moment` line, at first 0.
    pub fn moment(&self) -> u64
        ensures { result ≡ self.now.moment }
    {
        self.moment
    }

    /// How many faces were made.
    pub fn made(&self) -> u32
        ensures { result ≡ self.now.made }
    {
        self.faces.made()
    }

    /// The tables of its router regions.
    pub fn trees(&self) -> &[(Region, ShownTable)]
        ensures { result.now ≡ self.now.trees }
    {
        &self.trees
    }

    /// The tokens of its router regions, but for its own.
    pub fn routed(&self) -> &[ShownRouted<K>]
        ensures { result.now ≡ self.now.routed }
    {
        self.routed.rows()
    }

    /// The expressions that have numbers.
    pub fn dictionary(&self) -> &[K]
        ensures { result.now ≡ self.now.dictionary }
    {
        &self.dictionary
    }

    /// The open faces, in order of number.
    pub fn faces(&self) -> &[ShownFace<K>]
        ensures { result.now ≡ self.now.faces }
    {
        self.faces.faces()
    }

    /// The open face of a number.
    pub fn face(&self, number: u32) -> Option<&ShownFace<K>>
        ensures { option_copied result ≡ find_face number self.now }
    {
        self.faces.find(number)
    }

    /// The open faces of a number. A look-up: a part of the faces that has all of the number.
    pub fn faces_of(&self, number: u32) -> &[ShownFace<K>]
        ensures { HasThoseOf (λ f. f.number) number result.now self.now.faces }
    {
        self.faces.faces_of(number)
    }

    /// Whether the face hears of tokens by trees.
    pub fn is_routed(&self, face: &ShownFace<K>) -> bool
        ensures { result ≡ is_routed self.now face.now }
    {
        goes_by_trees(self.mode, face.region())
    }

    #[tactic(auto, unfolding(zt_model::specs::Parts::with_face))]
    /// A face hears a message at the gateway's moment.
    pub fn hear(&mut self, alloc: Global, face: u32, message: &Message<K>) -> Result<(), Memory>
        ensures { OnOk result (self.new
            ≡ with_face face (heard K.cmp self.old.moment message.now) self.old) }
    {
        self.faces.hear(alloc, face, self.moment, message)
    }

    /// Whether faces of a region see the expression. A look-up.
    #[tactic(auto, unfolding(zt_model::specs::Seen::is_seen))]
    pub fn is_seen(&self, own: Region, expr: &K) -> bool
        ensures { result ≡ is_seen K.cmp self.now own expr.now }
    {
        self.faces.is_declared(&[], own, expr) || self.routed.is_shown(&[], self.zid, own, expr)
    }

    /// Whether the expression stands in a region that faces of this one see, and from which it is
    /// admitted. A look-up.
    #[tactic(auto, unfolding(zt_model::specs::Seen::is_seen_and_admitted))]
    pub fn is_seen_and_admitted(&self, own: Region, expr: &K) -> bool
        ensures { result ≡ is_seen_and_admitted K.cmp self.now own expr.now }
    {
        self.faces.is_declared(&self.refused, own, expr)
            || self.routed.is_shown(&self.refused, self.zid, own, expr)
    }

    /// Whether a face passes that was told the expression. Only such faces are tried.
    pub fn any_told<T: FaceTest<K>>(&self, expr: &K, test: &T) -> bool
        ensures { result ≡ list_any
            (λ f. list_any (λ row. same K.cmp expr.now row.1) f.told && T.passes test.now f)
            self.now.faces }
    {
        self.faces.any_told(expr, test)
    }

    /// Whether a face passes that the expression is owed to. Only faces are tried that are to the
    /// north, or hold an interest in what is there now too.
    pub fn any_owed<T: FaceTest<K>>(&self, expr: &K, test: &T) -> bool
        ensures { result ≡ list_any
            (λ f. is_owed K.matching f expr.now && T.passes test.now f) self.now.faces }
    {
        self.faces.any_owed(expr, test)
    }

    /// Whether a token of a face passes whose expression matches the key. Only tokens near the key
    /// are tried.
    pub fn any_near<T: TokenTest<K>>(&self, key: &K, test: &T) -> bool
        ensures { result ≡ list_any (λ f. list_any
            (λ row. K.matching key.now row.1 && T.passes test.now f row.1) f.live)
            self.now.faces }
    {
        self.faces.any_near(key, test)
    }

    /// Rows equal to these.
    pub fn copy(&self, alloc: Global) -> Result<Self, Memory>
        ensures { IfOk result (λ copy. copy ≡ self.now) }
    {
        Ok(ShownRows {
            mode: self.mode,
            zid: self.zid,
            regions: self.regions.to_vec(alloc)?,
            refused: self.refused.to_vec(alloc)?,
            timeout: self.timeout,
            moment: self.moment,
            trees: copy_tables(alloc, &self.trees)?,
            routed: self.routed.copy(alloc)?,
            dictionary: copy_keys(alloc, &self.dictionary)?,
            faces: self.faces.copy(alloc)?,
        })
    }
}
