// The faces that may be told of tokens.
ghost use Rattle.std.specs.Prelude.{◌≡◌, ◌++◌, ◌∷◌, ◌==◌, ℕ, [], filter, map, not, IfOk, IfSome};
ghost use Rattle.std.specs.Prelude.{List, OnErr, OnOk};
ghost use Rattle.std.specs.List.{flat_map};
ghost use Rattle.std.specs.List.Sorted.{IsStrictlySortedBy};
ghost use Rattle.std.specs.Ordering.{nat_cmp};
ghost use Rattle.zt_interest_index.specs.Holders.{HasAllIn};
ghost use Rattle.zt_model.specs.Hearing.{heard};
ghost use Rattle.zt_model.specs.Routing.{asked_as, unheld};
ghost use Rattle.zt_model.specs.Rows.{Face};
ghost use Rattle.zt_token_index.specs.Seekers.{AreSeekers, IsKnown, Leaves, Reseeks, no_seekers};
ghost use Rattle.zt_token_index.specs.Seekers.{may_seek, north_numbers, other_rows, token_rows};
ghost use Rattle.zt_token_index.specs.Told.{AreRising, id_of, told_at};

use crate::ToldIndex;
use crate::hearing::{hear_message, untell_all};
use crate::interests::{drop_all, drop_held, put_held};
use std::alloc::Global;
use std::marker::Model;
use zt_face::{FaceState, RemoteInterest};
use zt_interest_index::InterestIndex;
use zt_keys::{Key, Memory};
use zt_protocol::Message;
use zt_region::Region;

// A number goes.
fn drop_number(numbers: &mut Vec<u32>, number: u32)
    ensures { numbers.new.items ≡ filter (λ n. not (number == n)) numbers.old.items }
{
    numbers.retain(|n| number != *n);
}

/// The numbers of the faces to the north, in order, an index of the interests in tokens that faces
/// hold, one of their other interests, and an index of what faces were told.
#[derive(Drop)]
pub struct Seekers<K: Key> {
    north: Vec<u32>,
    index: InterestIndex<K>,
    others: InterestIndex<K>,
    told: ToldIndex<K>,
}

impl<K: Key> Model for Seekers<K> {
    ghost use Rattle.zt_token_index.specs.Seekers.{Seeking};

    ghost Value = { Seeking K };

    ghost view = { λ s. record {
      north = s.north.items;
      index = s.index;
      others = s.others;
      told = s.told;
    } };
}

impl<K: Key> Seekers<K> {
    /// Of no faces.
    pub fn new(alloc: Global) -> Self
        ensures { result ≡ no_seekers }
    {
        Seekers {
            north: Vec::new(alloc),
            index: InterestIndex::new(alloc),
            others: InterestIndex::new(alloc),
            told: ToldIndex::new(alloc),
        }
    }

    /// A face more that holds nothing and was told nothing yet, whose number is above those of the
    /// others. After an error they stay.
    pub fn open(&mut self, f: &FaceState<K>) -> Result<(), Memory>
        ensures ok { OnOk result (self.new
            ≡ record self.old { north = self.old.north ++ north_numbers (f.now ∷ []) }) }
        ensures err { OnErr result (self.new ≡ self.old) }
    {
        if f.region() == Region::North {
            self.north.push(f.number())?;
        }
        Ok(())
    }

    /// The face goes.
    pub fn close(&mut self, f: &FaceState<K>)
        ensures { Leaves K.cmp K.anchored f.now self.old self.new }
    {
        drop_number(&mut self.north, f.number());
        drop_all(&mut self.index, &mut self.others, f);
        untell_all(&mut self.told, f);
    }

    /// The face comes to hold an interest, if it asks for what comes later.
    pub fn hold(
        &mut self,
        alloc: Global,
        f: &FaceState<K>,
        id: u32,
        interest: &RemoteInterest<K>,
    ) -> Result<(), Memory>
        ensures { OnOk result ((pendings : List (ℕ × ℕ)) →
            Reseeks K.cmp K.anchored f.now (asked_as pendings id interest.now) self.old self.new) }
    {
        if interest.mode().is_future() {
            drop_held(&mut self.index, &mut self.others, f, id);
            put_held(
                alloc,
                &mut self.index,
                &mut self.others,
                f.number(),
                id,
                interest,
            )?;
        }
        Ok(())
    }

    /// The face holds the interest of the id no more.
    pub fn unhold(&mut self, f: &FaceState<K>, id: u32)
        ensures { Reseeks K.cmp K.anchored f.now (unheld id) self.old self.new }
    {
        drop_held(&mut self.index, &mut self.others, f, id);
    }

    /// The face hears a message. Where this says that an expression is gone, the answer is the id
    /// under which the face was told it, if it was. An expression that is told anew under another
    /// id never comes up in a gateway, and counts as out of memory. Nothing is said of the look-ups
    /// after an error.
    pub fn hear(
        &mut self,
        alloc: Global,
        f: &FaceState<K>,
        message: &Message<K>,
    ) -> Result<Option<u32>, Memory>
        ensures seeks { OnOk result ((moment : ℕ) → Reseeks K.cmp K.anchored f.now
            (heard K.cmp moment message.now) self.old self.new) }
        ensures known { IfOk result (λ known.
            IsKnown K.cmp K.anchored f.now message.now known self.old) }
    {
        hear_message(alloc, &mut self.told, f, message)
    }

    /// The faces that were told the expression and not told that it is gone, each with the id under
    /// which it was told, in order of number. A look-up.
    pub fn told_at(&self, expr: &K) -> &[(u32, u32)]
        ensures pairs { result.now ≡ told_at K.cmp expr.now self.now.told }
        ensures in_order { AreRising result.now }
    {
        self.told.at(expr)
    }

    /// The id under which the face was told the expression, if it was. A look-up, and a search
    /// among the faces that were told it.
    pub fn told_id(&self, expr: &K, face: u32) -> Option<u32>
        ensures { result ≡ id_of face (told_at K.cmp expr.now self.now.told) }
    {
        self.told.id_at(expr, face)
    }

    /// The numbers of the faces to the north, in order.
    pub fn north(&self) -> &[u32]
        ensures { result.now ≡ self.now.north }
    {
        &self.north
    }

    /// The faces that may be told of the expression, by number, in order: those to the north, and
    /// those that hold an interest in its tokens. `None` where the expression can't be looked up,
    /// as a key expression with a wild end: any face may be one.
    pub fn find(&self, alloc: Global, expr: &K) -> Result<Option<Vec<u32>>, Memory>
        ensures { IfOk result (λ found. IfSome found (λ numbers. (fs : List (Face K)) →
            IsStrictlySortedBy nat_cmp (map (λ f. f.number) fs) →
            AreSeekers K.cmp K.anchored self.now fs →
            numbers.items
            ≡ map (λ f. f.number) (filter (λ f. may_seek K.matching f expr.now) fs))) }
    {
        self.index.holders_and(alloc, expr, &self.north)
    }

    /// The interests in tokens of the expression, or in all tokens where it is `None`, each under
    /// its face and id, and maybe interests in other expressions among them. A look-up, which takes
    /// no memory.
    pub fn interests_in(&self, about: &Option<K>) -> &[((u32, u32), Option<K>)]
        ensures { (fs : List (Face K)) → AreSeekers K.cmp K.anchored self.now fs →
            HasAllIn about.now (flat_map token_rows fs) result.now }
    {
        self.index.interests_in(about)
    }

    /// The interests in the expression, or in all where it is `None`, that aren't in tokens, each
    /// under its face and id, and maybe interests in other expressions among them. A look-up, which
    /// takes no memory.
    pub fn others_in(&self, about: &Option<K>) -> &[((u32, u32), Option<K>)]
        ensures { (fs : List (Face K)) → AreSeekers K.cmp K.anchored self.now fs →
            HasAllIn about.now (flat_map other_rows fs) result.now }
    {
        self.others.interests_in(about)
    }

    /// Equal look-ups.
    pub fn copy(&self, alloc: Global) -> Result<Self, Memory>
        ensures { IfOk result (λ copy. copy ≡ self.now) }
    {
        Ok(Seekers {
            north: self.north.to_vec(alloc)?,
            index: self.index.copy(alloc)?,
            others: self.others.copy(alloc)?,
            told: self.told.copy(alloc)?,
        })
    }
}
