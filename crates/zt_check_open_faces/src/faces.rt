// The open faces of a gateway.
ghost use Rattle.std.specs.Prelude.{◌≡◌, ◌+◌, ◌==◌, ◌&&◌, ◌∷◌, ◌++◌, [], filter, map, not};
ghost use Rattle.std.specs.Prelude.{IfOk, OnOk};
ghost use Rattle.std.specs.List.{list_any};
ghost use Rattle.std.specs.Option.{option_copied};
ghost use Rattle.zt_region.specs.Admission.{admits};
ghost use Rattle.zt_model.specs.Hearing.{heard};
ghost use Rattle.zt_model.specs.Lists.{first_where, same};
ghost use Rattle.zt_model.specs.Seen.{sees};
ghost use Rattle.zt_model.specs.Shown.{with_held, with_question, with_token};
ghost use Rattle.zt_model.specs.Shown.{without_held, without_token};
ghost use Rattle.zt_check_faces.specs.Faces.{if_number};
ghost use Rattle.zt_check_faces.specs.Parts.{HasThoseOf};
ghost use Rattle.zt_check_hints.specs.Hinted.{IsHinted, Keeps};
ghost use Rattle.zt_check_open_faces.specs.Open.{IsOfOne, KeepsRows, NumbersRise};

use crate::found::{change_in, close_in, find_in, part_of};
use crate::hearing::{forget_told, hear_in, told_hints};
use crate::owing::{hold_in, is_north, list_if, owing_of};
use crate::tokens::{TokenPlace, forget_face, forget_token, hints_of, is_shown_at};
use std::alloc::Global;
use std::marker::Model;
use zt_check_faces::{
    AddToken, Change, DropInterest, DropToken, ShownFace, ShownInterest, change_each,
};
use zt_check_hints::{HintList, Hints};
use zt_keys::{Key, Memory};
use zt_protocol::Message;
use zt_region::{Bound, Region, WhatAmI, Zid};

/// The open faces of a gateway in order of number, and how many were made.
#[derive(Drop)]
pub struct ShownFaces<K: Key> {
    made: u32,
    pub(crate) faces: Vec<ShownFace<K>>,
    // The place of each token that a face declares is hinted by its expression.
    declared: Hints<K, TokenPlace>,
    // The number of each face is hinted by the expressions that it was told.
    pub(crate) told: Hints<K, u32>,
    // The numbers of those faces that something may be owed to.
    pub(crate) owing: HintList<u32>,
}

impl<K: Key> Model for ShownFaces<K> {
    ghost use Rattle.zt_check_open_faces.specs.Open.{Opened};
    ghost use Rattle.zt_check_open_faces.specs.Found.{AreListed, may_be_owed};
    ghost use Rattle.zt_check_open_faces.specs.Places.{AreOpen};

    ghost Value = { Opened K };

    ghost view = { λ s. record { made = s.made; open_faces = s.faces.items } };

    ghost invariant = { λ s. AreOpen K.cmp s.made s.faces.items s.declared s.told
        × AreListed may_be_owed s.owing s.faces.items };
}

// Equal faces.
fn copy_faces<K: Key>(alloc: Global, faces: &[ShownFace<K>]) -> Result<Vec<ShownFace<K>>, Memory>
    ensures { IfOk result (λ copies. copies.items ≡ faces.now) }
{
    let mut copies = Vec::new(alloc);
    for face in faces {
        let copy = face.copy(alloc)?;
        copies.push(copy)?;
    }
    Ok(copies)
}

// A face has a token under an id, which is hinted.
fn put_token<K: Key>(
    alloc: Global,
    faces: &mut Vec<ShownFace<K>>,
    declared: &mut Hints<K, TokenPlace>,
    number: u32,
    id: u32,
    expr: &K,
) -> Result<(), Memory>
    requires { NumbersRise 0 faces.old.items }
    ensures put { OnOk result (faces.new.items
        ≡ map (if_number number (with_token id expr.now)) faces.old.items) }
    ensures kept { Keeps K.cmp declared.old declared.new }
    ensures hinted { OnOk result
        (IsHinted K.cmp expr.now (record { face = number; id = id }) declared.new) }
{
    declared.add(alloc, expr, TokenPlace { face: number, id })?;
    let token = AddToken {
        face: number,
        id,
        expr,
    };
    change_in(alloc, faces, number, &token)
}

impl<K: Key> ShownFaces<K> {
    /// No faces. It takes no memory.
    pub fn new(alloc: Global) -> Self
        ensures { result ≡ record { made = 0; open_faces = [] } }
    {
        ShownFaces {
            made: 0,
            faces: Vec::new(alloc),
            declared: Hints::new(alloc),
            told: Hints::new(alloc),
            owing: HintList::new(alloc),
        }
    }

    /// How many faces were made.
    pub fn made(&self) -> u32
        ensures { result ≡ self.now.made }
    {
        self.made
    }

    /// The open faces, in order of number.
    pub fn faces(&self) -> &[ShownFace<K>]
        ensures { result.now ≡ self.now.open_faces }
    {
        &self.faces
    }

    /// The open face of a number. A binary search.
    pub fn find(&self, number: u32) -> Option<&ShownFace<K>>
        ensures { option_copied result
            ≡ first_where (λ f. number == f.number) self.now.open_faces }
    {
        find_in(&self.faces, number)
    }

    /// A part of the faces that has all of a number. A binary search.
    pub fn faces_of(&self, number: u32) -> &[ShownFace<K>]
        ensures { HasThoseOf (λ f. f.number) number result.now self.now.open_faces }
    {
        part_of(&self.faces, number)
    }

    /// Whether a face of a region that is seen and admitted declares the expression. A look-up.
    pub fn is_declared(&self, refused: &[(Region, Region)], own: Region, expr: &K) -> bool
        ensures { result ≡ list_any (λ f. (sees own f.region && admits refused.now f.region own)
            && list_any (λ row. same K.cmp expr.now row.1) f.live) self.now.open_faces }
    {
        is_shown_at(self.declared.at(expr), &self.faces, refused, own, expr)
    }

    /// A face opens, under the next number and with no rows. That the numbers of faces are given
    /// out counts as out of memory.
    pub fn open(
        &mut self,
        alloc: Global,
        region: Region,
        bound: Bound,
        mode: WhatAmI,
        zid: Zid,
        first: u32,
        initial: Option<bool>,
    ) -> Result<(), Memory>
        ensures { OnOk result (self.new ≡ record {
          made = self.old.made + 1;
          open_faces = self.old.open_faces ++ (record {
            number = self.old.made + 1;
            region = region;
            bound = bound;
            mode = mode;
            zid = zid;
            next = first;
            live = [];
            told = [];
            held = [];
            locals = [];
            pendings = [];
            asks = [];
            initial = initial;
            subscribers = [];
            queryables = [];
          }) ∷ [];
        }) }
    {
        let Some(number) = self.made.checked_add(1) else {
            return Err(Memory);
        };
        let face = ShownFace::new(alloc, number, region, bound, mode, zid, first, initial);
        list_if(&mut self.owing, is_north(region), number)?;
        self.faces.push(face)?;
        self.made = number;
        Ok(())
    }

    /// The face of a number closes.
    pub fn close(&mut self, number: u32)
        ensures { self.new ≡ record self.old {
          open_faces = filter (λ f. not (number == f.number)) self.old.open_faces;
        } }
    {
        forget_face(&mut self.declared, part_of(&self.faces, number), number);
        forget_told(&mut self.told, part_of(&self.faces, number), number);
        self.owing.drop_alike(&number);
        close_in(&mut self.faces, number);
    }

    /// The face of a number changes, but for its number, its region, its tokens, what it was told
    /// and the interests that it holds. A binary search.
    pub fn change<C: Change<ShownFace<K>>>(
        &mut self,
        alloc: Global,
        number: u32,
        change: &C,
    ) -> Result<(), Memory>
        requires one { IsOfOne number (C.changed change.now) }
        requires rows { KeepsRows (C.changed change.now) }
        ensures { OnOk result (self.new ≡ record self.old {
          open_faces = map (C.changed change.now) self.old.open_faces;
        }) }
    {
        match change_in(alloc, &mut self.faces, number, change) {
            Ok(()) => Ok(()),
            Err(memory) => {
                self.faces.clear();
                Err(memory)
            }
        }
    }

    /// Each face changes, but for its number, its region, its tokens, what it was told and the
    /// interests that it holds.
    pub fn change_each<C: Change<ShownFace<K>>>(
        &mut self,
        alloc: Global,
        change: &C,
    ) -> Result<(), Memory>
        requires { KeepsRows (C.changed change.now) }
        ensures { OnOk result (self.new ≡ record self.old {
          open_faces = map (C.changed change.now) self.old.open_faces;
        }) }
    {
        match change_each(alloc, &mut self.faces, change) {
            Ok(()) => Ok(()),
            Err(memory) => {
                self.faces.clear();
                Err(memory)
            }
        }
    }

    /// A face declares a token under an id, in place of the one that stands there. A look-up.
    pub fn add_token(&mut self, alloc: Global, number: u32, id: u32, expr: &K) -> Result<(), Memory>
        ensures { OnOk result (self.new ≡ record self.old {
          open_faces = map (if_number number (with_token id expr.now)) self.old.open_faces;
        }) }
    {
        forget_token(&mut self.declared, part_of(&self.faces, number), number, id);
        match put_token(alloc, &mut self.faces, &mut self.declared, number, id, expr) {
            Ok(()) => Ok(()),
            Err(memory) => {
                self.faces.clear();
                Err(memory)
            }
        }
    }

    /// A face declares the token of an id no more. A look-up.
    pub fn drop_token(&mut self, alloc: Global, number: u32, id: u32) -> Result<(), Memory>
        ensures { OnOk result (self.new ≡ record self.old {
          open_faces = map (if_number number (without_token id)) self.old.open_faces;
        }) }
    {
        forget_token(&mut self.declared, part_of(&self.faces, number), number, id);
        match change_in(
            alloc,
            &mut self.faces,
            number,
            &DropToken { face: number, id },
        ) {
            Ok(()) => Ok(()),
            Err(memory) => {
                self.faces.clear();
                Err(memory)
            }
        }
    }

    /// A message is printed for a face, at a moment. A look-up.
    pub fn hear(
        &mut self,
        alloc: Global,
        number: u32,
        moment: u64,
        message: &Message<K>,
    ) -> Result<(), Memory>
        ensures { OnOk result (self.new ≡ record self.old {
          open_faces = map (if_number number (heard K.cmp moment message.now)) self.old.open_faces;
        }) }
    {
        match hear_in(
            alloc,
            &mut self.faces,
            &mut self.told,
            number,
            moment,
            message,
        ) {
            Ok(()) => Ok(()),
            Err(memory) => {
                self.faces.clear();
                Err(memory)
            }
        }
    }

    /// A face asks and holds an interest, which was sent upstream as these. A look-up.
    pub fn add_interest(
        &mut self,
        alloc: Global,
        number: u32,
        id: u32,
        pendings: &[(u32, u32)],
        interest: &ShownInterest<K>,
    ) -> Result<(), Memory>
        ensures { OnOk result (self.new ≡ record self.old {
          open_faces = map (if_number number (λ f. with_question pendings.now id interest.now
              (with_held id interest.now f))) self.old.open_faces;
        }) }
    {
        match hold_in(
            alloc,
            &mut self.faces,
            &mut self.owing,
            number,
            id,
            pendings,
            interest,
        ) {
            Ok(()) => Ok(()),
            Err(memory) => {
                self.faces.clear();
                Err(memory)
            }
        }
    }

    /// A face holds the interest of an id no more. A look-up.
    pub fn drop_interest(&mut self, alloc: Global, number: u32, id: u32) -> Result<(), Memory>
        ensures { OnOk result (self.new ≡ record self.old {
          open_faces = map (if_number number (without_held id)) self.old.open_faces;
        }) }
    {
        match change_in(
            alloc,
            &mut self.faces,
            number,
            &DropInterest { face: number, id },
        ) {
            Ok(()) => Ok(()),
            Err(memory) => {
                self.faces.clear();
                Err(memory)
            }
        }
    }

    /// Equal faces.
    pub fn copy(&self, alloc: Global) -> Result<Self, Memory>
        ensures { IfOk result (λ copy. copy ≡ self.now) }
    {
        let faces = copy_faces(alloc, &self.faces)?;
        let declared = hints_of(alloc, faces.as_slice())?;
        let told = told_hints(alloc, faces.as_slice())?;
        let owing = owing_of(alloc, faces.as_slice())?;
        Ok(ShownFaces {
            made: self.made,
            faces,
            declared,
            told,
            owing,
        })
    }
}
