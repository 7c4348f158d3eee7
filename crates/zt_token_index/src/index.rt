// What faces were told, by expression.
ghost use Rattle.indexmap.specs.IndexMap.{index_map_len, IsUnique};
ghost use Rattle.std.specs.BTreeMap.{is_at};
ghost use Rattle.std.specs.Map.{lookup};
ghost use Rattle.std.specs.Prelude.{◌≡◌, ◌<◌, [], slice_get, IfNone, IfOk, IfSome};
ghost use Rattle.std.specs.Prelude.{None, OnErr, OnOk, Some};
ghost use Rattle.zt_token_index.specs.Held.{IsWith};
ghost use Rattle.zt_token_index.specs.Told.{AreRising, ChangesAt, HasFacesOrNoKey};
ghost use Rattle.zt_token_index.specs.Told.{id_of, told_at, with_face, without_face};

use crate::faces::ToldFaces;
use indexmap::IndexMap;
use std::alloc::Global;
use std::marker::Model;
use zt_keys::{Key, Memory};

/// The faces that were told each expression and not told that it is gone, each with the id under
/// which it was told: found by expression.
///
/// Contracts see the expressions in key order, each with its pairs of face and id, so that two
/// indexes in which the same is found are equal. The pairs of an expression stand in order of face.
#[derive(Drop)]
pub struct ToldIndex<K: Key> {
    faces: IndexMap<K, ToldFaces>,
    // Where the expression stood that was told or untold last. Often the next one is the same: a
    // call tells many faces of one expression.
    last: usize,
}

impl<K: Key> Model for ToldIndex<K> {
    ghost use Rattle.std.specs.Prelude.{ℕ, List};
    ghost use Rattle.zt_token_index.specs.Held.{index_in_order};

    ghost Value = { List (K × List (ℕ × ℕ)) };

    ghost view = { λ t. index_in_order K.cmp t.faces.entries };
}

// The pairs of the expression.
fn pairs_at<'a, K: Key>(faces: &'a IndexMap<K, ToldFaces>, expr: &K) -> &'a [(u32, u32)]
    ensures pairs { result.now ≡ told_at K.cmp expr.now faces.now.entries }
    ensures in_order { AreRising result.now }
{
    match faces.get(expr) {
        None => &[],
        Some(told) => told.as_slice(),
    }
}

// Where the expression stands. It is looked for first where the last one stood: that takes no hash.
fn place_of<K: Key>(faces: &IndexMap<K, ToldFaces>, last: usize, expr: &K) -> Option<usize>
    ensures found { IfSome result (λ at. slice_get faces.now.entries at
        ≡ Some (expr.now, told_at K.cmp expr.now faces.now.entries)) }
    ensures within { IfSome result (λ at. at < index_map_len faces.now) }
    ensures none { IfNone result (lookup (is_at (K.cmp expr.now)) faces.now.entries ≡ None) }
    ensures unique { IsUnique K.eq faces.now }
{
    // That no key stands twice is said by `as_slice`, and not by the map's own `get_index`.
    if let Some((key, _)) = faces.as_slice().get_index(last) {
        if key == expr {
            return Some(last);
        }
    }
    faces.get_index_of(expr)
}

// The id under which the face was told the expression.
fn find_at<K: Key>(faces: &IndexMap<K, ToldFaces>, expr: &K, face: u32) -> Option<u32>
    ensures { result ≡ id_of face (told_at K.cmp expr.now faces.now.entries) }
{
    match faces.get(expr) {
        None => None,
        Some(told) => told.id_of(face),
    }
}

// These faces stand under a copy of the expression, at the place that it answers. After an error
// all stays.
fn put_faces<K: Key>(
    alloc: Global,
    faces: &mut IndexMap<K, ToldFaces>,
    expr: &K,
    told: ToldFaces,
) -> Result<usize, Memory>
    ensures with { OnOk result (IsWith K.cmp expr.now told faces.old.entries faces.new.entries) }
    ensures at { IfOk result (λ at. slice_get faces.new.entries at ≡ Some (expr.now, told)) }
    ensures err { OnErr result (faces.new.entries ≡ faces.old.entries) }
{
    let (at, _) = faces.insert_full(expr.copy(alloc)?, told)?;
    Ok(at)
}

// The face was told the expression under the id. It answers the id that the face had, if it had
// one. After an error all stays.
fn put_at<K: Key>(
    alloc: Global,
    faces: &mut IndexMap<K, ToldFaces>,
    last: &mut usize,
    expr: &K,
    face: u32,
    id: u32,
) -> Result<Option<u32>, Memory>
    ensures ok { OnOk result (ChangesAt K.cmp expr.now (with_face face id)
        faces.old.entries faces.new.entries) }
    ensures known { IfOk result
        (λ known. known ≡ id_of face (told_at K.cmp expr.now faces.old.entries)) }
    ensures err { OnErr result (faces.new.entries ≡ faces.old.entries) }
{
    if let Some(at) = place_of(faces, *last, expr) {
        *last = at;
        return faces[at].put(alloc, face, id);
    }
    *last = put_faces(alloc, faces, expr, ToldFaces::one(face, id))?;
    Ok(None)
}

// The face goes at the expression. If none is left there, it answers where the expression stands.
fn drop_at<K: Key>(
    faces: &mut IndexMap<K, ToldFaces>,
    last: &mut usize,
    expr: &K,
    face: u32,
) -> Option<usize>
    ensures drops { ChangesAt K.cmp expr.now (without_face face)
        faces.old.entries faces.new.entries }
    ensures last { IfSome result (λ at. slice_get faces.new.entries at ≡ Some (expr.now, [])) }
    ensures none { IfSome result (λ _. told_at K.cmp expr.now faces.new.entries ≡ []) }
    ensures not_last { IfNone result (HasFacesOrNoKey K.cmp expr.now faces.new.entries) }
{
    let at = place_of(faces, *last, expr)?;
    *last = at;
    let told = &mut faces[at];
    told.remove(face);
    told.is_empty().then_some(at)
}

impl<K: Key> ToldIndex<K> {
    /// No face was told anything. It takes no memory.
    pub fn new(alloc: Global) -> Self
        ensures { result ≡ [] }
    {
        ToldIndex {
            faces: IndexMap::new(alloc),
            last: 0,
        }
    }

    /// The faces that were told the expression, each with its id, in order of face. A look-up.
    pub fn at(&self, expr: &K) -> &[(u32, u32)]
        ensures told { result.now ≡ told_at K.cmp expr.now self.now }
        ensures in_order { AreRising result.now }
    {
        pairs_at(&self.faces, expr)
    }

    /// The id under which the face was told the expression, if it was. A look-up, and a search
    /// among the faces that were told it.
    pub fn id_at(&self, expr: &K, face: u32) -> Option<u32>
        ensures { result ≡ id_of face (told_at K.cmp expr.now self.now) }
    {
        find_at(&self.faces, expr, face)
    }

    /// The face was told the expression under the id, which stands instead of one that it had. It
    /// answers the id that the face had, if it had one. After an error the index stays.
    pub fn tell(
        &mut self,
        alloc: Global,
        expr: &K,
        face: u32,
        id: u32,
    ) -> Result<Option<u32>, Memory>
        ensures ok { OnOk result (ChangesAt K.cmp expr.now (with_face face id) self.old self.new) }
        ensures known { IfOk result
            (λ known. known ≡ id_of face (told_at K.cmp expr.now self.old)) }
        ensures err { OnErr result (self.new ≡ self.old) }
    {
        put_at(alloc, &mut self.faces, &mut self.last, expr, face, id)
    }

    /// The face was told that the expression is gone. With its last face an expression goes.
    pub fn untell(&mut self, expr: &K, face: u32)
        ensures less { ChangesAt K.cmp expr.now (without_face face) self.old self.new }
        ensures tidy { HasFacesOrNoKey K.cmp expr.now self.new }
    {
        if let Some(at) = drop_at(&mut self.faces, &mut self.last, expr, face) {
            drop(self.faces.swap_remove_index(at));
        }
    }

    /// An equal index.
    pub fn copy(&self, alloc: Global) -> Result<Self, Memory>
        ensures { IfOk result (λ copy. copy ≡ self.now) }
    {
        let mut faces = IndexMap::with_capacity(alloc, self.faces.len())?;
        for (expr, told) in &self.faces {
            let copy = told.copy(alloc)?;
            put_faces(alloc, &mut faces, expr, copy)?;
        }
        Ok(ToldIndex { faces, last: 0 })
    }
}
