// The interests that faces were sent and that wait for their finals, found by when they were sent.
ghost use Rattle.std.specs.Prelude.{◌≡◌, true, IfOk, OnOk};
ghost use Rattle.zt_rows.specs.ById.{IsInOrder};
ghost use Rattle.zt_faces.specs.Rising.{IsRising};
ghost use Rattle.zt_faces.specs.Slots.{faces_in, number_of};
ghost use Rattle.zt_faces.specs.Timed.{AreIn, AreTimed, IsEachOnce, IsGathered, IsOrderedAt, KeepsAll};
ghost use Rattle.zt_faces.specs.Timed.{expired_among, gathered, has, has_waited, timed_at, waits};
ghost use Rattle.zt_faces.specs.Timed.{waits_in};

use crate::by_number::find_in;
use crate::slots::Slot;
use crate::walk::OpenFaces;
use std::alloc::Global;
use std::collections::BTreeSet;
use zt_face::{FaceState, PendingInterest, RowsById};
use zt_keys::{Key, Memory};

/// An interest that a face was sent: when, to which face and under which id.
#[derive(Clone, Copy, PartialEq, Eq, PartialOrd, Ord, Debug)]
pub struct Timed {
    pub since: u64,
    pub face: u32,
    pub id: u32,
}

// So many are left alone.
const FEW: usize = 64;

// Whether what waits since then has waited for the timeout.
fn has_waited(now: u64, timeout: u64, since: u64) -> bool
    ensures { result ≡ has_waited now timeout since }
{
    timeout <= now.saturating_sub(since)
}

// Whether the face's interest of the id waits since then.
fn waits_at<K: Key>(f: &FaceState<K>, since: u64, id: u32) -> bool
    ensures waits { result ≡ waits_in since id f.now.pendings }
    ensures ordered { IsInOrder f.now.pendings }
{
    match f.pendings().at(id) {
        None => false,
        Some(pending) => since == pending.since(),
    }
}

// Whether the interest still waits for its final.
fn still_waits<K: Key>(slots: &[Slot<K>], timed: Timed) -> bool
    requires { IsRising number_of slots.now }
    ensures waits { result ≡ waits timed (faces_in slots.now) }
    ensures ordered { IsOrderedAt timed.face (faces_in slots.now) }
{
    match find_in(slots, timed.face) {
        None => false,
        Some(f) => waits_at(f, timed.since, timed.id),
    }
}

// Drops the first ones, up to one that waits.
fn drop_ended<K: Key>(slots: &[Slot<K>], rows: &mut BTreeSet<Timed>)
    requires rising { IsRising number_of slots.now }
    requires timed { AreTimed rows.old.keys (faces_in slots.now) }
    ensures { AreTimed rows.new.keys (faces_in slots.now) }
{
    while let Some(first) = rows.first() {
        if still_waits(slots, *first) {
            return;
        }
        rows.pop_first();
    }
}

// Adds the interest, where it still waits.
fn gather_one<K: Key>(
    slots: &[Slot<K>],
    timed: Timed,
    found: &mut Vec<(u32, u32)>,
) -> Result<(), Memory>
    requires { IsRising number_of slots.now }
    ensures found { OnOk result (found.new.items
        ≡ gathered timed (faces_in slots.now) found.old.items) }
    ensures ordered { OnOk result (IsOrderedAt timed.face (faces_in slots.now)) }
{
    if still_waits(slots, timed) {
        found.push((timed.face, timed.id))?;
    }
    Ok(())
}

// Those that still wait and have waited for the timeout.
fn gather<K: Key>(
    alloc: Global,
    slots: &[Slot<K>],
    rows: &BTreeSet<Timed>,
    now: u64,
    timeout: u64,
) -> Result<Vec<(u32, u32)>, Memory>
    requires rising { IsRising number_of slots.now }
    requires timed { AreTimed rows.now.keys (faces_in slots.now) }
    ensures { IfOk result (λ found. IsGathered now timeout (faces_in slots.now) found.items) }
{
    let mut found = Vec::new(alloc);
    for timed in rows {
        if !has_waited(now, timeout, timed.since) {
            return Ok(found);
        }
        gather_one(slots, *timed, &mut found)?;
    }
    Ok(found)
}

// Puts pairs in order, each once.
fn put_in_order(pairs: &mut Vec<(u32, u32)>)
    ensures { IsEachOnce pairs.old.items pairs.new.items }
{
    pairs.sort_unstable();
    pairs.dedup();
}

// An interest more.
fn note_in(rows: &mut BTreeSet<Timed>, timed: Timed) -> Result<(), Memory>
    ensures here { OnOk result (has timed rows.new.keys ≡ true) }
    ensures kept { KeepsAll rows.old.keys rows.new.keys }
{
    rows.insert(timed)?;
    Ok(())
}

/// The interests that faces were sent and that wait for their finals, in order of when they were
/// sent. One that waits no more may be among them.
#[derive(Drop)]
pub(crate) struct Times {
    rows: BTreeSet<Timed>,
    // From so many on those that wait no more are dropped.
    many: usize,
}

impl Times {
    // None.
    pub(crate) fn new(alloc: Global) -> Self {
        Times {
            rows: BTreeSet::new(alloc),
            many: FEW,
        }
    }

    // An interest that the face was sent under the id at that moment.
    pub(crate) fn note(&mut self, since: u64, face: u32, id: u32) -> Result<(), Memory>
        ensures here { OnOk result (has (timed_at since face id) self.new.rows.keys ≡ true) }
        ensures kept { KeepsAll self.old.rows.keys self.new.rows.keys }
    {
        note_in(&mut self.rows, Timed { since, face, id })
    }

    // These pendings of a face.
    fn note_pendings(
        &mut self,
        face: u32,
        pendings: &RowsById<PendingInterest>,
    ) -> Result<(), Memory>
        ensures here { OnOk result (AreIn self.new.rows.keys face pendings.now) }
        ensures kept { KeepsAll self.old.rows.keys self.new.rows.keys }
    {
        for (id, pending) in pendings.iter() {
            self.note(pending.since(), face, *id)?;
        }
        Ok(())
    }

    // The pendings of the face.
    pub(crate) fn time_face<K: Key>(&mut self, f: &FaceState<K>) -> Result<(), Memory>
        ensures here { OnOk result (AreIn self.new.rows.keys f.now.number f.now.pendings) }
        ensures kept { KeepsAll self.old.rows.keys self.new.rows.keys }
    {
        self.note_pendings(f.number(), f.pendings())
    }

    // The pendings of these faces.
    fn note_faces<K: Key>(&mut self, faces: OpenFaces<'_, K>) -> Result<(), Memory>
        ensures { OnOk result (AreTimed self.new.rows.keys faces.entry) }
    {
        for f in faces {
            self.time_face(f)?;
        }
        Ok(())
    }

    // The pendings of these faces, `count` in all, and none that waits no more.
    pub(crate) fn of_faces<K: Key>(
        alloc: Global,
        faces: OpenFaces<'_, K>,
        count: usize,
    ) -> Result<Self, Memory>
        ensures { IfOk result (λ times. AreTimed times.rows.keys faces.entry) }
    {
        let mut times = Times::new(alloc);
        times.note_faces(faces)?;
        let twice = times.rows.len().saturating_mul(2);
        times.many = twice.saturating_add(count).saturating_add(FEW);
        Ok(times)
    }

    // Whether there are so many that those that wait no more should be dropped.
    pub(crate) fn are_many(&self) -> bool {
        self.rows.len() >= self.many
    }

    // The same.
    pub(crate) fn copy(&self) -> Result<Self, Memory>
        ensures { IfOk result (λ copy. copy.rows.keys ≡ self.now.rows.keys) }
    {
        Ok(Times {
            rows: self.rows.clone()?,
            many: self.many,
        })
    }

    // The first ones go, up to one that waits.
    pub(crate) fn drop_ended<K: Key>(&mut self, slots: &[Slot<K>])
        requires rising { IsRising number_of slots.now }
        requires timed { AreTimed self.old.rows.keys (faces_in slots.now) }
        ensures { AreTimed self.new.rows.keys (faces_in slots.now) }
    {
        drop_ended(slots, &mut self.rows);
    }

    // The pendings that have waited for the timeout, by face and id. A walk over those that were
    // sent so long ago, and no others.
    pub(crate) fn expired<K: Key>(
        &self,
        alloc: Global,
        slots: &[Slot<K>],
        now: u64,
        timeout: u64,
    ) -> Result<Vec<(u32, u32)>, Memory>
        requires rising { IsRising number_of slots.now }
        requires timed { AreTimed self.now.rows.keys (faces_in slots.now) }
        ensures { IfOk result (λ expired. expired.items
            ≡ expired_among now timeout (faces_in slots.now)) }
    {
        let mut found = gather(alloc, slots, &self.rows, now, timeout)?;
        put_in_order(&mut found);
        Ok(found)
    }
}
