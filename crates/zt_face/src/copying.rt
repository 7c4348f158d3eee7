// Copies of what a face keeps.
ghost use Rattle.std.specs.Prelude.{◌≡◌, IfOk};

use crate::face::{AskState, FaceRows, FaceState, PendingInterest};
use crate::interest::RemoteInterest;
use indexmap::IndexSet;
use std::alloc::Global;
use zt_keys::{Key, Memory};
use zt_protocol::QueryableInfo;
use zt_rows::RowsById;

/// Equal keys.
pub fn copy_keys<K: Key>(alloc: Global, keys: &[K]) -> Result<Vec<K>, Memory>
    ensures { IfOk result (λ copies. copies.items ≡ keys.now) }
{
    let mut copies = Vec::new(alloc);
    for key in keys {
        copies.push(key.copy(alloc)?)?;
    }
    Ok(copies)
}

// Equal keys, in the same order.
fn copy_key_set<K: Key>(alloc: Global, keys: &IndexSet<K>) -> Result<IndexSet<K>, Memory>
    ensures { IfOk result (λ copies. copies.keys ≡ keys.now.keys) }
{
    let mut copies = IndexSet::new(alloc);
    for key in keys {
        copies.insert(key.copy(alloc)?)?;
    }
    Ok(copies)
}

// Equal keys under equal ids.
fn copy_key_rows<K: Key>(alloc: Global, rows: &RowsById<K>) -> Result<RowsById<K>, Memory>
    ensures { IfOk result (λ copies. copies ≡ rows.now) }
{
    let mut copies = RowsById::new(alloc);
    for (id, key) in rows.iter() {
        copies.put(*id, key.copy(alloc)?)?;
    }
    Ok(copies)
}

/// Equal queryables.
pub fn copy_queryables<K: Key>(
    alloc: Global,
    queryables: &[(K, QueryableInfo)],
) -> Result<Vec<(K, QueryableInfo)>, Memory>
    ensures { IfOk result (λ copies. copies.items ≡ queryables.now) }
{
    let mut copies = Vec::new(alloc);
    for queryable in queryables {
        copies.push((queryable.0.copy(alloc)?, queryable.1))?;
    }
    Ok(copies)
}

/// What can be copied where memory suffices.
pub trait Duplicate: Drop + Sized {
    ghost use Rattle.std.specs.Prelude.{◌≡◌, IfOk};

    /// An equal value.
    fn duplicate(&self, alloc: Global) -> Result<Self, Memory>
        ensures { IfOk result (λ copy. copy ≡ self.now) };
}

/// Equal values.
pub fn copy_all<T: Duplicate>(alloc: Global, values: &[T]) -> Result<Vec<T>, Memory>
    ensures { IfOk result (λ copies. copies.items ≡ values.now) }
{
    let mut copies = Vec::new(alloc);
    for value in values {
        copies.push(value.duplicate(alloc)?)?;
    }
    Ok(copies)
}

// Equal rows under equal ids.
fn copy_rows<T: Duplicate>(alloc: Global, rows: &RowsById<T>) -> Result<RowsById<T>, Memory>
    ensures { IfOk result (λ copies. copies ≡ rows.now) }
{
    let mut copies = RowsById::new(alloc);
    for (id, row) in rows.iter() {
        copies.put(*id, row.duplicate(alloc)?)?;
    }
    Ok(copies)
}

impl<K: Key> Duplicate for RemoteInterest<K> {
    fn duplicate(&self, alloc: Global) -> Result<Self, Memory> {
        self.copy(alloc)
    }
}

impl<K: Key> Duplicate for AskState<K> {
    fn duplicate(&self, alloc: Global) -> Result<Self, Memory> {
        Ok(AskState {
            interest: self.interest.copy(alloc)?,
            pendings: self.pendings.to_vec(alloc)?,
            answered: copy_key_set(alloc, &self.answered)?,
        })
    }
}

impl Duplicate for PendingInterest {
    fn duplicate(&self, _alloc: Global) -> Result<Self, Memory> {
        Ok(PendingInterest::new(self.mode(), self.since()))
    }
}

impl<K: Key> Duplicate for FaceState<K> {
    fn duplicate(&self, alloc: Global) -> Result<Self, Memory> {
        let rows = &*self.rows;
        let copy = FaceRows {
            bound: rows.bound,
            mode: rows.mode,
            zid: rows.zid,
            next: rows.next,
            live: copy_key_rows(alloc, &rows.live)?,
            told: rows.told.copy(alloc)?,
            held: copy_rows(alloc, &rows.held)?,
            locals: rows.locals.copy(alloc)?,
            pendings: copy_rows(alloc, &rows.pendings)?,
            asks: copy_rows(alloc, &rows.asks)?,
            initial: rows.initial,
            subscribers: copy_keys(alloc, rows.subscribers.as_slice())?,
            queryables: copy_queryables(alloc, rows.queryables.as_slice())?,
        };
        Ok(FaceState {
            number: self.number,
            region: self.region,
            rows: Box::new(alloc, copy)?,
        })
    }
}

impl<K: Key> FaceState<K> {
    /// An equal face.
    pub fn copy(&self, alloc: Global) -> Result<Self, Memory>
        ensures { IfOk result (λ copy. copy ≡ self.now) }
    {
        self.duplicate(alloc)
    }
}
