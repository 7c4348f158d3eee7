// Copies of lists of rows.
ghost use Rattle.std.specs.Prelude.{◌≡◌, IfOk};

use crate::interest::{ShownAsk, ShownInterest, ShownPending};
use std::alloc::Global;
use zt_keys::{Key, Memory};
use zt_protocol::QueryableInfo;

/// What can be copied.
pub trait Copied: Drop + Sized {
    ghost use Rattle.std.specs.Prelude.{◌≡◌, IfOk};

    /// An equal one.
    fn copied(&self, alloc: Global) -> Result<Self, Memory>
        ensures { IfOk result (λ copy. copy ≡ self.now) };
}

/// A list of equal members.
pub fn copy_each<T: Copied>(alloc: Global, members: &[T]) -> Result<Vec<T>, Memory>
    ensures { IfOk result (λ copies. copies.items ≡ members.now) }
{
    let mut copies = Vec::new(alloc);
    for member in members {
        let copy = member.copied(alloc)?;
        copies.push(copy)?;
    }
    Ok(copies)
}

impl<K: Key> Copied for (u32, K) {
    fn copied(&self, alloc: Global) -> Result<Self, Memory> {
        Ok((self.0, self.1.copy(alloc)?))
    }
}

impl<K: Key> Copied for (u32, ShownInterest<K>) {
    fn copied(&self, alloc: Global) -> Result<Self, Memory> {
        Ok((self.0, self.1.copy(alloc)?))
    }
}

impl Copied for (u32, ShownPending) {
    fn copied(&self, _alloc: Global) -> Result<Self, Memory> {
        Ok((self.0, self.1.copy()))
    }
}

impl<K: Key> Copied for (u32, ShownAsk<K>) {
    fn copied(&self, alloc: Global) -> Result<Self, Memory> {
        Ok((self.0, self.1.copy(alloc)?))
    }
}

/// A list of equal keys.
pub fn copy_keys<K: Key>(alloc: Global, keys: &[K]) -> Result<Vec<K>, Memory>
    ensures { IfOk result (λ copies. copies.items ≡ keys.now) }
{
    let mut copies = Vec::new(alloc);
    for key in keys {
        let copy = key.copy(alloc)?;
        copies.push(copy)?;
    }
    Ok(copies)
}

// An equal queryable.
fn copy_queryable<K: Key>(
    alloc: Global,
    queryable: &(K, QueryableInfo),
) -> Result<(K, QueryableInfo), Memory>
    ensures { IfOk result (λ copy. copy ≡ queryable.now) }
{
    Ok((queryable.0.copy(alloc)?, queryable.1))
}

/// A list of equal queryables.
pub fn copy_queryables<K: Key>(
    alloc: Global,
    queryables: &[(K, QueryableInfo)],
) -> Result<Vec<(K, QueryableInfo)>, Memory>
    ensures { IfOk result (λ copies. copies.items ≡ queryables.now) }
{
    let mut copies = Vec::new(alloc);
    for queryable in queryables {
        let copy = copy_queryable(alloc, queryable)?;
        copies.push(copy)?;
    }
    Ok(copies)
}
