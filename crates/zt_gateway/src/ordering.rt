// Keys and zids in order, each once.
ghost use Rattle.std.specs.Prelude.{◌≡◌, ◌≤◌, IfNone, IfSome, OnOk, insert, length};
ghost use Rattle.std.specs.Ordering.{nat_cmp};
ghost use Rattle.zt_model.specs.Lists.{with_key};

use std::alloc::Global;
use std::cmp::Ordering;
use zt_keys::{Key, Memory};
use zt_region::Zid;

// The place of a key among keys in order, unless it is there.
fn place_of_key<K: Key>(keys: &[K], key: &K) -> Option<usize>
    ensures bound { IfSome result (λ place. place ≤ length keys.now) }
    ensures place { IfSome result (λ place. with_key K.cmp key.now keys.now
        ≡ insert keys.now place key.now) }
    ensures there { IfNone result (with_key K.cmp key.now keys.now ≡ keys.now) }
{
    for (place, other) in keys.iter().enumerate() {
        match key.cmp(other) {
            Ordering::Less => return Some(place),
            Ordering::Equal => return None,
            Ordering::Greater => {}
        }
    }
    Some(keys.len())
}

// Puts a copy of a key in its place among keys in order, unless it is there.
pub(crate) fn insert_key<K: Key>(alloc: Global, keys: &mut Vec<K>, key: &K) -> Result<(), Memory>
    ensures { OnOk result (keys.new.items ≡ with_key K.cmp key.now keys.old.items) }
{
    match place_of_key(keys.as_slice(), key) {
        None => Ok(()),
        Some(place) => {
            keys.insert(place, key.copy(alloc)?)?;
            Ok(())
        }
    }
}

// The place of a zid among zids in order, unless it is there.
fn place_of_zid(zids: &[Zid], zid: Zid) -> Option<usize>
    ensures bound { IfSome result (λ place. place ≤ length zids.now) }
    ensures place { IfSome result (λ place. with_key (λ a b. nat_cmp a.0 b.0) zid zids.now
        ≡ insert zids.now place zid) }
    ensures there { IfNone result (with_key (λ a b. nat_cmp a.0 b.0) zid zids.now ≡ zids.now) }
{
    for (place, other) in zids.iter().enumerate() {
        match zid.0.cmp(&other.0) {
            Ordering::Less => return Some(place),
            Ordering::Equal => return None,
            Ordering::Greater => {}
        }
    }
    Some(zids.len())
}

// Puts a zid in its place among zids in order, unless it is there.
pub(crate) fn insert_zid(zids: &mut Vec<Zid>, zid: Zid) -> Result<(), Memory>
    ensures { OnOk result (zids.new.items ≡ with_key (λ a b. nat_cmp a.0 b.0) zid zids.old.items) }
{
    match place_of_zid(zids.as_slice(), zid) {
        None => Ok(()),
        Some(place) => {
            zids.insert(place, zid)?;
            Ok(())
        }
    }
}
