// What a gateway is asked at the end: who declares tokens, and what its faces were told.
use crate::fault::{Fault, TRIES};
use crate::ways::{prepare_and_drop, rebuild};
use std::alloc::Global;
use zt_gateway::{Gateway, Lookups};
use zt_keys::{Key, Memory};
use zt_protocol::{Call, CallError};
use zt_region::Region;

// The account is of the faces up to this number, and of so many expressions that each was told.
const FACES: u32 = 12;

const MOST_TOLD: u32 = 64;

// Adds the text of a copy of the key. A key reads as its copies do.
fn put_key<K: Key>(alloc: Global, text: &mut String, key: &K) -> Result<(), Memory> {
    let copy = key.copy(alloc)?;
    let printed = copy.print(alloc)?;
    if printed.as_str() != key.print(alloc)?.as_str() {
        text.push_str("another copy of ")?;
    }
    text.push_str(printed.as_str())?;
    Ok(())
}

// Adds who declares each expression of a region.
fn put_sources<K: Key>(
    alloc: Global,
    text: &mut String,
    gateway: &Gateway<K>,
    region: Region,
) -> Result<(), Memory> {
    let Ok(found) = gateway.sourced_tokens(alloc, region) else {
        return Err(Memory);
    };
    for (key, sources) in found.as_slice() {
        text.push_str("# sourced ")?;
        put_key(alloc, text, key)?;
        let who = format!(in alloc; " {region:?} {sources:?}\n")?;
        text.push_str(who.as_str())?;
    }
    Ok(())
}

// Adds how many tokens of the expression each region has.
fn put_declarers<K: Key>(
    alloc: Global,
    text: &mut String,
    lookups: &Lookups<'_, K>,
    regions: &[Region],
    key: &K,
) -> Result<(), Memory> {
    for region in regions {
        let count = lookups.declarers(*region, key);
        let more = format!(in alloc; " {count}")?;
        text.push_str(more.as_str())?;
    }
    text.push_str("\n")?;
    Ok(())
}

// Adds that the face was told the expression, under which id, and who declares that.
fn put_told<K: Key>(
    alloc: Global,
    text: &mut String,
    lookups: &Lookups<'_, K>,
    regions: &[Region],
    face: u32,
    key: &K,
) -> Result<(), Memory> {
    let id = lookups.told(face, key);
    let front = format!(in alloc; "# told {face} {id:?} ")?;
    text.push_str(front.as_str())?;
    put_key(alloc, text, key)?;
    put_declarers(alloc, text, lookups, regions, key)
}

// Adds what the face was told, in order.
fn put_face<K: Key>(
    alloc: Global,
    text: &mut String,
    lookups: &Lookups<'_, K>,
    regions: &[Region],
    face: u32,
) -> Result<(), Memory> {
    let mut after: Option<&K> = None;
    for _ in 0..MOST_TOLD {
        let Some(key) = lookups.next_told(face, after) else {
            break;
        };
        put_told(alloc, text, lookups, regions, face, key)?;
        after = Some(key);
    }
    Ok(())
}

// Who declares the expressions of each region.
fn try_sources<K: Key>(
    alloc: Global,
    regions: &[Region],
    gateway: &Gateway<K>,
) -> Result<String, Memory> {
    let mut text = String::new(alloc);
    for region in regions {
        put_sources(alloc, &mut text, gateway, *region)?;
    }
    Ok(text)
}

// The text, and what each face was told. The gateway has look-ups.
fn try_told<K: Key>(
    alloc: Global,
    regions: &[Region],
    gateway: &Gateway<K>,
    sources: &str,
) -> Result<String, Memory> {
    let Some(lookups) = gateway.lookups() else {
        return Err(Memory);
    };
    let mut text = String::from_str(alloc, sources)?;
    for face in 1..=FACES {
        put_face(alloc, &mut text, &lookups, regions, face)?;
    }
    Ok(text)
}

// Who declares the expressions of each region, once there is memory for that.
fn sources_again<K: Key>(
    alloc: Global,
    regions: &[Region],
    gateway: &Gateway<K>,
) -> Result<String, Fault> {
    for _ in 0..TRIES {
        if let Ok(text) = try_sources(alloc, regions, gateway) {
            return Ok(text);
        }
    }
    Err(Fault::Memory)
}

// The text, and what each face was told, once there is memory for that.
fn told_again<K: Key>(
    alloc: Global,
    regions: &[Region],
    gateway: &Gateway<K>,
    sources: &str,
) -> Result<String, Fault> {
    for _ in 0..TRIES {
        if let Ok(text) = try_told(alloc, regions, gateway, sources) {
            return Ok(text);
        }
    }
    Err(Fault::Memory)
}

// Prepares a session that isn't opened, so that the gateway has to be rebuilt.
fn disturb_again<K: Key>(gateway: &mut Gateway<K>) -> Result<(), Fault> {
    for _ in 0..TRIES {
        match prepare_and_drop(gateway, &Call::NewSession { first: 1 }) {
            Err(CallError::Memory) => {}
            _ => return Ok(()),
        }
    }
    Err(Fault::Memory)
}

fn rebuild_again<K: Key>(gateway: &mut Gateway<K>) -> Result<(), Fault> {
    for _ in 0..TRIES {
        if rebuild(gateway).is_ok() {
            return Ok(());
        }
    }
    Err(Fault::Memory)
}

/// Who declares the expressions of each region, asked of a gateway that is to be rebuilt, and then
/// what each face was told, asked of the rebuilt one.
pub fn account_again<K: Key>(
    alloc: Global,
    regions: &[Region],
    gateway: &mut Gateway<K>,
) -> Result<String, Fault> {
    disturb_again(gateway)?;
    let sources = sources_again(alloc, regions, gateway)?;
    rebuild_again(gateway)?;
    told_again(alloc, regions, gateway, sources.as_str())
}

/// The same, asked of a gateway as it stands.
pub fn account_at_once<K: Key>(
    alloc: Global,
    regions: &[Region],
    gateway: &Gateway<K>,
) -> Result<String, Fault> {
    let sources = sources_again(alloc, regions, gateway)?;
    told_again(alloc, regions, gateway, sources.as_str())
}
