// Calls that are made again where they ran out of memory.
use crate::counts::Count;
use crate::row::{Call, Plain};
use std::alloc::Global;
use zt_keys::{Key, KeyError, Memory};
use zt_locals::{LocalResourceInsertResult, LocalResourceRemoveResult, LocalResources};

/// How often a step is made before it counts as one that runs out of memory.
pub const TRIES: u32 = 64;

/// Why the row isn't carried out to its end.
#[derive(Clone, Copy)]
pub enum Fault {
    /// A text of the row is no key.
    BadKey,
    /// The sink failed.
    Write,
    /// A step ran out of memory each time.
    Memory,
}

impl Fault {
    /// The status of the program.
    pub fn status(self) -> u8 {
        match self {
            Fault::BadKey => 1,
            Fault::Write => 4,
            Fault::Memory => 5,
        }
    }
}

/// Local resources whose ids are numbers and whose infos are counts.
pub type Resources<K> = LocalResources<u32, K, Count>;

/// What a call that takes memory answers.
#[derive(Drop)]
pub enum Answer<K: Key> {
    /// The id of a simple resource, and what is to be told.
    Simple(u32, Vec<LocalResourceInsertResult<u32, K, Count>>),
    /// The id of an aggregated resource, and what it has of the simple ones.
    Aggregated(u32, Option<Count>),
    /// What is to be told.
    Removed(Vec<LocalResourceRemoveResult<u32, K, Count>>),
}

fn draw(next: &mut u32) -> u32 {
    let id = *next;
    *next = next.wrapping_add(1);
    id
}

fn key<K: Key>(alloc: Global, text: &str) -> Result<K, Fault> {
    match K::read(alloc, text) {
        Ok(key) => Ok(key),
        Err(KeyError::Memory) => Err(Fault::Memory),
        Err(_) => Err(Fault::BadKey),
    }
}

fn insert<K: Key>(
    alloc: Global,
    resources: &mut Resources<K>,
    next: &mut u32,
    text: &str,
    number: u64,
    interests: &[u32],
) -> Result<Answer<K>, Fault> {
    let key = key(alloc, text)?;
    match resources.insert_simple_resource(key, Count { number }, || draw(next), interests) {
        Ok((id, told)) => Ok(Answer::Simple(id, told)),
        Err(Memory) => Err(Fault::Memory),
    }
}

fn aggregate<K: Key>(
    alloc: Global,
    resources: &mut Resources<K>,
    next: &mut u32,
    text: &str,
    interests: &[u32],
) -> Result<Answer<K>, Fault> {
    let key = key(alloc, text)?;
    match resources.insert_aggregated_resource(key, || draw(next), interests) {
        Ok((id, count)) => Ok(Answer::Aggregated(id, count)),
        Err(Memory) => Err(Fault::Memory),
    }
}

fn remove<K: Key>(
    alloc: Global,
    resources: &mut Resources<K>,
    text: &str,
) -> Result<Answer<K>, Fault> {
    let key = key(alloc, text)?;
    match resources.remove_simple_resource(&key) {
        Ok(told) => Ok(Answer::Removed(told)),
        Err(Memory) => Err(Fault::Memory),
    }
}

fn try_answer<K: Key>(
    alloc: Global,
    resources: &mut Resources<K>,
    next: &mut u32,
    call: &Call<'_>,
) -> Result<Answer<K>, Fault> {
    match *call {
        Call::Simple(text, number, interests) => {
            insert(alloc, resources, next, text, number, interests)
        }
        Call::Aggregated(text, interests) => aggregate(alloc, resources, next, text, interests),
        Call::Remove(text) => remove(alloc, resources, text),
    }
}

/// What the call answers once it doesn't run out of memory.
pub fn answer_again<K: Key>(
    alloc: Global,
    resources: &mut Resources<K>,
    next: &mut u32,
    call: &Call<'_>,
) -> Result<Answer<K>, Fault> {
    for _ in 0..TRIES {
        match try_answer(alloc, resources, next, call) {
            Err(Fault::Memory) => {}
            other => return other,
        }
    }
    Err(Fault::Memory)
}

/// The key of a text, once reading it doesn't run out of memory.
pub fn key_again<K: Key>(alloc: Global, text: &str) -> Result<K, Fault> {
    for _ in 0..TRIES {
        match key(alloc, text) {
            Err(Fault::Memory) => {}
            other => return other,
        }
    }
    Err(Fault::Memory)
}

fn word(is: bool) -> &'static str {
    if is { "true\n" } else { "false\n" }
}

/// The end of the line of a call that takes no memory: what it answers.
pub fn answer_plain<K: Key>(resources: &mut Resources<K>, call: &Plain<K>) -> &'static str {
    match call {
        Plain::EndAggregated(key, interest) => {
            word(resources.remove_aggregated_resource_interest(key, *interest))
        }
        Plain::Contains(key) => word(resources.contains_simple_resource(key)),
        Plain::EndSimple(interest) => {
            resources.remove_simple_resource_interest(*interest);
            "done\n"
        }
        Plain::Clear => {
            resources.clear();
            "done\n"
        }
    }
}
