//! Sources and sinks over memory, for tests and for runs whose text is thrown away.
ghost use Rattle.std.specs.Prelude.{◌≡◌, ◌+◌, ◌-◌, ◌^◌, ◌<◌, ◌≤◌, ◌||◌, nat_le, min, take, length};
ghost use Rattle.std.specs.Prelude.{Some, None, IfOk, OnOk, OnErr, is_err, MatchResult};
ghost use Rattle.std.specs.Io.KnownBytes.{Appends, Consumes, IsAtEnd, Keeps};
ghost use Rattle.zt_streams.specs.Streams.{HasRisen, is_listed, new_supply, amount_given};
ghost use Rattle.zt_streams.specs.Streams.{after_giving, after_giving_none, new_store};
ghost use Rattle.zt_streams.specs.Streams.{amount_taken, after_taking, after_taking_none};

use crate::outside::{Failed, Sink, Source};
use std::alloc::{AllocError, Global};
use std::marker::Model;

/// A source that gives the bytes of a `Vec`, at most `piece` a call. The calls numbered in
/// `failing`, from 0, fail.
#[derive(Drop)]
pub struct MemorySource {
    bytes: Vec<u8>,
    // The bytes before it were given.
    position: usize,
    piece: usize,
    failing: Vec<u64>,
    calls: u64,
    faults: u64,
}

impl Model for MemorySource {
    ghost use Rattle.std.specs.Prelude.{Some, drop, vec_len, ◌≤◌};
    ghost use Rattle.zt_streams.specs.Streams.{Supply};

    ghost Value = { Supply };

    ghost view = { λ s. record {
      left = drop s.position s.bytes.items;
      piece = s.piece;
      failing = s.failing.items;
      calls = s.calls;
      faults = s.faults;
    } };

    ghost invariant = { λ s. (s.position ≤ vec_len s.bytes) × (1 ≤ s.piece) };
}

impl MemorySource {
    /// Gives `bytes`, at most `piece` of them a call, and fails at the calls numbered in `failing`.
    pub fn new(bytes: Vec<u8>, piece: usize, failing: Vec<u64>) -> Self
        requires { 1 ≤ piece }
        ensures { result ≡ new_supply bytes.items piece failing.items }
    {
        MemorySource {
            bytes,
            position: 0,
            piece,
            failing,
            calls: 0,
            faults: 0,
        }
    }
}

impl Source for MemorySource {
    ghost left = { λ s. Some s.left };

    ghost faults = { λ s. s.faults };

    ghost reads = { λ s. s.calls };

    fn read(&mut self, buf: &mut [u8]) -> Result<usize, Failed>
        requires { 0 < length buf.old }
        ensures fails { is_err result ≡ is_listed self.old.failing self.old.calls }
        ensures amount { IfOk result (λ n. n ≡ amount_given self.old (length buf.old)) }
        ensures after { MatchResult result (λ n. self.new ≡ after_giving self.old n)
            (λ _. self.new ≡ after_giving_none self.old) }

        // What the trait ensures.
        ensures fits { IfOk result (λ n. n ≤ length buf.new) }
        ensures given { IfOk result
            (λ n. Consumes (Some self.old.left) (Some self.new.left) (take n buf.new)) }
        ensures end { IfOk result (λ n. n ≡ 0 → IsAtEnd (Some self.new.left)) }
        ensures kept { OnErr result (Keeps (Some self.old.left) (Some self.new.left)) }
        ensures fault { OnErr result (HasRisen self.old.faults self.new.faults) }
        ensures calm { OnOk result (self.new.faults ≡ self.old.faults) }
        ensures count { self.old.faults ≤ self.new.faults }
        ensures once { self.new.calls ≤ self.old.calls + 1 }
    {
        let call = self.calls;
        self.calls = self.calls.saturating_add(1);
        if self.failing.contains(&call) {
            self.faults = self.faults.saturating_add(1);
            return Err(Failed);
        }
        let count = copy_front(&self.bytes[self.position..], self.piece, buf);
        self.position += count;
        Ok(count)
    }
}

// Copies bytes to the front of `to`: as many as both have, and at most `most`.
fn copy_front(from: &[u8], most: usize, to: &mut [u8]) -> usize
    ensures count { result ≡ min (min most (length to.old)) (length from.now) }
    ensures copied { take result to.new ≡ take result from.now }
{
    let count = most.min(to.len()).min(from.len());
    to[..count].copy_from_slice(&from[..count]);
    count
}

/// A sink that keeps what is written to it, and has room for so many bytes. The calls numbered in
/// `failing`, from 0, fail, and so do those made with no room left.
#[derive(Drop)]
pub struct MemorySink {
    bytes: Vec<u8>,
    room: usize,
    failing: Vec<u64>,
    calls: u64,
    faults: u64,
}

impl Model for MemorySink {
    ghost use Rattle.std.specs.Prelude.{vec_len, vec_capacity, ◌≤◌};
    ghost use Rattle.zt_streams.specs.Streams.{Store};

    ghost Value = { Store };

    ghost view = { λ s. record {
      bytes = s.bytes.items;
      room = s.room;
      failing = s.failing.items;
      calls = s.calls;
      faults = s.faults;
    } };

    ghost invariant = { λ s. (vec_len s.bytes ≤ s.room) × (s.room ≤ vec_capacity s.bytes) };
}

impl MemorySink {
    /// Reserves room for `room` bytes. The calls numbered in `failing` will fail.
    pub fn new(alloc: Global, room: usize, failing: Vec<u64>) -> Result<MemorySink, AllocError>
        ensures { IfOk result (λ sink. sink ≡ new_store room failing.items) }
    {
        Ok(MemorySink {
            bytes: Vec::with_capacity(alloc, room)?,
            room,
            failing,
            calls: 0,
            faults: 0,
        })
    }

    /// What was written so far.
    pub fn written(&self) -> &[u8]
        ensures { result.now ≡ self.now.bytes }
    {
        self.bytes.as_slice()
    }
}

impl Sink for MemorySink {
    ghost written = { λ s. Some s.bytes };

    ghost faults = { λ s. s.faults };

    fn write(&mut self, bytes: &[u8]) -> Result<usize, Failed>
        requires { 0 < length bytes.now }
        ensures fails { is_err result
            ≡ (is_listed self.old.failing self.old.calls
            || nat_le self.old.room (length self.old.bytes)) }
        ensures amount { IfOk result (λ n. n ≡ amount_taken self.old (length bytes.now)) }
        ensures after { MatchResult result
            (λ n. self.new ≡ after_taking self.old (take n bytes.now))
            (λ _. self.new ≡ after_taking_none self.old) }

        // What the trait ensures.
        ensures some { IfOk result (λ n. 0 < n) }
        ensures fits { IfOk result (λ n. n ≤ length bytes.now) }
        ensures added { IfOk result
            (λ n. Appends (Some self.old.bytes) (Some self.new.bytes) (take n bytes.now)) }
        ensures kept { OnErr result (Keeps (Some self.old.bytes) (Some self.new.bytes)) }
        ensures fault { OnErr result (HasRisen self.old.faults self.new.faults) }
        ensures calm { OnOk result (self.new.faults ≡ self.old.faults) }
        ensures count { self.old.faults ≤ self.new.faults }
    {
        let call = self.calls;
        self.calls = self.calls.saturating_add(1);
        if self.failing.contains(&call) || self.bytes.len() >= self.room {
            self.faults = self.faults.saturating_add(1);
            return Err(Failed);
        }
        let count = bytes.len().min(self.room - self.bytes.len());
        match self.bytes.extend_from_slice(&bytes[..count]) {
            Ok(()) => Ok(count),
            Err(_) => unreachable!(),
        }
    }
}

/// A sink that takes everything and keeps nothing but how much it was.
#[derive(Default, Drop)]
pub struct CountingSink {
    count: u64,
}

impl Model for CountingSink {
    ghost use Rattle.std.specs.Prelude.{ℕ};

    ghost Value = { ℕ };

    ghost view = { λ s. s.count };
}

impl CountingSink {
    /// Took nothing yet.
    pub fn new() -> Self
        ensures { result ≡ 0 }
    {
        CountingSink { count: 0 }
    }

    /// How many bytes were written; it stays at its greatest value.
    pub fn count(&self) -> u64
        ensures { result ≡ self.now }
    {
        self.count
    }
}

impl Sink for CountingSink {
    ghost written = { λ _. None };

    ghost faults = { λ _. 0 };

    fn write(&mut self, bytes: &[u8]) -> Result<usize, Failed>
        requires { 0 < length bytes.now }
        ensures all { result ≡ Ok (length bytes.now) }
        ensures after { self.new ≡ min (self.old + length bytes.now) (2 ^ 64 - 1) }

        // What the trait ensures.
        ensures some { IfOk result (λ n. 0 < n) }
        ensures fits { IfOk result (λ n. n ≤ length bytes.now) }
        ensures fault { OnErr result (HasRisen 0 0) }
    {
        self.count = self.count.saturating_add(bytes.len() as u64);
        Ok(bytes.len())
    }
}
