//! Standard input and output as a source and a sink. What they give and take no clause says.
ghost use Rattle.std.specs.Prelude.{◌≡◌, ◌<◌, ◌≤◌, None, IfOk, OnOk, OnErr, MatchResult, length};
ghost use Rattle.std.specs.Prelude.{take};
ghost use Rattle.std.specs.Io.KnownBytes.{Appends, Keeps};
ghost use Rattle.zt_streams.specs.Streams.{HasRisen, next_count};

use crate::outside::{Failed, Sink, Source};
use std::io::Read;
use std::marker::Model;

/// Standard input as a source. It tells no bytes.
#[derive(Drop)]
pub struct StdSource<R: Input> {
    reader: R::Reader,
    faults: u64,
}

impl<R: Input> Model for StdSource<R> {
    ghost use Rattle.std.specs.Prelude.{ℕ};

    ghost Value = { ℕ };

    ghost view = { λ s. s.faults };
}

impl<R: Input> StdSource<R> {
    /// Reads what the runtime reads from standard input.
    pub fn new(rt: &R) -> Self
        ensures { result ≡ 0 }
    {
        StdSource {
            reader: rt.reader(),
            faults: 0,
        }
    }
}

impl<R: Input> Source for StdSource<R> {
    ghost left = { λ _. None };

    ghost faults = { λ s. s };

    ghost reads = { λ _. 0 };

    fn read(&mut self, buf: &mut [u8]) -> Result<usize, Failed>
        requires { 0 < length buf.old }
        ensures after { MatchResult result (λ _. self.new ≡ self.old)
            (λ _. self.new ≡ next_count self.old) }

        // What the trait ensures.
        ensures fits { IfOk result (λ n. n ≤ length buf.new) }
        ensures fault { OnErr result (HasRisen self.old self.new) }
        ensures calm { OnOk result (self.new ≡ self.old) }
        ensures count { self.old ≤ self.new }
    {
        match self.reader.read(buf) {
            Ok(count) => Ok(count),
            Err(_) => {
                self.faults = self.faults.saturating_add(1);
                Err(Failed)
            }
        }
    }
}

/// Standard output as a sink. It tells no bytes, and takes a write of nothing for a fault.
#[derive(Drop)]
pub struct StdSink<'a, P: Print> {
    to: &'a P,
    faults: u64,
}

impl<'a, P: Print> Model for StdSink<'a, P> {
    ghost use Rattle.std.specs.Prelude.{ℕ};

    ghost Value = { ℕ };

    ghost view = { λ s. s.faults };
}

impl<'a, P: Print> StdSink<'a, P> {
    /// Writes where the runtime prints.
    pub fn new(rt: &'a P) -> Self
        ensures { result ≡ 0 }
    {
        StdSink { to: rt, faults: 0 }
    }
}

impl<P: Print> Sink for StdSink<'_, P> {
    ghost written = { λ _. None };

    ghost faults = { λ s. s };

    fn write(&mut self, bytes: &[u8]) -> Result<usize, Failed>
        requires { 0 < length bytes.now }
        ensures after { MatchResult result (λ _. self.new ≡ self.old)
            (λ _. self.new ≡ next_count self.old) }

        // What the trait ensures.
        ensures some { IfOk result (λ n. 0 < n) }
        ensures fits { IfOk result (λ n. n ≤ length bytes.now) }
        ensures added { IfOk result (λ n. Appends None None (take n bytes.now)) }
        ensures kept { OnErr result (Keeps None None) }
        ensures fault { OnErr result (HasRisen self.old self.new) }
        ensures calm { OnOk result (self.new ≡ self.old) }
        ensures count { self.old ≤ self.new }
    {
        match self.to.write_some(bytes) {
            Ok(count) if count > 0 => Ok(count),
            _ => {
                self.faults = self.faults.saturating_add(1);
                Err(Failed)
            }
        }
    }
}
