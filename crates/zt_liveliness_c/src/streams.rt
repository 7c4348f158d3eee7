//! A script that lies in memory as a source, and a text in memory as a sink.
ghost use Rattle.std.specs.Prelude.{◌≡◌, ◌++◌, [], Some, length, min, take, drop};

use std::alloc::Global;
use std::marker::Model;
use zt_streams::{Failed, Sink, Source};

/// A source that gives the bytes of a slice. It never fails.
#[derive(Drop)]
pub struct SliceSource<'a> {
    left: &'a [u8],
}

impl<'a> Model for SliceSource<'a> {
    ghost use Rattle.std.specs.Prelude.{List, ℕ};

    ghost Value = { List ℕ };

    ghost view = { λ s. s.left.now };
}

impl<'a> SliceSource<'a> {
    /// Gives all these bytes.
    pub fn new(bytes: &'a [u8]) -> Self
        ensures { result ≡ bytes.now }
    {
        SliceSource { left: bytes }
    }
}

impl Source for SliceSource<'_> {
    ghost left = { λ s. Some s };

    ghost faults = { λ _. 0 };

    ghost reads = { λ _. 0 };

    fn read(&mut self, buf: &mut [u8]) -> Result<usize, Failed> {
        let left = self.left;
        let count = copy_front(left, buf);
        self.left = &left[count..];
        Ok(count)
    }
}

/// Copies bytes to the front of `to`, as many as both have, and answers how many.
pub fn copy_front(from: &[u8], to: &mut [u8]) -> usize
    ensures count { result ≡ min (length from.now) (length to.old) }
    ensures copied { to.new ≡ take result from.now ++ drop result to.old }
{
    let count = from.len().min(to.len());
    to[..count].copy_from_slice(&from[..count]);
    count
}

/// A sink that keeps all that is written to it. It fails where memory runs out.
#[derive(Drop)]
pub struct TextSink {
    pub text: Vec<u8>,
    pub faults: u64,
}

impl TextSink {
    /// Nothing was written yet.
    pub fn new(alloc: Global) -> Self
        ensures text { result.text.items ≡ [] }
        ensures faults { result.faults ≡ 0 }
    {
        TextSink {
            text: Vec::new(alloc),
            faults: 0,
        }
    }
}

impl Sink for TextSink {
    ghost written = { λ s. Some s.text.items };

    ghost faults = { λ s. s.faults };

    fn write(&mut self, bytes: &[u8]) -> Result<usize, Failed> {
        match self.text.extend_from_slice(bytes) {
            Ok(()) => Ok(bytes.len()),
            Err(_) => {
                self.faults = self.faults.saturating_add(1);
                Err(Failed)
            }
        }
    }
}
