//! A text in pieces, cut into its lines.
ghost use Rattle.std.specs.Prelude.{◌≡◌, ◌≤◌, [], ◌++◌, IfOk, OnOk, OnErr, map, length, drop};
ghost use Rattle.std.specs.Prelude.{vec_len, slice_get};
ghost use Rattle.std.specs.Borrow.{sem};
ghost use Rattle.std.specs.List.{flat_map};
ghost use Rattle.std.specs.Option.{option_copied};
ghost use Rattle.zt_streams.specs.Lines.{lines_of, whole_lines, rest_of, last_line, TakesLine};
ghost use Rattle.zt_streams.specs.Lines.{TakesRest};
ghost use Rattle.zt_streams.specs.Feeding.{FindsFeed};

use memchr::memchr;
use std::alloc::{AllocError, Global};
use std::marker::Model;

/// Takes a text in pieces and gives its lines, the same however the text was cut.
#[derive(Drop)]
pub struct Feeder {
    bytes: Vec<u8>,
    // The bytes before it were given.
    start: usize,
    // The bytes kept before it have no line feed, so that none is looked at twice.
    seen: usize,
}

impl Model for Feeder {
    ghost use Rattle.std.specs.Prelude.{ℕ, List, drop};
    ghost use Rattle.zt_streams.specs.Feeding.{IsReady};

    ghost Value = { List ℕ };

    ghost view = { λ f. drop f.start f.bytes.items };

    ghost invariant = { λ f. IsReady f.bytes.items f.start f.seen };
}

impl Feeder {
    ghost use Rattle.std.specs.Io.BufRead.{Rests};
    ghost use Rattle.zt_streams.specs.contracts.pieces.Feeder.{the_row};

    /// Keeps nothing yet.
    pub fn new(alloc: Global) -> Self
        ensures { result ≡ [] }
    {
        Feeder {
            bytes: Vec::new(alloc),
            start: 0,
            seen: 0,
        }
    }

    /// Takes the next piece of the text. After `AllocError` nothing changed.
    pub fn feed(&mut self, piece: &[u8]) -> Result<(), AllocError>
        ensures ok { OnOk result (self.new ≡ self.old ++ piece.now) }
        ensures err { OnErr result (self.new ≡ self.old) }
    {
        // What was given makes room. Where lines were taken what is left is at most a piece, so
        // that little is moved.
        if self.start > 0 {
            drop_front(&mut self.bytes, self.start);
            self.seen -= self.start;
            self.start = 0;
        }
        self.bytes.extend_from_slice(piece)
    }

    /// The number of bytes kept.
    pub fn rest(&self) -> usize
        ensures { result ≡ length self.now }
    {
        self.bytes.len() - self.start
    }

    /// The oldest whole line not yet given, without its line feed. None exactly where there is
    /// none.
    pub fn next_line(&mut self) -> Option<&[u8]>
        ensures first { option_copied result ≡ slice_get (whole_lines self.old) 0 }
        ensures* after { sem 𝓛
            (Rests the_row self.entry (λ new. TakesLine self.old (option_copied result) new)) }
    {
        let start = self.start;
        match find_feed(&self.bytes, self.seen) {
            None => {
                self.seen = self.bytes.len();
                None
            }
            Some(end) => {
                self.start = end + 1;
                self.seen = end + 1;
                Some(&self.bytes[start..end])
            }
        }
    }

    /// The unfinished rest, which is then gone. None exactly where it is empty. It may be asked for
    /// once no whole line is left.
    pub fn finish(&mut self) -> Option<&[u8]>
        requires { whole_lines self.old ≡ [] }
        ensures rest { option_copied result ≡ slice_get (last_line (rest_of self.old)) 0 }
        ensures* after { sem 𝓛
            (Rests the_row self.entry (λ new. TakesRest self.old (option_copied result) new)) }
    {
        let start = self.start;
        let end = self.bytes.len();
        self.start = end;
        self.seen = end;
        if start == end {
            return None;
        }
        Some(&self.bytes[start..end])
    }
}

/// The lines of a text that comes in these pieces: the same however it was cut.
pub fn lines_in_pieces(alloc: Global, pieces: &[Vec<u8>]) -> Result<Vec<Vec<u8>>, AllocError>
    ensures { IfOk result (λ lines. map (λ line. line.items) lines.items
        ≡ lines_of (flat_map (λ piece. piece.items) pieces.now)) }
{
    let mut feeder = Feeder::new(alloc);
    let mut lines = Vec::new(alloc);
    for piece in pieces {
        feeder.feed(piece)?;
        take_lines(alloc, &mut feeder, &mut lines)?;
    }
    take_rest(alloc, &mut feeder, &mut lines)?;
    Ok(lines)
}

// Moves each whole line out of the feeder.
fn take_lines(
    alloc: Global,
    feeder: &mut Feeder,
    lines: &mut Vec<Vec<u8>>,
) -> Result<(), AllocError>
    ensures taken { OnOk result (map (λ line. line.items) lines.new.items
        ≡ map (λ line. line.items) lines.old.items ++ whole_lines feeder.old) }
    ensures rest { OnOk result (feeder.new ≡ rest_of feeder.old) }
{
    while let Some(line) = feeder.next_line() {
        lines.push(line.to_vec(alloc)?)?;
    }
    Ok(())
}

// Moves the unfinished line out of the feeder, if there is one.
fn take_rest(alloc: Global, feeder: &mut Feeder, lines: &mut Vec<Vec<u8>>) -> Result<(), AllocError>
    requires { whole_lines feeder.old ≡ [] }
    ensures { OnOk result (map (λ line. line.items) lines.new.items
        ≡ map (λ line. line.items) lines.old.items ++ last_line (rest_of feeder.old)) }
{
    let Some(rest) = feeder.finish() else {
        return Ok(());
    };
    lines.push(rest.to_vec(alloc)?)?;
    Ok(())
}

// Drops the first `count` bytes.
fn drop_front(bytes: &mut Vec<u8>, count: usize)
    requires { count ≤ vec_len bytes.old }
    ensures { bytes.new.items ≡ drop count bytes.old.items }
{
    let kept = bytes.len() - count;
    bytes.copy_within(count.., 0);
    bytes.truncate(kept);
}

// The place of the first line feed from `from` on.
fn find_feed(bytes: &[u8], from: usize) -> Option<usize>
    requires { from ≤ length bytes.now }
    ensures { FindsFeed bytes.now from result }
{
    let place = memchr(b'\n', &bytes[from..])?;
    Some(from + place)
}
