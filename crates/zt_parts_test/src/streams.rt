//! What no clause says: that calls succeed, and what lines are, on texts from outside.
use std::alloc::{AllocError, Allocator, Global};
use std::fmt::Display;
use std::io;
use std::io::BufRead;
use std::test::Fail;
use zt_streams::{
    CountingSink, Failed, MemorySink, MemorySource, ScriptError, Sink, Source, StdSink, StdSource,
    lines_in_pieces, read_script, write_all,
};

// The pieces of `text`, each of `size` bytes but the last.
fn cut(alloc: Global, text: &str, size: usize) -> Result<Vec<Vec<u8>>, AllocError> {
    let mut pieces = Vec::new(alloc);
    for piece in text.as_bytes().chunks(size.max(1)) {
        pieces.push(piece.to_vec(alloc)?)?;
    }
    Ok(pieces)
}

// The lines, each in brackets, or as many as are UTF-8.
fn in_brackets(alloc: Global, lines: &[Vec<u8>]) -> Result<String, AllocError> {
    let mut text = String::new(alloc);
    for line in lines {
        let Ok(line) = str::from_utf8(line) else {
            return Ok(text);
        };
        text.push('[')?;
        text.push_str(line)?;
        text.push(']')?;
    }
    Ok(text)
}

fn has_lines(alloc: Global, text: &str, size: usize, want: &str) -> Result<bool, AllocError> {
    let pieces = cut(alloc, text, size)?;
    let lines = lines_in_pieces(alloc, &pieces)?;
    let got = in_brackets(alloc, lines.as_slice())?;
    Ok(got.as_str() == want)
}

const LINES: [(&str, &str); 5] = [
    ("", ""),
    ("one", "[one]"),
    ("one\n", "[one]"),
    ("\n\n", "[][]"),
    (
        "gateway client 1\nsession 1\n\nclose",
        "[gateway client 1][session 1][][close]",
    ),
];

#[test]
fn lines_of_pieces(rt: HostRuntime) -> Result<(), Fail> {
    for (text, want) in &LINES {
        for size in [1, 7, 4096] {
            if !has_lines(rt.alloc(), text, size, want)? {
                return Err((*want).into());
            }
        }
    }
    Ok(())
}

/// What a script comes to: its length and whether there is more.
type Outcome = Result<(usize, bool), ScriptError>;

/// How long a script is, which read fails, and what it comes to.
const SCRIPTS: [(usize, usize, Outcome); 7] = [
    (0, 9, Ok((0, false))),
    (10, 9, Ok((10, false))),
    (10, 3, Ok((10, false))),
    (40, 3, Err(ScriptError::Fault)),
    (10, 0, Err(ScriptError::Fault)),
    (1_048_576, 999_999, Ok((1_048_576, false))),
    (1_048_577, 999_999, Ok((1_048_576, true))),
];

fn script_read(alloc: Global, length: usize, failing: usize) -> Result<Outcome, AllocError> {
    let bytes = vec![in alloc; b'x'; length]?;
    let failing = vec![in alloc; failing as u64]?;
    let mut source = MemorySource::new(bytes, 8, failing);
    Ok(match read_script(alloc, &mut source) {
        Ok(script) => Ok((script.bytes.len(), script.longer)),
        Err(error) => Err(error),
    })
}

#[test]
fn reads_scripts(rt: HostRuntime) -> Result<(), Fail> {
    for (length, failing, want) in &SCRIPTS {
        assert!(rt;
            script_read(rt.alloc(), *length, *failing)? == *want,
            "{length} bytes"
        );
    }
    Ok(())
}

// Whether so much is kept of a text where there is room for so many bytes.
fn is_kept(
    alloc: Global,
    room: usize,
    failing: u64,
    want: Result<(), Failed>,
    kept: &str,
) -> Result<bool, AllocError> {
    let failing = vec![in alloc; failing]?;
    let mut sink = MemorySink::new(alloc, room, failing)?;
    let got = write_all(&mut sink, b"hello world");
    Ok(got == want && sink.written() == kept.as_bytes())
}

#[test]
fn writes_until_full(rt: HostRuntime) -> Result<(), Fail> {
    assert!(rt; is_kept(rt.alloc(), 11, 9, Ok(()), "hello world")?);
    assert!(rt; is_kept(rt.alloc(), 5, 9, Err(Failed), "hello")?);
    assert!(rt; is_kept(rt.alloc(), 11, 0, Err(Failed), "")?);
    let mut sink = CountingSink::new();
    assert!(rt; write_all(&mut sink, b"hello world") == Ok(()) && sink.count() == 11);
    Ok(())
}

// A runtime with these bytes as its input, whose output takes so many bytes a call, or fails.
#[derive(Drop)]
struct Pipes {
    input: &'static [u8],
    takes: Option<usize>,
}

impl Input for Pipes {
    type Reader = &'static [u8];

    fn read_line<A: Allocator + Clone>(&self, buf: &mut String<A>) -> io::Result<usize> {
        self.reader().read_line(buf)
    }

    fn lines<A: Allocator>(&self, alloc: A) -> io::Lines<&'static [u8], A> {
        self.reader().lines(alloc)
    }

    fn reader(&self) -> &'static [u8] {
        self.input
    }
}

impl Print for Pipes {
    fn print<D: Display + Drop>(&self, _value: D) -> io::Result<()> {
        Ok(())
    }

    fn println<D: Display + Drop>(&self, _value: D) -> io::Result<()> {
        Ok(())
    }

    fn write_all(&self, _bytes: &[u8]) -> io::Result<()> {
        Ok(())
    }

    fn write_some(&self, bytes: &[u8]) -> io::Result<usize> {
        match self.takes {
            Some(count) => Ok(bytes.len().min(count)),
            None => Err(io::Error::from(io::ErrorKind::BrokenPipe)),
        }
    }
}

fn is_carried(alloc: Global, takes: Option<usize>, want: Result<usize, Failed>) -> bool {
    let pipes = Pipes {
        input: b"one\ntwo",
        takes,
    };
    let mut source = StdSource::new(&pipes);
    let mut sink = StdSink::new(&pipes);
    match read_script(alloc, &mut source) {
        Ok(script) => script.bytes.as_slice() == b"one\ntwo".as_slice()
            && sink.write(b"hello") == want,
        Err(_) => false,
    }
}

#[test]
fn standard_streams(rt: HostRuntime) {
    assert!(rt; is_carried(rt.alloc(), Some(3), Ok(3)));
    assert!(rt; is_carried(rt.alloc(), Some(9), Ok(5)));
    assert!(rt; is_carried(rt.alloc(), Some(0), Err(Failed)));
    assert!(rt; is_carried(rt.alloc(), None, Err(Failed)));
}
