// Whether a text is a key expression, in one pass over its bytes.
ghost use Rattle.std.specs.Prelude.{◌≡◌, Option, Some, None, MatchResult, IsTrue, ◌+◌, ◌≤◌, ◌<◌};
ghost use Rattle.std.specs.Prelude.{◌^◌};
ghost use Rattle.zt_keys.specs.Chunks.{refusal};
ghost use Rattle.zt_keys.specs.Scan.{next_kind, end_chunk, step};

use crate::error::KeyError;

// What the bytes of a chunk that were read so far are.
#[derive(Clone, Copy)]
pub(crate) enum Kind {
    Fresh,
    Name,
    Single,
    Double,
}

// How far a text was read.
#[derive(Clone, Copy)]
pub(crate) struct Scan {
    // Of the chunk being read.
    kind: Kind,
    start: usize,
    // Where the chunk before begins, if it is `**`.
    double: Option<usize>,
    // Where the first `**` begins that a wildcard follows at once.
    loose: Option<usize>,
}

// The kind with one more byte, or `None` where no chunk goes on so.
#[tactic(auto, unfolding(crate::specs::Chunks::is_forbidden))]
fn next_kind(kind: Kind, byte: u8) -> Option<Kind>
    ensures { result ≡ next_kind kind byte }
{
    if byte <= b' ' || byte == 0x7F || byte == b'#' || byte == b'$' || byte == b'?' {
        return None;
    }
    if byte == b'*' {
        return match kind {
            Kind::Fresh => Some(Kind::Single),
            Kind::Single => Some(Kind::Double),
            Kind::Name => None,
            Kind::Double => None,
        };
    }
    match kind {
        Kind::Fresh => Some(Kind::Name),
        Kind::Name => Some(Kind::Name),
        Kind::Single => None,
        Kind::Double => None,
    }
}

// The chunk being read ends, and another would begin at `next`.
fn end_chunk(scan: Scan, next: usize) -> Result<Scan, KeyError>
    ensures { result ≡ end_chunk scan next }
{
    match scan.kind {
        Kind::Fresh => Err(KeyError::BadChunk(scan.start)),
        Kind::Name => Ok(Scan {
            kind: Kind::Fresh,
            start: next,
            double: None,
            loose: scan.loose,
        }),
        Kind::Single => Ok(Scan {
            kind: Kind::Fresh,
            start: next,
            double: None,
            loose: scan.loose.or(scan.double),
        }),
        Kind::Double => Ok(Scan {
            kind: Kind::Fresh,
            start: next,
            double: Some(scan.start),
            loose: scan.loose.or(scan.double),
        }),
    }
}

// Reads the byte at `place`.
fn step(scan: Scan, place: usize, byte: u8) -> Result<Scan, KeyError>
    requires { place + 1 < 2 ^ 64 }
    ensures { result ≡ step scan place byte }
{
    if byte == b'/' {
        return end_chunk(scan, place + 1);
    }
    match next_kind(scan.kind, byte) {
        Some(kind) => Ok(Scan { kind, ..scan }),
        None => Err(KeyError::BadChunk(scan.start)),
    }
}

// Refuses a text that is no key expression, by the first broken rule.
pub(crate) fn check(text: &str) -> Result<(), KeyError>
    ensures { MatchResult result (λ _. refusal text.now ≡ None)
        (λ error. refusal text.now ≡ Some error) }
{
    if text.is_empty() {
        return Err(KeyError::Empty);
    }
    let bytes = text.as_bytes();
    let mut scan = Scan {
        kind: Kind::Fresh,
        start: 0,
        double: None,
        loose: None,
    };
    for (place, byte) in bytes.iter().enumerate() {
        match step(scan, place, *byte) {
            Ok(next) => scan = next,
            Err(error) => return Err(error),
        }
    }
    let scan = end_chunk(scan, bytes.len())?;
    match scan.loose {
        Some(place) => Err(KeyError::NotCanonical(place)),
        None => Ok(()),
    }
}
