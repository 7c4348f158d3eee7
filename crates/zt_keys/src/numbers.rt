// The numbers of texts, by which keys are told apart.
ghost use Rattle.std.specs.Prelude.{◌≡◌, cond, Some, None};
ghost use Rattle.std.specs.List.{list_any};
ghost use Rattle.zt_keys.specs.Chunks.{chunks, is_star};
ghost use Rattle.zt_keys.specs.Anchors.{hash_of, number_of};
ghost use Rattle.zt_keys.specs.Anchors.{first_chunk, first_two, last_chunk};
ghost use Rattle.zt_keys.specs.Kinds.{kinds_of};

use crate::kinds::kinds_of;
use crate::walk::last_start;
use std::hash::{DefaultHasher, Hasher};

// SipHash, which keeps 256 bits while it reads: to find many texts of one hash, one has to try texts
// without end. The seed is the same in each run, since the hash is a function of the text alone.
#[tactic(auto, unfolding(crate::specs::Anchors::hash_of))]
pub(crate) fn hash_of(text: &[u8]) -> u64
    ensures { result ≡ hash_of text.now }
{
    let mut hasher = DefaultHasher::new();
    hasher.write(text);
    hasher.finish()
}

// Whether the text has a `*`.
fn has_star(text: &[u8]) -> bool
    ensures { result ≡ list_any is_star text.now }
{
    text.iter().any(|b| *b == b'*')
}

// What is found once of a text.
#[derive(Clone, Copy)]
pub(crate) struct Digest {
    pub(crate) hash: u64,
    pub(crate) has_star: bool,
    pub(crate) kinds: u64,
}

impl Digest {
    pub(crate) fn of(text: &[u8]) -> Digest
        ensures hash { result.hash ≡ hash_of text.now }
        ensures star { result.has_star ≡ list_any is_star text.now }
        ensures kinds { result.kinds ≡ kinds_of text.now }
    {
        Digest {
            hash: hash_of(text),
            has_star: has_star(text),
            kinds: kinds_of(text),
        }
    }

    // The number of the text, or `None` if it has a `*`.
    pub(crate) fn number(&self) -> Option<u64>
        ensures { result ≡ cond self.now.has_star None (Some self.now.hash) }
    {
        if self.has_star { None } else { Some(self.hash) }
    }
}

// A number of the text, or `None` if it has a `*`.
pub(crate) fn number_of(text: &[u8]) -> Option<u64>
    ensures { result ≡ number_of text.now }
{
    if has_star(text) {
        return None;
    }
    Some(hash_of(text))
}

// The text's first chunk. Nothing behind it is read.
pub(crate) fn first_chunk(text: &[u8]) -> &[u8]
    ensures { result.now ≡ first_chunk (chunks text.now) }
{
    for (place, byte) in text.iter().enumerate() {
        if *byte == b'/' {
            return &text[..place];
        }
    }
    text
}

// The text's first two chunks with the `/` between them, or its only chunk. Nothing behind is read.
pub(crate) fn first_two(text: &[u8]) -> &[u8]
    ensures { result.now ≡ first_two (chunks text.now) }
{
    let mut in_second = false;
    for (place, byte) in text.iter().enumerate() {
        if *byte == b'/' {
            if in_second {
                return &text[..place];
            }
            in_second = true;
        }
    }
    text
}

// The text's last chunk. Nothing before it is read.
pub(crate) fn last_chunk(text: &[u8]) -> &[u8]
    ensures { result.now ≡ last_chunk (chunks text.now) }
{
    &text[last_start(text)..]
}
