// The text of a key expression, with what is asked of it often.
ghost use Rattle.std.specs.Prelude.{◌≡◌, ◌||◌, ◌==◌, List, ℕ, IfOk, bit_and};
ghost use Rattle.std.specs.List.{list_any};
ghost use Rattle.zt_keys.specs.Chunks.{is_star};
ghost use Rattle.zt_keys.specs.Anchors.{hash_of, number_of};
ghost use Rattle.zt_keys.specs.Kinds.{kinds_of};
ghost use Rattle.zt_keys.specs.Shared.{text_bytes};

use crate::numbers::Digest;
use arrayvec::ArrayString;
use std::alloc::{AllocError, Global};
use std::marker::Model;

// Most texts are short, and then lie in the value itself, which takes no memory of its own.
#[derive(Drop)]
pub(crate) enum Text {
    Short(ArrayString<46>),
    Long(String),
}

// A text, with its hash and whether it has a `*`, which are found once. Contracts see the bytes.
#[derive(Drop)]
pub(crate) struct Shared {
    digest: Digest,
    text: Text,
}

impl Model for Shared {
    ghost Value = { List ℕ };

    ghost view = { λ s. text_bytes s.text };

    ghost invariant = { λ s. (s.digest.hash ≡ hash_of (text_bytes s.text))
        × (s.digest.has_star ≡ list_any is_star (text_bytes s.text))
        × (s.digest.kinds ≡ kinds_of (text_bytes s.text)) };
}

impl Shared {
    pub(crate) fn new(alloc: Global, text: &str) -> Result<Shared, AllocError>
        ensures { IfOk result (λ shared. shared ≡ text.now) }
    {
        let digest = Digest::of(text.as_bytes());
        let text = match ArrayString::from(text) {
            Ok(short) => Text::Short(short),
            Err(_) => Text::Long(String::from_str(alloc, text)?),
        };
        Ok(Shared { digest, text })
    }

    pub(crate) fn text(&self) -> &str
        ensures { result.now ≡ self.now }
    {
        match &self.text {
            Text::Short(text) => text.as_str(),
            Text::Long(text) => text.as_str(),
        }
    }

    // Looks at no byte of the text.
    pub(crate) fn hash(&self) -> u64
        ensures { result ≡ hash_of self.now }
    {
        self.digest.hash
    }

    // Whether the text has a `*`, or chunks of each kind of which the other's chunks are. Looks at no
    // byte of them.
    pub(crate) fn may_match(&self, other: &Shared) -> bool
        ensures { result ≡ (list_any is_star self.now
            || bit_and (kinds_of other.now) (kinds_of self.now) == kinds_of self.now) }
    {
        self.digest.has_star || other.digest.kinds & self.digest.kinds == self.digest.kinds
    }

    // The number of the text, or `None` if it has a `*`. Looks at no byte of it.
    pub(crate) fn number(&self) -> Option<u64>
        ensures { result ≡ number_of self.now }
    {
        self.digest.number()
    }
}
