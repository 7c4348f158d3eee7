// The trait of keys.
ghost use Rattle.std.specs.Prelude.{◌≡◌, ℕ, Bool, List, ◌++◌, Option, Result, IfOk, is_ok};
ghost use Rattle.std.specs.Prelude.{if◌then◌else◌, string_bytes};
ghost use Rattle.zt_keys.specs.declared.anchor.Anchor.{Anchor};
ghost use Rattle.zt_keys.specs.declared.error.KeyError.{KeyError};
ghost use Rattle.zt_keys.specs.Key.{KeyLaws, NumbersAgree, Reads};

use crate::anchor::Anchor;
use crate::error::{KeyError, Memory};
use std::alloc::Global;
use std::hash::Hash;

/// A key, by which tokens and interests name what they speak of.
pub trait Key: Ord + Eq + Hash + Drop + Sized {
    /// Whether two keys match.
    ghost matching: { Self → Self → Bool };

    /// What a text is read as; never out of memory.
    ghost reading: { List ℕ → Result Self KeyError };

    /// The bytes of a key's text.
    ghost printed: { Self → List ℕ };

    /// The number that a key has at an anchor, if it has one there.
    ghost anchored: { Anchor → Self → Option ℕ };

    /// The numbers of a key's parts.
    ghost numbered: { Self → List ℕ };

    /// Whether the two keys match: a relation of the keys alone, reflexive and symmetric. Takes no
    /// memory.
    fn matches(&self, other: &Self) -> bool
        ensures { result ≡ matching self.now other.now };

    /// A number of the key at the anchor, or `None`. Two keys that match and both have one there
    /// have the same one, so that keys with another number need not be tried. Takes no memory.
    fn anchor(&self, at: Anchor) -> Option<u64>
        ensures { result ≡ anchored at self.now };

    /// The numbers of the key's parts that have no wildcard. A key that matches one without
    /// wildcards has no number that the other lacks: so keys with wildcards are found by any of
    /// their numbers.
    fn numbers(&self, alloc: Global) -> Result<Vec<u64>, Memory>
        ensures { IfOk result (λ numbers. numbers.items ≡ numbered self.now) };

    /// The key that the text spells. The answer is a function of the text, unless memory runs out.
    fn read(alloc: Global, text: &str) -> Result<Self, KeyError>
        ensures { Reads (reading text.now) result };

    /// The key's text, which `read` reads back.
    fn print(&self, alloc: Global) -> Result<String, Memory>
        ensures { IfOk result (λ text. string_bytes text ≡ printed self.now) };

    /// Appends the key's text to `out`. After an error `out` is as before.
    fn print_to(&self, out: &mut String) -> Result<(), Memory>
        ensures { string_bytes out.new
            ≡ (if is_ok result then string_bytes out.old ++ printed self.now
            else string_bytes out.old) }
    {
        let alloc = *out.allocator();
        let text = self.print(alloc)?;
        out.push_str(text.as_str())?;
        Ok(())
    }

    /// A key equal to this one.
    fn copy(&self, alloc: Global) -> Result<Self, Memory>
        ensures { IfOk result (λ key. key ≡ self.now) };

    /// Equal keys are the same value, a key's text is read as the key and has no blank, matching is
    /// reflexive and symmetric, keys that match have the same number at an anchor where both have
    /// one, and are the same value where both have one as a whole. That order, equality and hash
    /// agree is said by the laws of `Ord`, `Eq` and `Hash`.
    ghost laws: { KeyLaws Self.cmp matching reading printed anchored };

    /// Each number of a key is one of each key that it matches and that has a number as a whole.
    ghost numbers_agree: { NumbersAgree matching anchored numbered };
}
