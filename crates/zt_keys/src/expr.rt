// Key expressions.
ghost use Rattle.std.specs.Prelude.{◌≡◌, ◌++◌, nat_eq, Some, ◌≢◌, ◌↔◌, IsTrue, IfOk, IfErr, true};
ghost use Rattle.std.specs.Prelude.{string_bytes, if◌then◌else◌, is_ok, refl};
ghost use Rattle.std.specs.Arc.{arc_value};
ghost use Rattle.std.specs.Hash as fed;
ghost use Rattle.std.specs.Ordering.{nat_cmp};
ghost use Rattle.std.specs.Cmp.Lexicographic.{pointwise, slice_cmp, texts_ties, texts_po};
ghost use Rattle.std.specs.Cmp.Lexicographic.{nat_list_eq_equiv, nat_list_cmp_total};
ghost use Rattle.std.specs.Cmp.{on_equiv, on_total, on_per, on_po, partial_equiv_from_equiv};
ghost use Rattle.std.specs.Cmp.Rules.{hashing};
ghost use Rattle.std.proofs.Common.{rules};
ghost use Rattle.zt_keys.specs.Key.{Reads};
ghost use Rattle.zt_keys.specs.Expression.{Expression, expression_code, is_expression, reading};
ghost use Rattle.zt_keys.specs.Expression.{bytes_of};
ghost use Rattle.zt_keys.specs.Chunks.{chunks, refusal};
ghost use Rattle.zt_keys.specs.Matching.{matching, Intersect};
ghost use Rattle.zt_keys.specs.Anchors.{anchored, hash_of};
ghost use Rattle.zt_keys.specs.Laws.{expression_laws};
ghost use Rattle.zt_keys.specs.Numbers.{numbered, numbers_agree};

use crate::anchor::Anchor;
use crate::check::check;
use crate::chunk_numbers::text_numbers;
use crate::error::{KeyError, Memory};
use crate::key::Key;
use crate::numbers::{first_chunk, first_two, last_chunk, number_of};
use crate::shared::Shared;
use crate::walk::texts_match;
use std::alloc::Global;
use std::cmp::Ordering;
use std::hash::{Hash, Hasher};
use std::marker::Model;
use std::sync::Arc;

/// A key expression: one or more chunks with `/` between them, each a name, `*` or `**`.
///
/// Contracts see its bytes and the fact that they are a key expression. The text is shared between
/// copies, and kept with it are its hash and whether it has a `*`.
#[derive(Drop)]
pub struct KeyExpr {
    shared: Arc<Shared>,
    ghost is_valid: { IsTrue (is_expression (arc_value shared)) },
}

impl Model for KeyExpr {
    ghost Value = { Expression };

    ghost coded = { expression_code };

    ghost view = { λ k. record { bytes = arc_value k.shared; valid = k.is_valid } };
}

impl KeyExpr {
    /// The text, in its one spelling.
    pub fn text(&self) -> &str
        ensures { result.now ≡ self.now.bytes }
    {
        self.shared.text()
    }

    // Whether the two may match, as far as the kinds of their chunks tell.
    fn may_match(&self, other: &KeyExpr) -> bool
        ensures { matching self.now other.now ≡ true → result ≡ true }
    {
        self.shared.may_match(&other.shared) && other.shared.may_match(&self.shared)
    }
}

impl PartialEq for KeyExpr {
    ghost eq = { λ a b. pointwise nat_eq a.bytes b.bytes };

    ghost laws = { on_per bytes_of (partial_equiv_from_equiv nat_list_eq_equiv) };

    fn eq(&self, other: &KeyExpr) -> bool {
        self.shared.hash() == other.shared.hash() && self.text() == other.text()
    }
}

impl Eq for KeyExpr {
    ghost laws = { on_equiv bytes_of nat_list_eq_equiv };
}

impl PartialOrd for KeyExpr {
    ghost partial_cmp = { λ a b. Some (slice_cmp nat_cmp a.bytes b.bytes) };

    ghost laws = { on_po bytes_of texts_po };

    fn partial_cmp(&self, other: &KeyExpr) -> Option<Ordering> {
        Some(self.cmp(other))
    }
}

impl Ord for KeyExpr {
    ghost cmp = { λ a b. slice_cmp nat_cmp a.bytes b.bytes };

    ghost total = { on_total bytes_of nat_list_cmp_total };

    ghost matches_partial_cmp = { λ a b. refl };

    ghost matches_eq = { λ a b. texts_ties a.bytes b.bytes };

    fn cmp(&self, other: &KeyExpr) -> Ordering {
        self.text().cmp(other.text())
    }
}

impl Hash for KeyExpr {
    ghost hash_input = { λ k. fed.u64 (hash_of k.bytes) };

    ghost respects_eq = { Prim.search (hashing, rules) };

    fn hash<H: Hasher>(&self, state: &mut H) {
        state.write_u64(self.shared.hash());
    }
}

impl Key for KeyExpr {
    ghost matching = { matching };

    ghost reading = { reading };

    ghost printed = { λ key. key.bytes };

    ghost anchored = { anchored };

    ghost numbered = { numbered };

    /// Whether some plain list of chunks is a member of both. Most that don't match a text without
    /// wildcards are distinguished by the kinds of their chunks. Else the two texts are walked
    /// together, and the number of chunks that are looked at is at most a fixed multiple of the
    /// product of the two numbers of chunks, however many `**` there are.
    fn matches(&self, other: &KeyExpr) -> bool
        ensures value { result ≡ matching self.now other.now }
        ensures member { IsTrue result
            ↔ Intersect (chunks self.now.bytes) (chunks other.now.bytes) }
    {
        self.may_match(other) && texts_match(self.text().as_bytes(), other.text().as_bytes())
    }

    /// A number of the whole text, of its first chunk, of its first two or of its last, where no
    /// `*` stands there. That of the whole text is kept with it; for the others only those bytes are
    /// read. The first two of a text of one chunk are that chunk.
    #[tactic(auto, unfolding(crate::specs::Anchors::anchored))]
    fn anchor(&self, at: Anchor) -> Option<u64> {
        let text = self.text().as_bytes();
        match at {
            Anchor::Whole => self.shared.number(),
            Anchor::First => number_of(first_chunk(text)),
            Anchor::FirstTwo => number_of(first_two(text)),
            Anchor::Last => number_of(last_chunk(text)),
        }
    }

    /// The number of each chunk without a wildcard, each followed by that of the chunk and the one
    /// before it, if that has none either.
    fn numbers(&self, alloc: Global) -> Result<Vec<u64>, Memory> {
        let numbers = text_numbers(alloc, self.text().as_bytes())?;
        Ok(numbers)
    }

    /// Refuses a text by the first rule that it breaks: `Empty` for the empty text, else `BadChunk`
    /// with the place of the first bad chunk, else `NotCanonical` with the place of the first `**`
    /// that a wildcard follows at once.
    fn read(alloc: Global, text: &str) -> Result<KeyExpr, KeyError>
        ensures value { Reads (reading text.now) result }
        ensures text { IfOk result (λ key. key.bytes ≡ text.now) }
        ensures refused { IfErr result
            (λ error. error ≢ KeyError.Memory → refusal text.now ≡ Some error) }
    {
        check(text)?;
        let shared = Arc::new(alloc, Shared::new(alloc, text)?)?;
        Ok(KeyExpr { shared })
    }

    fn print(&self, alloc: Global) -> Result<String, Memory> {
        let text = String::from_str(alloc, self.text())?;
        Ok(text)
    }

    fn print_to(&self, out: &mut String) -> Result<(), Memory> {
        out.push_str(self.text())?;
        Ok(())
    }

    /// Shares the text and takes no memory.
    fn copy(&self, _alloc: Global) -> Result<KeyExpr, Memory> {
        let shared = self.shared.clone()?;
        Ok(KeyExpr { shared })
    }

    ghost laws = { expression_laws };

    ghost numbers_agree = { numbers_agree };
}
