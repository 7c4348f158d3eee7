// The trait of the values that are shared.
ghost use Rattle.std.specs.Prelude.{◌≡◌, ℕ, List, [], ◌∷◌, ◌++◌, ◌<◌, ◌≤◌, ◌^◌, length, slice_get};
ghost use Rattle.std.specs.Prelude.{Some, IfOk, IfErr, MatchOption};

use std::alloc::{AllocError, Global};

/// A value that keeps a journal of the calls that were made on it.
pub trait Recorder: Drop + Sized {
    /// What callers ask.
    type Call;

    /// What the caller of a call is told.
    type Receipt;

    /// A copy of an entry.
    type Entry;

    /// An entry of the journal, as contracts see it.
    ghost Entered: { Type 0 };

    /// What the value was before the first call.
    ghost State: { Type 0 };

    ghost state: { Self → State };

    ghost journal: { Self → List Entered };

    /// The number of the pass that made the call.
    ghost author: { Entered → ℕ };

    /// What is asked of a call.
    ghost is_valid: { Self.Call → Type 0 };

    /// Whether the entry is one of this call.
    ghost is_entry_of: { Self.Call → Entered → Type 0 };

    /// Whether the receipt tells of the entry, which stands at the place.
    ghost tells: { ℕ → Entered → Self.Receipt → Type 0 };

    /// Whether the journal is the account of its calls, made one after another from the state on.
    ghost is_replay: { State → List Entered → Type 0 };

    /// Whether the copy shows the entry.
    ghost shows: { Entered → Self.Entry → Type 0 };

    /// Carries out the call and adds its entry. The only error is want of memory, and it leaves the
    /// journal as it was.
    fn enter(&mut self, pass: u32, call: Self::Call) -> Result<Self::Receipt, AllocError>
        requires { is_valid call }
        ensures state { state self.new ≡ state self.old }
        ensures ok { IfOk result (λ receipt. (entry : Entered)
            × (journal self.new ≡ journal self.old ++ entry ∷ [])
            × (author entry ≡ pass)
            × is_entry_of call entry
            × tells (length (journal self.old)) entry receipt
            × (length (journal self.new) < 2 ^ 64)) }
        ensures err { IfErr result (λ _. journal self.new ≡ journal self.old) }
        ensures replay { is_replay (state self.new) (journal self.new) };

    /// A copy of the entry at the place, or `None` where the journal is no longer. The only error
    /// is want of memory.
    fn entry(&self, alloc: Global, place: u64) -> Result<Option<Self::Entry>, AllocError>
        ensures found { IfOk result (λ found. MatchOption found
            (length (journal self.now) ≤ place)
            (λ copy. (entry : Entered) × (slice_get (journal self.now) place ≡ Some entry)
            × shows entry copy)) }
        ensures replay { is_replay (state self.now) (journal self.now) };
}
