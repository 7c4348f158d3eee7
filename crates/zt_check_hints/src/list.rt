// The hints of one expression.
ghost use Rattle.std.specs.Prelude.{◌≡◌, ◌≤◌, ◌<◌, [], ◌==◌, get_or, length, true, OnOk};
ghost use Rattle.zt_check_hints.specs.Hinted.{Has, KeepsAll, KeepsAllBut};

use std::alloc::Global;
use std::cmp::Ordering;
use std::marker::Model;
use zt_keys::Memory;

/// A place where something may stand.
pub trait Hint: Drop + Sized {
    ghost use Rattle.std.specs.Prelude.{◌≡◌, Bool, true};

    // Whether two hints are to the same place.
    ghost alike: { Self → Self → Bool };

    /// Whether two hints are to the same place.
    fn is_alike(&self, other: &Self) -> bool
        ensures { result ≡ alike self.now other.now };

    /// How they stand in an order of all hints, by which they are searched for.
    fn compare(&self, other: &Self) -> Ordering;

    /// There is one hint to a place.
    ghost alike_is_same: { (one other : Self) → alike one other ≡ true → one ≡ other };
}

impl Hint for u32 {
    ghost use Rattle.std.specs.Prelude.{◌==◌};
    ghost use Rattle.std.proofs.Common.{eqb-true};

    ghost alike = { λ one other. one == other };

    ghost alike_is_same = { λ one other same. eqb-true one other same };

    fn is_alike(&self, other: &u32) -> bool {
        *self == *other
    }

    fn compare(&self, other: &u32) -> Ordering {
        self.cmp(other)
    }
}

/// The hints of one expression, in order: each is searched for by halves.
#[derive(Drop)]
pub struct HintList<H: Hint> {
    hints: Vec<H>,
}

impl<H: Hint> Model for HintList<H> {
    ghost use Rattle.std.specs.Prelude.{List};

    ghost Value = { List H };

    ghost view = { λ l. l.hints.items };
}

// Where a hint stands if it is there and all are in order, or else where it would stand. Nothing is
// promised of the place, so whoever asks looks at it.
fn near<H: Hint>(hints: &[H], hint: &H) -> usize
    ensures { result ≤ length hints.now }
{
    match hints.binary_search_by(|other| other.compare(hint)) {
        Ok(place) | Err(place) => place,
    }
}

// Whether a hint like this one stands at the place.
fn is_at<H: Hint>(hints: &[H], place: usize, hint: &H) -> bool
    ensures within { result ≡ true → place < length hints.now }
    ensures alike { (d : H) → result ≡ true → H.alike hint.now (get_or hints.now place d) ≡ true }
{
    place < hints.len() && hint.is_alike(&hints[place])
}

// A hint more, where none like it is found.
fn add_in<H: Hint>(hints: &mut Vec<H>, hint: H) -> Result<(), Memory>
    ensures kept { KeepsAll hints.old.items hints.new.items }
    ensures has { OnOk result (Has hint hints.new.items) }
{
    let place = near(hints.as_slice(), &hint);
    if is_at(hints.as_slice(), place, &hint) {
        return Ok(());
    }
    hints.insert(place, hint)?;
    Ok(())
}

// The hint goes that is like this one, where it is found.
fn drop_from<H: Hint>(hints: &mut Vec<H>, gone: &H)
    ensures { KeepsAllBut (H.alike gone.now) hints.old.items hints.new.items }
{
    let place = near(hints.as_slice(), gone);
    if is_at(hints.as_slice(), place, gone) {
        drop(hints.remove(place));
    }
}

impl<H: Hint> HintList<H> {
    /// No hints. It takes no memory.
    pub fn new(alloc: Global) -> Self
        ensures { result ≡ [] }
    {
        HintList {
            hints: Vec::new(alloc),
        }
    }

    /// The hints.
    pub fn hints(&self) -> &[H]
        ensures { result.now ≡ self.now }
    {
        &self.hints
    }

    /// A hint more, where it isn't there. After an error it may be there or not.
    pub fn add(&mut self, hint: H) -> Result<(), Memory>
        ensures kept { KeepsAll self.old self.new }
        ensures has { OnOk result (Has hint self.new) }
    {
        add_in(&mut self.hints, hint)
    }

    /// The hint goes that is like this one; all others stay.
    pub fn drop_alike(&mut self, gone: &H)
        ensures { KeepsAllBut (H.alike gone.now) self.old self.new }
    {
        drop_from(&mut self.hints, gone);
    }

    /// Whether there is none.
    pub fn is_empty(&self) -> bool
        ensures { result ≡ (length self.now == 0) }
    {
        self.hints.is_empty()
    }
}
