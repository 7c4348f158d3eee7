// The interests of one bucket.
ghost use Rattle.std.specs.Prelude.{◌≡◌, ℕ, ◌∷◌, ◌++◌, ◌&&◌, ◌||◌, ◌==◌, [], filter, length, not};
ghost use Rattle.std.specs.Prelude.{true, IfOk, IfSome, OnErr, OnOk, Option};
ghost use Rattle.std.specs.List.{list_any};
ghost use Rattle.zt_interest_index.specs.Holdings.{AreAlike, AreRising, asks_from};
ghost use Rattle.zt_interest_index.specs.Holdings.{is_about, is_among};
ghost use Rattle.zt_interest_index.specs.Holdings.{is_by, is_of};

use std::alloc::Global;
use std::marker::Model;
use zt_keys::{Key, Memory};
use zt_ordered::place_of;

// Whether an interest in this expression, or in all keys, is about the key.
fn is_about<K: Key>(about: &Option<K>, expr: &K) -> bool
    ensures { result ≡ is_about K.matching about.now expr.now }
{
    match about {
        None => true,
        Some(key) => key.matches(expr),
    }
}

// Whether a row is another interest.
fn is_other<K: Key>(row: &((u32, u32), Option<K>), face: u32, id: u32) -> bool
    ensures { result ≡ not (is_of face id row.now) }
{
    !(face == row.0.0 && id == row.0.1)
}

// The interest that the face holds under the id goes, wherever it stands.
fn drop_anywhere<K: Key>(rows: &mut Vec<((u32, u32), Option<K>)>, face: u32, id: u32)
    ensures { rows.new.items ≡ filter (λ row. not (is_of face id row)) rows.old.items }
{
    rows.retain(|row| is_other(row, face, id));
}

// The same among interests in order of face and id. It is found by a search by halves.
fn drop_rising<K: Key>(rows: &mut Vec<((u32, u32), Option<K>)>, face: u32, id: u32)
    requires { AreRising rows.old.items }
    ensures { rows.new.items ≡ filter (λ row. not (is_of face id row)) rows.old.items }
{
    if let Ok(place) = place_of(rows.as_slice(), &(face, id)) {
        rows.remove(place);
    }
}

// The same among interests that may be known to stand in order.
fn drop_in<K: Key>(rows: &mut Vec<((u32, u32), Option<K>)>, are_rising: bool, face: u32, id: u32)
    requires { are_rising ≡ true → AreRising rows.old.items }
    ensures { rows.new.items ≡ filter (λ row. not (is_of face id row)) rows.old.items }
{
    if are_rising {
        drop_rising(rows, face, id);
    } else {
        drop_anywhere(rows, face, id);
    }
}

// Whether interests in order of face and id stay so after one more.
fn stay_rising<K: Key>(
    rows: &[((u32, u32), Option<K>)],
    are_rising: bool,
    face: u32,
    id: u32,
) -> bool
    requires { are_rising ≡ true → AreRising rows.now }
    ensures { (about : Option K) → result ≡ true
        → AreRising (rows.now ++ ((face, id), about) ∷ []) }
{
    match rows.last() {
        Some(last) => are_rising && last.0.cmp(&(face, id)).is_lt(),
        None => true,
    }
}

// Whether all interests are still known to be in one expression after one in this expression is
// added. It is enough to compare it with the first.
fn stay_alike<K: Key>(rows: &[((u32, u32), Option<K>)], are_alike: bool, about: &Option<K>) -> bool
    requires { are_alike ≡ true → AreAlike rows.now }
    ensures { (holder : ℕ × ℕ) → result ≡ true → AreAlike (rows.now ++ (holder, about.now) ∷ []) }
{
    match rows.first() {
        Some(first) => are_alike && first.1 == *about,
        None => true,
    }
}

// Whether the number stands last.
fn is_last(numbers: &[u32], number: u32) -> bool
    ensures { result ≡ true → is_among number numbers.now ≡ true }
{
    match numbers.last() {
        Some(last) => number == *last,
        None => false,
    }
}

// What an interest is about that was tried, and whether that is the key.
#[derive(Clone, Copy, Drop)]
struct Tried<'a, K: Key> {
    about: &'a Option<K>,
    is_about: bool,
}

// Whether an interest in this expression, or in all keys, is about the key. One that is like the
// one that was tried before isn't matched anew: many faces hold interests in one expression.
fn is_about_as<K: Key>(tried: &Option<Tried<'_, K>>, about: &Option<K>, expr: &K) -> bool
    requires { IfSome tried.now (λ t. t.is_about ≡ is_about K.matching t.about.now expr.now) }
    ensures { result ≡ is_about K.matching about.now expr.now }
{
    match tried {
        Some(tried) if tried.about == about => tried.is_about,
        _ => is_about(about, expr),
    }
}

// Puts a face among those found. One that was found last isn't put there again.
fn add_face(found: &mut Vec<u32>, face: u32) -> Result<(), Memory>
    ensures { OnOk result ((n : ℕ) → is_among n found.new.items
        ≡ (is_among n found.old.items || n == face)) }
{
    if !is_last(found.as_slice(), face) {
        found.push(face)?;
    }
    Ok(())
}

// Puts the faces that hold these interests among those found.
fn add_faces<K: Key>(found: &mut Vec<u32>, rows: &[((u32, u32), Option<K>)]) -> Result<(), Memory>
    ensures { OnOk result ((n : ℕ) → is_among n found.new.items
        ≡ (is_among n found.old.items || list_any (is_by n) rows.now)) }
{
    found.reserve(rows.len())?;
    for row in rows {
        add_face(found, row.0.0)?;
    }
    Ok(())
}

// Puts the faces among those found that hold interests, all in one expression, if that is about the
// key. So it is matched once.
fn gather_alike<K: Key>(
    found: &mut Vec<u32>,
    rows: &[((u32, u32), Option<K>)],
    expr: &K,
) -> Result<(), Memory>
    requires { AreAlike rows.now }
    ensures { OnOk result ((n : ℕ) → is_among n found.new.items
        ≡ (is_among n found.old.items || list_any (asks_from K.matching expr.now n) rows.now)) }
{
    match rows.first() {
        None => Ok(()),
        Some(first) => {
            if is_about(&first.1, expr) {
                add_faces(found, rows)
            } else {
                Ok(())
            }
        }
    }
}

// Puts the faces among those found whose interests are about the key, one that holds several maybe
// more than once.
fn gather_in<K: Key>(
    found: &mut Vec<u32>,
    rows: &[((u32, u32), Option<K>)],
    expr: &K,
) -> Result<(), Memory>
    ensures { OnOk result ((n : ℕ) → is_among n found.new.items
        ≡ (is_among n found.old.items || list_any (asks_from K.matching expr.now n) rows.now)) }
{
    let mut tried = None;
    for row in rows {
        let is_about = is_about_as(&tried, &row.1, expr);
        if is_about {
            add_face(found, row.0.0)?;
        }
        tried = Some(Tried {
            about: &row.1,
            is_about,
        });
    }
    Ok(())
}

// The same expression, if there is one.
fn copy_about<K: Key>(alloc: Global, about: &Option<K>) -> Result<Option<K>, Memory>
    ensures { IfOk result (λ copy. copy ≡ about.now) }
{
    match about {
        None => Ok(None),
        Some(key) => Ok(Some(key.copy(alloc)?)),
    }
}

// Equal interests.
fn copy_rows<K: Key>(
    alloc: Global,
    rows: &[((u32, u32), Option<K>)],
) -> Result<Vec<((u32, u32), Option<K>)>, Memory>
    ensures { IfOk result (λ copies. copies.items ≡ rows.now) }
{
    let mut copies = Vec::with_capacity(alloc, rows.len())?;
    for row in rows {
        copies.push((row.0, copy_about(alloc, &row.1)?))?;
    }
    Ok(copies)
}

/// The interests of one bucket, each under its face and id, with its expression, if it has one.
/// Often they are all in one expression, as where many faces hold an interest in `**`. Then it is
/// matched once for all of them.
#[derive(Drop)]
pub struct Holdings<K: Key> {
    rows: Vec<((u32, u32), Option<K>)>,

    // Whether the interests are known to be in one expression.
    are_alike: bool,

    // Whether they are known to stand in order of face and id, as they mostly come.
    are_rising: bool,
}

impl<K: Key> Model for Holdings<K> {
    ghost use Rattle.std.specs.Prelude.{◌≡◌, ℕ, List, Option, true};
    ghost use Rattle.zt_interest_index.specs.Holdings.{AreAlike, AreRising};

    ghost Value = { List ((ℕ × ℕ) × Option K) };

    ghost view = { λ a. a.rows.items };

    ghost invariant = { λ a. (a.are_alike ≡ true → AreAlike a.rows.items)
        × (a.are_rising ≡ true → AreRising a.rows.items) };
}

impl<K: Key> Holdings<K> {
    /// No interest.
    pub fn new(alloc: Global) -> Self
        ensures { result ≡ [] }
    {
        Holdings {
            rows: Vec::new(alloc),
            are_alike: true,
            are_rising: true,
        }
    }

    /// One interest, and room for it alone, since most buckets hold no other.
    pub fn of_one(alloc: Global, face: u32, id: u32, about: Option<K>) -> Result<Self, Memory>
        ensures { IfOk result (λ rows. rows ≡ ((face, id), about) ∷ []) }
    {
        let mut rows = Vec::with_capacity(alloc, 1)?;
        rows.push(((face, id), about))?;
        Ok(Holdings {
            rows,
            are_alike: true,
            are_rising: true,
        })
    }

    /// Where memory comes from.
    pub fn allocator(&self) -> Global {
        *self.rows.allocator()
    }

    /// An interest more. After an error the interests stay.
    pub fn push(&mut self, face: u32, id: u32, about: Option<K>) -> Result<(), Memory>
        ensures ok { OnOk result (self.new ≡ self.old ++ ((face, id), about) ∷ []) }
        ensures err { OnErr result (self.new ≡ self.old) }
    {
        let rows = self.rows.as_slice();
        let are_alike = stay_alike(rows, self.are_alike, &about);
        let are_rising = stay_rising(rows, self.are_rising, face, id);
        self.rows.push(((face, id), about))?;
        self.are_alike = are_alike;
        self.are_rising = are_rising;
        Ok(())
    }

    /// The interest that the face holds under the id goes, if it is here.
    pub fn remove(&mut self, face: u32, id: u32)
        ensures { self.new ≡ filter (λ row. not (is_of face id row)) self.old }
    {
        drop_in(&mut self.rows, self.are_rising, face, id);
    }

    /// Whether there is no interest.
    pub fn is_empty(&self) -> bool
        ensures { result ≡ (length self.now == 0) }
    {
        self.rows.is_empty()
    }

    /// The interests, each under its face and id.
    pub fn as_slice(&self) -> &[((u32, u32), Option<K>)]
        ensures { result.now ≡ self.now }
    {
        &self.rows
    }

    /// Puts the faces among those found whose interests are about the key, one that holds several
    /// maybe more than once.
    pub fn gather(&self, found: &mut Vec<u32>, expr: &K) -> Result<(), Memory>
        ensures { OnOk result ((n : ℕ) → is_among n found.new.items
            ≡ (is_among n found.old.items
            || list_any (asks_from K.matching expr.now n) self.now)) }
    {
        if self.are_alike {
            gather_alike(found, &self.rows, expr)
        } else {
            gather_in(found, &self.rows, expr)
        }
    }

    /// Equal interests.
    pub fn copy(&self, alloc: Global) -> Result<Self, Memory>
        ensures { IfOk result (λ copy. copy ≡ self.now) }
    {
        Ok(Holdings {
            rows: copy_rows(alloc, &self.rows)?,
            are_alike: self.are_alike,
            are_rising: self.are_rising,
        })
    }
}
