// What a face was told, with a look-up of each expression.
ghost use Rattle.std.specs.Prelude.{◌≡◌, ◌==◌, ◌&&◌, ◌∷◌, ◌++◌, [], filter, not, true, IfOk, OnOk};
ghost use Rattle.std.specs.List.{list_any};
ghost use Rattle.zt_model.specs.Hearing.{told_pair, untold};
ghost use Rattle.zt_model.specs.Lists.{same, without_id};
ghost use Rattle.zt_check_hints.specs.Hinted.{KeepsBut};
ghost use Rattle.zt_check_faces.specs.Hinted.{AreHinted};
ghost use Rattle.zt_check_faces.specs.Parts.{HasThoseOf};
ghost use Rattle.zt_check_faces.specs.Rising.{AreNamed, Rise};

use crate::by_id::{near, remove};
use crate::copies::copy_each;
use crate::rising::{part_of, place_of, take_out};
use std::alloc::Global;
use std::marker::Model;
use zt_check_hints::Hints;
use zt_keys::{Key, Memory};

// So many rows are walked through.
const FEW: usize = 8;

/// What a face was told, each with its id, in the order in which it was told. The ids under which
/// an expression stands are looked up. As long as each id was above those before, rows are searched
/// for by halves; a text that is judged may give ids in any order.
#[derive(Drop)]
pub struct ToldRows<K: Key> {
    rows: Vec<(u32, K)>,
    // Whether ids are known to rise.
    rises: bool,
    // Each row's id is hinted by its expression.
    ids: Hints<K, u32>,
}

impl<K: Key> Model for ToldRows<K> {
    ghost use Rattle.zt_model.specs.Rows.{ById};
    ghost use Rattle.zt_check_faces.specs.Rising.{IsToldKept};

    ghost Value = { ById K };

    ghost view = { λ t. t.rows.items };

    ghost invariant = { λ t. IsToldKept K.cmp t.ids t.rises t.rows.items };
}

// Whether the pair of an id and an expression is there.
fn is_pair<K: Key>(rows: &[(u32, K)], id: u32, expr: &K) -> bool
    ensures { result ≡ list_any (λ row. id == row.0 && same K.cmp expr.now row.1) rows.now }
{
    rows.iter().any(|row| id == row.0 && *expr == row.1)
}

// Whether the expression is there.
fn is_named<K: Key>(rows: &[(u32, K)], expr: &K) -> bool
    ensures { result ≡ list_any (λ row. same K.cmp expr.now row.1) rows.now }
{
    rows.iter().any(|row| *expr == row.1)
}

/// Whether the pair is found where it stands if ids rise; it may be there though it isn't found.
pub(crate) fn is_found<K: Key>(rows: &[(u32, K)], id: u32, expr: &K) -> bool
    ensures { result ≡ true
        → list_any (λ row. id == row.0 && same K.cmp expr.now row.1) rows.now ≡ true }
{
    let place = near(rows, id);
    if place < rows.len() {
        let row = &rows[place];
        return id == row.0 && *expr == row.1;
    }
    false
}

// Whether the expression is there: first looked for under an id.
fn finds_named<K: Key>(rows: &[(u32, K)], id: u32, expr: &K) -> bool
    ensures { result ≡ list_any (λ row. same K.cmp expr.now row.1) rows.now }
{
    if is_found(rows, id, expr) {
        return true;
    }
    is_named(rows, expr)
}

// Whether the pair is there: first looked for where it stands if ids rise.
fn finds_pair<K: Key>(rows: &[(u32, K)], id: u32, expr: &K) -> bool
    ensures { result ≡ list_any (λ row. id == row.0 && same K.cmp expr.now row.1) rows.now }
{
    if is_found(rows, id, expr) {
        return true;
    }
    is_pair(rows, id, expr)
}

// Whether an id is hinted.
fn has_hint(hints: &[u32], id: u32) -> bool
    ensures { result ≡ list_any (λ hint. id == hint) hints.now }
{
    hints.iter().any(|hint| id == *hint)
}

// The pairs of an expression go.
fn drop_expression<K: Key>(rows: &mut Vec<(u32, K)>, expr: &K)
    ensures { rows.new.items ≡ filter (λ row. not (same K.cmp expr.now row.1)) rows.old.items }
{
    rows.retain(|row| *expr != row.1);
}

// The hint of the row goes that is found under the id.
fn drop_hint<K: Key>(ids: &mut Hints<K, u32>, rows: &[(u32, K)], id: u32)
    ensures { KeepsBut K.cmp (λ hint. id == hint) ids.old ids.new }
{
    let place = near(rows, id);
    if place < rows.len() {
        ids.drop_alike(&rows[place].1, &id);
    }
}

// Whether ids still rise with a row of this one behind the others.
fn rises_with<K: Key>(rows: &[(u32, K)], rises: bool, id: u32) -> bool
    requires { rises ≡ true → Rise rows.now }
    ensures { result ≡ true → (e : K) → Rise (rows.now ++ (id, e) ∷ []) }
{
    if !rises {
        return false;
    }
    match rows.last() {
        None => true,
        Some(last) => last.0 < id,
    }
}

// The pairs of an id go.
fn drop_id<K: Key>(rows: &mut Vec<(u32, K)>, rises: bool, id: u32)
    requires { rises ≡ true → Rise rows.old.items }
    ensures gone { rows.new.items ≡ without_id id rows.old.items }
    ensures rise { rises ≡ true → Rise rows.new.items }
{
    if rises {
        take_out(rows, id);
    } else {
        remove(rows, id);
    }
}

// The row of an id goes if it is of the expression, among rows whose ids rise.
fn drop_pair<K: Key>(rows: &mut Vec<(u32, K)>, id: u32, expr: &K)
    requires { Rise rows.old.items }
    ensures gone { rows.new.items
        ≡ filter (λ row. not (id == row.0 && same K.cmp expr.now row.1)) rows.old.items }
    ensures rise { Rise rows.new.items }
{
    if let Ok(place) = place_of(rows.as_slice(), id) {
        if *expr == rows[place].1 {
            drop(rows.remove(place));
        }
    }
}

// The rows of an expression go, which stand under these ids alone.
fn drop_pairs<K: Key>(rows: &mut Vec<(u32, K)>, ids: &[u32], expr: &K)
    requires rise { Rise rows.old.items }
    requires named { AreNamed K.cmp ids.now expr.now rows.old.items }
    ensures gone { rows.new.items ≡ filter (λ row. not (same K.cmp expr.now row.1)) rows.old.items }
    ensures rise { Rise rows.new.items }
{
    for id in ids {
        drop_pair(rows, *id, expr);
    }
}

// The pairs of an expression go, which stand under these ids alone.
fn drop_named<K: Key>(rows: &mut Vec<(u32, K)>, rises: bool, ids: &[u32], expr: &K)
    requires rise { rises ≡ true → Rise rows.old.items }
    requires named { AreNamed K.cmp ids.now expr.now rows.old.items }
    ensures gone { rows.new.items ≡ filter (λ row. not (same K.cmp expr.now row.1)) rows.old.items }
    ensures rise { rises ≡ true → Rise rows.new.items }
{
    if rises {
        drop_pairs(rows, ids, expr);
    } else {
        drop_expression(rows, expr);
    }
}

// Hints of these rows.
fn hints_of<K: Key>(alloc: Global, rows: &[(u32, K)]) -> Result<Hints<K, u32>, Memory>
    ensures { IfOk result (λ ids. AreHinted K.cmp ids rows.now) }
{
    let mut ids = Hints::new(alloc);
    for row in rows {
        ids.add(alloc, &row.1, row.0)?;
    }
    Ok(ids)
}

impl<K: Key> ToldRows<K> {
    /// Nothing was told. It takes no memory.
    pub fn new(alloc: Global) -> Self
        ensures { result ≡ [] }
    {
        ToldRows {
            rows: Vec::new(alloc),
            rises: true,
            ids: Hints::new(alloc),
        }
    }

    /// The pairs of an id and an expression.
    pub fn rows(&self) -> &[(u32, K)]
        ensures { result.now ≡ self.now }
    {
        &self.rows
    }

    /// A part of the rows that has all of the id. A look-up, where ids rise; else all rows.
    pub fn of(&self, id: u32) -> &[(u32, K)]
        ensures { HasThoseOf (λ row. row.0) id result.now self.now }
    {
        if self.rises {
            return part_of(&self.rows, id);
        }
        &self.rows
    }

    /// Whether the expression is there. A look-up, mostly.
    pub fn has(&self, expr: &K) -> bool
        ensures { result ≡ list_any (λ row. same K.cmp expr.now row.1) self.now }
    {
        if self.rows.len() <= FEW {
            return is_named(&self.rows, expr);
        }
        let ids = self.ids.at(expr);
        if ids.is_empty() {
            return false;
        }
        finds_named(&self.rows, ids[0], expr)
    }

    // Whether the pair is there. A look-up, mostly.
    fn has_pair(&self, id: u32, expr: &K) -> bool
        ensures { result ≡ list_any (λ row. id == row.0 && same K.cmp expr.now row.1) self.now }
    {
        if !has_hint(self.ids.at(expr), id) {
            return false;
        }
        finds_pair(&self.rows, id, expr)
    }

    /// A pair is told, which is there once; none is of the id 0.
    pub fn tell(&mut self, alloc: Global, id: u32, expr: &K) -> Result<(), Memory>
        ensures { OnOk result (self.new ≡ told_pair K.cmp id expr.now self.old) }
    {
        if id == 0 || self.has_pair(id, expr) {
            return Ok(());
        }
        let copy = expr.copy(alloc)?;
        self.ids.add(alloc, expr, id)?;
        let rises = rises_with(&self.rows, self.rises, id);
        self.rows.push((id, copy))?;
        self.rises = rises;
        Ok(())
    }

    // The pairs of an id go.
    fn untell_id(&mut self, id: u32)
        ensures { self.new ≡ without_id id self.old }
    {
        drop_hint(&mut self.ids, &self.rows, id);
        drop_id(&mut self.rows, self.rises, id);
    }

    // The pairs of an expression go.
    fn untell_expression(&mut self, expr: &K)
        ensures { self.new ≡ filter (λ row. not (same K.cmp expr.now row.1)) self.old }
    {
        drop_named(&mut self.rows, self.rises, self.ids.at(expr), expr);
        self.ids.forget(expr);
    }

    /// The pairs of an expression go, or else those of an id.
    pub fn untell(&mut self, id: u32, expr: &Option<K>)
        ensures { self.new ≡ untold K.cmp id expr.now self.old }
    {
        match expr {
            None => self.untell_id(id),
            Some(expr) => self.untell_expression(expr),
        }
    }

    /// Equal rows.
    pub fn copy(&self, alloc: Global) -> Result<Self, Memory>
        ensures { IfOk result (λ copy. copy ≡ self.now) }
    {
        let rows = copy_each(alloc, &self.rows)?;
        let ids = hints_of(alloc, rows.as_slice())?;
        let rises = self.rises;
        Ok(ToldRows { rows, rises, ids })
    }
}
