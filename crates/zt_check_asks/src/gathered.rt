// The answers of an ask, which are looked up where they are many.
ghost use Rattle.std.specs.Prelude.{◌≡◌, ◌||◌, [], true, IfOk, OnOk};
ghost use Rattle.std.specs.Option.{option_copied};
ghost use Rattle.zt_model.specs.Lists.{is_among, same};
ghost use Rattle.zt_model.specs.Promises.{are_new};
ghost use Rattle.zt_check_asks.specs.Gathered.{IsGathered};

use std::alloc::Global;
use std::collections::HashSet;
use std::marker::Model;
use zt_check_faces::is_among;
use zt_keys::{Key, Memory};

// So many answers are walked through.
const FEW: usize = 8;

/// The answers of an ask.
#[derive(Drop)]
pub(crate) struct Answers<K: Key> {
    exprs: Vec<K>,
    // Whether they are gathered in a set.
    many: bool,
    found: HashSet<K>,
}

impl<K: Key> Model for Answers<K> {
    ghost use Rattle.std.specs.Prelude.{List};
    ghost use Rattle.zt_check_asks.specs.Gathered.{AreFound};

    ghost Value = { List K };

    ghost view = { λ a. a.exprs.items };

    ghost invariant = { λ a. AreFound K.cmp a.many a.found.keys a.exprs.items };
}

// An expression more.
fn add_found<K: Key>(found: &mut HashSet<K>, expr: K) -> Result<(), Memory>
    ensures { OnOk result ((q : K) → is_among K.cmp q found.new.keys
        ≡ (same K.cmp expr q || is_among K.cmp q found.old.keys)) }
{
    found.insert(expr)?;
    Ok(())
}

// Whether each expression is there once, and none was before. They are gathered.
fn gather_new<K: Key>(
    alloc: Global,
    known: &[K],
    exprs: &[K],
    found: &mut HashSet<K>,
) -> Result<bool, Memory>
    requires { found.old.keys ≡ [] }
    ensures new { IfOk result (λ new. new ≡ are_new K.cmp K.matching known.now exprs.now) }
    ensures found { IfOk result (λ new. new ≡ true → (q : K)
        → is_among K.cmp q found.new.keys ≡ is_among K.cmp q exprs.now) }
{
    for place in 0..exprs.len() {
        let expr = &exprs[place];
        if is_among(expr, known) {
            return Ok(false);
        }
        if found.contains(expr) {
            return Ok(false);
        }
        add_found(found, expr.copy(alloc)?)?;
    }
    Ok(true)
}

// Each expression once, and none that was there before.
fn are_new<K: Key>(known: &[K], exprs: &[K]) -> bool
    ensures { result ≡ are_new K.cmp K.matching known.now exprs.now }
{
    for place in 0..exprs.len() {
        let expr = &exprs[place];
        if is_among(expr, known) || is_among(expr, &exprs[..place]) {
            return false;
        }
    }
    true
}

// Few answers, if each is there once, and none was before.
fn gather_few<K: Key>(alloc: Global, known: &[K], exprs: Vec<K>) -> Option<Answers<K>>
    ensures { IsGathered K.cmp K.matching known.now exprs.items result }
{
    if !are_new(known, &exprs) {
        return None;
    }
    Some(Answers {
        exprs,
        many: false,
        found: HashSet::new(alloc),
    })
}

// Many answers.
fn gather_many<K: Key>(
    alloc: Global,
    known: &[K],
    exprs: Vec<K>,
) -> Result<Option<Answers<K>>, Memory>
    ensures { IfOk result
        (λ answers. IsGathered K.cmp K.matching known.now exprs.items answers) }
{
    let mut found = HashSet::new(alloc);
    if !gather_new(alloc, known, &exprs, &mut found)? {
        return Ok(None);
    }
    Ok(Some(Answers {
        exprs,
        many: true,
        found,
    }))
}

/// The answers of an ask, if each is there once, and none was among those known before.
pub(crate) fn gather<K: Key>(
    alloc: Global,
    known: &[K],
    exprs: Vec<K>,
) -> Result<Option<Answers<K>>, Memory>
    ensures { IfOk result
        (λ answers. IsGathered K.cmp K.matching known.now exprs.items answers) }
{
    if exprs.len() <= FEW {
        return Ok(gather_few(alloc, known, exprs));
    }
    gather_many(alloc, known, exprs)
}

impl<K: Key> Answers<K> {
    /// The answers, in order.
    pub(crate) fn exprs(&self) -> &[K]
        ensures { result.now ≡ self.now }
    {
        &self.exprs
    }

    /// Whether an expression is among them.
    pub(crate) fn holds(&self, expr: &K) -> bool
        ensures { result ≡ is_among K.cmp expr.now self.now }
    {
        if self.many {
            return self.found.contains(expr);
        }
        is_among(expr, &self.exprs)
    }
}
