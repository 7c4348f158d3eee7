// Hints by expression.
ghost use Rattle.std.specs.Prelude.{◌≡◌, [], false, true, OnOk};
ghost use Rattle.std.specs.BTreeMap.{is_at};
ghost use Rattle.zt_check_hints.specs.Hinted.{IsHinted, IsWithout, Keeps, KeepsBut, hints_at};

use crate::list::{Hint, HintList};
use std::alloc::Global;
use std::collections::HashMap;
use std::marker::Model;
use zt_keys::{Key, Memory};

// A hint more of an expression.
fn add_to<K: Key, H: Hint>(
    alloc: Global,
    places: &mut HashMap<K, HintList<H>>,
    expr: &K,
    hint: H,
) -> Result<(), Memory>
    ensures kept { Keeps K.cmp places.old.entries places.new.entries }
    ensures hinted { OnOk result (IsHinted K.cmp expr.now hint places.new.entries) }
{
    match places.get_mut(expr) {
        Some(list) => list.add(hint),
        None => {
            let mut list = HintList::new(alloc);
            list.add(hint)?;
            places.insert(expr.copy(alloc)?, list)?;
            Ok(())
        }
    }
}

// The hints of an expression go that are like this one. Whether none of it is left.
fn take_from<K: Key, H: Hint>(places: &mut HashMap<K, HintList<H>>, expr: &K, gone: &H) -> bool
    ensures kept { KeepsBut K.cmp (H.alike gone.now) places.old.entries places.new.entries }
    ensures others { (q : K) → is_at (K.cmp expr.now) q ≡ false
        → hints_at K.cmp q places.new.entries ≡ hints_at K.cmp q places.old.entries }
    ensures last { result ≡ true → hints_at K.cmp expr.now places.new.entries ≡ [] }
{
    match places.get_mut(expr) {
        None => false,
        Some(list) => {
            list.drop_alike(gone);
            list.is_empty()
        }
    }
}

// An expression goes.
fn drop_key<K: Key, H: Hint>(places: &mut HashMap<K, HintList<H>>, expr: &K)
    ensures { IsWithout K.cmp expr.now places.old.entries places.new.entries }
{
    drop(places.remove(expr));
}

/// Hints by expression: each expression is looked up.
#[derive(Drop)]
pub struct Hints<K: Key, H: Hint> {
    places: HashMap<K, HintList<H>>,
}

impl<K: Key, H: Hint> Model for Hints<K, H> {
    ghost use Rattle.std.specs.Prelude.{List};

    ghost Value = { List (K × List H) };

    ghost view = { λ h. h.places.entries };
}

impl<K: Key, H: Hint> Hints<K, H> {
    /// No hints. It takes no memory.
    pub fn new(alloc: Global) -> Self
        ensures { result ≡ [] }
    {
        Hints {
            places: HashMap::new(alloc),
        }
    }

    /// The hints of an expression. A look-up.
    pub fn at(&self, expr: &K) -> &[H]
        ensures { result.now ≡ hints_at K.cmp expr.now self.now }
    {
        match self.places.get(expr) {
            None => &[],
            Some(list) => list.hints(),
        }
    }

    /// A hint more of an expression, where it isn't there. After an error it may be there or not.
    pub fn add(&mut self, alloc: Global, expr: &K, hint: H) -> Result<(), Memory>
        ensures kept { Keeps K.cmp self.old self.new }
        ensures hinted { OnOk result (IsHinted K.cmp expr.now hint self.new) }
    {
        add_to(alloc, &mut self.places, expr, hint)
    }

    /// The hints of an expression go that are like this one; all others stay.
    pub fn drop_alike(&mut self, expr: &K, gone: &H)
        ensures kept { KeepsBut K.cmp (H.alike gone.now) self.old self.new }
        ensures others { (q : K) → is_at (K.cmp expr.now) q ≡ false
            → hints_at K.cmp q self.new ≡ hints_at K.cmp q self.old }
    {
        if take_from(&mut self.places, expr, gone) {
            drop_key(&mut self.places, expr);
        }
    }

    /// All hints of an expression go; those of others stay.
    pub fn forget(&mut self, expr: &K)
        ensures { IsWithout K.cmp expr.now self.old self.new }
    {
        drop_key(&mut self.places, expr);
    }
}
