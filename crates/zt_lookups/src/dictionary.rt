// The expressions that have a number.
ghost use Rattle.std.specs.Prelude.{◌≡◌, ◌+◌, ◌∷◌, [], IfOk, OnOk, length};
ghost use Rattle.zt_model.specs.Entities.{number_in, numbered_with};
ghost use Rattle.zt_model.specs.Lists.{is_among};

use indexmap::IndexSet;
use std::alloc::Global;
use std::marker::Model;
use zt_keys::{Key, Memory};

/// Expressions that have a number, from 1 in the order in which they got it, each once. An
/// expression's number is a look-up.
#[derive(Drop)]
pub struct Dictionary<K: Key> {
    exprs: IndexSet<K>,
}

impl<K: Key> Model for Dictionary<K> {
    ghost use Rattle.std.specs.Prelude.{List};

    ghost Value = { List K };

    ghost view = { λ d. d.exprs.keys };
}

// The number of the expression at a place: it is counted from 1. A number that is none of a u32
// counts as out of memory.
fn number_at(place: usize) -> Result<u32, Memory>
    ensures { IfOk result (λ number. number ≡ place + 1) }
{
    if place < u32::MAX as usize {
        Ok(place as u32 + 1)
    } else {
        Err(Memory)
    }
}

impl<K: Key> Dictionary<K> {
    /// No expressions. It takes no memory.
    pub fn new(alloc: Global) -> Self
        ensures { result ≡ [] }
    {
        Dictionary {
            exprs: IndexSet::new(alloc),
        }
    }

    /// How many expressions have a number.
    pub fn len(&self) -> usize
        ensures { result ≡ length self.now }
    {
        self.exprs.len()
    }

    /// Whether the expression has a number. A look-up.
    pub fn contains(&self, expr: &K) -> bool
        ensures { result ≡ is_among K.cmp expr.now self.now }
    {
        self.exprs.contains(expr)
    }

    /// The number of an expression; without one 0. A look-up. The only error is a number that is
    /// none of a u32, which counts as out of memory.
    pub fn number_of(&self, expr: &K) -> Result<u32, Memory>
        ensures { IfOk result (λ number. number ≡ number_in K.cmp 1 expr.now self.now) }
    {
        match self.exprs.get_index_of(expr) {
            None => Ok(0),
            Some(place) => number_at(place),
        }
    }

    /// The expression gets a number, unless it has one.
    pub fn number(&mut self, alloc: Global, expr: &K) -> Result<(), Memory>
        ensures { OnOk result (self.new ≡ numbered_with K.cmp (expr.now ∷ []) self.old) }
    {
        self.exprs.insert(expr.copy(alloc)?)?;
        Ok(())
    }

    /// Expressions get numbers, in this order, that have none yet.
    #[tactic(auto, unfolding(zt_model::specs::Entities::numbered_with))]
    pub fn number_all(&mut self, alloc: Global, exprs: &[K]) -> Result<(), Memory>
        ensures { OnOk result (self.new ≡ numbered_with K.cmp exprs.now self.old) }
    {
        for expr in exprs {
            self.number(alloc, expr)?;
        }
        Ok(())
    }

    /// An equal dictionary.
    pub fn copy(&self, alloc: Global) -> Result<Self, Memory>
        ensures { IfOk result (λ copy. copy ≡ self.now) }
    {
        let mut copy = Dictionary::new(alloc);
        copy.number_all(alloc, self.exprs.as_slice())?;
        Ok(copy)
    }
}
