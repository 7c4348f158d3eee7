// Interests, as faces hold them and as they are sent on.
ghost use Rattle.std.specs.Prelude.{◌≡◌, false, true, IfOk};
ghost use Rattle.std.specs.Ordering.{is_eq};
ghost use Rattle.zt_face.specs.Locals.{asked_by};
ghost use Rattle.zt_model.specs.Routing.{asks_same, expression_order};
ghost use Rattle.zt_model.specs.Wants.{asks_token, is_about};

use bitflags::Flags;
use std::alloc::Global;
use std::marker::Model;
use zt_keys::{Anchor, Key, Memory};
use zt_protocol::{InterestMode, InterestOptions, copy_expression};

/// An interest of a face, as it is held, asked or sent on: in one expression or in all, with the
/// options that the gateway keeps.
#[derive(Drop)]
pub struct RemoteInterest<K: Key> {
    mode: InterestMode,
    // What is asked for: the expression, or all keys, and about what.
    asked: (Option<K>, InterestOptions),
}

impl<K: Key> Model for RemoteInterest<K> {
    ghost use Rattle.zt_model.specs.Rows.{InterestRow};

    ghost Value = { InterestRow K };

    ghost view = { λ r. record { mode = r.mode; options = r.asked.1; expr = r.asked.0 } };
}

// Whether both name one expression, or both none.
fn is_same_expression<K: Key>(a: &Option<K>, b: &Option<K>) -> bool
    ensures { result ≡ is_eq (expression_order K.cmp K.matching a.now b.now) }
{
    match (a, b) {
        (None, None) => true,
        (Some(first), Some(second)) => first == second,
        _ => false,
    }
}

// Whether both keys have a number as a whole, and not the same one. Then they don't match.
fn have_other_numbers<K: Key>(first: &K, second: &K) -> bool
    ensures { result ≡ true → K.matching first.now second.now ≡ false }
{
    match (first.anchor(Anchor::Whole), second.anchor(Anchor::Whole)) {
        (Some(one), Some(other)) => one != other,
        _ => false,
    }
}

/// Whether an interest in this expression, or in all keys, is about the key. Most expressions have
/// no wildcards, and two of these are distinguished by their numbers, which takes no walk along
/// both.
pub fn is_about<K: Key>(expr: &Option<K>, key: &K) -> bool
    ensures { result ≡ is_about K.matching expr.now key.now }
{
    match expr {
        None => true,
        Some(expr) => !have_other_numbers(expr, key) && expr.matches(key),
    }
}

impl<K: Key> RemoteInterest<K> {
    /// An interest of these parts.
    pub fn new(mode: InterestMode, options: InterestOptions, expr: Option<K>) -> Self
        ensures { result ≡ record { mode = mode; options = options; expr = expr } }
    {
        RemoteInterest {
            mode,
            asked: (expr, options),
        }
    }

    /// What is asked for: what is there now, what comes later, or both.
    pub fn mode(&self) -> InterestMode
        ensures { result ≡ self.now.mode }
    {
        self.mode
    }

    /// What the interest asks about.
    pub fn options(&self) -> InterestOptions
        ensures { result ≡ self.now.options }
    {
        self.asked.1
    }

    /// The expression that is asked for; without one all.
    pub fn expr(&self) -> &Option<K>
        ensures { result.now ≡ self.now.expr }
    {
        &self.asked.0
    }

    // What is asked for, in whatever mode.
    pub(crate) fn asked(&self) -> &(Option<K>, InterestOptions)
        ensures { result.now ≡ asked_by self.now }
    {
        &self.asked
    }

    // The same as a copy.
    pub(crate) fn copy_asked(&self, alloc: Global) -> Result<(Option<K>, InterestOptions), Memory>
        ensures { IfOk result (λ copy. copy ≡ asked_by self.now) }
    {
        Ok((copy_expression(&self.asked.0, alloc)?, self.asked.1))
    }

    /// Whether both ask for the same: one expression, or all keys, with the same options, in
    /// whatever modes.
    pub fn asks_same(&self, other: &Self) -> bool
        ensures { result ≡ asks_same K.cmp K.matching self.now other.now }
    {
        is_same_expression(&self.asked.0, &other.asked.0) && self.asked.1 == other.asked.1
    }

    /// Whether the interest asks for the tokens of the key.
    pub fn asks_token(&self, key: &K) -> bool
        ensures { result ≡ asks_token K.matching self.now key.now }
    {
        self.options().contains(InterestOptions::TOKENS) && is_about(self.expr(), key)
    }

    /// An interest equal to this one.
    pub fn copy(&self, alloc: Global) -> Result<Self, Memory>
        ensures { IfOk result (λ copy. copy ≡ self.now) }
    {
        Ok(RemoteInterest {
            mode: self.mode,
            asked: self.copy_asked(alloc)?,
        })
    }
}
