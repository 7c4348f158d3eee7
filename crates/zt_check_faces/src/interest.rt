// Interests, and what of them isn't finished.
ghost use Rattle.std.specs.Prelude.{◌≡◌, [], IfOk};

use crate::copies::copy_keys;
use std::alloc::Global;
use std::marker::Model;
use zt_keys::{Key, Memory};
use zt_protocol::{InterestMode, InterestOptions, copy_expression};

/// An interest, as a face holds it or as it was sent upstream.
#[derive(Drop)]
pub struct ShownInterest<K: Key> {
    mode: InterestMode,
    options: InterestOptions,
    expr: Option<K>,
}

impl<K: Key> Model for ShownInterest<K> {
    ghost use Rattle.zt_model.specs.Rows.{InterestRow};

    ghost Value = { InterestRow K };

    ghost view = { λ i. record { mode = i.mode; options = i.options; expr = i.expr } };
}

impl<K: Key> ShownInterest<K> {
    /// An interest of these parts.
    pub fn new(mode: InterestMode, options: InterestOptions, expr: Option<K>) -> Self
        ensures { result ≡ record { mode = mode; options = options; expr = expr } }
    {
        ShownInterest {
            mode,
            options,
            expr,
        }
    }

    /// What is asked for: what is there now, what comes later, or both.
    pub fn mode(&self) -> InterestMode
        ensures { result ≡ self.now.mode }
    {
        self.mode
    }

    /// What it asks about.
    pub fn options(&self) -> InterestOptions
        ensures { result ≡ self.now.options }
    {
        self.options
    }

    /// The expression that is asked for; without one all.
    pub fn expr(&self) -> &Option<K>
        ensures { result.now ≡ self.now.expr }
    {
        &self.expr
    }

    /// An interest equal to this one.
    pub fn copy(&self, alloc: Global) -> Result<Self, Memory>
        ensures { IfOk result (λ copy. copy ≡ self.now) }
    {
        Ok(ShownInterest {
            mode: self.mode,
            options: self.options,
            expr: copy_expression(&self.expr, alloc)?,
        })
    }
}

/// An upstream interest that isn't finished, and the gateway's moment when it was sent.
#[derive(Drop)]
pub struct ShownPending {
    mode: InterestMode,
    since: u64,
}

impl Model for ShownPending {
    ghost use Rattle.zt_model.specs.Rows.{Pending};

    ghost Value = { Pending };

    ghost view = { λ p. record { mode = p.mode; since = p.since } };
}

impl ShownPending {
    /// A pending of this mode, sent at this moment.
    pub fn new(mode: InterestMode, since: u64) -> Self
        ensures { result ≡ record { mode = mode; since = since } }
    {
        ShownPending { mode, since }
    }

    /// A pending equal to this one.
    pub fn copy(&self) -> ShownPending
        ensures { result ≡ self.now }
    {
        ShownPending::new(self.mode, self.since)
    }

    /// The interest's mode.
    pub fn mode(&self) -> InterestMode
        ensures { result ≡ self.now.mode }
    {
        self.mode
    }

    /// The gateway's moment when it was sent.
    pub fn since(&self) -> u64
        ensures { result ≡ self.now.since }
    {
        self.since
    }
}

/// A question of a face whose final wasn't printed: the interests that it sent upstream, each by
/// face and id, and the expressions that it was answered.
#[derive(Drop)]
pub struct ShownAsk<K: Key> {
    pub(crate) interest: ShownInterest<K>,
    pub(crate) pendings: Vec<(u32, u32)>,
    pub(crate) answered: Vec<K>,
}

impl<K: Key> Model for ShownAsk<K> {
    ghost use Rattle.zt_model.specs.Rows.{Ask};

    ghost Value = { Ask K };

    ghost view = { λ a. record {
      interest = a.interest;
      pendings = a.pendings.items;
      answered = a.answered.items;
    } };
}

impl<K: Key> ShownAsk<K> {
    /// A question that wasn't answered yet.
    pub fn new(alloc: Global, interest: ShownInterest<K>, pendings: Vec<(u32, u32)>) -> Self
        ensures { result ≡ record {
          interest = interest;
          pendings = pendings.items;
          answered = [];
        } }
    {
        ShownAsk {
            interest,
            pendings,
            answered: Vec::new(alloc),
        }
    }

    /// What was asked for.
    pub fn interest(&self) -> &ShownInterest<K>
        ensures { result.now ≡ self.now.interest }
    {
        &self.interest
    }

    /// The interests that it sent upstream, each by face and id.
    pub fn pendings(&self) -> &[(u32, u32)]
        ensures { result.now ≡ self.now.pendings }
    {
        &self.pendings
    }

    /// The expressions that it was answered.
    pub fn answered(&self) -> &[K]
        ensures { result.now ≡ self.now.answered }
    {
        &self.answered
    }

    /// A question equal to this one.
    pub fn copy(&self, alloc: Global) -> Result<Self, Memory>
        ensures { IfOk result (λ copy. copy ≡ self.now) }
    {
        Ok(ShownAsk {
            interest: self.interest.copy(alloc)?,
            pendings: self.pendings.to_vec(alloc)?,
            answered: copy_keys(alloc, &self.answered)?,
        })
    }
}
