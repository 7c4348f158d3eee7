// Interests in order of expression and options, each once.
ghost use Rattle.std.specs.Prelude.{◌≡◌, [], IfOk, OnOk};
ghost use Rattle.zt_interests.specs.Held.{in_both};
ghost use Rattle.zt_model.specs.Lists.{with_key};
ghost use Rattle.zt_model.specs.Routing.{expression_order, interest_order};

use std::alloc::Global;
use std::cmp::Ordering;
use std::collections::BTreeSet;
use std::marker::Model;
use zt_keys::{Key, Memory};
use zt_protocol::{InterestMode, InterestOptions, copy_expression};
use zt_state::RemoteInterest;

/// No expression comes first, then expressions in key order.
pub(crate) fn expression_order<K: Key>(a: &Option<K>, b: &Option<K>) -> Ordering
    ensures { result ≡ expression_order K.cmp K.matching a.now b.now }
{
    match (a, b) {
        (None, None) => Ordering::Equal,
        (None, Some(_)) => Ordering::Less,
        (Some(_), None) => Ordering::Greater,
        (Some(first), Some(second)) => first.cmp(second),
    }
}

// Interests that are asked for now and later, in order of expression and then of options, each pair
// of these once.
#[derive(Drop)]
pub(crate) struct InterestsInOrder<K: Key> {
    asked: BTreeSet<(Option<K>, InterestOptions)>,
}

impl<K: Key> Model for InterestsInOrder<K> {
    ghost use Rattle.std.specs.Prelude.{List, map};
    ghost use Rattle.zt_model.specs.Rows.{InterestRow};
    ghost use Rattle.zt_interests.specs.Held.{asking_both};

    ghost Value = { List (InterestRow K) };

    ghost view = { λ i. map asking_both i.asked.keys };
}

impl<K: Key> InterestsInOrder<K> {
    // No interest.
    pub(crate) fn new(alloc: Global) -> Self
        ensures { result ≡ [] }
    {
        InterestsInOrder {
            asked: BTreeSet::new(alloc),
        }
    }

    // Puts an interest in its place, whatever its mode, unless one that asks for the same is there.
    pub(crate) fn insert(
        &mut self,
        alloc: Global,
        interest: &RemoteInterest<K>,
    ) -> Result<(), Memory>
        ensures { OnOk result (self.new
            ≡ with_key (interest_order K.cmp K.matching) (in_both interest.now) self.old) }
    {
        let expr = copy_expression(interest.expr(), alloc)?;
        self.asked.insert((expr, interest.options()))?;
        Ok(())
    }

    // The interests as a list.
    pub(crate) fn into_vec(self, alloc: Global) -> Result<Vec<RemoteInterest<K>>, Memory>
        ensures { IfOk result (λ interests. interests.items ≡ self) }
    {
        let mut interests = Vec::new(alloc);
        for (expr, options) in self.asked {
            interests.push(RemoteInterest::new(InterestMode::CurrentFuture, options, expr))?;
        }
        Ok(interests)
    }
}
