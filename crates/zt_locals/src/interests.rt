// Sets of interests.
ghost use Rattle.std.specs.Prelude.{◌≡◌, ◌+◌, ◌<◌, ◌≤◌, [], not, length, vec_len, vec_capacity};
ghost use Rattle.std.specs.Prelude.{OnOk, OnErr};
ghost use Rattle.zt_locals.specs.Interests.{has_none, has_interest, is_only, joined, with_interest};
ghost use Rattle.zt_locals.specs.Interests.{without_interest};

use std::alloc::Global;
use std::marker::Model;
use zt_keys::Memory;
use zt_protocol::InterestId;

/// The ids of interests, each once, in the order in which they came. Contracts see them as that
/// list.
#[derive(Drop)]
pub(crate) struct InterestSet {
    ids: Vec<InterestId>,
}

impl Model for InterestSet {
    ghost use Rattle.std.specs.Prelude.{List, ℕ};

    ghost Value = { List ℕ };

    ghost view = { λ s. s.ids.items };
}

impl InterestSet {
    pub(crate) fn new(alloc: Global) -> Self
        ensures { result ≡ [] }
    {
        InterestSet {
            ids: Vec::new(alloc),
        }
    }

    pub(crate) fn is_empty(&self) -> bool
        ensures { result ≡ has_none self.now }
    {
        is_none(&self.ids)
    }

    pub(crate) fn contains(&self, id: InterestId) -> bool
        ensures { result ≡ has_interest id self.now }
    {
        has_id(&self.ids, id)
    }

    /// Takes the ids in. After an error it is what it was.
    pub(crate) fn join(&mut self, ids: &[InterestId]) -> Result<(), Memory>
        ensures ok { OnOk result (self.new ≡ joined self.old ids.now) }
        ensures err { OnErr result (self.new ≡ self.old) }
    {
        self.ids.reserve(ids.len())?;
        join_reserved(&mut self.ids, ids);
        Ok(())
    }

    /// Whether there is an interest once more joined.
    pub(crate) fn has_some_with(&self, more: &[InterestId]) -> bool
        ensures { result ≡ not (has_none (joined self.now more.now)) }
    {
        if !self.is_empty() {
            return true;
        }
        !is_none(more)
    }

    /// Whether the interest is there, and no other.
    pub(crate) fn is_only(&self, id: InterestId) -> bool
        ensures { result ≡ is_only id self.now }
    {
        self.contains(id) && has_no_other(&self.ids, id)
    }

    pub(crate) fn remove(&mut self, id: InterestId)
        ensures { self.new ≡ without_interest id self.old }
    {
        remove_id(&mut self.ids, id);
    }
}

fn is_none(ids: &[InterestId]) -> bool
    ensures { result ≡ has_none ids.now }
{
    match ids {
        [] => true,
        _ => false,
    }
}

fn has_id(ids: &[InterestId], id: InterestId) -> bool
    ensures { result ≡ has_interest id ids.now }
{
    ids.contains(&id)
}

fn has_no_other(ids: &[InterestId], id: InterestId) -> bool
    ensures { result ≡ has_none (without_interest id ids.now) }
{
    ids.iter().all(|other| *other == id)
}

fn join_one(ids: &mut Vec<InterestId>, id: InterestId)
    requires { vec_len ids.old < vec_capacity ids.old }
    ensures items { ids.new.items ≡ with_interest ids.old.items id }
    ensures len { vec_len ids.new ≤ vec_len ids.old + 1 }
    ensures capacity { vec_capacity ids.new ≡ vec_capacity ids.old }
{
    if !has_id(ids, id) {
        ids.push_reserved(id);
    }
}

fn join_reserved(ids: &mut Vec<InterestId>, more: &[InterestId])
    requires { vec_len ids.old + length more.now ≤ vec_capacity ids.old }
    ensures { ids.new.items ≡ joined ids.old.items more.now }
{
    for id in more {
        join_one(ids, *id);
    }
}

fn remove_id(ids: &mut Vec<InterestId>, id: InterestId)
    ensures { ids.new.items ≡ without_interest id ids.old.items }
{
    ids.retain(|other| *other != id);
}
