// The traits of resources and of infos.
ghost use Rattle.std.specs.Prelude.{◌≡◌, Bool, Option, None, IfOk};
ghost use Rattle.zt_locals.specs.Folding.{folded};
ghost use Rattle.zt_locals.specs.Laws.{ResourceLaws, InfoLaws, resource_laws};

use std::alloc::Global;
use std::hash::Hash;
use zt_keys::{Key, Memory};

/// A resource, under which an info is kept. Every key is one.
pub trait LocalResourceTrait: Ord + Eq + Hash + Drop + Sized {
    /// Whether two resources match.
    ghost matching: { Self → Self → Bool };

    /// Whether the two resources match: a relation of the two alone, reflexive and symmetric. Takes
    /// no memory.
    fn matches(&self, other: &Self) -> bool
        ensures { result ≡ matching self.now other.now };

    /// A resource equal to this one.
    fn copy(&self, alloc: Global) -> Result<Self, Memory>
        ensures { IfOk result (λ resource. resource ≡ self.now) };

    /// Equal resources are the same value, and matching is reflexive and symmetric.
    ghost laws: { ResourceLaws Self.cmp matching };
}

impl<K: Key> LocalResourceTrait for K {
    ghost matching = { K.matching };

    fn matches(&self, other: &K) -> bool {
        <K as Key>::matches(self, other)
    }

    fn copy(&self, alloc: Global) -> Result<K, Memory> {
        <K as Key>::copy(self, alloc)
    }

    ghost laws = { resource_laws K.Key.laws };
}

/// What is known of a resource, such that the infos of several resources make one.
pub trait LocalResourceInfoTrait<Res: LocalResourceTrait>: Eq + Copy {
    /// The info of a resource that had one, or none, and takes in that of another.
    ghost aggregating: { Option Self → Res → Self → Res → Self };

    /// The info of `self_res`, which had `self_val`, with that of `other_res` taken in. Takes no
    /// memory.
    fn aggregate(self_val: Option<Self>, self_res: &Res, other_val: &Self, other_res: &Res) -> Self
        ensures { result ≡ aggregating self_val self_res.now other_val.now other_res.now };

    /// The fold of `aggregate` over the others, or `None` where there is none.
    fn aggregate_many(self_res: &Res, others: &[(Res, Self)]) -> Option<Self>
        ensures { result ≡ folded aggregating self_res.now None others.now }
    {
        let mut info = None;
        for (other_res, other_val) in others {
            info = Some(Self::aggregate(info, self_res, other_val, other_res));
        }
        info
    }

    /// What a resource has of several others depends neither on their order nor on their grouping.
    ghost laws: { InfoLaws aggregating };
}
