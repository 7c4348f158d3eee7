// The rule that all steps keep.
use crate::part::View;
use crate::recorder::Recorder;
use atomic_table::TableRule;
use std::marker::PhantomData;
use std::snapshot::Snapshot;

/// The words count entries and numbers, and say whether the lock is held; the slot has the value.
pub struct Passing<J> {
    value: PhantomData<J>,
}

impl<J: Recorder> TableRule<J, View<J>, Snapshot<J>> for Passing<J> {
    ghost use Rattle.std.specs.Prelude.{[], ◌∷◌};
    ghost use Rattle.zt_shared_value.specs.Rule.{IsShared, first_part};

    ghost holds = { λ first. IsShared J.journal J.author J.state first.value };

    ghost first = { λ first. first_part first.value ∷ [] };
}
