// Changes of the members of a list.
ghost use Rattle.std.specs.Prelude.{◌≡◌, map, OnOk};

use std::alloc::Global;
use zt_keys::Memory;

/// A change of each member of a list.
pub trait Change<T> {
    ghost use Rattle.std.specs.Prelude.{◌≡◌, OnOk};

    // A member after the change.
    ghost changed: { Self → T → T };

    // Changes a member.
    fn change(&self, alloc: Global, member: &mut T) -> Result<(), Memory>
        ensures { OnOk result (member.new ≡ changed self.now member.old) };
}

/// Changes each member.
pub fn change_each<T: Drop, C: Change<T>>(
    alloc: Global,
    members: &mut Vec<T>,
    change: &C,
) -> Result<(), Memory>
    ensures { OnOk result (members.new.items ≡ map (C.changed change.now) members.old.items) }
{
    for place in 0..members.len() {
        change.change(alloc, &mut members[place])?;
    }
    Ok(())
}
