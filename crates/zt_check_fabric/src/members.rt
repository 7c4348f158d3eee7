// Members of lists by their numbers from 1.
ghost use Rattle.std.specs.Prelude.{◌≡◌, ◌+◌, ◌<◌, IfNone, IfSome, OnOk, Some, length};
ghost use Rattle.std.specs.Prelude.{slice_index_or};
ghost use Rattle.std.specs.Option.{option_copied};
ghost use Rattle.zt_model.specs.Lists.{nth};
ghost use Rattle.zt_model.specs.Places.{at_nth};

use std::alloc::Global;
use zt_check_faces::Change;
use zt_keys::Memory;

/// The place of the member of a number, where there is one.
pub(crate) fn place_of_number<A>(members: &[A], number: u32) -> Option<usize>
    ensures within { IfSome result (λ place. place < length members.now) }
    ensures counted { IfSome result (λ place. number ≡ place + 1) }
    ensures found { IfSome result
        (λ place. (member : A)
        → nth number members.now ≡ Some (slice_index_or members.now place member)) }
    ensures none { IfNone result (nth number members.now ≡ None) }
{
    if number == 0 || number as usize > members.len() {
        return None;
    }
    Some(number as usize - 1)
}

/// The member of a number, where there is one.
pub(crate) fn member_of_number<A>(members: &[A], number: u32) -> Option<&A>
    ensures { option_copied result ≡ nth number members.now }
{
    match place_of_number(members, number) {
        None => None,
        Some(place) => Some(&members[place]),
    }
}

/// Changes the member of a number, where there is one.
pub(crate) fn change_member<T: Drop, C: Change<T>>(
    alloc: Global,
    members: &mut Vec<T>,
    number: u32,
    change: &C,
) -> Result<(), Memory>
    ensures { OnOk result (members.new.items
        ≡ at_nth number (C.changed change.now) members.old.items) }
{
    let Some(place) = place_of_number(members.as_slice(), number) else {
        return Ok(());
    };
    change.change(alloc, &mut members[place])
}
