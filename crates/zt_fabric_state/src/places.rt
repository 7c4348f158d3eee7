// Members by their numbers from 1.
ghost use Rattle.std.specs.Prelude.{◌≡◌, ◌+◌, ◌<◌, Some, length, slice_index_or, IfSome, IfNone};
ghost use Rattle.std.specs.Option.{option_copied};
ghost use Rattle.zt_model.specs.Lists.{nth};

/// The place of the member of a number, counted from 1, where there is one.
pub fn member_place<A>(members: &[A], number: u32) -> Option<usize>
    ensures within { IfSome result (λ place. place < length members.now) }
    ensures counted { IfSome result (λ place. number ≡ place + 1) }
    ensures found { IfSome result
        (λ place. (member : A)
        → nth number members.now ≡ Some (slice_index_or members.now place member)) }
    ensures none { IfNone result (nth number members.now ≡ None) }
{
    if number == 0 || number as usize > members.len() {
        return None;
    }
    Some(number as usize - 1)
}

/// The member of a number, counted from 1, where there is one.
pub fn member_at<A>(members: &[A], number: u32) -> Option<&A>
    ensures { option_copied result ≡ nth number members.now }
{
    match member_place(members, number) {
        None => None,
        Some(place) => Some(&members[place]),
    }
}
