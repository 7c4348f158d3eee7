// Faces by their numbers, which rise.
ghost use Rattle.std.specs.Prelude.{◌≡◌, ◌==◌, filter, map, not, OnOk};
ghost use Rattle.std.specs.Option.{option_copied};
ghost use Rattle.zt_model.specs.Lists.{first_where};
ghost use Rattle.zt_check_faces.specs.Parts.{HasThoseOf};
ghost use Rattle.zt_check_open_faces.specs.Open.{IsCut, IsOfOne, NumbersRise};

use std::alloc::Global;
use zt_check_faces::{Change, ShownFace};
use zt_keys::{Key, Memory};

// How many faces have numbers below this one. A binary search.
fn count_below<K: Key>(faces: &[ShownFace<K>], number: u32) -> usize
    requires { NumbersRise 0 faces.now }
    ensures { IsCut number faces.now result }
{
    faces.partition_point(|face| face.number() < number)
}

/// The face of a number, or the one behind it, or none. A binary search.
pub(crate) fn part_of<K: Key>(faces: &[ShownFace<K>], number: u32) -> &[ShownFace<K>]
    requires { NumbersRise 0 faces.now }
    ensures { HasThoseOf (λ f. f.number) number result.now faces.now }
{
    let at = count_below(faces, number);
    if at < faces.len() {
        return &faces[at..at + 1];
    }
    &[]
}

// The face of a number, among faces.
fn first_of<K: Key>(faces: &[ShownFace<K>], number: u32) -> Option<&ShownFace<K>>
    ensures { option_copied result ≡ first_where (λ f. number == f.number) faces.now }
{
    for face in faces {
        if number == face.number() {
            return Some(face);
        }
    }
    None
}

/// The face of a number. A binary search.
pub(crate) fn find_in<K: Key>(faces: &[ShownFace<K>], number: u32) -> Option<&ShownFace<K>>
    requires { NumbersRise 0 faces.now }
    ensures { option_copied result ≡ first_where (λ f. number == f.number) faces.now }
{
    first_of(part_of(faces, number), number)
}

/// Changes the face of a number. A binary search.
pub(crate) fn change_in<K: Key, C: Change<ShownFace<K>>>(
    alloc: Global,
    faces: &mut Vec<ShownFace<K>>,
    number: u32,
    change: &C,
) -> Result<(), Memory>
    requires rise { NumbersRise 0 faces.old.items }
    requires one { IsOfOne number (C.changed change.now) }
    ensures { OnOk result (faces.new.items ≡ map (C.changed change.now) faces.old.items) }
{
    let at = count_below(faces.as_slice(), number);
    if at < faces.len() {
        change.change(alloc, &mut faces[at])?;
    }
    Ok(())
}

/// The face of a number goes.
pub(crate) fn close_in<K: Key>(faces: &mut Vec<ShownFace<K>>, number: u32)
    ensures { faces.new.items ≡ filter (λ f. not (number == f.number)) faces.old.items }
{
    faces.retain(|face| number != face.number());
}
