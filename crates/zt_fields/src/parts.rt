// Parts of a line: one field or an optional one, and what is left behind it.
ghost use Rattle.std.specs.Prelude.{codes};
ghost use Rattle.std.specs.Option.{option_copied};
ghost use Rattle.zt_fields.specs.Fields.{Finds, fields_left, spelled_by, value_at};
ghost use Rattle.zt_fields.specs.Fields.{optional_value_at};
ghost use Rattle.zt_fields.specs.Values.{direction_of, first_of, key_read, flag_of};

use crate::fields::{field_at, optional_at, part_at};
use crate::spelled::{Spelled, first_of};
use crate::values::{direction_of, flag_of, key_read};
use std::alloc::Global;
use zt_keys::Key;
use zt_protocol::LineError;

/// The value of the next field, and what is left behind it.
///
/// `NotInGrammar` where no field is left or the field spells no value.
#[tactic(auto, unfolding(crate::specs::Fields::value_at))]
#[inline(always)]
pub fn value_at<V: Spelled>(rest: Option<&str>) -> Result<(V, Option<&str>), LineError>
    ensures { Finds (λ x. (x.0, fields_left (option_copied x.1))) result
        (value_at (spelled_by V.of_text) (fields_left (option_copied rest.entry))) }
{
    let (field, rest) = field_at(rest)?;
    let value = V::read(field).ok_or(LineError::NotInGrammar)?;
    Ok((value, rest))
}

/// The value behind `word` of the next field, where the field begins with it; else none, and no
/// field is taken.
///
/// `NotInGrammar` where what stands behind the word spells no value.
#[tactic(auto, unfolding(crate::specs::Fields::optional_value_at))]
#[inline(always)]
pub fn optional_value_at<'a, V: Spelled>(
    rest: Option<&'a str>,
    word: &str,
) -> Result<(Option<V>, Option<&'a str>), LineError>
    ensures { Finds (λ x. (x.0, fields_left (option_copied x.1))) result
        (optional_value_at (spelled_by V.of_text) word.now
        (fields_left (option_copied rest.entry))) }
{
    match optional_at(rest, word) {
        (Some(text), rest) => {
            let value = V::read(text).ok_or(LineError::NotInGrammar)?;
            Ok((Some(value), rest))
        }
        (None, rest) => Ok((None, rest)),
    }
}

/// The id that a face begins with, behind `word`, where the next field begins with it; else none,
/// and no field is taken.
///
/// `NotInGrammar` where what stands behind the word is no number from 1.
#[tactic(auto, unfolding(crate::specs::Fields::optional_value_at))]
#[inline(always)]
pub fn first_at<'a>(
    rest: Option<&'a str>,
    word: &str,
) -> Result<(Option<u32>, Option<&'a str>), LineError>
    ensures { Finds (λ x. (x.0, fields_left (option_copied x.1))) result
        (optional_value_at (spelled_by first_of) word.now
        (fields_left (option_copied rest.entry))) }
{
    match optional_at(rest, word) {
        (Some(text), rest) => {
            let first = first_of(text).ok_or(LineError::NotInGrammar)?;
            Ok((Some(first), rest))
        }
        (None, rest) => Ok((None, rest)),
    }
}

/// The key that the next field spells, and what is left behind it.
///
/// `NotInGrammar` where no field is left or the field spells no key. The only other error is
/// `Memory`.
#[tactic(auto, unfolding(crate::specs::Fields::value_at))]
#[inline(always)]
pub fn key_at<K: Key>(alloc: Global, rest: Option<&str>) -> Result<(K, Option<&str>), LineError>
    ensures { Finds (λ x. (x.0, fields_left (option_copied x.1))) result
        (value_at (key_read K.reading) (fields_left (option_copied rest.entry))) }
{
    let (field, rest) = part_at(rest, ' ')?;
    let key = key_read(alloc, field)?;
    Ok((key, rest))
}

/// The key behind `expr=` of the next field, where the field begins with it; else none, and no
/// field is taken.
///
/// `NotInGrammar` where what stands behind it spells no key. The only other error is `Memory`.
#[tactic(auto, unfolding(crate::specs::Fields::optional_value_at))]
#[inline(always)]
pub fn optional_key_at<K: Key>(
    alloc: Global,
    rest: Option<&str>,
) -> Result<(Option<K>, Option<&str>), LineError>
    ensures { Finds (λ x. (x.0, fields_left (option_copied x.1))) result
        (optional_value_at (key_read K.reading) (codes "expr=")
        (fields_left (option_copied rest.entry))) }
{
    match optional_at(rest, "expr=") {
        (Some(text), rest) => Ok((Some(key_read(alloc, text)?), rest)),
        (None, rest) => Ok((None, rest)),
    }
}

/// Whether the next field is `1`, where `0` says no, and what is left behind it.
///
/// `NotInGrammar` where no field is left or it is neither.
#[tactic(auto, unfolding(crate::specs::Fields::value_at))]
pub fn flag_at(rest: Option<&str>) -> Result<(bool, Option<&str>), LineError>
    ensures { Finds (λ x. (x.0, fields_left (option_copied x.1))) result
        (value_at (spelled_by flag_of) (fields_left (option_copied rest.entry))) }
{
    let (field, rest) = field_at(rest)?;
    let flag = flag_of(field).ok_or(LineError::NotInGrammar)?;
    Ok((flag, rest))
}

/// Whether the next field is the direction `back`, where `fwd` says no, and what is left behind it.
///
/// `NotInGrammar` where no field is left or it is neither.
#[tactic(auto, unfolding(crate::specs::Fields::value_at))]
#[inline(always)]
pub fn direction_at(rest: Option<&str>) -> Result<(bool, Option<&str>), LineError>
    ensures { Finds (λ x. (x.0, fields_left (option_copied x.1))) result
        (value_at (spelled_by direction_of) (fields_left (option_copied rest.entry))) }
{
    let (field, rest) = field_at(rest)?;
    let back = direction_of(field).ok_or(LineError::NotInGrammar)?;
    Ok((back, rest))
}
