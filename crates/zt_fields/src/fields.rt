// The fields of a line. What is left of a line is a text behind the last space, or nothing behind
// its end.
ghost use Rattle.std.specs.Prelude.{◌≡◌, ℕ, ◌∷◌, ◌<◌, Ok};
ghost use Rattle.std.specs.List.{position};
ghost use Rattle.std.specs.Option.{option_copied, option_map};
ghost use Rattle.zt_fields.specs.Fields.{Finds, is_byte, fields_of, parts_of, parts_left};
ghost use Rattle.zt_fields.specs.Fields.{fields_left, field_at, end_at, behind, optional_at};
ghost use Rattle.zt_fields.specs.Fields.{two_of, three_of};

use zt_protocol::LineError;

/// The first part of a text up to `separator`, and what is left behind it.
#[inline(always)]
pub fn first_part(text: &str, separator: char) -> (&str, Option<&str>)
    requires { separator < 128 }
    ensures { parts_of separator text.now
        ≡ result.0.now ∷ parts_left separator (option_copied result.1) }
{
    match text.split_once(separator) {
        Some((before, after)) => (before, Some(after)),
        None => (text, None),
    }
}

// Where the first space stands. Most fields are short: their bytes are looked at one by one.
#[inline(always)]
fn find_space(text: &[u8]) -> Option<usize>
    ensures { result ≡ position (is_byte 32) text.now }
{
    text.iter().position(|byte| *byte == b' ')
}

/// The first field of a text, and what is left behind it.
#[inline(always)]
pub fn first_field(text: &str) -> (&str, Option<&str>)
    ensures { fields_of text.now ≡ result.0.now ∷ fields_left (option_copied result.1) }
{
    match find_space(text.as_bytes()) {
        Some(end) => (&text[..end], Some(&text[end + 1..])),
        None => (text, None),
    }
}

/// The next part up to `separator`, and what is left behind it.
#[inline(always)]
pub(crate) fn part_at(
    rest: Option<&str>,
    separator: char,
) -> Result<(&str, Option<&str>), LineError>
    requires { separator < 128 }
    ensures { Finds (λ x. (x.0.now, parts_left separator (option_copied x.1))) result
        (field_at (parts_left separator (option_copied rest.entry))) }
{
    let Some(text) = rest else {
        return Err(LineError::NotInGrammar);
    };
    Ok(first_part(text, separator))
}

/// The next field, and what is left behind it. `NotInGrammar` where no field is left.
#[inline(always)]
pub fn field_at(rest: Option<&str>) -> Result<(&str, Option<&str>), LineError>
    ensures { Finds (λ x. (x.0.now, fields_left (option_copied x.1))) result
        (field_at (fields_left (option_copied rest.entry))) }
{
    let Some(text) = rest else {
        return Err(LineError::NotInGrammar);
    };
    Ok(first_field(text))
}

/// `NotInGrammar` where anything is left.
#[inline(always)]
pub fn nothing_left(rest: Option<&str>) -> Result<(), LineError>
    ghost separator: { ℕ }
    ensures { result ≡ end_at (parts_left separator (option_copied rest.entry)) }
{
    match rest {
        Some(_) => Err(LineError::NotInGrammar),
        None => Ok(()),
    }
}

/// `NotInGrammar` where a field is left.
#[inline(always)]
pub fn end_at(rest: Option<&str>) -> Result<(), LineError>
    ensures { result ≡ end_at (fields_left (option_copied rest.entry)) }
{
    nothing_left(rest)
}

/// The two parts of a text that has one `separator`.
pub(crate) fn two_parts(text: &str, separator: char) -> Option<(&str, &str)>
    requires { separator < 128 }
    ensures { option_map (λ x. (x.0.now, x.1.now)) result ≡ two_of (parts_of separator text.now) }
{
    let (one, rest) = first_part(text, separator);
    let (two, rest) = first_part(rest?, separator);
    match rest {
        Some(_) => None,
        None => Some((one, two)),
    }
}

/// The three parts of a text that has two separators.
pub(crate) fn three_parts(text: &str, separator: char) -> Option<(&str, &str, &str)>
    requires { separator < 128 }
    ensures { option_map (λ x. (x.0.now, x.1.now, x.2.now)) result
        ≡ three_of (parts_of separator text.now) }
{
    let (one, rest) = first_part(text, separator);
    let (two, rest) = first_part(rest?, separator);
    let (three, rest) = first_part(rest?, separator);
    match rest {
        Some(_) => None,
        None => Some((one, two, three)),
    }
}

/// The text behind `word`, where it begins with it.
#[inline(always)]
pub fn behind<'a>(text: &'a str, word: &str) -> Option<&'a str>
    ensures { option_copied result ≡ behind word.now text.now }
{
    text.strip_prefix(word)
}

/// The next part without `word`, where it begins with it, and what is left behind it.
#[inline(always)]
pub fn optional_part<'a>(
    rest: Option<&'a str>,
    separator: char,
    word: &str,
) -> (Option<&'a str>, Option<&'a str>)
    requires { separator < 128 }
    ensures { (option_copied result.0, parts_left separator (option_copied result.1))
        ≡ optional_at word.now (parts_left separator (option_copied rest.entry)) }
{
    let Some(text) = rest else {
        return (None, None);
    };
    let (part, after) = first_part(text, separator);
    match behind(part, word) {
        Some(value) => (Some(value), after),
        None => (None, rest),
    }
}

/// The next field without `word`, where it begins with it, and what is left behind it.
#[inline(always)]
pub fn optional_at<'a>(rest: Option<&'a str>, word: &str) -> (Option<&'a str>, Option<&'a str>)
    ensures { (option_copied result.0, fields_left (option_copied result.1))
        ≡ optional_at word.now (fields_left (option_copied rest.entry)) }
{
    optional_part(rest, ' ', word)
}
