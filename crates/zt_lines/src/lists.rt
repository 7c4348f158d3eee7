// Lists, and what stands in them.
ghost use Rattle.std.specs.Prelude.{◌≡◌, ◌<◌, ◌∷◌, ◌++◌, [], OnOk, IfErr, map, string_bytes};
ghost use Rattle.std.specs.List.{list_all};
ghost use Rattle.zt_fields.specs.Fields.{Finds, spelled_by};
ghost use Rattle.zt_lines.specs.Lists.{is_word_byte, is_word, name_of, list_read, is_south};
ghost use Rattle.zt_lines.specs.Lists.{south_regions_read};

use std::alloc::Global;
use zt_fields::{Spelled, first_part};
use zt_protocol::LineError;
use zt_region::Region;

fn member_of<M: Spelled>(text: &str) -> Result<M, LineError>
    ensures { Finds (λ x. x) result (spelled_by M.of_text text.now) }
{
    match M::read(text) {
        Some(member) => Ok(member),
        None => Err(LineError::NotInGrammar),
    }
}

/// The members of a list, with `separator` between them.
pub(crate) fn list_of<M: Spelled>(
    alloc: Global,
    text: &str,
    separator: char,
) -> Result<Vec<M>, LineError>
    requires { separator < 128 }
    ensures { Finds (λ v. v.items) result (list_read (spelled_by M.of_text) separator text.now) }
{
    let mut members = Vec::new(alloc);
    let mut rest = Some(text);
    while let Some(left) = rest {
        let (part, after) = first_part(left, separator);
        let member = member_of(part)?;
        push(&mut members, member)?;
        rest = after;
    }
    Ok(members)
}

/// Adds an item.
pub(crate) fn push<T: Drop>(items: &mut Vec<T>, item: T) -> Result<(), LineError>
    ensures ok { OnOk result (items.new.items ≡ items.old.items ++ item ∷ []) }
    ensures err { IfErr result (λ e. e ≡ LineError.Memory) }
{
    match items.push(item) {
        Ok(()) => Ok(()),
        Err(_) => Err(LineError::Memory),
    }
}

fn is_word_byte(byte: u8) -> bool
    ensures { result ≡ is_word_byte byte }
{
    (b'a' <= byte && byte <= b'z') || byte.is_ascii_digit() || byte == b'_'
}

fn all_word_bytes(text: &[u8]) -> bool
    ensures { result ≡ list_all is_word_byte text.now }
{
    for byte in text {
        if !is_word_byte(*byte) {
            return false;
        }
    }
    true
}

pub(crate) fn is_word(text: &str) -> bool
    ensures { result ≡ is_word text.now }
{
    !text.is_empty() && text.len() <= 32 && all_word_bytes(text.as_bytes())
}

/// A name that a field gives.
#[tactic(auto, unfolding(crate::specs::Lists::name_of))]
pub(crate) fn name_of(alloc: Global, text: &str) -> Result<String, LineError>
    ensures { Finds string_bytes result (spelled_by name_of text.now) }
{
    if !is_word(text) {
        return Err(LineError::NotInGrammar);
    }
    match String::from_str(alloc, text) {
        Ok(name) => Ok(name),
        Err(_) => Err(LineError::Memory),
    }
}

/// Names with `separator` between them.
pub(crate) fn names_of(alloc: Global, text: &str, separator: char) -> Result<Vec<String>, LineError>
    requires { separator < 128 }
    ensures { Finds (λ v. map string_bytes v.items) result
        (list_read (spelled_by name_of) separator text.now) }
{
    let mut members = Vec::new(alloc);
    let mut rest = Some(text);
    while let Some(left) = rest {
        let (part, after) = first_part(left, separator);
        let member = name_of(alloc, part)?;
        push(&mut members, member)?;
        rest = after;
    }
    Ok(members)
}

fn all_south(regions: &[Region]) -> bool
    ensures { result ≡ list_all is_south regions.now }
{
    for region in regions {
        if !matches!(region, Region::South { .. }) {
            return false;
        }
    }
    true
}

/// The south regions that a field lists.
#[tactic(auto, unfolding(crate::specs::Lists::south_regions_read))]
pub(crate) fn south_regions_of(alloc: Global, text: &str) -> Result<Vec<Region>, LineError>
    ensures { Finds (λ v. v.items) result (south_regions_read text.now) }
{
    let regions = list_of(alloc, text, ',')?;
    if !all_south(&regions) {
        return Err(LineError::NotInGrammar);
    }
    Ok(regions)
}
