// The configuration of the south: subregions, their filters and the filters' conditions.
ghost use Rattle.std.specs.Prelude.{◌≡◌, ◌<◌, None, map, codes, string_bytes};
ghost use Rattle.std.specs.Option.{option_copied, option_map};
ghost use Rattle.zt_region.specs.South.{plain_filter, plain_subregion, plain_south};
ghost use Rattle.zt_fields.specs.Fields.{Finds, spelled_by, parts_left, optional_value_at};
ghost use Rattle.zt_lines.specs.Lists.{name_of, list_read, conditions_read, positive_read};
ghost use Rattle.zt_lines.specs.Lists.{filter_read, subregion_read, south_read};

use crate::lists::{list_of, names_of, push};
use std::alloc::Global;
use zt_fields::{Spelled, behind, first_part, nothing_left, optional_part};
use zt_protocol::LineError;
use zt_region::{Filter, SouthConf, Subregion};

/// The members behind `word` of a condition that may be absent.
#[tactic(auto, unfolding(zt_fields::specs::Fields::optional_value_at))]
fn condition_at<'a, V: Spelled>(
    alloc: Global,
    rest: Option<&'a str>,
    word: &str,
) -> Result<(Option<Vec<V>>, Option<&'a str>), LineError>
    ensures { Finds (λ x. (option_map (λ v. v.items) x.0, parts_left 38 (option_copied x.1))) result
        (optional_value_at (list_read (spelled_by V.of_text) 43) word.now
        (parts_left 38 (option_copied rest.entry))) }
{
    match optional_part(rest, '&', word) {
        (Some(text), rest) => Ok((Some(list_of(alloc, text, '+')?), rest)),
        (None, rest) => Ok((None, rest)),
    }
}

#[tactic(auto, unfolding(zt_fields::specs::Fields::optional_value_at))]
fn names_at(
    alloc: Global,
    rest: Option<&str>,
) -> Result<(Option<Vec<String>>, Option<&str>), LineError>
    ensures { Finds (λ x. (
      option_map (λ v. map string_bytes v.items) x.0,
      parts_left 38
          (option_copied x.1),
    )) result
        (optional_value_at (list_read (spelled_by name_of) 43) (codes "name:")
        (parts_left 38 (option_copied rest.entry))) }
{
    match optional_part(rest, '&', "name:") {
        (Some(text), rest) => Ok((Some(names_of(alloc, text, '+')?), rest)),
        (None, rest) => Ok((None, rest)),
    }
}

/// Conditions with `&` between them.
#[tactic(auto, unfolding(crate::specs::Lists::conditions_read))]
fn conditions_of(alloc: Global, negated: bool, text: &str) -> Result<Filter, LineError>
    ensures { Finds plain_filter result (conditions_read negated text.now) }
{
    let (zids, rest) = condition_at(alloc, Some(text), "zid:")?;
    let (modes, rest) = condition_at(alloc, rest, "mode:")?;
    let (region_names, rest) = names_at(alloc, rest)?;
    nothing_left(rest)?;
    Ok(Filter {
        zids,
        interfaces: None,
        modes,
        region_names,
        negated,
    })
}

/// `all`, or conditions.
#[tactic(auto, unfolding(crate::specs::Lists::positive_read))]
fn positive_of(alloc: Global, negated: bool, text: &str) -> Result<Filter, LineError>
    ensures { Finds plain_filter result (positive_read negated text.now) }
{
    if text == "all" {
        return Ok(Filter {
            zids: None,
            interfaces: None,
            modes: None,
            region_names: None,
            negated,
        });
    }
    conditions_of(alloc, negated, text)
}

#[tactic(auto, unfolding(crate::specs::Lists::filter_read))]
fn filter_of(alloc: Global, text: &str) -> Result<Filter, LineError>
    ensures { Finds plain_filter result (filter_read text.now) }
{
    match behind(text, "!") {
        Some(rest) => positive_of(alloc, true, rest),
        None => positive_of(alloc, false, text),
    }
}

fn filters_of(alloc: Global, text: &str, separator: char) -> Result<Vec<Filter>, LineError>
    requires { separator < 128 }
    ensures { Finds (λ v. map plain_filter v.items) result
        (list_read filter_read separator text.now) }
{
    let mut members = Vec::new(alloc);
    let mut rest = Some(text);
    while let Some(left) = rest {
        let (part, after) = first_part(left, separator);
        let member = filter_of(alloc, part)?;
        push(&mut members, member)?;
        rest = after;
    }
    Ok(members)
}

#[tactic(auto, unfolding(crate::specs::Lists::subregion_read))]
fn subregion_of(alloc: Global, text: &str) -> Result<Subregion, LineError>
    ensures { Finds plain_subregion result (subregion_read text.now) }
{
    if text == "any" {
        return Ok(Subregion { filters: None });
    }
    let filters = filters_of(alloc, text, '|')?;
    Ok(Subregion {
        filters: Some(filters),
    })
}

fn subregions_of(alloc: Global, text: &str, separator: char) -> Result<Vec<Subregion>, LineError>
    requires { separator < 128 }
    ensures { Finds (λ v. map plain_subregion v.items) result
        (list_read subregion_read separator text.now) }
{
    let mut members = Vec::new(alloc);
    let mut rest = Some(text);
    while let Some(left) = rest {
        let (part, after) = first_part(left, separator);
        let member = subregion_of(alloc, part)?;
        push(&mut members, member)?;
        rest = after;
    }
    Ok(members)
}

#[tactic(auto, unfolding(crate::specs::Lists::south_read))]
pub(crate) fn south_of(alloc: Global, text: &str) -> Result<SouthConf, LineError>
    ensures { Finds plain_south result (south_read text.now) }
{
    if text == "auto" {
        return Ok(SouthConf::Auto);
    }
    let subregions = subregions_of(alloc, text, ';')?;
    Ok(SouthConf::Custom(subregions))
}
