// Optional fields that hold lists or a name.
ghost use Rattle.std.specs.Prelude.{codes, string_bytes};
ghost use Rattle.std.specs.Option.{option_copied, option_map};
ghost use Rattle.zt_region.specs.South.{plain_south};
ghost use Rattle.zt_fields.specs.Fields.{Finds, fields_left, spelled_by, optional_value_at};
ghost use Rattle.zt_lines.specs.Lists.{name_of, list_read, south_read, south_regions_read};

use crate::lists::{list_of, name_of, south_regions_of};
use crate::south::south_of;
use std::alloc::Global;
use zt_fields::{Spelled, optional_at};
use zt_protocol::LineError;
use zt_region::{Region, SouthConf};

/// The members behind `word` of a list that may be absent.
#[tactic(auto, unfolding(zt_fields::specs::Fields::optional_value_at))]
pub(crate) fn list_at<'a, V: Spelled>(
    alloc: Global,
    rest: Option<&'a str>,
    word: &str,
) -> Result<(Option<Vec<V>>, Option<&'a str>), LineError>
    ensures { Finds (λ x. (option_map (λ v. v.items) x.0, fields_left (option_copied x.1))) result
        (optional_value_at (list_read (spelled_by V.of_text) 44) word.now
        (fields_left (option_copied rest.entry))) }
{
    match optional_at(rest, word) {
        (Some(text), rest) => Ok((Some(list_of(alloc, text, ',')?), rest)),
        (None, rest) => Ok((None, rest)),
    }
}

#[tactic(auto, unfolding(zt_fields::specs::Fields::optional_value_at))]
pub(crate) fn south_regions_at(
    alloc: Global,
    rest: Option<&str>,
) -> Result<(Option<Vec<Region>>, Option<&str>), LineError>
    ensures { Finds (λ x. (option_map (λ v. v.items) x.0, fields_left (option_copied x.1))) result
        (optional_value_at south_regions_read (codes "regions=")
        (fields_left (option_copied rest.entry))) }
{
    match optional_at(rest, "regions=") {
        (Some(text), rest) => Ok((Some(south_regions_of(alloc, text)?), rest)),
        (None, rest) => Ok((None, rest)),
    }
}

#[tactic(auto, unfolding(zt_fields::specs::Fields::optional_value_at))]
pub(crate) fn south_at(
    alloc: Global,
    rest: Option<&str>,
) -> Result<(Option<SouthConf>, Option<&str>), LineError>
    ensures { Finds (λ x. (option_map plain_south x.0, fields_left (option_copied x.1))) result
        (optional_value_at south_read (codes "south=") (fields_left (option_copied rest.entry))) }
{
    match optional_at(rest, "south=") {
        (Some(text), rest) => Ok((Some(south_of(alloc, text)?), rest)),
        (None, rest) => Ok((None, rest)),
    }
}

#[tactic(auto, unfolding(zt_fields::specs::Fields::optional_value_at))]
pub(crate) fn name_at(
    alloc: Global,
    rest: Option<&str>,
) -> Result<(Option<String>, Option<&str>), LineError>
    ensures { Finds (λ x. (option_map string_bytes x.0, fields_left (option_copied x.1))) result
        (optional_value_at (spelled_by name_of) (codes "name=")
        (fields_left (option_copied rest.entry))) }
{
    match optional_at(rest, "name=") {
        (Some(text), rest) => Ok((Some(name_of(alloc, text)?), rest)),
        (None, rest) => Ok((None, rest)),
    }
}
