// Copies of names and configurations.
ghost use Rattle.std.specs.Prelude.{◌≡◌, IfOk, map, option_map, string_bytes};
ghost use Rattle.zt_region.specs.South.{plain_filter, plain_south, plain_subregion};

use std::alloc::Global;
use zt_keys::Memory;
use zt_region::{Filter, SouthConf, Subregion};

/// An equal text.
fn copy_text(alloc: Global, text: &String) -> Result<String, Memory>
    ensures { IfOk result (λ copy. string_bytes copy ≡ string_bytes text.now) }
{
    Ok(String::from_str(alloc, text.as_str())?)
}

/// An equal name, where there is one.
pub(crate) fn copy_name(alloc: Global, name: &Option<String>) -> Result<Option<String>, Memory>
    ensures { IfOk result (λ copy. option_map string_bytes copy
        ≡ option_map string_bytes name.now) }
{
    match name {
        None => Ok(None),
        Some(text) => Ok(Some(copy_text(alloc, text)?)),
    }
}

/// Equal texts.
fn copy_texts(alloc: Global, texts: &[String]) -> Result<Vec<String>, Memory>
    ensures { IfOk result (λ copies. map string_bytes copies.items ≡ map string_bytes texts.now) }
{
    let mut copies = Vec::new(alloc);
    for text in texts {
        copies.push(copy_text(alloc, text)?)?;
    }
    Ok(copies)
}

fn copy_listed_texts(
    alloc: Global,
    listed: &Option<Vec<String>>,
) -> Result<Option<Vec<String>>, Memory>
    ensures { IfOk result (λ copy. option_map (λ v. map string_bytes v.items) copy
        ≡ option_map (λ v. map string_bytes v.items) listed.now) }
{
    match listed {
        None => Ok(None),
        Some(texts) => Ok(Some(copy_texts(alloc, texts.as_slice())?)),
    }
}

fn copy_listed<A: Copy>(alloc: Global, listed: &Option<Vec<A>>) -> Result<Option<Vec<A>>, Memory>
    ensures { IfOk result (λ copy. option_map (λ v. v.items) copy
        ≡ option_map (λ v. v.items) listed.now) }
{
    match listed {
        None => Ok(None),
        Some(items) => Ok(Some(Vec::from_slice(alloc, items.as_slice())?)),
    }
}

fn copy_filter(alloc: Global, filter: &Filter) -> Result<Filter, Memory>
    ensures { IfOk result (λ copy. plain_filter copy ≡ plain_filter filter.now) }
{
    Ok(Filter {
        zids: copy_listed(alloc, &filter.zids)?,
        interfaces: copy_listed_texts(alloc, &filter.interfaces)?,
        modes: copy_listed(alloc, &filter.modes)?,
        region_names: copy_listed_texts(alloc, &filter.region_names)?,
        negated: filter.negated,
    })
}

fn copy_filters(alloc: Global, filters: &[Filter]) -> Result<Vec<Filter>, Memory>
    ensures { IfOk result (λ copies. map plain_filter copies.items ≡ map plain_filter filters.now) }
{
    let mut copies = Vec::new(alloc);
    for filter in filters {
        copies.push(copy_filter(alloc, filter)?)?;
    }
    Ok(copies)
}

fn copy_subregion(alloc: Global, subregion: &Subregion) -> Result<Subregion, Memory>
    ensures { IfOk result (λ copy. plain_subregion copy ≡ plain_subregion subregion.now) }
{
    match &subregion.filters {
        None => Ok(Subregion { filters: None }),
        Some(filters) => Ok(Subregion {
            filters: Some(copy_filters(alloc, filters.as_slice())?),
        }),
    }
}

fn copy_subregions(alloc: Global, subregions: &[Subregion]) -> Result<Vec<Subregion>, Memory>
    ensures { IfOk result (λ copies. map plain_subregion copies.items
        ≡ map plain_subregion subregions.now) }
{
    let mut copies = Vec::new(alloc);
    for subregion in subregions {
        copies.push(copy_subregion(alloc, subregion)?)?;
    }
    Ok(copies)
}

/// An equal configuration of the south.
pub(crate) fn copy_south(alloc: Global, south: &SouthConf) -> Result<SouthConf, Memory>
    ensures { IfOk result (λ copy. plain_south copy ≡ plain_south south.now) }
{
    match south {
        SouthConf::Auto => Ok(SouthConf::Auto),
        SouthConf::Custom(subregions) => Ok(SouthConf::Custom(copy_subregions(
            alloc,
            subregions.as_slice(),
        )?)),
    }
}
