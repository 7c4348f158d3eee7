// The lines with lists: those that make a gateway, and those that hand it its trees.
ghost use Rattle.std.specs.Prelude.{◌≡◌, [], None, unwrap_or};
ghost use Rattle.std.specs.Option.{option_copied, option_map};
ghost use Rattle.zt_region.specs.South.{plain_south};
ghost use Rattle.zt_protocol.specs.Plain.{plain_line};
ghost use Rattle.zt_fields.specs.Fields.{Finds, fields_left};
ghost use Rattle.zt_lines.specs.Reading.{gateway_at, trees_at};

use crate::listed::{list_at, name_at, south_at, south_regions_at};
use std::alloc::Global;
use zt_fields::{end_at, optional_value_at, value_at};
use zt_protocol::{Line, LineError, TreeTable};
use zt_region::{Admission, SouthConf};

fn or_empty<T: Drop>(alloc: Global, items: Option<Vec<T>>) -> Vec<T>
    ensures { result.items ≡ unwrap_or (option_map (λ v. v.items) items) [] }
{
    match items {
        Some(items) => items,
        None => Vec::new(alloc),
    }
}

fn or_auto(south: Option<SouthConf>) -> SouthConf
    ensures { plain_south result ≡ unwrap_or (option_map plain_south south) None }
{
    match south {
        Some(south) => south,
        None => SouthConf::Auto,
    }
}

#[tactic(auto, unfolding(crate::specs::Reading::gateway_at))]
#[inline(never)]
pub(crate) fn gateway<K>(alloc: Global, rest: Option<&str>) -> Result<Line<K>, LineError>
    ensures { Finds plain_line result (gateway_at (fields_left (option_copied rest.entry))) }
{
    let (mode, rest) = value_at(rest)?;
    let (zid, rest) = value_at(rest)?;
    let (regions, rest) = south_regions_at(alloc, rest)?;
    let (south, rest) = south_at(alloc, rest)?;
    let (name, rest) = name_at(alloc, rest)?;
    let (timeout, rest) = optional_value_at(rest, "timeout=")?;
    let (refuse, rest) = list_at(alloc, rest, "refuse=")?;
    end_at(rest)?;
    Ok(Line::Gateway {
        mode,
        zid,
        regions: or_empty(alloc, regions),
        south: or_auto(south),
        name,
        timeout: timeout.unwrap_or(10000),
        refuse: Admission {
            refused: or_empty(alloc, refuse),
        },
    })
}

#[tactic(auto, unfolding(crate::specs::Reading::trees_at))]
#[inline(never)]
pub(crate) fn trees<K>(alloc: Global, rest: Option<&str>) -> Result<Line<K>, LineError>
    ensures { Finds plain_line result (trees_at (fields_left (option_copied rest.entry))) }
{
    let (gateway, rest) = value_at(rest)?;
    let (region, rest) = value_at(rest)?;
    let (routers, rest) = list_at(alloc, rest, "routers=")?;
    let routers = routers.ok_or(LineError::NotInGrammar)?;
    let (links, rest) = list_at(alloc, rest, "links=")?;
    let (children, rest) = list_at(alloc, rest, "children=")?;
    end_at(rest)?;
    Ok(Line::Trees {
        gateway,
        region,
        table: TreeTable {
            routers,
            links: or_empty(alloc, links),
            children: or_empty(alloc, children),
        },
    })
}
