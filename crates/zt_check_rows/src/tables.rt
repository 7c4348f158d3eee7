// The tables of router regions, each under its region.
ghost use Rattle.std.specs.Prelude.{◌≡◌, IfOk, OnOk};
ghost use Rattle.std.specs.FinMap.Entries.{put};
ghost use Rattle.zt_model.specs.Trees.{region_order};

use crate::order::compare_regions;
use std::alloc::Global;
use std::cmp::Ordering;
use zt_check_faces::{Ranked, place_in};
use zt_check_tables::ShownTable;
use zt_keys::Memory;
use zt_region::Region;

// The region whose table is sought.
#[derive(Drop)]
struct Sought {
    region: Region,
}

impl Ranked<Sought> for (Region, ShownTable) {
    ghost use Rattle.zt_model.specs.Trees.{region_order};

    ghost ranked = { λ sought row. region_order sought.region row.0 };

    fn rank(&self, sought: &Sought) -> Ordering {
        compare_regions(sought.region, self.0)
    }
}

// A region has this table, in place of the one that it has, if any.
pub(crate) fn put_table(
    trees: &mut Vec<(Region, ShownTable)>,
    region: Region,
    table: ShownTable,
) -> Result<(), Memory>
    ensures { OnOk result (trees.new.items ≡ put region_order region table trees.old.items) }
{
    match place_in(trees.as_slice(), &Sought { region }) {
        Ok(place) => {
            let found = &mut trees[place];
            found.1 = table;
        }
        Err(place) => trees.insert(place, (region, table))?,
    }
    Ok(())
}

// An equal table under its region.
fn copy_table(alloc: Global, table: &(Region, ShownTable)) -> Result<(Region, ShownTable), Memory>
    ensures { IfOk result (λ copy. copy ≡ table.now) }
{
    Ok((table.0, table.1.copy(alloc)?))
}

// Equal tables.
pub(crate) fn copy_tables(
    alloc: Global,
    trees: &[(Region, ShownTable)],
) -> Result<Vec<(Region, ShownTable)>, Memory>
    ensures { IfOk result (λ copies. copies.items ≡ trees.now) }
{
    let mut copies = Vec::new(alloc);
    for table in trees {
        let copy = copy_table(alloc, table)?;
        copies.push(copy)?;
    }
    Ok(copies)
}
