// How many rows stand in each region.
ghost use Rattle.std.specs.Prelude.{◌≡◌, ℕ, ◌+◌, ◌-◌, ◌<◌, ◌&&◌, ◌∷◌, ◌++◌, [], true, nat_lt};
ghost use Rattle.std.specs.Prelude.{get_or, length, not};
ghost use Rattle.std.specs.Prelude.{IfNone, IfOk, IfSome, OnErr, OnOk};
ghost use Rattle.zt_region.specs.declared.region.Region.{Region};
ghost use Rattle.zt_indexes.specs.Counted.{HasOneEach, can_count, count_in, is_counted};
ghost use Rattle.zt_indexes.specs.Counted.{free_place, is_shown_in, one_in, own_place, place_for};
ghost use Rattle.zt_indexes.specs.Held.{counts_of};

use crate::live::RegionTest;
use std::alloc::Global;
use std::marker::Model;
use zt_keys::Memory;
use zt_region::Region;

// Whether a count is one of rows in the region.
fn is_counted(row: &(Region, u32), region: Region) -> bool
    ensures { result ≡ is_counted region row.now }
{
    region == row.0 && 0 < row.1
}

// Whether a row of the region may be counted there: the count is of that region, or of no rows.
fn can_count(row: &(Region, u32), region: Region) -> bool
    ensures { result ≡ can_count region row.now }
{
    region == row.0 || row.1 == 0
}

// A count with one row more, of the region. The only error is want of numbers.
fn with_one_more(row: (Region, u32), region: Region) -> Result<(Region, u32), Memory>
    ensures { IfOk result (λ new. new ≡ (region, row.1 + 1)) }
{
    match row.1.checked_add(1) {
        Some(more) => Ok((region, more)),
        None => Err(Memory),
    }
}

// One row less in the region, if the count is one of rows there.
fn remove_one(row: &mut (Region, u32), region: Region)
    ensures { (r : Region) →
        count_in r (row.new ∷ []) ≡ count_in r (row.old ∷ []) - one_in r region }
{
    if is_counted(row, region) {
        row.1 -= 1;
    }
}

// Where rows of the region are counted, if there are any.
fn place_of(rows: &[(Region, u32)], region: Region) -> Option<usize>
    ensures within { IfSome result (λ place. place < length rows.now) }
    ensures there { IfSome result (λ place. (row : Region × ℕ) →
        is_counted region (get_or rows.now place row) ≡ true) }
    ensures none { IfNone result (count_in region rows.now ≡ 0) }
{
    for (place, row) in rows.iter().enumerate() {
        if is_counted(row, region) {
            return Some(place);
        }
    }
    None
}

// Where the count of the region stands, if it has one.
fn own_place(rows: &[(Region, u32)], region: Region) -> Option<usize>
    ensures { result ≡ own_place region rows.now }
{
    rows.iter().position(|row| region == row.0)
}

// Where a count of no rows stands, if there is one.
fn free_place(rows: &[(Region, u32)]) -> Option<usize>
    ensures { result ≡ free_place rows.now }
{
    rows.iter().position(|row| row.1 == 0)
}

// Where a row of the region is counted, if it can be at a count that is there.
fn place_for(rows: &[(Region, u32)], region: Region) -> Option<usize>
    ensures { result ≡ place_for region rows.now }
{
    own_place(rows, region).or(free_place(rows))
}

// One row more in the region. Counts are used again, so that there are never more of them than
// regions. Numbers that run out count as out of memory. After an error the counts stay.
fn add_in(rows: &mut Vec<(Region, u32)>, region: Region) -> Result<(), Memory>
    ensures ok { OnOk result ((r : Region) →
        count_in r rows.new.items ≡ count_in r rows.old.items + one_in r region) }
    ensures each { HasOneEach rows.old.items → HasOneEach rows.new.items }
    ensures err { OnErr result (rows.new.items ≡ rows.old.items) }
{
    match place_for(rows.as_slice(), region) {
        Some(place) => {
            rows[place] = with_one_more(rows[place], region)?;
            Ok(())
        }
        None => {
            rows.push((region, 1))?;
            Ok(())
        }
    }
}

// One row less in the region, if any stands there.
fn remove_in(rows: &mut Vec<(Region, u32)>, region: Region)
    ensures less { (r : Region) → count_in r rows.new.items
        ≡ count_in r rows.old.items - one_in r region }
    ensures each { HasOneEach rows.old.items → HasOneEach rows.new.items }
{
    if let Some(place) = place_of(rows.as_slice(), region) {
        rows[place].1 -= 1;
    }
}

// How many rows of the region are counted, where no region has two counts.
fn count_among(rows: &[(Region, u32)], region: Region) -> u32
    ensures { HasOneEach rows.now → result ≡ count_in region rows.now }
{
    match own_place(rows, region) {
        Some(place) => rows[place].1,
        None => 0,
    }
}

// How many rows of the region the count is of.
fn count_at_one(row: &(Region, u32), region: Region) -> u32
    ensures { result ≡ count_in region (row.now ∷ []) }
{
    if region == row.0 { row.1 } else { 0 }
}

// Whether a count is one of rows in a region that passes.
fn is_shown_row<T: RegionTest>(row: &(Region, u32), test: &T) -> bool
    ensures { result ≡ (T.passes test.now row.now.0 && nat_lt 0 row.now.1) }
{
    0 < row.1 && test.passes(row.0)
}

// Whether some rows stand in a region that passes.
fn is_shown_by<T: RegionTest>(rows: &[(Region, u32)], test: &T) -> bool
    ensures { result ≡ is_shown_in (T.passes test.now) rows.now }
{
    rows.iter().any(|row| is_shown_row(row, test))
}

// All regions pass.
struct Anywhere;

impl RegionTest for Anywhere {
    ghost use Rattle.std.specs.Prelude.{true};

    ghost passes = { λ _ _. true };

    fn passes(&self, _region: Region) -> bool {
        true
    }
}

// Counts of rows: none yet, those of one region, or those of more in a box, which keeps counts
// small where there is one region alone.
#[derive(Drop)]
enum Counts {
    Empty,
    One((Region, u32)),
    More(Box<Vec<(Region, u32)>>),
}

// One row more beside those of one region. Numbers that run out count as out of memory.
fn beside_one(alloc: Global, row: (Region, u32), region: Region) -> Result<Counts, Memory>
    ensures more { IfOk result (λ counts. (r : Region) →
        count_in r (counts_of counts) ≡ count_in r (row ∷ []) + one_in r region) }
    ensures each { IfOk result (λ counts. HasOneEach (counts_of counts)) }
{
    if can_count(&row, region) {
        return Ok(Counts::One(with_one_more(row, region)?));
    }
    let rows = vec![in alloc; row, (region, 1)]?;
    Ok(Counts::More(Box::new(alloc, rows)?))
}

/// How many rows stand in each region: one row more or less at a time. The rows of one region take
/// no memory beside the struct, since mostly there are no others. Those of more are in a box:
/// counts stand side by side in tables, and are many.
#[derive(Drop)]
pub struct RegionCounts {
    counts: Counts,
}

impl Model for RegionCounts {
    ghost use Rattle.std.specs.Prelude.{ℕ, List};
    ghost use Rattle.zt_indexes.specs.Counted.{HasOneEach};
    ghost use Rattle.zt_indexes.specs.Held.{counts_of};
    ghost use Rattle.zt_region.specs.declared.region.Region.{Region};

    ghost Value = { List (Region × ℕ) };

    ghost view = { λ c. counts_of c.counts };

    ghost invariant = { λ c. HasOneEach (counts_of c.counts) };
}

impl RegionCounts {
    /// No row in any region. It takes no memory.
    pub fn new() -> Self
        ensures { result ≡ [] }
    {
        RegionCounts {
            counts: Counts::Empty,
        }
    }

    /// One row more in the region. Numbers that run out count as out of memory. After an error the
    /// counts stay.
    pub fn add(&mut self, alloc: Global, region: Region) -> Result<(), Memory>
        ensures ok { OnOk result ((r : Region) →
            count_in r self.new ≡ count_in r self.old + one_in r region) }
        ensures err { OnErr result (self.new ≡ self.old) }
    {
        match &mut self.counts {
            Counts::Empty => {
                self.counts = Counts::One((region, 1));
                Ok(())
            }
            Counts::One(row) => {
                self.counts = beside_one(alloc, *row, region)?;
                Ok(())
            }
            Counts::More(rows) => add_in(rows, region),
        }
    }

    /// One row less in the region, if any stands there.
    pub fn remove(&mut self, region: Region)
        ensures { (r : Region) → count_in r self.new ≡ count_in r self.old - one_in r region }
    {
        match &mut self.counts {
            Counts::Empty => {}
            Counts::One(row) => remove_one(row, region),
            Counts::More(rows) => remove_in(rows, region),
        }
    }

    /// How many rows stand in the region. It takes no memory.
    pub fn count(&self, region: Region) -> u64
        ensures { result ≡ count_in region self.now }
    {
        let count = match &self.counts {
            Counts::Empty => 0,
            Counts::One(row) => count_at_one(row, region),
            Counts::More(rows) => count_among(rows, region),
        };
        u64::from(count)
    }

    /// Whether some rows stand in a region that passes.
    pub fn is_shown<T: RegionTest>(&self, test: &T) -> bool
        ensures { result ≡ is_shown_in (T.passes test.now) self.now }
    {
        match &self.counts {
            Counts::Empty => false,
            Counts::One(row) => is_shown_row(row, test),
            Counts::More(rows) => is_shown_by(rows, test),
        }
    }

    /// Whether no row stands in any region.
    pub fn is_empty(&self) -> bool
        ensures { result ≡ not (is_shown_in (λ _. true) self.now) }
    {
        !self.is_shown(&Anywhere)
    }

    /// Equal counts.
    pub fn copy(&self, alloc: Global) -> Result<Self, Memory>
        ensures { IfOk result (λ copy. copy ≡ self.now) }
    {
        let counts = match &self.counts {
            Counts::Empty => Counts::Empty,
            Counts::One(row) => Counts::One(*row),
            Counts::More(rows) => Counts::More(Box::new(alloc, rows.to_vec(alloc)?)?),
        };
        Ok(RegionCounts { counts })
    }
}
