// The end of interests, and the rows that go with them.
ghost use Rattle.std.specs.Prelude.{◌≡◌, ◌<◌, map, filter, not, is_some, Ok, slice_index_or};
ghost use Rattle.std.specs.Prelude.{slice_set, vec_len};
ghost use Rattle.std.specs.FinMap.Entries.{find};
ghost use Rattle.zt_ordered.specs.Rows.{place};
ghost use Rattle.zt_locals.specs.Ending.{belongs, goes_with, is_unheld, unasked, unasked_rows};
ghost use Rattle.zt_locals.specs.Ending.{ending, aggregated_after, simple_after};
ghost use Rattle.zt_locals.specs.Interests.{without_interest};
ghost use Rattle.zt_locals.specs.Resources.{IsSound, aggregated_row};
ghost use Rattle.zt_locals.specs.declared.rows.AggregatedRow.{AggregatedRow};

use crate::rows::{AggregatedRow, Body, SimpleRow};
use crate::traits::{LocalResourceInfoTrait, LocalResourceTrait};
use zt_ordered::place_of;
use zt_protocol::InterestId;

/// Whether the simple resource of a key belongs to one of the aggregated resources.
fn belongs_to_one<Id, Res: LocalResourceTrait, Info>(
    aggregated: &[(Res, AggregatedRow<Id, Info>)],
    key: &Res,
) -> bool
    ensures { result ≡ belongs Res.matching key.now aggregated.now }
{
    aggregated.iter().any(|row| row.0.matches(key))
}

/// Whether a simple row goes with an interest.
fn goes<Id, Res: LocalResourceTrait, Info>(
    aggregated: &[(Res, AggregatedRow<Id, Info>)],
    row: &(Res, SimpleRow<Id, Info>),
    id: InterestId,
) -> bool
    ensures { result ≡ goes_with Res.matching id aggregated.now row.now }
{
    row.1.interests.is_only(id) && !belongs_to_one(aggregated, &row.0)
}

/// Takes the simple rows out that go with an interest.
fn drop_going<Id: Drop, Res: LocalResourceTrait, Info: Drop>(
    simple: &mut Vec<(Res, SimpleRow<Id, Info>)>,
    aggregated: &[(Res, AggregatedRow<Id, Info>)],
    id: InterestId,
)
    ensures { simple.new.items
        ≡ filter (λ row. not (goes_with Res.matching id aggregated.now row)) simple.old.items }
{
    simple.retain(|row| !goes(aggregated, row, id));
}

/// Takes an interest from each simple row.
fn unask_each<Id, Res, Info>(simple: &mut Vec<(Res, SimpleRow<Id, Info>)>, id: InterestId)
    ensures { simple.new.items ≡ map (unasked id) simple.old.items }
{
    for at in 0..simple.len() {
        let row = &mut simple[at];
        row.1.interests.remove(id);
    }
}

/// Ends an interest in all simple rows.
pub(crate) fn end_simple_interest<
    Id: Copy,
    Res: LocalResourceTrait,
    Info: LocalResourceInfoTrait<Res>,
>(body: &mut Body<Id, Res, Info>, id: InterestId)
    requires { IsSound Res.cmp Res.matching Info.aggregating body.old.simple.items
        body.old.aggregated.items }
    ensures simple { body.new.simple.items
        ≡ unasked_rows Res.matching id body.old.aggregated.items body.old.simple.items }
    ensures aggregated { body.new.aggregated.items ≡ body.old.aggregated.items }
    ensures sound { IsSound Res.cmp Res.matching Info.aggregating body.new.simple.items
        body.new.aggregated.items }
{
    drop_going(&mut body.simple, &body.aggregated, id);
    unask_each(&mut body.simple, id);
}

/// Whether a simple row stays when the aggregated resource of a key goes.
fn is_left<Id, Res: LocalResourceTrait, Info>(
    left: &[(Res, AggregatedRow<Id, Info>)],
    row: &(Res, SimpleRow<Id, Info>),
    key: &Res,
) -> bool
    ensures { result ≡ not (is_unheld Res.matching key.now left.now row.now) }
{
    !key.matches(&row.0) || !row.1.interests.is_empty() || belongs_to_one(left, &row.0)
}

/// Takes the simple rows out that go with the aggregated resource of a key; those that are left
/// stand beside it.
fn drop_unheld<Id: Drop, Res: LocalResourceTrait, Info: Drop>(
    simple: &mut Vec<(Res, SimpleRow<Id, Info>)>,
    left: &[(Res, AggregatedRow<Id, Info>)],
    key: &Res,
)
    ensures { simple.new.items
        ≡ filter (λ row. not (is_unheld Res.matching key.now left.now row)) simple.old.items }
{
    simple.retain(|row| is_left(left, row, key));
}

/// Takes an interest from the aggregated row at a place.
fn unask_row<Id, Res, Info: Copy>(
    rows: &mut Vec<(Res, AggregatedRow<Id, Info>)>,
    at: usize,
    id: InterestId,
)
    requires { at < vec_len rows.old }
    ensures { (row : Res × AggregatedRow Id Info) → row ≡ slice_index_or rows.old.items at row
        → rows.new.items ≡ slice_set rows.old.items at
        (row.0, aggregated_row row.1.id row.1.info (without_interest id row.1.interests)) }
{
    let row = &mut rows[at];
    row.1.interests.remove(id);
}

/// Ends an interest in the aggregated row that stands under the key.
fn end_at<Id: Copy, Res: LocalResourceTrait, Info: LocalResourceInfoTrait<Res>>(
    body: &mut Body<Id, Res, Info>,
    at: usize,
    key: &Res,
    id: InterestId,
) -> bool
    requires sound { IsSound Res.cmp Res.matching Info.aggregating body.old.simple.items
        body.old.aggregated.items }
    requires within { at < vec_len body.old.aggregated }
    requires at { place Res.cmp key.now body.old.aggregated.items ≡ Ok at }
    ensures answer { result ≡ is_some (ending id (find Res.cmp key.now body.old.aggregated.items)) }
    ensures aggregated { body.new.aggregated.items
        ≡ aggregated_after Res.cmp key.now
        (ending id (find Res.cmp key.now body.old.aggregated.items)) body.old.aggregated.items }
    ensures simple { body.new.simple.items
        ≡ simple_after Res.matching key.now
        (ending id (find Res.cmp key.now body.old.aggregated.items)) body.new.aggregated.items
        body.old.simple.items }
    ensures sound { IsSound Res.cmp Res.matching Info.aggregating body.new.simple.items
        body.new.aggregated.items }
{
    let interests = &body.aggregated[at].1.interests;
    if !interests.contains(id) {
        return false;
    }
    if interests.is_only(id) {
        drop(body.aggregated.remove(at));
        drop_unheld(&mut body.simple, &body.aggregated, key);
        return true;
    }
    unask_row(&mut body.aggregated, at, id);
    true
}

/// Ends an interest in the aggregated row under the key, if there is one and it has the interest.
/// Answers whether.
pub(crate) fn end_aggregated_interest<
    Id: Copy,
    Res: LocalResourceTrait,
    Info: LocalResourceInfoTrait<Res>,
>(body: &mut Body<Id, Res, Info>, key: &Res, id: InterestId) -> bool
    requires { IsSound Res.cmp Res.matching Info.aggregating body.old.simple.items
        body.old.aggregated.items }
    ensures answer { result ≡ is_some (ending id (find Res.cmp key.now body.old.aggregated.items)) }
    ensures aggregated { body.new.aggregated.items
        ≡ aggregated_after Res.cmp key.now
        (ending id (find Res.cmp key.now body.old.aggregated.items)) body.old.aggregated.items }
    ensures simple { body.new.simple.items
        ≡ simple_after Res.matching key.now
        (ending id (find Res.cmp key.now body.old.aggregated.items)) body.new.aggregated.items
        body.old.simple.items }
    ensures sound { IsSound Res.cmp Res.matching Info.aggregating body.new.simple.items
        body.new.aggregated.items }
{
    match place_of(&body.aggregated, key) {
        Ok(at) => end_at(body, at, key, id),
        Err(_) => false,
    }
}
