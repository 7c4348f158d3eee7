// Changes of the simple rows, and of the infos of the aggregated ones with them.
ghost use Rattle.std.specs.Prelude.{◌≡◌, ◌<◌, ◌≤◌, [], ◌==◌, length, map, insert, remove, Some};
ghost use Rattle.std.specs.Prelude.{None, Option, if◌then◌else◌, slice_index_or, slice_set};
ghost use Rattle.std.specs.Prelude.{vec_len, vec_capacity, IsSome, IsTrue, IfOk, OnOk, OnErr};
ghost use Rattle.std.specs.Prelude.{MatchOption};
ghost use Rattle.std.specs.Option.{ForNone, option_map};
ghost use Rattle.std.specs.FinMap.Entries.{find, is_sorted};
ghost use Rattle.zt_locals.specs.Folding.{info_after, with_infos};
ghost use Rattle.zt_locals.specs.Interests.{has_none, joined};
ghost use Rattle.zt_locals.specs.Resources.{is_told, is_untold, simple_row};
ghost use Rattle.zt_locals.specs.Results.{insert_result, remove_result, beside, with_told};
ghost use Rattle.zt_locals.specs.Results.{with_untold};
ghost use Rattle.zt_locals.specs.declared.rows.SimpleRow.{SimpleRow};

use crate::fold::{infos_after, set_infos};
use crate::interests::InterestSet;
use crate::results::{insert_changes, remove_changes, tell, tell_more, untell};
use crate::rows::{
    AggregatedRow, Body, LocalResourceInsertResult, LocalResourceRemoveResult, SimpleRow,
};
use crate::traits::{LocalResourceInfoTrait, LocalResourceTrait};
use std::alloc::Global;
use zt_keys::Memory;
use zt_ordered::place_of;
use zt_protocol::InterestId;

/// All that the insertion of a new simple row takes memory for.
#[derive(Drop)]
struct Planned<Id, Res, Info> {
    infos: Vec<Option<Info>>,
    results: Vec<LocalResourceInsertResult<Id, Res, Info>>,
    interests: InterestSet,
    told: Option<Res>,
}

fn plan_new<Id: Copy, Res: LocalResourceTrait, Info: LocalResourceInfoTrait<Res>>(
    alloc: Global,
    body: &Body<Id, Res, Info>,
    key: &Res,
    info: Info,
    interests: &[InterestId],
) -> Result<Planned<Id, Res, Info>, Memory>
    ensures infos { IfOk result
        (λ plan. plan.infos.items
        ≡ map (info_after Res.matching Info.aggregating body.now.simple.items None key.now
        (Some info)) body.now.aggregated.items) }
    ensures results { IfOk result
        (λ plan. plan.results.items
        ≡ beside (insert_result Info.eq) body.now.aggregated.items plan.infos.items) }
    ensures interests { IfOk result (λ plan. plan.interests ≡ joined [] interests.now) }
    ensures told { IfOk result
        (λ plan. plan.told ≡ (if has_none plan.interests then None else Some key.now)) }
    ensures room { IfOk result
        (λ plan. IsSome plan.told → vec_len plan.results < vec_capacity plan.results) }
{
    let infos = infos_after(alloc, &body.aggregated, &body.simple, None, key, Some(info))?;
    let mut results = insert_changes(alloc, &body.aggregated, &infos)?;
    let mut set = InterestSet::new(alloc);
    set.join(interests)?;
    if set.is_empty() {
        return Ok(Planned {
            infos,
            results,
            interests: set,
            told: None,
        });
    }
    results.reserve(1)?;
    let copy = key.copy(alloc)?;
    Ok(Planned {
        infos,
        results,
        interests: set,
        told: Some(copy),
    })
}

/// The id of an aggregated row.
pub(crate) fn id_of_aggregated<Id: Copy, Res: LocalResourceTrait, Info>(
    rows: &[(Res, AggregatedRow<Id, Info>)],
    key: &Res,
) -> Option<Id>
    requires { IsTrue (is_sorted Res.cmp rows.now) }
    ensures { result ≡ option_map (λ row. row.id) (find Res.cmp key.now rows.now) }
{
    match place_of(rows, key) {
        Ok(place) => Some(rows[place].1.id),
        Err(_) => None,
    }
}

pub(crate) fn insert_row<Res, X>(rows: &mut Vec<(Res, X)>, place: usize, row: (Res, X))
where
    Res: Drop,
    X: Drop,
    requires within { place ≤ vec_len rows.old }
    requires room { vec_len rows.old < vec_capacity rows.old }
    ensures { rows.new.items ≡ insert rows.old.items place row }
{
    match rows.insert(place, row) {
        Ok(()) => {}
        Err(_) => unreachable!(),
    }
}

/// Inserts a new simple row at its place.
pub(crate) fn insert_new<
    Id: Copy,
    Res: LocalResourceTrait,
    Info: LocalResourceInfoTrait<Res>,
    F: FnOnce() -> Id,
>(
    body: &mut Body<Id, Res, Info>,
    place: usize,
    key: Res,
    info: Info,
    f_id: F,
    interests: &[InterestId],
) -> Result<(Id, Vec<LocalResourceInsertResult<Id, Res, Info>>), Memory>
    requires in_order { IsTrue (is_sorted Res.cmp body.old.aggregated.items) }
    requires within { place ≤ vec_len body.old.simple }
    requires callable { ForNone
        (option_map (λ row. row.id) (find Res.cmp key body.old.aggregated.items)) (F.pre f_id) }
    ensures id { IfOk result (λ r. MatchOption
        (option_map (λ row. row.id) (find Res.cmp key body.old.aggregated.items)) (F.post f_id r.0)
        (λ id. r.0 ≡ id)) }
    ensures simple { IfOk result
        (λ r. body.new.simple.items
        ≡ insert body.old.simple.items place (key, simple_row r.0 info (joined [] interests.now))) }
    ensures aggregated { OnOk result
        (body.new.aggregated.items
        ≡ with_infos body.old.aggregated.items
        (map (info_after Res.matching Info.aggregating body.old.simple.items None key (Some info))
        body.old.aggregated.items)) }
    ensures results { IfOk result
        (λ r. r.1.items ≡ with_told Res.cmp r.0 info
        (if has_none (joined [] interests.now) then None else Some key)
        (beside (insert_result Info.eq) body.old.aggregated.items
        (map (info_after Res.matching Info.aggregating body.old.simple.items None key (Some info))
        body.old.aggregated.items))) }
    ensures err_simple { OnErr result (body.new.simple.items ≡ body.old.simple.items) }
    ensures err_aggregated { OnErr result (body.new.aggregated.items ≡ body.old.aggregated.items) }
{
    let alloc = *body.simple.allocator();
    let planned = plan_new(alloc, body, &key, info, interests)?;
    body.simple.reserve(1)?;
    let id = id_of_aggregated(&body.aggregated, &key).unwrap_or_else(f_id);
    let Planned {
        infos,
        mut results,
        interests,
        told,
    } = planned;
    tell(&mut results, told, id, info);
    set_infos(&mut body.aggregated, &infos);
    let row = SimpleRow {
        id,
        info,
        interests,
    };
    insert_row(&mut body.simple, place, (key, row));
    Ok((id, results))
}

/// The infos of the aggregated rows and what is told, where a simple row takes another info and
/// more interests.
fn plan_known<Id: Copy, Res: LocalResourceTrait, Info: LocalResourceInfoTrait<Res>>(
    alloc: Global,
    body: &Body<Id, Res, Info>,
    place: usize,
    key: Res,
    info: Info,
    interests: &[InterestId],
) -> Result<
    (
        Vec<Option<Info>>,
        Vec<LocalResourceInsertResult<Id, Res, Info>>,
    ),
    Memory,
>
    requires { place < length body.now.simple.items }
    ensures infos { IfOk result
        (λ r. r.0.items ≡ map
        (info_after Res.matching Info.aggregating body.now.simple.items (Some place) key
        (Some info)) body.now.aggregated.items) }
    ensures results { IfOk result
        (λ r. (row : Res × SimpleRow Id Info) → row ≡ slice_index_or body.now.simple.items place row
        → r.1.items ≡ with_told Res.cmp row.1.id info
        (is_told Info.eq key (Some row.1) info (joined row.1.interests interests.now))
        (beside (insert_result Info.eq) body.now.aggregated.items r.0.items)) }
{
    let infos = infos_after(
        alloc,
        &body.aggregated,
        &body.simple,
        Some(place),
        &key,
        Some(info),
    )?;
    let mut results = insert_changes(alloc, &body.aggregated, &infos)?;
    let row = &body.simple[place].1;
    let told = told_again(row, key, info, interests);
    tell_more(&mut results, told, row.id, info)?;
    Ok((infos, results))
}

/// The key, if the row answers some interest after the change and its info changes.
fn told_again<Id: Copy, Res: LocalResourceTrait, Info: LocalResourceInfoTrait<Res>>(
    row: &SimpleRow<Id, Info>,
    key: Res,
    info: Info,
    interests: &[InterestId],
) -> Option<Res>
    ensures { result ≡ is_told Info.eq key (Some row.now) info
        (joined row.now.interests interests.now) }
{
    if !row.interests.has_some_with(interests) || row.info == info {
        return None;
    }
    Some(key)
}

/// Gives the simple row at a place another info and more interests. After an error it is what it
/// was.
fn update_row<Id: Copy, Res: LocalResourceTrait, Info: LocalResourceInfoTrait<Res>>(
    rows: &mut Vec<(Res, SimpleRow<Id, Info>)>,
    place: usize,
    info: Info,
    interests: &[InterestId],
) -> Result<Id, Memory>
    requires { place < vec_len rows.old }
    ensures ok { IfOk result (λ id. (row : Res × SimpleRow Id Info)
        → row ≡ slice_index_or rows.old.items place row
        → rows.new.items ≡ slice_set rows.old.items place
        (row.0, simple_row id info (joined row.1.interests interests.now))) }
    ensures id { IfOk result (λ id. (row : Res × SimpleRow Id Info)
        → row ≡ slice_index_or rows.old.items place row → id ≡ row.1.id) }
    ensures err { OnErr result (rows.new.items ≡ rows.old.items) }
{
    let row = &mut rows[place];
    row.1.interests.join(interests)?;
    row.1.info = info;
    Ok(row.1.id)
}

/// Gives the simple row at a place, which stands under `key`, another info and more interests.
pub(crate) fn insert_known<Id: Copy, Res: LocalResourceTrait, Info: LocalResourceInfoTrait<Res>>(
    body: &mut Body<Id, Res, Info>,
    place: usize,
    key: Res,
    info: Info,
    interests: &[InterestId],
) -> Result<(Id, Vec<LocalResourceInsertResult<Id, Res, Info>>), Memory>
    requires { place < vec_len body.old.simple }
    ensures id { IfOk result (λ r. (row : Res × SimpleRow Id Info)
        → row ≡ slice_index_or body.old.simple.items place row → r.0 ≡ row.1.id) }
    ensures simple { IfOk result
        (λ r. (row : Res × SimpleRow Id Info) → row ≡ slice_index_or body.old.simple.items place row
        → body.new.simple.items
        ≡ slice_set body.old.simple.items place
        (row.0, simple_row r.0 info (joined row.1.interests interests.now))) }
    ensures aggregated { OnOk result
        (body.new.aggregated.items
        ≡ with_infos body.old.aggregated.items
        (map (info_after Res.matching Info.aggregating body.old.simple.items (Some place) key
        (Some info)) body.old.aggregated.items)) }
    ensures results { IfOk result
        (λ r. (row : Res × SimpleRow Id Info) → row ≡ slice_index_or body.old.simple.items place row
        → r.1.items ≡ with_told Res.cmp row.1.id info
        (is_told Info.eq key (Some row.1) info (joined row.1.interests interests.now))
        (beside (insert_result Info.eq) body.old.aggregated.items
        (map (info_after Res.matching Info.aggregating body.old.simple.items (Some place) key
        (Some info)) body.old.aggregated.items))) }
    ensures err_simple { OnErr result (body.new.simple.items ≡ body.old.simple.items) }
    ensures err_aggregated { OnErr result (body.new.aggregated.items ≡ body.old.aggregated.items) }
{
    let alloc = *body.simple.allocator();
    let (infos, results) = plan_known(alloc, body, place, key, info, interests)?;
    let id = update_row(&mut body.simple, place, info, interests)?;
    set_infos(&mut body.aggregated, &infos);
    Ok((id, results))
}

/// The infos of the aggregated rows and what is told, where a simple row goes.
fn plan_removal<Id: Copy, Res: LocalResourceTrait, Info: LocalResourceInfoTrait<Res>>(
    alloc: Global,
    body: &Body<Id, Res, Info>,
    place: usize,
    key: &Res,
) -> Result<
    (
        Vec<Option<Info>>,
        Vec<LocalResourceRemoveResult<Id, Res, Info>>,
    ),
    Memory,
>
    requires { place < length body.now.simple.items }
    ensures infos { IfOk result
        (λ r. r.0.items ≡ map
        (info_after Res.matching Info.aggregating body.now.simple.items (Some place) key.now None)
        body.now.aggregated.items) }
    ensures results { IfOk result
        (λ r. (row : Res × SimpleRow Id Info) → row ≡ slice_index_or body.now.simple.items place row
        → r.1.items ≡ with_untold Res.cmp row.1.id (is_untold key.now row.1.interests)
        (beside (remove_result Info.eq) body.now.aggregated.items r.0.items)) }
{
    let infos = infos_after(
        alloc,
        &body.aggregated,
        &body.simple,
        Some(place),
        key,
        None,
    )?;
    let mut results = remove_changes(alloc, &body.aggregated, &infos)?;
    let row = &body.simple[place].1;
    let told = untold(alloc, row, key)?;
    untell(&mut results, told, row.id)?;
    Ok((infos, results))
}

/// A copy of the key, if the row answers some interest.
fn untold<Id: Copy, Res: LocalResourceTrait, Info: LocalResourceInfoTrait<Res>>(
    alloc: Global,
    row: &SimpleRow<Id, Info>,
    key: &Res,
) -> Result<Option<Res>, Memory>
    ensures { IfOk result (λ told. told ≡ is_untold key.now row.now.interests) }
{
    if row.interests.is_empty() {
        return Ok(None);
    }
    let copy = key.copy(alloc)?;
    Ok(Some(copy))
}

/// Removes the simple row at a place, which stands under `key`.
pub(crate) fn remove_known<Id: Copy, Res: LocalResourceTrait, Info: LocalResourceInfoTrait<Res>>(
    body: &mut Body<Id, Res, Info>,
    place: usize,
    key: &Res,
) -> Result<Vec<LocalResourceRemoveResult<Id, Res, Info>>, Memory>
    requires { place < vec_len body.old.simple }
    ensures simple { OnOk result (body.new.simple.items ≡ remove body.old.simple.items place) }
    ensures aggregated { OnOk result
        (body.new.aggregated.items
        ≡ with_infos body.old.aggregated.items
        (map (info_after Res.matching Info.aggregating body.old.simple.items
        (Some place) key.now None) body.old.aggregated.items)) }
    ensures results { IfOk result
        (λ results. (row : Res × SimpleRow Id Info)
        → row ≡ slice_index_or body.old.simple.items place row
        → results.items ≡ with_untold Res.cmp row.1.id (is_untold key.now row.1.interests)
        (beside (remove_result Info.eq) body.old.aggregated.items
        (map (info_after Res.matching Info.aggregating body.old.simple.items
        (Some place) key.now None) body.old.aggregated.items))) }
    ensures err_simple { OnErr result (body.new.simple.items ≡ body.old.simple.items) }
    ensures err_aggregated { OnErr result (body.new.aggregated.items ≡ body.old.aggregated.items) }
{
    let alloc = *body.simple.allocator();
    let (infos, results) = plan_removal(alloc, body, place, key)?;
    set_infos(&mut body.aggregated, &infos);
    drop(body.simple.remove(place));
    Ok(results)
}
