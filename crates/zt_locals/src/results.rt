// What a call tells of the rows.
ghost use Rattle.std.specs.Prelude.{◌≡◌, ◌<◌, ◌≤◌, ◌++◌, length, map, insert, vec_len};
ghost use Rattle.std.specs.Prelude.{vec_capacity, IsSome, OnOk, IfOk};
ghost use Rattle.zt_locals.specs.Results.{has_changed, insert_result, remove_result, beside};
ghost use Rattle.zt_locals.specs.Results.{placed, with_told, with_untold};

use crate::rows::{AggregatedRow, LocalResourceInsertResult, LocalResourceRemoveResult};
use crate::traits::{LocalResourceInfoTrait, LocalResourceTrait};
use std::alloc::Global;
use std::cmp::Ordering;
use zt_keys::Memory;

fn is_changed<Info: Eq + Copy>(had: Option<Info>, after: Option<Info>) -> bool
    ensures { result ≡ has_changed Info.eq had after }
{
    match had {
        None => after.is_some(),
        Some(had) => match after {
            None => true,
            Some(after) => had != after,
        },
    }
}

fn push_insert_change<Id: Copy, Res: LocalResourceTrait, Info: LocalResourceInfoTrait<Res>>(
    alloc: Global,
    results: &mut Vec<LocalResourceInsertResult<Id, Res, Info>>,
    row: &(Res, AggregatedRow<Id, Info>),
    after: Option<Info>,
) -> Result<(), Memory>
    ensures { OnOk result (results.new.items
        ≡ results.old.items ++ insert_result Info.eq row.now after) }
{
    if !is_changed(row.1.info, after) {
        return Ok(());
    }
    match after {
        None => Ok(()),
        Some(info) => {
            let resource = row.0.copy(alloc)?;
            results.push(LocalResourceInsertResult {
                id: row.1.id,
                resource,
                info,
            })?;
            Ok(())
        }
    }
}

/// What an insertion tells of the aggregated rows, whose infos after it stand beside them.
pub(crate) fn insert_changes<Id: Copy, Res: LocalResourceTrait, Info: LocalResourceInfoTrait<Res>>(
    alloc: Global,
    rows: &[(Res, AggregatedRow<Id, Info>)],
    infos: &[Option<Info>],
) -> Result<Vec<LocalResourceInsertResult<Id, Res, Info>>, Memory>
    requires { length rows.now ≡ length infos.now }
    ensures { IfOk result (λ results. results.items
        ≡ beside (insert_result Info.eq) rows.now infos.now) }
{
    let mut results = Vec::new(alloc);
    for at in 0..rows.len() {
        push_insert_change(alloc, &mut results, &rows[at], infos[at])?;
    }
    Ok(results)
}

fn push_remove_change<Id: Copy, Res: LocalResourceTrait, Info: LocalResourceInfoTrait<Res>>(
    alloc: Global,
    results: &mut Vec<LocalResourceRemoveResult<Id, Res, Info>>,
    row: &(Res, AggregatedRow<Id, Info>),
    after: Option<Info>,
) -> Result<(), Memory>
    ensures { OnOk result (results.new.items
        ≡ results.old.items ++ remove_result Info.eq row.now after) }
{
    if !is_changed(row.1.info, after) {
        return Ok(());
    }
    let resource = row.0.copy(alloc)?;
    results.push(LocalResourceRemoveResult {
        id: row.1.id,
        resource,
        update: after,
    })?;
    Ok(())
}

/// What a removal tells of the aggregated rows, whose infos after it stand beside them.
pub(crate) fn remove_changes<Id: Copy, Res: LocalResourceTrait, Info: LocalResourceInfoTrait<Res>>(
    alloc: Global,
    rows: &[(Res, AggregatedRow<Id, Info>)],
    infos: &[Option<Info>],
) -> Result<Vec<LocalResourceRemoveResult<Id, Res, Info>>, Memory>
    requires { length rows.now ≡ length infos.now }
    ensures { IfOk result (λ results. results.items
        ≡ beside (remove_result Info.eq) rows.now infos.now) }
{
    let mut results = Vec::new(alloc);
    for at in 0..rows.len() {
        push_remove_change(alloc, &mut results, &rows[at], infos[at])?;
    }
    Ok(results)
}

fn place_of_told<Id, Res: Ord, Info>(
    others: &[LocalResourceInsertResult<Id, Res, Info>],
    one: &LocalResourceInsertResult<Id, Res, Info>,
) -> usize
    ensures bound { result ≤ length others.now }
    ensures place { placed Res.cmp (λ told. told.resource) one.now others.now
        ≡ insert others.now result one.now }
{
    for (place, other) in others.iter().enumerate() {
        match other.resource.cmp(&one.resource) {
            Ordering::Less => {}
            Ordering::Equal | Ordering::Greater => return place,
        }
    }
    others.len()
}

/// Puts the result of the simple resource in its place, if it is told. There is room for it.
pub(crate) fn tell<Id: Copy, Res: Ord + Drop, Info: Copy>(
    results: &mut Vec<LocalResourceInsertResult<Id, Res, Info>>,
    told: Option<Res>,
    id: Id,
    info: Info,
)
    requires { IsSome told → vec_len results.old < vec_capacity results.old }
    ensures { results.new.items ≡ with_told Res.cmp id info told results.old.items }
{
    let Some(resource) = told else {
        return;
    };
    let one = LocalResourceInsertResult { id, resource, info };
    let place = place_of_told(results, &one);
    match results.insert(place, one) {
        Ok(()) => {}
        Err(_) => unreachable!(),
    }
}

/// Puts the result of the simple resource in its place, if it is told.
pub(crate) fn tell_more<Id: Copy, Res: Ord + Drop, Info: Copy>(
    results: &mut Vec<LocalResourceInsertResult<Id, Res, Info>>,
    told: Option<Res>,
    id: Id,
    info: Info,
) -> Result<(), Memory>
    ensures { OnOk result (results.new.items ≡ with_told Res.cmp id info told results.old.items) }
{
    let Some(resource) = told else {
        return Ok(());
    };
    results.reserve(1)?;
    tell(results, Some(resource), id, info);
    Ok(())
}

fn place_of_untold<Id, Res: Ord, Info>(
    others: &[LocalResourceRemoveResult<Id, Res, Info>],
    one: &LocalResourceRemoveResult<Id, Res, Info>,
) -> usize
    ensures bound { result ≤ length others.now }
    ensures place { placed Res.cmp (λ told. told.resource) one.now others.now
        ≡ insert others.now result one.now }
{
    for (place, other) in others.iter().enumerate() {
        match other.resource.cmp(&one.resource) {
            Ordering::Less => {}
            Ordering::Equal | Ordering::Greater => return place,
        }
    }
    others.len()
}

/// Puts the result of the simple resource that goes in its place, if it was told.
pub(crate) fn untell<Id: Copy, Res: Ord + Drop, Info: Copy>(
    results: &mut Vec<LocalResourceRemoveResult<Id, Res, Info>>,
    told: Option<Res>,
    id: Id,
) -> Result<(), Memory>
    ensures { OnOk result (results.new.items ≡ with_untold Res.cmp id told results.old.items) }
{
    let Some(resource) = told else {
        return Ok(());
    };
    let one = LocalResourceRemoveResult {
        id,
        resource,
        update: None,
    };
    let place = place_of_untold(results, &one);
    results.insert(place, one)?;
    Ok(())
}
