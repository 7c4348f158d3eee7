// The infos that aggregated rows have of the simple ones.
ghost use Rattle.std.specs.Prelude.{◌≡◌, ℕ, ◌+◌, ◌<◌, length, Some, None, Option, map, IfOk};
ghost use Rattle.std.specs.Option.{ForSome};
ghost use Rattle.std.specs.List.{remove};
ghost use Rattle.zt_locals.specs.Folding.{taken_in, fold_from, info_after, with_infos};

use crate::rows::{AggregatedRow, SimpleRow};
use crate::traits::{LocalResourceInfoTrait, LocalResourceTrait};
use std::alloc::Global;
use zt_keys::Memory;

fn take_in<Res: LocalResourceTrait, Info: LocalResourceInfoTrait<Res>>(
    into: &Res,
    had: Option<Info>,
    key: &Res,
    info: &Info,
) -> Option<Info>
    ensures { result ≡ taken_in Res.matching Info.aggregating into.now had key.now info.now }
{
    if into.matches(key) {
        Some(Info::aggregate(had, into, info, key))
    } else {
        had
    }
}

/// An info with those of the simple rows that match taken in.
pub(crate) fn fold_onto<Id: Copy, Res: LocalResourceTrait, Info: LocalResourceInfoTrait<Res>>(
    into: &Res,
    had: Option<Info>,
    rows: &[(Res, SimpleRow<Id, Info>)],
) -> Option<Info>
    ensures { result ≡ fold_from Res.matching Info.aggregating into.now had rows.now }
{
    let mut info = had;
    for row in rows {
        info = take_in(into, info, &row.0, &row.1.info);
    }
    info
}

/// What a resource has of the simple rows but the one at a place.
fn fold_others<Id: Copy, Res: LocalResourceTrait, Info: LocalResourceInfoTrait<Res>>(
    into: &Res,
    rows: &[(Res, SimpleRow<Id, Info>)],
    place: usize,
) -> Option<Info>
    requires { place < length rows.now }
    ensures { result ≡ fold_from Res.matching Info.aggregating into.now None
        (remove rows.now place) }
{
    let front = fold_onto(into, None, &rows[..place]);
    fold_onto(into, front, &rows[place + 1..])
}

/// The info of an aggregated row after the simple row under a key, at the place `gone`, went, and
/// one with the info `come` came.
fn find_info_after<Id: Copy, Res: LocalResourceTrait, Info: LocalResourceInfoTrait<Res>>(
    row: &(Res, AggregatedRow<Id, Info>),
    simple: &[(Res, SimpleRow<Id, Info>)],
    gone: Option<usize>,
    key: &Res,
    come: Option<Info>,
) -> Option<Info>
    requires { ForSome gone (λ place. place < length simple.now) }
    ensures { result ≡ info_after Res.matching Info.aggregating simple.now gone key.now come
        row.now }
{
    if !row.0.matches(key) {
        return row.1.info;
    }
    let rest = match gone {
        None => row.1.info,
        Some(place) => fold_others(&row.0, simple, place),
    };
    match come {
        None => rest,
        Some(info) => Some(Info::aggregate(rest, &row.0, &info, key)),
    }
}

/// The infos of the aggregated rows after such a change.
pub(crate) fn infos_after<Id: Copy, Res: LocalResourceTrait, Info: LocalResourceInfoTrait<Res>>(
    alloc: Global,
    rows: &[(Res, AggregatedRow<Id, Info>)],
    simple: &[(Res, SimpleRow<Id, Info>)],
    gone: Option<usize>,
    key: &Res,
    come: Option<Info>,
) -> Result<Vec<Option<Info>>, Memory>
    requires { ForSome gone (λ place. place < length simple.now) }
    ensures { IfOk result (λ infos. infos.items
        ≡ map (info_after Res.matching Info.aggregating simple.now gone key.now come) rows.now) }
{
    let mut infos = Vec::new(alloc);
    for row in rows {
        infos.push(find_info_after(row, simple, gone, key, come))?;
    }
    Ok(infos)
}

/// Gives each aggregated row the info that stands beside it.
pub(crate) fn set_infos<Id: Copy, Res, Info: Copy>(
    rows: &mut Vec<(Res, AggregatedRow<Id, Info>)>,
    infos: &[Option<Info>],
)
    requires { length rows.old.items ≡ length infos.now }
    ensures { rows.new.items ≡ with_infos rows.old.items infos.now }
{
    for at in 0..infos.len() {
        let row = &mut rows[at];
        row.1.info = infos[at];
    }
}
