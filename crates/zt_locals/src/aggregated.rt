// Insertion of aggregated resources, by the rules.
ghost use Rattle.std.specs.Prelude.{◌≡◌, ◌≤◌, ◌<◌, [], insert, None, slice_index_or, slice_set};
ghost use Rattle.std.specs.Prelude.{vec_len, IsTrue, IfOk, OnOk, OnErr, MatchOption};
ghost use Rattle.std.specs.Option.{ForNone, option_map};
ghost use Rattle.std.specs.FinMap.Entries.{find, put, is_sorted};
ghost use Rattle.zt_locals.specs.Folding.{AreFolds, aggregate_of, fold_from};
ghost use Rattle.zt_locals.specs.Interests.{joined};
ghost use Rattle.zt_locals.specs.Resources.{IsSound, aggregated_id_among, aggregated_row};
ghost use Rattle.zt_locals.specs.Resources.{aggregated_interests_of};
ghost use Rattle.zt_locals.specs.declared.rows.AggregatedRow.{AggregatedRow};

use crate::fold::fold_onto;
use crate::interests::InterestSet;
use crate::rows::{AggregatedRow, SimpleRow};
use crate::simple::insert_row;
use crate::traits::{LocalResourceInfoTrait, LocalResourceTrait};
use zt_keys::Memory;
use zt_ordered::place_of;
use zt_protocol::InterestId;

/// The id of a simple row.
fn id_of_simple<Id: Copy, Res: LocalResourceTrait, Info>(
    rows: &[(Res, SimpleRow<Id, Info>)],
    key: &Res,
) -> Option<Id>
    requires { IsTrue (is_sorted Res.cmp rows.now) }
    ensures { result ≡ option_map (λ row. row.id) (find Res.cmp key.now rows.now) }
{
    match place_of(rows, key) {
        Ok(place) => Some(rows[place].1.id),
        Err(_) => None,
    }
}

/// Gives the aggregated row at a place more interests. After an error it is what it was.
fn join_row<Id: Copy, Res: LocalResourceTrait, Info: Copy>(
    rows: &mut Vec<(Res, AggregatedRow<Id, Info>)>,
    place: usize,
    interests: &[InterestId],
) -> Result<(Id, Option<Info>), Memory>
    requires { place < vec_len rows.old }
    ensures ok { IfOk result (λ r. (row : Res × AggregatedRow Id Info)
        → row ≡ slice_index_or rows.old.items place row
        → rows.new.items ≡ slice_set rows.old.items place
        (row.0, aggregated_row r.0 r.1 (joined row.1.interests interests.now))) }
    ensures id { IfOk result (λ r. (row : Res × AggregatedRow Id Info)
        → row ≡ slice_index_or rows.old.items place row → r.0 ≡ row.1.id) }
    ensures info { IfOk result
        (λ r. (row : Res × AggregatedRow Id Info) → row ≡ slice_index_or rows.old.items place row
        → r.1 ≡ row.1.info) }
    ensures err { OnErr result (rows.new.items ≡ rows.old.items) }
{
    let row = &mut rows[place];
    row.1.interests.join(interests)?;
    Ok((row.1.id, row.1.info))
}

/// Inserts a new aggregated row at its place.
fn insert_new<
    Id: Copy,
    Res: LocalResourceTrait,
    Info: LocalResourceInfoTrait<Res>,
    F: FnOnce() -> Id,
>(
    simple: &[(Res, SimpleRow<Id, Info>)],
    rows: &mut Vec<(Res, AggregatedRow<Id, Info>)>,
    place: usize,
    key: Res,
    f_id: F,
    interests: &[InterestId],
) -> Result<(Id, Option<Info>), Memory>
    requires in_order { IsTrue (is_sorted Res.cmp simple.now) }
    requires within { place ≤ vec_len rows.old }
    requires callable { ForNone (option_map (λ row. row.id) (find Res.cmp key simple.now))
        (F.pre f_id) }
    ensures id { IfOk result (λ r. MatchOption
        (option_map (λ row. row.id) (find Res.cmp key simple.now)) (F.post f_id r.0)
        (λ id. r.0 ≡ id)) }
    ensures info { IfOk result
        (λ r. r.1 ≡ fold_from Res.matching Info.aggregating key None simple.now) }
    ensures rows { IfOk result
        (λ r. rows.new.items
        ≡ insert rows.old.items place (key, aggregated_row r.0 r.1 (joined [] interests.now))) }
    ensures err { OnErr result (rows.new.items ≡ rows.old.items) }
{
    let mut set = InterestSet::new(*rows.allocator());
    set.join(interests)?;
    rows.reserve(1)?;
    let id = id_of_simple(simple, &key).unwrap_or_else(f_id);
    let info = fold_onto(&key, None, simple);
    let row = AggregatedRow {
        id,
        info,
        interests: set,
    };
    insert_row(rows, place, (key, row));
    Ok((id, info))
}

/// Inserts an aggregated row, or gives the one under the key more interests.
pub(crate) fn insert_aggregated<
    Id: Copy,
    Res: LocalResourceTrait,
    Info: LocalResourceInfoTrait<Res>,
    F: FnOnce() -> Id,
>(
    simple: &[(Res, SimpleRow<Id, Info>)],
    rows: &mut Vec<(Res, AggregatedRow<Id, Info>)>,
    key: Res,
    f_id: F,
    interests: &[InterestId],
) -> Result<(Id, Option<Info>), Memory>
    requires sound { IsSound Res.cmp Res.matching Info.aggregating simple.now rows.old.items }
    requires callable { ForNone
        (aggregated_id_among (find Res.cmp key rows.old.items) (find Res.cmp key simple.now))
        (F.pre f_id) }
    ensures id { IfOk result (λ r. MatchOption
        (aggregated_id_among (find Res.cmp key rows.old.items) (find Res.cmp key simple.now))
        (F.post f_id r.0) (λ id. r.0 ≡ id)) }
    ensures info { IfOk result
        (λ r. r.1 ≡ aggregate_of Res.matching Info.aggregating key simple.now) }
    ensures rows { IfOk result
        (λ r. rows.new.items
        ≡ put Res.cmp key (aggregated_row r.0 r.1
        (joined (aggregated_interests_of (find Res.cmp key rows.old.items)) interests.now))
        rows.old.items) }
    ensures err { OnErr result (rows.new.items ≡ rows.old.items) }
    ensures sound { IsSound Res.cmp Res.matching Info.aggregating simple.now rows.new.items }
{
    match place_of(rows, &key) {
        Ok(place) => {
            let known = join_row(rows, place, interests)?;
            Ok(known)
        }
        Err(place) => {
            let new = insert_new(simple, rows, place, key, f_id, interests)?;
            Ok(new)
        }
    }
}
