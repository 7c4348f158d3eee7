// Insertion and removal of simple resources, by the rules.
ghost use Rattle.std.specs.Prelude.{◌≡◌, IfOk, OnOk, OnErr, MatchOption, Some};
ghost use Rattle.std.specs.Option.{ForNone};
ghost use Rattle.std.specs.FinMap.Entries.{find, put};
ghost use Rattle.zt_locals.specs.Folding.{refreshed};
ghost use Rattle.zt_locals.specs.Interests.{joined};
ghost use Rattle.zt_ordered.specs.Rows.{without};
ghost use Rattle.zt_locals.specs.Resources.{IsSound, id_among, interests_of, is_told, simple_row};
ghost use Rattle.zt_locals.specs.Resources.{insert_results, remove_answer};

use crate::rows::{Body, LocalResourceInsertResult, LocalResourceRemoveResult};
use crate::simple::{insert_known, insert_new, remove_known};
use crate::traits::{LocalResourceInfoTrait, LocalResourceTrait};
use zt_keys::Memory;
use zt_ordered::place_of;
use zt_protocol::InterestId;

/// Inserts a simple row, or gives the one under the key another info and more interests.
pub(crate) fn insert_simple<
    Id: Copy,
    Res: LocalResourceTrait,
    Info: LocalResourceInfoTrait<Res>,
    F: FnOnce() -> Id,
>(
    body: &mut Body<Id, Res, Info>,
    key: Res,
    info: Info,
    f_id: F,
    interests: &[InterestId],
) -> Result<(Id, Vec<LocalResourceInsertResult<Id, Res, Info>>), Memory>
    requires sound { IsSound Res.cmp Res.matching Info.aggregating body.old.simple.items
        body.old.aggregated.items }
    requires callable { ForNone
        (id_among (find Res.cmp key body.old.simple.items)
        (find Res.cmp key body.old.aggregated.items)) (F.pre f_id) }
    ensures id { IfOk result (λ r. MatchOption
        (id_among (find Res.cmp key body.old.simple.items)
        (find Res.cmp key body.old.aggregated.items)) (F.post f_id r.0) (λ id. r.0 ≡ id)) }
    ensures simple { IfOk result
        (λ r. body.new.simple.items
        ≡ put Res.cmp key (simple_row r.0 info
        (joined (interests_of (find Res.cmp key body.old.simple.items)) interests.now))
        body.old.simple.items) }
    ensures aggregated { OnOk result
        (body.new.aggregated.items
        ≡ refreshed Res.matching Info.aggregating body.new.simple.items body.old.aggregated.items) }
    ensures results { IfOk result
        (λ r. r.1.items ≡ insert_results Res.cmp Res.matching Info.eq Info.aggregating r.0 info
        (is_told Info.eq key (find Res.cmp key body.old.simple.items) info
        (joined (interests_of (find Res.cmp key body.old.simple.items)) interests.now))
        body.new.simple.items body.old.aggregated.items) }
    ensures err_simple { OnErr result (body.new.simple.items ≡ body.old.simple.items) }
    ensures err_aggregated { OnErr result (body.new.aggregated.items ≡ body.old.aggregated.items) }
    ensures sound { OnOk result
        (IsSound Res.cmp Res.matching Info.aggregating body.new.simple.items
        body.new.aggregated.items) }
{
    match place_of(&body.simple, &key) {
        Ok(place) => {
            let told = insert_known(body, place, key, info, interests)?;
            Ok(told)
        }
        Err(place) => {
            let told = insert_new(body, place, key, info, f_id, interests)?;
            Ok(told)
        }
    }
}

/// Removes the simple row under the key, if there is one.
pub(crate) fn remove_simple<Id: Copy, Res: LocalResourceTrait, Info: LocalResourceInfoTrait<Res>>(
    body: &mut Body<Id, Res, Info>,
    key: &Res,
) -> Result<Vec<LocalResourceRemoveResult<Id, Res, Info>>, Memory>
    requires { IsSound Res.cmp Res.matching Info.aggregating body.old.simple.items
        body.old.aggregated.items }
    ensures simple { OnOk result
        (body.new.simple.items ≡ without Res.cmp key.now body.old.simple.items) }
    ensures aggregated { OnOk result
        (body.new.aggregated.items
        ≡ refreshed Res.matching Info.aggregating body.new.simple.items body.old.aggregated.items) }
    ensures results { IfOk result
        (λ results. results.items
        ≡ remove_answer Res.cmp Res.matching Info.eq Info.aggregating key.now
        (find Res.cmp key.now body.old.simple.items) body.new.simple.items
        body.old.aggregated.items) }
    ensures err_simple { OnErr result (body.new.simple.items ≡ body.old.simple.items) }
    ensures err_aggregated { OnErr result (body.new.aggregated.items ≡ body.old.aggregated.items) }
    ensures sound { OnOk result
        (IsSound Res.cmp Res.matching Info.aggregating body.new.simple.items
        body.new.aggregated.items) }
{
    match place_of(&body.simple, key) {
        Ok(place) => {
            let results = remove_known(body, place, key)?;
            Ok(results)
        }
        Err(_) => Ok(Vec::new(*body.simple.allocator())),
    }
}
