//! Local resources.
ghost use Rattle.std.specs.Prelude.{◌≡◌, [], IfOk, OnOk, OnErr, MatchOption, is_some};
ghost use Rattle.std.specs.Option.{ForNone};
ghost use Rattle.std.specs.FinMap.Entries.{find, put};
ghost use Rattle.zt_locals.specs.Ending.{aggregated_after, ending, simple_after, unasked_rows};
ghost use Rattle.zt_locals.specs.Folding.{aggregate_of, refreshed};
ghost use Rattle.zt_locals.specs.Interests.{joined};
ghost use Rattle.zt_ordered.specs.Rows.{without};
ghost use Rattle.zt_locals.specs.Resources.{IsSound, aggregated_id_among, aggregated_interests_of};
ghost use Rattle.zt_locals.specs.Resources.{aggregated_row, id_among, interests_of, is_told};
ghost use Rattle.zt_locals.specs.Resources.{simple_row, insert_results, remove_answer};

use crate::aggregated::insert_aggregated;
use crate::change::{insert_simple, remove_simple};
use crate::ending::{end_aggregated_interest, end_simple_interest};
use crate::rows::{Body, LocalResourceInsertResult, LocalResourceRemoveResult};
use crate::traits::{LocalResourceInfoTrait, LocalResourceTrait};
use std::alloc::Global;
use std::marker::Model;
use zt_keys::Memory;
use zt_ordered::place_of;
use zt_protocol::InterestId;

/// What a face was told of resources of its own, the simple ones, and of aggregates of them.
///
/// Contracts see the two lists, `simple` and `aggregated`, each in the order of the keys. A simple
/// row has an id, an info and interests. An aggregated row has an id, interests, and the info that
/// the simple rows that match its key make together, by `aggregate`, in whatever order.
#[derive(Drop)]
pub struct LocalResources<Id: Copy, Res: LocalResourceTrait, Info: LocalResourceInfoTrait<Res>> {
    body: Body<Id, Res, Info>,
}

impl<Id: Copy, Res: LocalResourceTrait, Info: LocalResourceInfoTrait<Res>> Model
    for LocalResources<Id, Res, Info> {
    ghost use Rattle.zt_locals.specs.Resources.{Resources, resources_code, IsSound};

    ghost Value = { Resources Id Res Info };

    ghost coded = { resources_code Id.code Res.code Info.code };

    ghost view = { λ a. record {
      simple = a.body.simple.items;
      aggregated = a.body.aggregated.items;
    } };

    ghost invariant = { λ a. IsSound Res.cmp Res.matching Info.aggregating a.body.simple.items
        a.body.aggregated.items };
}

impl<Id: Copy, Res: LocalResourceTrait, Info: LocalResourceInfoTrait<Res>> LocalResources<
    Id,
    Res,
    Info,
> {
    /// No resources. It takes no memory.
    pub fn new(alloc: Global) -> Self
        ensures simple { result.simple ≡ [] }
        ensures aggregated { result.aggregated ≡ [] }
    {
        LocalResources {
            body: Body {
                simple: Vec::new(alloc),
                aggregated: Vec::new(alloc),
            },
        }
    }

    /// Whether there is a simple resource under the key. A binary search.
    pub fn contains_simple_resource(&self, key: &Res) -> bool
        ensures found { result ≡ is_some (find Res.cmp key.now self.now.simple) }
        ensures sound { IsSound Res.cmp Res.matching Info.aggregating self.now.simple
            self.now.aggregated }
    {
        place_of(&self.body.simple, key).is_ok()
    }

    /// Inserts a simple resource, or gives the one under the key another info and more interests.
    /// Answers its id, and in key order what is to be told: the aggregated resources that match it
    /// and whose infos change, and the resource itself, before an aggregated one of the same key,
    /// if it answers some interest and is new or has another info.
    ///
    /// A new key takes the id of the aggregated resource of the same key, or else what `f_id`
    /// answers, which is called only then. After an error nothing is changed, and `f_id` wasn't
    /// called.
    pub fn insert_simple_resource<F: FnOnce() -> Id>(
        &mut self,
        key: Res,
        info: Info,
        f_id: F,
        simple_interests: &[InterestId],
    ) -> Result<(Id, Vec<LocalResourceInsertResult<Id, Res, Info>>), Memory>
        requires { let had = id_among (find Res.cmp key self.old.simple)
            (find Res.cmp key self.old.aggregated) in
            ForNone had (F.pre f_id) }
        ensures id { let had = id_among (find Res.cmp key self.old.simple)
            (find Res.cmp key self.old.aggregated) in
            IfOk result (λ r. MatchOption had (F.post f_id r.0) (λ id. r.0 ≡ id)) }
        ensures simple { let interests = joined
            (interests_of (find Res.cmp key self.old.simple)) simple_interests.now in
            IfOk result (λ r. self.new.simple
            ≡ put Res.cmp key (simple_row r.0 info interests) self.old.simple) }
        ensures aggregated { OnOk result (self.new.aggregated
            ≡ refreshed Res.matching Info.aggregating self.new.simple self.old.aggregated) }
        ensures results { let was = find Res.cmp key self.old.simple in
            let told = is_told Info.eq key was info
            (joined (interests_of was) simple_interests.now) in
            IfOk result (λ r. r.1.items
            ≡ insert_results Res.cmp Res.matching Info.eq Info.aggregating r.0 info told
            self.new.simple self.old.aggregated) }
        ensures err { OnErr result (self.new ≡ self.old) }
        ensures sound { IsSound Res.cmp Res.matching Info.aggregating self.new.simple
            self.new.aggregated }
    {
        insert_simple(&mut self.body, key, info, f_id, simple_interests)
    }

    /// Removes the simple resource under the key. Answers in key order what is to be told: the
    /// aggregated resources that match it and whose infos change, with their infos, and the
    /// resource itself with none, if it answered some interest. Answers nothing where it isn't
    /// there. An error changes nothing.
    pub fn remove_simple_resource(
        &mut self,
        key: &Res,
    ) -> Result<Vec<LocalResourceRemoveResult<Id, Res, Info>>, Memory>
        ensures simple { OnOk result (self.new.simple ≡ without Res.cmp key.now self.old.simple) }
        ensures aggregated { OnOk result (self.new.aggregated
            ≡ refreshed Res.matching Info.aggregating self.new.simple self.old.aggregated) }
        ensures results { let was = find Res.cmp key.now self.old.simple in
            IfOk result (λ results. results.items
            ≡ remove_answer Res.cmp Res.matching Info.eq Info.aggregating key.now was
            self.new.simple self.old.aggregated) }
        ensures err { OnErr result (self.new ≡ self.old) }
        ensures sound { IsSound Res.cmp Res.matching Info.aggregating self.new.simple
            self.new.aggregated }
    {
        remove_simple(&mut self.body, key)
    }

    /// Inserts an aggregated resource, or gives the one under the key more interests. Answers its
    /// id, and the info that the simple resources that match it make together, `None` where none
    /// does.
    ///
    /// A new key takes the id of the simple resource of the same key, or else what `f_id` answers,
    /// which is called only then. After an error nothing is changed, and `f_id` wasn't called.
    pub fn insert_aggregated_resource<F: FnOnce() -> Id>(
        &mut self,
        key: Res,
        f_id: F,
        aggregated_interests: &[InterestId],
    ) -> Result<(Id, Option<Info>), Memory>
        requires { let had = aggregated_id_among (find Res.cmp key self.old.aggregated)
            (find Res.cmp key self.old.simple) in
            ForNone had (F.pre f_id) }
        ensures id { let had = aggregated_id_among (find Res.cmp key self.old.aggregated)
            (find Res.cmp key self.old.simple) in
            IfOk result (λ r. MatchOption had (F.post f_id r.0) (λ id. r.0 ≡ id)) }
        ensures info { IfOk result
            (λ r. r.1 ≡ aggregate_of Res.matching Info.aggregating key self.old.simple) }
        ensures aggregated { let interests = joined
            (aggregated_interests_of (find Res.cmp key self.old.aggregated))
            aggregated_interests.now in
            IfOk result (λ r. self.new.aggregated
            ≡ put Res.cmp key (aggregated_row r.0 r.1 interests) self.old.aggregated) }
        ensures simple { self.new.simple ≡ self.old.simple }
        ensures err { OnErr result (self.new ≡ self.old) }
        ensures sound { IsSound Res.cmp Res.matching Info.aggregating self.new.simple
            self.new.aggregated }
    {
        let body = &mut self.body;
        insert_aggregated(
            &body.simple,
            &mut body.aggregated,
            key,
            f_id,
            aggregated_interests,
        )
    }

    /// Takes an interest from each simple resource. One that had it, answers no other and belongs
    /// to no aggregated resource goes. It takes no memory.
    pub fn remove_simple_resource_interest(&mut self, simple_interest: InterestId)
        ensures simple { self.new.simple
            ≡ unasked_rows Res.matching simple_interest self.old.aggregated self.old.simple }
        ensures aggregated { self.new.aggregated ≡ self.old.aggregated }
        ensures sound { IsSound Res.cmp Res.matching Info.aggregating self.new.simple
            self.new.aggregated }
    {
        end_simple_interest(&mut self.body, simple_interest);
    }

    /// Takes an interest from the aggregated resource under the key. Where it was the last, the
    /// aggregated resource goes, and with it each simple resource that belonged to it, answers no
    /// interest and belongs to no other aggregated resource. Answers whether there is such an
    /// aggregated resource and it had the interest; else nothing is changed. It takes no memory.
    pub fn remove_aggregated_resource_interest(
        &mut self,
        key: &Res,
        aggregated_interest: InterestId,
    ) -> bool
        ensures answer { result
            ≡ is_some (ending aggregated_interest (find Res.cmp key.now self.old.aggregated)) }
        ensures aggregated { let end = ending aggregated_interest
            (find Res.cmp key.now self.old.aggregated) in
            self.new.aggregated ≡ aggregated_after Res.cmp key.now end self.old.aggregated }
        ensures simple { let end = ending aggregated_interest
            (find Res.cmp key.now self.old.aggregated) in
            self.new.simple ≡ simple_after Res.matching key.now end self.new.aggregated
            self.old.simple }
        ensures sound { IsSound Res.cmp Res.matching Info.aggregating self.new.simple
            self.new.aggregated }
    {
        end_aggregated_interest(&mut self.body, key, aggregated_interest)
    }

    /// Drops all resources.
    pub fn clear(&mut self)
        ensures simple { self.new.simple ≡ [] }
        ensures aggregated { self.new.aggregated ≡ [] }
    {
        self.body.simple.clear();
        self.body.aggregated.clear();
    }
}
