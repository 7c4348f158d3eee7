// The items of an `entities` line.
ghost use Rattle.std.specs.Prelude.{◌≡◌, ◌++◌, ◌∷◌, [], OnOk, IfErr};
ghost use Rattle.std.specs.Option.{option_copied};
ghost use Rattle.zt_fields.specs.Fields.{Finds, fields_left, value_at};
ghost use Rattle.zt_lines.specs.Items.{subscriber_at, queryable_at, item_at, subscribers_of};
ghost use Rattle.zt_lines.specs.Items.{queryables_of, entities_read};

use crate::lists::push;
use std::alloc::Global;
use zt_fields::{field_at, flag_at, key_at, value_at};
use zt_keys::Key;
use zt_protocol::{LineError, QueryableInfo};

/// An item of an `entities` line.
#[derive(Drop)]
pub(crate) enum Item<K> {
    Subscriber { key: K },
    Queryable { key: K, info: QueryableInfo },
}

#[tactic(auto, unfolding(crate::specs::Items::subscriber_at))]
fn subscriber_at<K: Key>(
    alloc: Global,
    rest: Option<&str>,
) -> Result<(Item<K>, Option<&str>), LineError>
    ensures { Finds (λ x. (x.0, fields_left (option_copied x.1))) result
        (subscriber_at K.reading (fields_left (option_copied rest.entry))) }
{
    let (key, rest) = key_at(alloc, rest)?;
    Ok((Item::Subscriber { key }, rest))
}

#[tactic(auto, unfolding(crate::specs::Items::queryable_at))]
fn queryable_at<K: Key>(
    alloc: Global,
    rest: Option<&str>,
) -> Result<(Item<K>, Option<&str>), LineError>
    ensures { Finds (λ x. (x.0, fields_left (option_copied x.1))) result
        (queryable_at K.reading (fields_left (option_copied rest.entry))) }
{
    let (complete, rest) = flag_at(rest)?;
    let (distance, rest) = value_at(rest)?;
    let (key, rest) = key_at(alloc, rest)?;
    let info = QueryableInfo { complete, distance };
    Ok((Item::Queryable { key, info }, rest))
}

#[tactic(auto, unfolding(crate::specs::Items::item_at))]
fn item_at<K: Key>(alloc: Global, rest: Option<&str>) -> Result<(Item<K>, Option<&str>), LineError>
    ensures { Finds (λ x. (x.0, fields_left (option_copied x.1))) result
        (item_at K.reading (fields_left (option_copied rest.entry))) }
{
    let (kind, rest) = field_at(rest)?;
    match kind {
        "s" => subscriber_at(alloc, rest),
        "q" => queryable_at(alloc, rest),
        _ => Err(LineError::NotInGrammar),
    }
}

fn keep<K: Drop>(
    item: Item<K>,
    subscribers: &mut Vec<K>,
    queryables: &mut Vec<(K, QueryableInfo)>,
) -> Result<(), LineError>
    ensures subscribers { OnOk result
        (subscribers.new.items ≡ subscribers.old.items ++ subscribers_of (item ∷ [])) }
    ensures queryables { OnOk result
        (queryables.new.items ≡ queryables.old.items ++ queryables_of (item ∷ [])) }
    ensures err { IfErr result (λ e. e ≡ LineError.Memory) }
{
    match item {
        Item::Subscriber { key } => push(subscribers, key),
        Item::Queryable { key, info } => push(queryables, (key, info)),
    }
}

/// The subscribers and the queryables that the fields list, each in their order.
pub(crate) fn entities_of<K: Key>(
    alloc: Global,
    rest: Option<&str>,
) -> Result<(Vec<K>, Vec<(K, QueryableInfo)>), LineError>
    ensures { Finds (λ x. (x.0.items, x.1.items)) result
        (entities_read K.reading (fields_left (option_copied rest.entry))) }
{
    let mut subscribers = Vec::new(alloc);
    let mut queryables = Vec::new(alloc);
    let mut left = rest;
    while left.is_some() {
        let (item, after) = item_at(alloc, left)?;
        keep(item, &mut subscribers, &mut queryables)?;
        left = after;
    }
    Ok((subscribers, queryables))
}
