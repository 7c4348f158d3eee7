// The rows that are kept, and what the calls tell of them.
use crate::interests::InterestSet;

/// A simple resource: its id, its info and the interests that it answers. Its key stands beside it.
#[derive(Drop)]
pub struct SimpleRow<Id, Info> {
    pub(crate) id: Id,
    pub(crate) info: Info,
    pub(crate) interests: InterestSet,
}

/// An aggregated resource: its id, what it has of the simple resources that match it, and the
/// interests that it answers. Its key stands beside it.
#[derive(Drop)]
pub struct AggregatedRow<Id, Info> {
    pub(crate) id: Id,
    pub(crate) info: Option<Info>,
    pub(crate) interests: InterestSet,
}

/// The two lists of rows, each in the order of the keys.
#[derive(Drop)]
pub(crate) struct Body<Id, Res, Info> {
    pub(crate) simple: Vec<(Res, SimpleRow<Id, Info>)>,
    pub(crate) aggregated: Vec<(Res, AggregatedRow<Id, Info>)>,
}

/// A resource that is to be declared under an id, since it came or its info changed.
#[derive(PartialEq, Eq, Debug, Drop)]
pub struct LocalResourceInsertResult<Id, Res, Info> {
    pub id: Id,
    pub resource: Res,
    pub info: Info,
}

/// A resource whose info changed to `update`, or that is to be undeclared, where that is `None`.
#[derive(PartialEq, Eq, Debug, Drop)]
pub struct LocalResourceRemoveResult<Id, Res, Info> {
    pub id: Id,
    pub resource: Res,
    pub update: Option<Info>,
}
