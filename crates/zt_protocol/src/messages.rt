ghost use Rattle.std.specs.Prelude.{◌≡◌, IfOk};

use crate::{InterestMode, InterestOptions};
use std::alloc::Global;
use zt_keys::{Key, Memory};
use zt_region::NodeId;

/// The number under which a face declares a token.
pub type TokenId = u32;

/// The number under which a face declares an interest.
pub type InterestId = u32;

/// What is known of a queryable.
#[derive(Clone, Copy, PartialEq, Eq, Debug)]
pub struct QueryableInfo {
    /// Whether it answers every query on its key.
    pub complete: bool,
    /// How many steps away it is.
    pub distance: u16,
}

/// What a gateway sends to a face, and what a face says to a gateway.
///
/// A declaration with an interest id answers that interest. Router regions name the router that a
/// token comes from by `node_id`, elsewhere it is 0.
#[derive(PartialEq, Eq, Debug, Drop)]
pub enum Message<K> {
    /// A token is alive; with the id 0, which is kept by nobody, in answer to what is there now.
    DeclareToken {
        id: TokenId,
        expr: K,
        interest_id: Option<InterestId>,
        node_id: NodeId,
    },
    /// The token of the id is gone; with the id 0 that of the expression.
    UndeclareToken {
        id: TokenId,
        expr: Option<K>,
        node_id: NodeId,
    },
    /// The interest was answered what is there now.
    DeclareFinal {
        interest_id: InterestId,
    },
    /// The gateway asks for what matches the expression, or without one for all.
    Interest {
        id: InterestId,
        mode: InterestMode,
        options: InterestOptions,
        expr: Option<K>,
    },
    /// Ends a future-mode interest. Zenoh sends an interest of mode `Final`.
    InterestFinal {
        id: InterestId,
    },
    /// A subscriber, in answer to an interest, under the number of its expression.
    DeclareSubscriber {
        id: u32,
        expr: K,
        interest_id: InterestId,
    },
    /// A queryable, in answer to an interest, under the number of its expression.
    DeclareQueryable {
        id: u32,
        expr: K,
        info: QueryableInfo,
        interest_id: InterestId,
    },
}

/// A copy of an expression, where there is one.
pub fn copy_expression<K: Key>(expr: &Option<K>, alloc: Global) -> Result<Option<K>, Memory>
    ensures { IfOk result (λ copy. copy ≡ expr.now) }
{
    match expr {
        None => Ok(None),
        Some(key) => Ok(Some(key.copy(alloc)?)),
    }
}

impl<K: Key> Message<K> {
    /// A message equal to this one.
    pub fn copy(&self, alloc: Global) -> Result<Message<K>, Memory>
        ensures { IfOk result (λ copy. copy ≡ self.now) }
    {
        Ok(match self {
            Message::DeclareToken {
                id,
                expr,
                interest_id,
                node_id,
            } => Message::DeclareToken {
                id: *id,
                expr: expr.copy(alloc)?,
                interest_id: *interest_id,
                node_id: *node_id,
            },
            Message::UndeclareToken { id, expr, node_id } => Message::UndeclareToken {
                id: *id,
                expr: copy_expression(expr, alloc)?,
                node_id: *node_id,
            },
            Message::DeclareFinal { interest_id } => Message::DeclareFinal {
                interest_id: *interest_id,
            },
            Message::Interest {
                id,
                mode,
                options,
                expr,
            } => Message::Interest {
                id: *id,
                mode: *mode,
                options: *options,
                expr: copy_expression(expr, alloc)?,
            },
            Message::InterestFinal { id } => Message::InterestFinal { id: *id },
            Message::DeclareSubscriber {
                id,
                expr,
                interest_id,
            } => Message::DeclareSubscriber {
                id: *id,
                expr: expr.copy(alloc)?,
                interest_id: *interest_id,
            },
            Message::DeclareQueryable {
                id,
                expr,
                info,
                interest_id,
            } => Message::DeclareQueryable {
                id: *id,
                expr: expr.copy(alloc)?,
                info: *info,
                interest_id: *interest_id,
            },
        })
    }
}
