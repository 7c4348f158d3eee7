// An engine, and how it is made.
ghost use Rattle.std.specs.Prelude.{◌≡◌, [], IfNone, IfSome};
ghost use Rattle.zt_engine.specs.Numbers.{IsMade, IsNotMade};
ghost use Rattle.zt_liveliness.specs.Lively.{begun};
ghost use Rattle.zt_model.specs.Fabric.{new_rows};

use crate::numbers::{Node, node_of};
use std::alloc::Global;
use zt_gateway::GatewayBuilder;
use zt_keys::{Key, KeyExpr};
use zt_liveliness::Liveliness;

/// Sessions and uplinks over a gateway whose keys are key expressions.
#[derive(Drop)]
pub struct Engine {
    pub liveliness: Liveliness<KeyExpr>,
}

// Sessions and uplinks over a new gateway that has no south regions.
fn liveliness_of<K: Key>(alloc: Global, node: Node, timeout: u64) -> Liveliness<K>
    ensures { result ≡ begun (new_rows node.mode node.zid [] timeout []) }
{
    let builder = GatewayBuilder::new(alloc, node.mode, node.zid).timeout(timeout);
    match builder.build() {
        Ok(gateway) => Liveliness::new(alloc, gateway),
        Err(_) => unreachable!(),
    }
}

/// Sessions and uplinks over a new gateway of this number and mode that has no south regions. Asks
/// that it sends upstream end after the timeout. None where no gateway has these numbers.
pub fn new_liveliness<K: Key>(
    alloc: Global,
    zid_high: u64,
    zid_low: u64,
    mode: u32,
    timeout: u64,
) -> Option<Liveliness<K>>
    ensures made { IfSome result (IsMade zid_high zid_low mode timeout) }
    ensures no_room { IfSome result (λ made. IsNotMade zid_high zid_low mode 5) }
    ensures not_made { IfNone result (IsNotMade zid_high zid_low mode 8) }
{
    let node = node_of(zid_high, zid_low, mode)?;
    Some(liveliness_of(alloc, node, timeout))
}
