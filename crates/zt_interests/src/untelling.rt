// A face is told that what it doesn't want any more is gone.
ghost use Rattle.std.specs.Prelude.{◌≡◌, ◌++◌, IfOk, OnOk, Some, map};
ghost use Rattle.std.specs.List.{flat_map};
ghost use Rattle.zt_interests.specs.Untold.{untold_of};
ghost use Rattle.zt_model.specs.Hat.{hat_of_face};
ghost use Rattle.zt_model.specs.Lists.{in_key_order};
ghost use Rattle.zt_model.specs.Parts.{find_face, to_face};
ghost use Rattle.zt_model.specs.Routing.{untell_to};

use std::alloc::Global;
use zt_keys::{Key, Memory};
use zt_protocol::Message;
use zt_state::{FaceState, GatewayState};
use zt_tokens::{KeysInOrder, find_face, hat_of_face, wants};

// The expressions that the face was told, in key order, each once.
#[tactic(auto, using(zt_tokens::proofs::Gathering::in_key_order_is))]
fn told_in_order<K: Key>(alloc: Global, f: &FaceState<K>) -> Result<Vec<K>, Memory>
    ensures { IfOk result (λ exprs. exprs.items
        ≡ in_key_order K.cmp (map (λ row. row.1) f.now.told)) }
{
    let mut exprs = KeysInOrder::new(alloc);
    for place in f.told().places().iter().rev() {
        if let Some(expr) = place.row() {
            exprs.insert(alloc, expr)?;
        }
    }
    exprs.into_vec(alloc)
}

// Adds that the expression is gone, where the face was told it and doesn't want it.
fn untell_one<K: Key>(
    g: &GatewayState<K>,
    face: u32,
    f: &FaceState<K>,
    expr: &K,
    sends: &mut Vec<(u32, Message<K>)>,
) -> Result<(), Memory>
    requires { find_face face g.now ≡ Some f.now }
    ensures { OnOk result (sends.new.items ≡ sends.old.items
        ++ map (λ m. (face, m)) (untold_of K.cmp K.matching f.now expr.now)) }
{
    if wants(f, expr) {
        return Ok(());
    }
    match g.told_id(expr, face) {
        None => Ok(()),
        Some(id) => {
            let message = Message::UndeclareToken {
                id,
                expr: None,
                node_id: 0,
            };
            sends.push((face, message))?;
            Ok(())
        }
    }
}

// That these expressions are gone, each where the face was told it and doesn't want it.
fn untell_all<K: Key>(
    alloc: Global,
    g: &GatewayState<K>,
    face: u32,
    f: &FaceState<K>,
    exprs: &[K],
) -> Result<Vec<(u32, Message<K>)>, Memory>
    requires { find_face face g.now ≡ Some f.now }
    ensures { IfOk result (λ sends. sends.items
        ≡ map (λ m. (face, m)) (flat_map (untold_of K.cmp K.matching f.now) exprs.now)) }
{
    let mut sends = Vec::new(alloc);
    for expr in exprs {
        untell_one(g, face, f, expr, &mut sends)?;
    }
    Ok(sends)
}

// Whether the face is told unasked, by its hat. It goes on being told.
fn is_told_unasked<K: Key>(g: &GatewayState<K>, f: &FaceState<K>) -> bool
    ensures { result ≡ (hat_of_face g.now f.now).is_told_unasked f.now.region }
{
    hat_of_face(g, f).is_told_unasked(f.region())
}

// What the face is told is gone.
#[tactic(auto, using(crate::proofs::Gone::untold_all), unfolding(zt_model::specs::Routing::untell_to))]
fn untell_to<K: Key>(
    alloc: Global,
    g: &GatewayState<K>,
    face: u32,
    f: &FaceState<K>,
) -> Result<Vec<(u32, Message<K>)>, Memory>
    requires { find_face face g.now ≡ Some f.now }
    ensures { IfOk result (λ sends. sends.items
        ≡ map (λ m. (face, m)) (untell_to K.cmp K.matching g.now f.now)) }
{
    if is_told_unasked(g, f) {
        return Ok(Vec::new(alloc));
    }
    let exprs = told_in_order(alloc, f)?;
    Ok(untell_all(alloc, g, face, f, exprs.as_slice())?)
}

/// A face is told that what it doesn't want any more is gone, by id, in key order.
#[tactic(auto, unfolding(zt_model::specs::Parts::to_face))]
pub fn untell<K: Key>(
    alloc: Global,
    g: &GatewayState<K>,
    face: u32,
) -> Result<Vec<(u32, Message<K>)>, Memory>
    ensures { IfOk result (λ sends. sends.items
        ≡ to_face face (untell_to K.cmp K.matching g.now) g.now) }
{
    match find_face(g, face) {
        None => Ok(Vec::new(alloc)),
        Some(f) => untell_to(alloc, g, face, f),
    }
}
