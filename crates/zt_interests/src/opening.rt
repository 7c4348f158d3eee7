// What a new face is sent.
ghost use Rattle.std.specs.List.{flat_map};
ghost use Rattle.std.specs.Prelude.{◌≡◌, ◌+◌, ◌++◌, ◌∷◌, [], None, IfOk, OnOk, map};
ghost use Rattle.zt_interests.specs.Held.{held_by, in_both};
ghost use Rattle.zt_model.specs.Lists.{with_key};
ghost use Rattle.zt_model.specs.Parts.{to_face};
ghost use Rattle.zt_model.specs.Routing.{held_south, interest_order, interests_from, is_greeted};
ghost use Rattle.zt_model.specs.Routing.{opening_final, opening_interests, opening_tokens};
ghost use Rattle.zt_model.specs.Routing.{tokens_from};
ghost use Rattle.zt_protocol.specs.declared.messages.Message.TheVariants as message;
ghost use Rattle.zt_tokens.specs.Gathered.{with_keys};

use crate::ordering::InterestsInOrder;
use crate::routing::{is_north, leads_up};
use std::alloc::Global;
use zt_keys::{Key, Memory};
use zt_protocol::{Message, copy_expression};
use zt_state::{FaceState, GatewayState, OpenFaces, RemoteInterest, RowsById};
use zt_tokens::{find_face, hat_of_face, visible_expressions};

// Whether the new face is told of what is there: where it is told unasked, and not by trees.
fn is_greeted<K: Key>(g: &GatewayState<K>, f: &FaceState<K>) -> bool
    ensures { result ≡ is_greeted K.cmp K.matching g.now f.now }
{
    let hat = hat_of_face(g, f);
    !hat.goes_by_trees() && hat.is_told_unasked(f.region())
}

// Puts these interests in their places, asked for now and later.
fn insert_rows<K: Key>(
    alloc: Global,
    rows: &RowsById<RemoteInterest<K>>,
    interests: &mut InterestsInOrder<K>,
) -> Result<(), Memory>
    ensures { OnOk result (interests.new
        ≡ with_keys (interest_order K.cmp K.matching) (map (λ row. in_both row.1) rows.now)
        interests.old) }
{
    for (_, interest) in rows.iter().rev() {
        interests.insert(alloc, interest)?;
    }
    Ok(())
}

// Puts what the face holds in its places, if the face is south-bound.
fn insert_held_by<K: Key>(
    alloc: Global,
    f: &FaceState<K>,
    interests: &mut InterestsInOrder<K>,
) -> Result<(), Memory>
    ensures { OnOk result (interests.new
        ≡ with_keys (interest_order K.cmp K.matching) (held_by f.now) interests.old) }
{
    if !is_north(f) {
        insert_rows(alloc, f.held(), interests)?;
    }
    Ok(())
}

// Puts what these faces hold in its places.
fn insert_faces<K: Key>(
    alloc: Global,
    faces: OpenFaces<'_, K>,
    interests: &mut InterestsInOrder<K>,
) -> Result<(), Memory>
    ensures { OnOk result (interests.new
        ≡ with_keys (interest_order K.cmp K.matching) (flat_map held_by faces.entry)
        interests.old) }
{
    for f in faces.rev() {
        insert_held_by(alloc, f, interests)?;
    }
    Ok(())
}

// What south-bound faces hold, each pair of expression and options once.
#[tactic(auto, using(zt_tokens::proofs::Gathering::in_key_order_is), unfolding(zt_model::specs::Routing::held_south))]
fn held_south<K: Key>(alloc: Global, g: &GatewayState<K>) -> Result<Vec<RemoteInterest<K>>, Memory>
    ensures { IfOk result (λ interests. interests.items ≡ held_south K.cmp K.matching g.now) }
{
    let mut interests = InterestsInOrder::new(alloc);
    insert_faces(alloc, g.faces(), &mut interests)?;
    interests.into_vec(alloc)
}

/// The interests that a new face is sent: where it leads to a gateway above, what south-bound faces
/// hold, each pair of expression and options once, else none.
pub fn opening_interests<K: Key>(
    alloc: Global,
    g: &GatewayState<K>,
    f: &FaceState<K>,
) -> Result<Vec<RemoteInterest<K>>, Memory>
    ensures { IfOk result (λ interests. interests.items
        ≡ opening_interests K.cmp K.matching g.now f.now) }
{
    if leads_up(g, f) {
        held_south(alloc, g)
    } else {
        Ok(Vec::new(alloc))
    }
}

/// The tokens that a new face is told: where it is told unasked, and not by trees, those that are
/// visible to it, else none.
pub fn opening_tokens<K: Key>(
    alloc: Global,
    g: &GatewayState<K>,
    f: &FaceState<K>,
) -> Result<Vec<K>, Memory>
    ensures { IfOk result (λ exprs. exprs.items ≡ opening_tokens K.cmp K.matching g.now f.now) }
{
    if is_greeted(g, f) {
        visible_expressions(alloc, g, f.region())
    } else {
        Ok(Vec::new(alloc))
    }
}

// The id after this one; ids that run out count as out of memory.
fn next_id(id: u32) -> Result<u32, Memory>
    ensures { IfOk result (λ next. next ≡ id + 1) }
{
    id.checked_add(1).ok_or(Memory)
}

// These interests, sent to the face under the ids from `first` on.
fn send_interests<K: Key>(
    alloc: Global,
    face: u32,
    first: u32,
    interests: &[RemoteInterest<K>],
) -> Result<Vec<(u32, Message<K>)>, Memory>
    ensures { IfOk result (λ sends. sends.items
        ≡ map (λ m. (face, m)) (interests_from first interests.now)) }
{
    let mut sends = Vec::new(alloc);
    let mut next = first;
    for interest in interests {
        send_interest(alloc, face, next, interest, &mut sends)?;
        next = next_id(next)?;
    }
    Ok(sends)
}

// Adds an interest under this id.
fn send_interest<K: Key>(
    alloc: Global,
    face: u32,
    id: u32,
    interest: &RemoteInterest<K>,
    sends: &mut Vec<(u32, Message<K>)>,
) -> Result<(), Memory>
    ensures { OnOk result (sends.new.items ≡ sends.old.items
        ++ (face, message.Interest id interest.now.mode interest.now.options interest.now.expr)
        ∷ []) }
{
    let message = Message::Interest {
        id,
        mode: interest.mode(),
        options: interest.options(),
        expr: copy_expression(interest.expr(), alloc)?,
    };
    sends.push((face, message))?;
    Ok(())
}

// The interests that this new face is sent.
fn open_interests_to<K: Key>(
    alloc: Global,
    g: &GatewayState<K>,
    face: u32,
    f: &FaceState<K>,
) -> Result<Vec<(u32, Message<K>)>, Memory>
    ensures { IfOk result (λ sends. sends.items ≡ map (λ m. (face, m))
        (interests_from f.now.next (opening_interests K.cmp K.matching g.now f.now))) }
{
    let interests = opening_interests(alloc, g, f)?;
    send_interests(alloc, face, f.next(), interests.as_slice())
}

/// A new face is sent its interests, under its ids from the next one on. Ids that run out count as
/// out of memory.
#[tactic(auto, unfolding(zt_model::specs::Parts::to_face))]
pub fn open_interests<K: Key>(
    alloc: Global,
    g: &GatewayState<K>,
    face: u32,
) -> Result<Vec<(u32, Message<K>)>, Memory>
    ensures { IfOk result (λ sends. sends.items
        ≡ to_face face
        (λ f. interests_from f.next (opening_interests K.cmp K.matching g.now f)) g.now) }
{
    match find_face(g, face) {
        None => Ok(Vec::new(alloc)),
        Some(f) => open_interests_to(alloc, g, face, f),
    }
}

// Adds a token under this id.
fn send_token<K: Key>(
    alloc: Global,
    face: u32,
    id: u32,
    expr: &K,
    sends: &mut Vec<(u32, Message<K>)>,
) -> Result<(), Memory>
    ensures { OnOk result (sends.new.items ≡ sends.old.items
        ++ (face, message.DeclareToken id expr.now None 0) ∷ []) }
{
    let message = Message::DeclareToken {
        id,
        expr: expr.copy(alloc)?,
        interest_id: None,
        node_id: 0,
    };
    sends.push((face, message))?;
    Ok(())
}

// These tokens, told to the face under the ids from `first` on.
fn send_tokens<K: Key>(
    alloc: Global,
    face: u32,
    first: u32,
    exprs: &[K],
) -> Result<Vec<(u32, Message<K>)>, Memory>
    ensures { IfOk result (λ sends. sends.items
        ≡ map (λ m. (face, m)) (tokens_from first exprs.now)) }
{
    let mut sends = Vec::new(alloc);
    let mut next = first;
    for expr in exprs {
        send_token(alloc, face, next, expr, &mut sends)?;
        next = next_id(next)?;
    }
    Ok(sends)
}

// The tokens that this new face is told.
fn open_tokens_to<K: Key>(
    alloc: Global,
    g: &GatewayState<K>,
    face: u32,
    f: &FaceState<K>,
) -> Result<Vec<(u32, Message<K>)>, Memory>
    ensures { IfOk result (λ sends. sends.items ≡ map (λ m. (face, m))
        (tokens_from f.now.next (opening_tokens K.cmp K.matching g.now f.now))) }
{
    let exprs = opening_tokens(alloc, g, f)?;
    send_tokens(alloc, face, f.next(), exprs.as_slice())
}

/// A new face is told its tokens, under its ids from the next one on. Ids that run out count as out
/// of memory.
#[tactic(auto, unfolding(zt_model::specs::Parts::to_face))]
pub fn open_tokens<K: Key>(
    alloc: Global,
    g: &GatewayState<K>,
    face: u32,
) -> Result<Vec<(u32, Message<K>)>, Memory>
    ensures { IfOk result (λ sends. sends.items
        ≡ to_face face
        (λ f. tokens_from f.next (opening_tokens K.cmp K.matching g.now f)) g.now) }
{
    match find_face(g, face) {
        None => Ok(Vec::new(alloc)),
        Some(f) => open_tokens_to(alloc, g, face, f),
    }
}

// The final of the initial interest, where the face has one.
fn open_final_to<K: Key>(
    alloc: Global,
    face: u32,
    f: &FaceState<K>,
) -> Result<Vec<(u32, Message<K>)>, Memory>
    ensures { IfOk result (λ sends. sends.items
        ≡ map (λ m. (face, m)) (opening_final K.cmp K.matching f.now)) }
{
    let mut sends = Vec::new(alloc);
    match f.initial() {
        None => Ok(sends),
        Some(_) => {
            sends.push((face, Message::DeclareFinal { interest_id: 0 }))?;
            Ok(sends)
        }
    }
}

/// A new mutual peer is sent the final of its initial interest.
#[tactic(auto, unfolding(zt_model::specs::Parts::to_face))]
pub fn open_final<K: Key>(
    alloc: Global,
    g: &GatewayState<K>,
    face: u32,
) -> Result<Vec<(u32, Message<K>)>, Memory>
    ensures { IfOk result (λ sends. sends.items
        ≡ to_face face (opening_final K.cmp K.matching) g.now) }
{
    match find_face(g, face) {
        None => Ok(Vec::new(alloc)),
        Some(f) => open_final_to(alloc, face, f),
    }
}
