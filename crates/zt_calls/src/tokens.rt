// Tokens that come and go at faces outside router regions.
ghost use Rattle.std.specs.Prelude.{◌≡◌, ◌∷◌, [], OnOk};
ghost use Rattle.zt_calls.specs.Does.{Does};
ghost use Rattle.zt_model.specs.Parts.{Alter, Say, with_face};
ghost use Rattle.zt_model.specs.Telling.{forget, registered, tell, undeclaring, unregistered};
ghost use Rattle.zt_model.specs.Trees.{hiding, showing};

use crate::finding::undeclared;
use crate::speech::{Speech, say};
use std::alloc::Global;
use zt_keys::{Key, Memory};
use zt_protocol::TokenId;
use zt_region::Region;
use zt_routers::{hidden_regions, hide, newly_shown, show};
use zt_state::{FaceState, GatewayState};
use zt_tokens::{forget, tell};

/// The gateway shows a token of a region in its router regions.
pub(crate) fn show_token<K: Key>(
    alloc: Global,
    g: &mut GatewayState<K>,
    speech: &mut Speech<K>,
    source: Region,
    expr: &K,
) -> Result<(), Memory>
    ensures { OnOk result (Does K.cmp K.matching (showing K.cmp source expr.now)
        g.old g.new speech.old speech.new) }
{
    let shown = show(alloc, g, source, expr)?;
    say(alloc, g, speech, shown)?;
    let regions = newly_shown(alloc, g, source, expr)?;
    g.add_own_rows(alloc, &regions, expr)
}

/// The faces hear of a token that was declared in a region, and then the router regions.
pub(crate) fn tell_all<K: Key>(
    alloc: Global,
    g: &mut GatewayState<K>,
    speech: &mut Speech<K>,
    source: Region,
    expr: &K,
) -> Result<(), Memory>
    ensures { OnOk result (Does K.cmp K.matching
        (Say (tell K.cmp K.matching source expr.now) ∷ showing K.cmp source expr.now)
        g.old g.new speech.old speech.new) }
{
    let told = tell(alloc, g, source, expr)?;
    say(alloc, g, speech, told)?;
    show_token(alloc, g, speech, source, expr)
}

/// The gateway hides an expression that is gone from a region in its router regions.
pub(crate) fn hide_token<K: Key>(
    alloc: Global,
    g: &mut GatewayState<K>,
    speech: &mut Speech<K>,
    source: Region,
    expr: &K,
) -> Result<(), Memory>
    ensures { OnOk result (Does K.cmp K.matching (hiding K.cmp source expr.now)
        g.old g.new speech.old speech.new) }
{
    let hidden = hide(alloc, g, source, expr)?;
    say(alloc, g, speech, hidden)?;
    let regions = hidden_regions(alloc, g, source, expr)?;
    g.drop_own_rows(&regions, expr);
    Ok(())
}

/// The faces hear that an expression is gone from a region, and then the router regions.
pub(crate) fn forget_all<K: Key>(
    alloc: Global,
    g: &mut GatewayState<K>,
    speech: &mut Speech<K>,
    source: Region,
    expr: &K,
) -> Result<(), Memory>
    ensures { OnOk result (Does K.cmp K.matching
        (Say (forget K.cmp K.matching source expr.now) ∷ hiding K.cmp source expr.now)
        g.old g.new speech.old speech.new) }
{
    let gone = forget(alloc, g, source, expr)?;
    say(alloc, g, speech, gone)?;
    hide_token(alloc, g, speech, source, expr)
}

/// A face declares a token, which is kept and told.
pub(crate) fn declare<K: Key>(
    alloc: Global,
    g: &mut GatewayState<K>,
    speech: &mut Speech<K>,
    face: u32,
    region: Region,
    id: TokenId,
    expr: &K,
) -> Result<(), Memory>
    ensures { OnOk result (Does K.cmp K.matching
        (Alter (with_face face (registered id expr.now))
        ∷ Say (tell K.cmp K.matching region expr.now) ∷ showing K.cmp region expr.now)
        g.old g.new speech.old speech.new) }
{
    g.register(alloc, face, id, expr)?;
    tell_all(alloc, g, speech, region, expr)
}

/// The token of an id is undeclared, whose expression this is.
pub(crate) fn undeclare<K: Key>(
    alloc: Global,
    g: &mut GatewayState<K>,
    speech: &mut Speech<K>,
    face: u32,
    region: Region,
    id: TokenId,
    expr: &K,
) -> Result<(), Memory>
    ensures { OnOk result (Does K.cmp K.matching
        (Alter (with_face face (unregistered id))
        ∷ Say (forget K.cmp K.matching region expr.now) ∷ [])
        g.old g.new speech.old speech.new) }
{
    g.unregister(face, id);
    let gone = forget(alloc, g, region, expr)?;
    say(alloc, g, speech, gone)
}

/// An undeclaration of an id is about the token that the face declares under it, or else the given
/// expression: the faces hear that it is gone.
pub(crate) fn undeclare_found<K: Key>(
    alloc: Global,
    g: &mut GatewayState<K>,
    speech: &mut Speech<K>,
    f: &FaceState<K>,
    id: TokenId,
    given: &Option<K>,
) -> Result<(), Memory>
    ensures { OnOk result (Does K.cmp K.matching
        (undeclaring K.cmp K.matching f.now.number id given.now f.now)
        g.old g.new speech.old speech.new) }
{
    match undeclared(f, id, given) {
        None => Ok(()),
        Some(expr) => undeclare(alloc, g, speech, f.number(), f.region(), id, expr),
    }
}
