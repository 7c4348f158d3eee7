// Faces hear of tokens that were declared.
ghost use Rattle.std.specs.Prelude.{◌≡◌, ◌++◌, IfOk, OnOk, map};
ghost use Rattle.zt_model.specs.Telling.{tell};
ghost use Rattle.zt_token_index.specs.Told.{AreRising};
ghost use Rattle.zt_tokens.specs.Seeking.{declared_to};

use crate::questions::{is_seeker_told, is_told};
use crate::walking::{FaceRule, say_at, say_each};
use std::alloc::Global;
use zt_keys::{Key, Memory};
use zt_protocol::{Message, TokenId};
use zt_region::Region;
use zt_state::{FaceState, GatewayState};
use zt_token_index::id_in;

// Adds the declaration of a token of the expression.
fn declare_to<K: Key>(
    alloc: Global,
    expr: &K,
    f: &FaceState<K>,
    sends: &mut Vec<(u32, Message<K>)>,
) -> Result<(), Memory>
    ensures { OnOk result (sends.new.items ≡ sends.old.items
        ++ map (λ m. (f.now.number, m)) (declared_to expr.now f.now)) }
{
    let message = Message::DeclareToken {
        id: f.next(),
        expr: expr.copy(alloc)?,
        interest_id: None,
        node_id: 0,
    };
    sends.push((f.number(), message))?;
    Ok(())
}

// What a face is told of a token of the expression. `told` has the faces that were told it already,
// each with the id under which it was.
#[derive(Drop)]
struct Tells<'a, K: Key> {
    source: Region,
    expr: &'a K,
    told: &'a [(u32, TokenId)],
    ghost in_order: { AreRising told.now },
}

impl<'a, K: Key> FaceRule<K> for Tells<'a, K> {
    ghost use Rattle.zt_tokens.specs.Seeking.{tell_among};

    ghost given = { λ t g. tell_among K.matching g t.source t.expr.now t.told.now };

    fn say(
        &self,
        alloc: Global,
        g: &GatewayState<K>,
        f: &FaceState<K>,
        sends: &mut Vec<(u32, Message<K>)>,
    ) -> Result<(), Memory> {
        let known = id_in(self.told, f.number());
        if is_told(g, self.source, self.expr, f, known) {
            declare_to(alloc, self.expr, f, sends)?;
        }
        Ok(())
    }
}

// What a face is told that is known to seek the expression: it isn't asked again whether it does.
#[derive(Drop)]
struct TellsSeeker<'a, K: Key> {
    source: Region,
    expr: &'a K,
    told: &'a [(u32, TokenId)],
    ghost in_order: { AreRising told.now },
}

impl<'a, K: Key> FaceRule<K> for TellsSeeker<'a, K> {
    ghost use Rattle.zt_tokens.specs.Seeking.{tell_seeker};

    ghost given = { λ t g. tell_seeker g t.source t.expr.now t.told.now };

    fn say(
        &self,
        alloc: Global,
        g: &GatewayState<K>,
        f: &FaceState<K>,
        sends: &mut Vec<(u32, Message<K>)>,
    ) -> Result<(), Memory> {
        let known = id_in(self.told, f.number());
        if is_seeker_told(g, self.source, f, known) {
            declare_to(alloc, self.expr, f, sends)?;
        }
        Ok(())
    }
}

/// The faces hear of a token that was declared in a region: Zenoh's `propagate_token`.
pub fn tell<K: Key>(
    alloc: Global,
    g: &GatewayState<K>,
    source: Region,
    expr: &K,
) -> Result<Vec<(u32, Message<K>)>, Memory>
    ensures { IfOk result (λ sends. sends.items ≡ tell K.cmp K.matching source expr.now g.now) }
{
    let told = g.told_at(expr);
    match g.find_seekers(alloc, expr)? {
        Some(numbers) => say_at(alloc, g, &numbers, &TellsSeeker { source, expr, told }),
        None => say_each(alloc, g, &Tells { source, expr, told }),
    }
}
