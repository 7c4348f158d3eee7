// Faces hear that tokens are gone.
ghost use Rattle.std.specs.Prelude.{◌≡◌, ◌++◌, ◌∷◌, ◌&&◌, [], not, IfOk, OnOk, None};
ghost use Rattle.std.specs.Prelude.{filter, if◌then◌else◌, is_some, length, map, true};
ghost use Rattle.std.specs.List.{flat_map};
ghost use Rattle.zt_protocol.specs.declared.messages.Message.TheVariants.{UndeclareToken};
ghost use Rattle.zt_model.specs.Hat.{hat_of_face};
ghost use Rattle.zt_model.specs.Wants.{wants};
ghost use Rattle.zt_model.specs.Telling.{forget, forget_untold};
ghost use Rattle.zt_model.specs.Visible.{shows};
ghost use Rattle.zt_token_index.specs.Told.{AreRising, id_of};
ghost use Rattle.zt_tokens.specs.Gone.{IsGone, forget_by, forget_told, is_seen};
ghost use Rattle.zt_tokens.specs.Walks.{given_at, is_told_at, sent_to};

use crate::questions::{find_face, hat_of_face, is_routed, is_visible, shows, wants};
use crate::walking::{FaceRule, say_each};
use std::alloc::Global;
use zt_keys::{Key, Memory};
use zt_protocol::{Message, TokenId};
use zt_region::Region;
use zt_state::{FaceState, GatewayState};
use zt_token_index::id_in;

// Whether no live token of the expression is left in any region. Sessions see every live token, so
// it is enough to ask whether they see one.
fn is_gone<K: Key>(g: &GatewayState<K>, expr: &K) -> bool
    ensures { result ≡ true → IsGone K.cmp g.now expr.now }
{
    !is_visible(g, Region::Local, expr)
}

// Whether a face that wasn't told the expression and doesn't see it hears that it is gone.
fn hears_untold<K: Key>(g: &GatewayState<K>, source: Region, expr: &K, f: &FaceState<K>) -> bool
    ensures { result ≡ (wants K.matching f.now expr.now
        && (hat_of_face g.now f.now).undeclares_untold && shows g.now.mode f.now.region source) }
{
    shows(g.mode(), f.region(), source) && hat_of_face(g, f).undeclares_untold() && wants(f, expr)
}

// What a face hears of an expression that is gone from a region. Of one that is gone everywhere no
// face is asked whether it sees it. `told` has the faces that were told it, each with the id under
// which it was.
#[derive(Drop)]
struct Forgets<'a, K: Key> {
    source: Region,
    expr: &'a K,
    is_gone: bool,
    told: &'a [(u32, TokenId)],
    ghost in_order: { AreRising told.now },
}

impl<'a, K: Key> Forgets<'a, K> {
    // Whether the face sees the expression.
    fn is_seen(&self, g: &GatewayState<K>, f: &FaceState<K>) -> bool
        ensures { result ≡ is_seen K.cmp self.now.is_gone g.now f.now.region self.now.expr.now }
    {
        !self.is_gone && is_visible(g, f.region(), self.expr)
    }

    // Adds what a face hears that was told the expression under an id.
    fn say_told(
        &self,
        g: &GatewayState<K>,
        f: &FaceState<K>,
        id: TokenId,
        sends: &mut Vec<(u32, Message<K>)>,
    ) -> Result<(), Memory>
        ensures { OnOk result (sends.new.items ≡ sends.old.items ++ map (λ m. (f.now.number, m))
            (if is_seen K.cmp self.now.is_gone g.now f.now.region self.now.expr.now then []
            else UndeclareToken id None 0 ∷ [])) }
    {
        if !self.is_seen(g, f) {
            let message = Message::UndeclareToken {
                id,
                expr: None,
                node_id: 0,
            };
            sends.push((f.number(), message))?;
        }
        Ok(())
    }

    // Adds what a face hears that wasn't told the expression.
    fn say_untold(
        &self,
        alloc: Global,
        g: &GatewayState<K>,
        f: &FaceState<K>,
        sends: &mut Vec<(u32, Message<K>)>,
    ) -> Result<(), Memory>
        ensures { OnOk result (sends.new.items ≡ sends.old.items ++ map (λ m. (f.now.number, m))
            (if is_seen K.cmp self.now.is_gone g.now f.now.region self.now.expr.now then []
            else forget_untold K.cmp K.matching g.now self.now.source self.now.expr.now f.now)) }
    {
        if hears_untold(g, self.source, self.expr, f) && !self.is_seen(g, f) {
            let message = Message::UndeclareToken {
                id: 0,
                expr: Some(self.expr.copy(alloc)?),
                node_id: 0,
            };
            sends.push((f.number(), message))?;
        }
        Ok(())
    }

    // Adds what a face hears that was told the expression under an id, or not at all.
    fn say_by(
        &self,
        alloc: Global,
        g: &GatewayState<K>,
        f: &FaceState<K>,
        known: Option<TokenId>,
        sends: &mut Vec<(u32, Message<K>)>,
    ) -> Result<(), Memory>
        ensures { OnOk result (sends.new.items ≡ sends.old.items ++ map (λ m. (f.now.number, m))
            (forget_by K.cmp K.matching self.now.is_gone g.now self.now.source self.now.expr.now
            f.now known)) }
    {
        if is_routed(g, f) {
            return Ok(());
        }
        match known {
            Some(id) => self.say_told(g, f, id, sends),
            None => self.say_untold(alloc, g, f, sends),
        }
    }

    // Adds what a face hears, and answers whether it was told the expression.
    fn say_to(
        &self,
        alloc: Global,
        g: &GatewayState<K>,
        f: &FaceState<K>,
        sends: &mut Vec<(u32, Message<K>)>,
    ) -> Result<bool, Memory>
        ensures said { OnOk result (sends.new.items ≡ sends.old.items
            ++ sent_to (forget_told K.cmp K.matching self.now.is_gone g.now self.now.source
            self.now.expr.now self.now.told.now) f.now) }
        ensures was_told { IfOk result (λ was_told. was_told
            ≡ is_some (id_of f.now.number self.now.told.now)) }
    {
        let known = id_in(self.told, f.number());
        self.say_by(alloc, g, f, known, sends)?;
        Ok(known.is_some())
    }

    // Adds what the face of a number hears, if it is open, and answers whether it was told the
    // expression.
    fn say_to_number(
        &self,
        alloc: Global,
        g: &GatewayState<K>,
        number: u32,
        sends: &mut Vec<(u32, Message<K>)>,
    ) -> Result<bool, Memory>
        ensures said { OnOk result (sends.new.items ≡ sends.old.items
            ++ given_at (sent_to (forget_told K.cmp K.matching self.now.is_gone g.now
            self.now.source self.now.expr.now self.now.told.now)) g.now.faces number) }
        ensures was_told { IfOk result (λ was_told. was_told
            ≡ is_told_at self.now.told.now g.now.faces number) }
    {
        match find_face(g, number) {
            Some(f) => self.say_to(alloc, g, f, sends),
            None => Ok(false),
        }
    }

    // What the faces of these numbers hear, and how many of them were told the expression.
    fn say_to_numbers(
        &self,
        alloc: Global,
        g: &GatewayState<K>,
        numbers: &[u32],
    ) -> Result<(Vec<(u32, Message<K>)>, usize), Memory>
        ensures said { IfOk result (λ done. done.0.items
            ≡ flat_map (given_at (sent_to (forget_told K.cmp K.matching self.now.is_gone g.now
            self.now.source self.now.expr.now self.now.told.now)) g.now.faces) numbers.now) }
        ensures counted { IfOk result (λ done. done.1
            ≡ length (filter (is_told_at self.now.told.now g.now.faces) numbers.now)) }
    {
        let mut sends = Vec::new(alloc);
        let mut count = 0;
        for number in numbers {
            if self.say_to_number(alloc, g, *number, &mut sends)? {
                count += 1;
            }
        }
        Ok((sends, count))
    }
}

impl<'a, K: Key> FaceRule<K> for Forgets<'a, K> {
    ghost use Rattle.zt_tokens.specs.Gone.{forget_told};

    ghost given = { λ t g.
        forget_told K.cmp K.matching t.is_gone g t.source t.expr.now t.told.now };

    fn say(
        &self,
        alloc: Global,
        g: &GatewayState<K>,
        f: &FaceState<K>,
        sends: &mut Vec<(u32, Message<K>)>,
    ) -> Result<(), Memory> {
        self.say_by(alloc, g, f, id_in(self.told, f.number()), sends)
    }
}

/// The faces that can't see an expression any more hear that it is gone from a region: Zenoh's
/// `unpropagate_token`. Only faces that seek the expression are visited, unless a face was told it
/// that doesn't seek it.
pub fn forget<K: Key>(
    alloc: Global,
    g: &GatewayState<K>,
    source: Region,
    expr: &K,
) -> Result<Vec<(u32, Message<K>)>, Memory>
    ensures { IfOk result (λ sends. sends.items
        ≡ forget K.cmp K.matching source expr.now g.now) }
{
    let forgets = Forgets {
        source,
        expr,
        is_gone: is_gone(g, expr),
        told: g.told_at(expr),
    };
    if let Some(numbers) = g.find_seekers(alloc, expr)? {
        let (sends, count) = forgets.say_to_numbers(alloc, g, &numbers)?;
        if count == forgets.told.len() {
            return Ok(sends);
        }
    }
    say_each(alloc, g, &forgets)
}
