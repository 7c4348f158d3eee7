// Faces are sent what a rule gives for them.
ghost use Rattle.std.specs.Prelude.{◌≡◌, ◌++◌, IfOk, OnOk};
ghost use Rattle.std.specs.List.{flat_map};
ghost use Rattle.zt_model.specs.Parts.{to_each};
ghost use Rattle.zt_tokens.specs.Walks.{given_at, sent_to};

use crate::questions::find_face;
use std::alloc::Global;
use zt_keys::{Key, Memory};
use zt_protocol::Message;
use zt_state::{FaceState, GatewayState};

/// A rule that gives what a face is sent.
pub trait FaceRule<K: Key> {
    ghost use Rattle.std.specs.Prelude.{◌≡◌, ◌++◌, map, List, OnOk};
    ghost use Rattle.zt_model.specs.Rows.{Face, Rows};
    ghost use Rattle.zt_protocol.specs.declared.messages.Message.{Message};

    /// What the face is sent.
    ghost given: { Self → Rows K → Face K → List (Message K) };

    /// Adds what the face is sent.
    fn say(
        &self,
        alloc: Global,
        g: &GatewayState<K>,
        f: &FaceState<K>,
        sends: &mut Vec<(u32, Message<K>)>,
    ) -> Result<(), Memory>
        ensures { OnOk result (sends.new.items ≡ sends.old.items
            ++ map (λ m. (f.now.number, m)) (given self.now g.now f.now)) };
}

// Adds what the face of a number is sent, if it is open.
fn say_to<K: Key, R: FaceRule<K>>(
    alloc: Global,
    g: &GatewayState<K>,
    number: u32,
    rule: &R,
    sends: &mut Vec<(u32, Message<K>)>,
) -> Result<(), Memory>
    ensures { OnOk result (sends.new.items ≡ sends.old.items
        ++ given_at (sent_to (R.given rule.now g.now)) g.now.faces number) }
{
    match find_face(g, number) {
        Some(f) => rule.say(alloc, g, f, sends),
        None => Ok(()),
    }
}

/// What the faces of these numbers are sent.
pub fn say_at<K: Key, R: FaceRule<K>>(
    alloc: Global,
    g: &GatewayState<K>,
    numbers: &[u32],
    rule: &R,
) -> Result<Vec<(u32, Message<K>)>, Memory>
    ensures { IfOk result (λ sends. sends.items
        ≡ flat_map (given_at (sent_to (R.given rule.now g.now)) g.now.faces) numbers.now) }
{
    let mut sends = Vec::new(alloc);
    for number in numbers {
        say_to(alloc, g, *number, rule, &mut sends)?;
    }
    Ok(sends)
}

/// What each face is sent.
pub fn say_each<K: Key, R: FaceRule<K>>(
    alloc: Global,
    g: &GatewayState<K>,
    rule: &R,
) -> Result<Vec<(u32, Message<K>)>, Memory>
    ensures { IfOk result (λ sends. sends.items
        ≡ to_each (R.given rule.now g.now) g.now.faces) }
{
    let mut sends = Vec::new(alloc);
    for f in g.faces() {
        rule.say(alloc, g, f, &mut sends)?;
    }
    Ok(sends)
}
