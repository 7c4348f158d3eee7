// Links that are closed, and the faces at their ends.
ghost use Rattle.std.specs.Prelude.{◌≡◌, ◌++◌, ◌==◌, [], ◌∷◌, ◌+◌, ◌<◌, Ok, IfOk, OnOk, OnErr};
ghost use Rattle.std.specs.Prelude.{ℕ, false, length, not};
ghost use Rattle.std.specs.List.{list_any};
ghost use Rattle.zt_model.specs.Fabric.{after_closing, both_ends, closing_call, fabric_after};
ghost use Rattle.zt_model.specs.Fabric.{said_at, said_by_line, sorted_by_face};
ghost use Rattle.zt_model.specs.Lists.{nth};
ghost use Rattle.zt_protocol.specs.Plain.{Unlink};
ghost use Rattle.zt_fabric_state.specs.Changes.{IsAfter, undone};
ghost use Rattle.zt_links.specs.Lines.{for_others, parted};
ghost use Rattle.zt_laws.specs.Order.{FabricIsInOrder};

use std::alloc::Global;
use zt_fabric_state::{
    FabricState, Turned, hear_call, member_place, settle, settle_apart, sort_by_face, undo,
};
use zt_keys::{Key, Memory};
use zt_link_queues::LinkState;
use zt_protocol::{Call, Sent};

/// A face is closed. After an error nothing is changed.
fn close_face<K: Key>(alloc: Global, s: &mut FabricState<K>, face: u32) -> Result<Turned<K>, Memory>
    requires { FabricIsInOrder K.cmp K.matching s.old }
    ensures says { IfOk result (λ turned. turned.printed.items
        ≡ said_at K.cmp K.matching s.old (closing_call s.old face)) }
    ensures does { OnOk result (s.new ≡ after_closing K.cmp K.matching face s.old) }
    ensures after { IfOk result
        (λ turned. IsAfter K.cmp K.matching turned.former turned.gateway s.new) }
    ensures others { IfOk result (λ turned. (n : ℕ) → (n == turned.gateway) ≡ false
        → nth n s.new.gateways ≡ nth n s.old.gateways) }
    ensures back { IfOk result (λ turned. undone turned.former turned.gateway s.new ≡ s.old) }
    ensures err { OnErr result (s.new ≡ s.old) }
{
    let Some(place) = s.place_at(face) else {
        return Ok(Turned {
            gateway: 0,
            former: None,
            printed: Vec::new(alloc),
        });
    };
    let gateway = place.gateway();
    let call = Call::CloseFace { face: place.face() };
    hear_call(alloc, s, gateway, &call)
}

/// Whether a message is for neither face.
fn is_other<K>(one: u32, two: u32, sent: &Sent<K>) -> bool
    ensures { result ≡ not (list_any (λ face. face == sent.now.face) (one ∷ two ∷ [])) }
{
    sent.face != one && sent.face != two
}

/// Adds a message where it is for neither face.
fn add_if_other<K: Key>(
    one: u32,
    two: u32,
    kept: &mut Vec<Sent<K>>,
    sent: Sent<K>,
) -> Result<(), Memory>
    ensures { OnOk result (kept.new.items
        ≡ kept.old.items ++ for_others one two (sent ∷ [])) }
{
    if is_other(one, two, &sent) {
        kept.push(sent)?;
    }
    Ok(())
}

/// Adds the messages that are for neither face.
fn add_others<K: Key>(
    one: u32,
    two: u32,
    kept: &mut Vec<Sent<K>>,
    sent: Vec<Sent<K>>,
) -> Result<(), Memory>
    ensures { OnOk result (kept.new.items
        ≡ kept.old.items ++ for_others one two sent.items) }
{
    let mut rest = sent.into_iter();
    while let Some(message) = rest.next() {
        add_if_other(one, two, kept, message)?;
    }
    Ok(())
}

/// Closes a link between two faces that are closed: what waits on it is dropped, and what their
/// closings say to others is answered, and waits. After an error nothing is changed.
fn part<K: Key>(
    alloc: Global,
    s: &mut FabricState<K>,
    at: usize,
    one: u32,
    two: u32,
    first: Vec<Sent<K>>,
    second: Vec<Sent<K>>,
) -> Result<Vec<Sent<K>>, Memory>
    requires { at < length s.old.links }
    ensures says { IfOk result (λ sent. sent.items
        ≡ sorted_by_face (for_others one two first.items ++ for_others one two second.items)) }
    ensures does { IfOk result (λ sent. s.new ≡ parted at one two sent.items s.old) }
    ensures err { OnErr result (s.new ≡ s.old) }
{
    let mut printed = Vec::new(alloc);
    add_others(one, two, &mut printed, first)?;
    add_others(one, two, &mut printed, second)?;
    let sent = sort_by_face(printed)?;
    s.turn_waiting(alloc, None, sent.as_slice())?;
    s.shut_link(at);
    s.close_end(two);
    s.close_end(one);
    Ok(sent)
}

/// The second face of a link is closed, and then the link; answers what its closing says to others,
/// behind what the first one's says. After an error the first one is as before too.
fn close_other<K: Key>(
    alloc: Global,
    s: &mut FabricState<K>,
    at: usize,
    one: u32,
    two: u32,
    first: Turned<K>,
) -> Result<Vec<Sent<K>>, Memory>
    requires within { at < length s.old.links }
    requires order { FabricIsInOrder K.cmp K.matching s.old }
    requires after { IsAfter K.cmp K.matching first.former first.gateway s.old }
    ensures says { IfOk result (λ sent. sent.items ≡ sorted_by_face
        (for_others one two first.printed.items
        ++ for_others one two (said_at K.cmp K.matching s.old (closing_call s.old two)))) }
    ensures does { IfOk result (λ sent. s.new
        ≡ parted at one two sent.items (after_closing K.cmp K.matching two s.old)) }
    ensures err { OnErr result (s.new ≡ undone first.former first.gateway s.old) }
{
    match close_face(alloc, s, two) {
        Err(error) => {
            undo(s, first.gateway, first.former);
            Err(error)
        }
        Ok(second) => match part(alloc, s, at, one, two, first.printed, second.printed) {
            Err(error) => {
                undo(s, second.gateway, second.former);
                undo(s, first.gateway, first.former);
                Err(error)
            }
            Ok(sent) => {
                settle(s, second.gateway, second.former);
                settle_apart(s, first.gateway, second.gateway, first.former);
                Ok(sent)
            }
        },
    }
}

/// Both faces of a link are closed, one after the other, and what they didn't say to each other is
/// answered. After an error nothing is changed.
fn close_both<K: Key>(
    alloc: Global,
    s: &mut FabricState<K>,
    at: usize,
    link: u32,
    one: u32,
    two: u32,
) -> Result<Vec<Sent<K>>, Memory>
    requires within { at < length s.old.links }
    requires counted { link ≡ at + 1 }
    requires ends { both_ends K.cmp K.matching s.old link ≡ one ∷ two ∷ [] }
    requires order { FabricIsInOrder K.cmp K.matching s.old }
    ensures says { IfOk result (λ sent. sent.items
        ≡ sorted_by_face (said_by_line K.cmp K.matching (Unlink link) s.old)) }
    ensures does { IfOk result (λ sent. s.new
        ≡ fabric_after K.cmp K.matching (Unlink link) (Ok sent.items) s.old) }
    ensures err { OnErr result (s.new ≡ s.old) }
{
    let turned = close_face(alloc, s, one)?;
    let sent = close_other(alloc, s, at, one, two, turned)?;
    Ok(sent)
}

/// The two faces that a link joins.
fn ends_of(link: &LinkState) -> (u32, u32)
    ensures { result ≡ (link.now.one, link.now.two) }
{
    (link.one(), link.two())
}

/// Closes a link, and the faces at its ends. After an error nothing is changed.
pub(crate) fn unlink<K: Key>(
    alloc: Global,
    s: &mut FabricState<K>,
    link: u32,
) -> Result<Vec<Sent<K>>, Memory>
    requires { FabricIsInOrder K.cmp K.matching s.old }
    ensures says { IfOk result (λ sent. sent.items
        ≡ sorted_by_face (said_by_line K.cmp K.matching (Unlink link) s.old)) }
    ensures does { IfOk result (λ sent. s.new
        ≡ fabric_after K.cmp K.matching (Unlink link) (Ok sent.items) s.old) }
    ensures err { OnErr result (s.new ≡ s.old) }
{
    match member_place(s.links(), link) {
        None => Ok(Vec::new(alloc)),
        Some(at) => {
            let (one, two) = ends_of(&s.links()[at]);
            close_both(alloc, s, at, link, one, two)
        }
    }
}
