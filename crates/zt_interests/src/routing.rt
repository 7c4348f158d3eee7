// Where an interest goes.
ghost use Rattle.std.specs.Prelude.{◌≡◌, ◌++◌, ◌==◌, ◌||◌, IfOk, OnOk, map, not};
ghost use Rattle.zt_region.specs.Region.{is_north};
ghost use Rattle.zt_interests.specs.Chosen.{chosen};
ghost use Rattle.zt_interests.specs.Lowest.{IsLowestAsked, interest_to, lowest_up};
ghost use Rattle.zt_model.specs.Hat.{north_hat};
ghost use Rattle.zt_model.specs.Lists.{is_some_and};
ghost use Rattle.zt_model.specs.Parts.{find_face};
ghost use Rattle.zt_model.specs.Routing.{awaits_initial, is_asked, is_target};
ghost use Rattle.zt_model.specs.Routing.{leads_up, route, sent_as};
ghost use Rattle.zt_model.specs.Rows.{Rows};
ghost use Rattle.zt_region.specs.declared.region.Region.{Region};
ghost use Rattle.zt_protocol.specs.Interest.{is_future};
ghost use Rattle.zt_tokens.specs.Walks.{given_at};

use std::alloc::Global;
use zt_hats::north_hat;
use zt_keys::{Key, Memory};
use zt_protocol::{InterestMode, Message, copy_expression};
use zt_region::Region;
use zt_state::{FaceState, GatewayState, RemoteInterest};
use zt_tokens::find_face;

// Whether the face is north-bound.
pub(crate) fn is_north<K: Key>(f: &FaceState<K>) -> bool
    ensures { result ≡ is_north f.now.region }
{
    f.region() == Region::North
}

// Whether the face leads to a gateway above, by the hat of north.
pub(crate) fn leads_up<K: Key>(g: &GatewayState<K>, f: &FaceState<K>) -> bool
    ensures { result ≡ leads_up g.now.mode f.now }
{
    is_north(f) && north_hat(g.mode()).leads_up(f.bound())
}

// Whether the face of a number leads to a gateway above.
fn leads_up_at<K: Key>(g: &GatewayState<K>, number: u32) -> bool
    ensures { result ≡ is_some_and (find_face number g.now) (leads_up g.now.mode) }
{
    match find_face(g, number) {
        Some(f) => leads_up(g, f),
        None => false,
    }
}

// The lowest face that leads to a gateway above.
fn lowest_up<K: Key>(g: &GatewayState<K>) -> Option<u32>
    ensures { result ≡ lowest_up g.now }
{
    for number in g.north() {
        if leads_up_at(g, *number) {
            return Some(*number);
        }
    }
    None
}

// Whether the face is the lowest.
fn is_lowest<K: Key>(lowest: Option<u32>, f: &FaceState<K>) -> bool
    ensures { result ≡ is_some_and lowest (λ n. n == f.now.number) }
{
    match lowest {
        Some(number) => number == f.number(),
        None => false,
    }
}

// Whether the face is a mutual peer whose initial interest isn't finalised.
fn awaits_initial<K: Key>(f: &FaceState<K>) -> bool
    ensures { result ≡ awaits_initial f.now }
{
    match f.initial() {
        Some(finalised) => !finalised,
        None => false,
    }
}

// Whether an interest of this mode goes to all gateways above: it does unless it asks for what is
// there now alone, and the hat of north asks one.
fn goes_to_all<K: Key>(g: &GatewayState<K>, mode: InterestMode) -> bool
    ensures { result ≡ (is_future mode || not (north_hat g.now.mode).asks_one) }
{
    mode.is_future() || !north_hat(g.mode()).asks_one()
}

// The lowest face that leads to a gateway above, where an interest of this mode goes to one alone.
fn lowest_asked<K: Key>(g: &GatewayState<K>, mode: InterestMode) -> Option<u32>
    ensures { IsLowestAsked g.now mode result }
{
    if goes_to_all(g, mode) {
        None
    } else {
        lowest_up(g)
    }
}

// Whether the gateway asks the face.
fn is_asked<K: Key>(
    g: &GatewayState<K>,
    mode: InterestMode,
    lowest: Option<u32>,
    f: &FaceState<K>,
) -> bool
    requires { IsLowestAsked g.now mode lowest }
    ensures { result ≡ is_asked g.now mode f.now }
{
    if goes_to_all(g, mode) {
        leads_up(g, f)
    } else {
        is_north(f) && (awaits_initial(f) || is_lowest(lowest, f))
    }
}

// Whether an interest of this mode of a face of the region `asker` goes to the face. The lowest that
// is asked is the same for all faces.
#[tactic(auto, unfolding(zt_model::specs::Routing::is_target))]
fn is_target_of<K: Key>(
    g: &GatewayState<K>,
    asker: Region,
    mode: InterestMode,
    lowest: Option<u32>,
    f: &FaceState<K>,
) -> bool
    requires { IsLowestAsked g.now mode lowest }
    ensures { result ≡ is_target g.now asker mode f.now }
{
    asker != Region::North && is_asked(g, mode, lowest, f)
}

/// Whether an interest of this mode of a face of the region `asker` goes to the face.
pub fn is_target<K: Key>(
    g: &GatewayState<K>,
    asker: Region,
    mode: InterestMode,
    f: &FaceState<K>,
) -> bool
    ensures { result ≡ is_target g.now asker mode f.now }
{
    is_target_of(g, asker, mode, lowest_asked(g, mode), f)
}

// Adds the face with the id that it draws next, where such an interest goes to it.
fn add_target<K: Key>(
    g: &GatewayState<K>,
    asker: Region,
    mode: InterestMode,
    lowest: Option<u32>,
    f: &FaceState<K>,
    targets: &mut Vec<(u32, u32)>,
) -> Result<(), Memory>
    requires { IsLowestAsked g.now mode lowest }
    ensures { OnOk result (targets.new.items
        ≡ targets.old.items
        ++ chosen (is_target g.now asker mode) (λ x. (x.number, x.next)) f.now) }
{
    if is_target_of(g, asker, mode, lowest, f) {
        targets.push((f.number(), f.next()))?;
    }
    Ok(())
}

// The same of the face of a number, if it is open.
fn add_target_at<K: Key>(
    g: &GatewayState<K>,
    asker: Region,
    mode: InterestMode,
    lowest: Option<u32>,
    number: u32,
    targets: &mut Vec<(u32, u32)>,
) -> Result<(), Memory>
    requires { IsLowestAsked g.now mode lowest }
    ensures { OnOk result (targets.new.items
        ≡ targets.old.items
        ++ given_at (chosen (is_target g.now asker mode) (λ x. (x.number, x.next)))
        g.now.faces number) }
{
    match find_face(g, number) {
        Some(f) => add_target(g, asker, mode, lowest, f, targets),
        None => Ok(()),
    }
}

/// The faces that an interest of such a mode goes to, with the ids that it gets there.
pub fn sent_as<K: Key>(
    alloc: Global,
    g: &GatewayState<K>,
    asker: Region,
    mode: InterestMode,
) -> Result<Vec<(u32, u32)>, Memory>
    ensures { IfOk result (λ targets. targets.items ≡ sent_as g.now asker mode) }
{
    let lowest = lowest_asked(g, mode);
    let mut targets = Vec::new(alloc);
    for number in g.north() {
        add_target_at(g, asker, mode, lowest, *number, &mut targets)?;
    }
    Ok(targets)
}

// The interest as it is sent to a face under an id.
fn interest_to<K: Key>(
    alloc: Global,
    interest: &RemoteInterest<K>,
    target: (u32, u32),
) -> Result<(u32, Message<K>), Memory>
    ensures { IfOk result (λ send. send ≡ interest_to interest.now target) }
{
    let message = Message::Interest {
        id: target.1,
        mode: interest.mode(),
        options: interest.options(),
        expr: copy_expression(interest.expr(), alloc)?,
    };
    Ok((target.0, message))
}

/// An interest of a face of the region `asker` is sent on to the north, to its targets under the ids
/// that it gets there: Zenoh's `route_interest`.
pub fn route<K: Key>(
    alloc: Global,
    interest: &RemoteInterest<K>,
    targets: &[(u32, u32)],
) -> Result<Vec<(u32, Message<K>)>, Memory>
    ensures sent { IfOk result
        (λ sends. sends.items ≡ map (interest_to interest.now) targets.now) }
    ensures routed { IfOk result (λ sends. (asker : Region) (g : Rows K) →
        targets.now ≡ sent_as g asker interest.now.mode
        → sends.items ≡ route asker interest.now g) }
{
    let mut sends = Vec::new(alloc);
    for target in targets {
        sends.push(interest_to(alloc, interest, *target)?)?;
    }
    Ok(sends)
}
