// Equal gateways, on which calls are made in different ways.
ghost use Rattle.zt_laws.specs.Sound.{CallHasFirstIds};
ghost use Rattle.zt_protocol.specs.Plain.{plain_call};

use crate::account::{account_again, account_at_once};
use crate::fault::{Fault, TRIES};
use crate::messages::take_all;
use crate::printing::entry_again;
use crate::reading::line_again;
use crate::ways::{WAYS, Way, call_again};
use std::alloc::Global;
use zt_gateway::{Gateway, GatewayBuilder};
use zt_keys::{Key, Memory};
use zt_protocol::{Call, CallError, Entry, Line, Refusal};
use zt_region::Region;

/// A gateway, and how calls come to it.
#[derive(Drop)]
pub struct Standing<K: Key> {
    pub way: Way,
    pub gateway: Box<Gateway<K>>,
}

/// The gateways, one for each way, and the regions that they have.
#[derive(Drop)]
pub struct Gateways<K: Key> {
    pub regions: Vec<Region>,
    pub standings: Vec<Standing<K>>,
}

// The regions of a gateway with these to the south.
fn regions_with(alloc: Global, south: &[Region]) -> Result<Vec<Region>, Memory> {
    let mut regions = Vec::new(alloc);
    regions.push(Region::North)?;
    regions.push(Region::Local)?;
    regions.extend_from_slice(south)?;
    Ok(regions)
}

// The gateway that a line makes.
fn build<K: Key>(alloc: Global, line: Line<K>) -> Result<Gateway<K>, CallError> {
    match line {
        Line::Gateway {
            mode,
            zid,
            regions,
            south,
            name,
            timeout,
            refuse,
        } => GatewayBuilder::new(alloc, mode, zid)
            .subregions(regions)
            .south(south)
            .name(name)
            .timeout(timeout)
            .admission(refuse)
            .build(),
        _ => Err(CallError::Refused(Refusal::UnknownGateway)),
    }
}

fn boxed_copy<K: Key>(alloc: Global, gateway: &Gateway<K>) -> Result<Box<Gateway<K>>, Memory> {
    Ok(Box::new(alloc, gateway.copy(alloc)?)?)
}

// Copies of a gateway, one for each way.
fn standings<K: Key>(alloc: Global, gateway: &Gateway<K>) -> Result<Vec<Standing<K>>, Memory> {
    let mut standings = Vec::new(alloc);
    for way in WAYS.iter() {
        let gateway = boxed_copy(alloc, gateway)?;
        standings.push(Standing { way: *way, gateway })?;
    }
    Ok(standings)
}

// The south regions that a line names.
fn south_of<K>(line: &Line<K>) -> &[Region] {
    match line {
        Line::Gateway { regions, .. } => regions.as_slice(),
        _ => &[],
    }
}

// The gateways that a line makes.
fn try_gateways<K: Key>(alloc: Global, line: Line<K>) -> Result<Gateways<K>, CallError> {
    let Ok(regions) = regions_with(alloc, south_of(&line)) else {
        return Err(CallError::Memory);
    };
    let gateway = build(alloc, line)?;
    match standings(alloc, &gateway) {
        Ok(standings) => Ok(Gateways { regions, standings }),
        Err(Memory) => Err(CallError::Memory),
    }
}

/// The gateways that the line of these bytes makes, or why it is refused.
pub fn gateways_again<K: Key>(
    alloc: Global,
    bytes: &[u8],
) -> Result<Result<Gateways<K>, Refusal>, Fault> {
    for _ in 0..TRIES {
        match try_gateways(alloc, line_again(alloc, bytes)?) {
            Ok(gateways) => return Ok(Ok(gateways)),
            Err(CallError::Refused(refusal)) => return Ok(Err(refusal)),
            Err(CallError::Memory) => {}
        }
    }
    Err(Fault::Memory)
}

// A copy of a gateway takes its place, once there is memory for that.
fn replace_again<K: Key>(alloc: Global, gateway: &mut Box<Gateway<K>>) -> Result<(), Fault> {
    for _ in 0..TRIES {
        if let Ok(copy) = boxed_copy(alloc, &*gateway) {
            *gateway = copy;
            return Ok(());
        }
    }
    Err(Fault::Memory)
}

// Makes the call in the gateway's way, and answers the text of what it says.
fn say<K: Key>(
    alloc: Global,
    line: u64,
    standing: &mut Standing<K>,
    call: &Call<K>,
) -> Result<String, Fault>
    requires { CallHasFirstIds (plain_call call.now) }
{
    let mut sents = Vec::new(alloc);
    let answer = call_again(alloc, standing.way, &mut standing.gateway, call, &mut sents)?;
    match answer {
        Ok(made) => {
            if standing.way == Way::Copied {
                replace_again(alloc, &mut standing.gateway)?;
            }
            take_all(&mut standing.gateway, &mut sents)?;
            entry_again(alloc, line, made, &Entry { outcome: Ok(sents) })
        }
        Err(refusal) => entry_again(
            alloc,
            line,
            None,
            &Entry::<K> {
                outcome: Err(refusal),
            },
        ),
    }
}

// Whether a text is what the first gateway said.
fn agree(way: Way, first: &str, text: &str) -> Result<(), Fault> {
    if way == Way::Named || first == text {
        Ok(())
    } else {
        Err(Fault::Differs(way.name()))
    }
}

/// Makes the call on each gateway, and answers the text of what all of them say.
pub fn say_all<K: Key>(
    alloc: Global,
    line: u64,
    gateways: &mut Gateways<K>,
    call: &Call<K>,
) -> Result<String, Fault>
    requires { CallHasFirstIds (plain_call call.now) }
{
    let mut said = String::new(alloc);
    for standing in gateways.standings.iter_mut() {
        let text = say(alloc, line, standing, call)?;
        agree(standing.way, said.as_str(), text.as_str())?;
        said = text;
    }
    Ok(said)
}

// What a gateway answers at the end. All but the first have to be rebuilt for that.
fn account<K: Key>(
    alloc: Global,
    regions: &[Region],
    standing: &mut Standing<K>,
) -> Result<String, Fault> {
    if standing.way == Way::Named {
        account_at_once(alloc, regions, &standing.gateway)
    } else {
        account_again(alloc, regions, &mut standing.gateway)
    }
}

/// What all gateways answer at the end.
pub fn account_of_all<K: Key>(alloc: Global, gateways: &mut Gateways<K>) -> Result<String, Fault> {
    let mut said = String::new(alloc);
    for standing in gateways.standings.iter_mut() {
        let text = account(alloc, gateways.regions.as_slice(), standing)?;
        agree(standing.way, said.as_str(), text.as_str())?;
        said = text;
    }
    Ok(said)
}
