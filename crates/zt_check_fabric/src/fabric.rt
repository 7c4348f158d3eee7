// Gateways, the places of all faces, the links and what waits on these.
ghost use Rattle.std.specs.Prelude.{◌≡◌, IfOk, option_map, string_bytes};
ghost use Rattle.zt_region.specs.South.{plain_south};
ghost use Rattle.std.specs.Option.{option_copied};
ghost use Rattle.zt_model.specs.Linking.{waiting_of};
ghost use Rattle.zt_model.specs.Lists.{at_id, nth};
ghost use Rattle.zt_model.specs.Places.{empty_fabric, number_from, number_of_place};
ghost use Rattle.zt_check_fabric.specs.Placed.{is_place};

use crate::members::member_of_number;
use crate::places::{ShownLink, ShownPlace, copy_links, copy_places};
use crate::queues::{ShownQueue, copy_queues};
use std::alloc::Global;
use std::marker::Model;
use zt_check_rows::ShownRows;
use zt_keys::{Key, Memory};
use zt_protocol::Message;
use zt_region::SouthConf;

/// A gateway with what its links are made by: its configuration of the south, and its name.
#[derive(Drop)]
pub struct ShownNode<'a, K: Key> {
    pub(crate) rows: ShownRows<K>,
    pub(crate) south: &'a SouthConf,
    pub(crate) name: &'a Option<String>,
}

impl<'a, K: Key> Model for ShownNode<'a, K> {
    ghost use Rattle.std.specs.Prelude.{option_map, string_bytes};
    ghost use Rattle.zt_model.specs.Places.{Node};
    ghost use Rattle.zt_region.specs.South.{plain_south};

    ghost Value = { Node K };

    ghost view = { λ n. record {
      rows = n.rows;
      south = plain_south n.south.now;
      name = option_map string_bytes n.name.now;
    } };
}

impl<'a, K: Key> ShownNode<'a, K> {
    /// Its rows.
    pub fn rows(&self) -> &ShownRows<K>
        ensures { result.now ≡ self.now.rows }
    {
        &self.rows
    }

    // Its configuration of the south.
    pub(crate) fn south(&self) -> &'a SouthConf
        ensures { plain_south result.now ≡ self.now.south }
    {
        self.south
    }

    // Its name.
    pub(crate) fn name(&self) -> &'a Option<String>
        ensures { option_map string_bytes result.now ≡ self.now.name }
    {
        self.name
    }

    /// An equal one.
    pub fn copy(&self, alloc: Global) -> Result<Self, Memory>
        ensures { IfOk result (λ copy. copy ≡ self.now) }
    {
        Ok(ShownNode {
            rows: self.rows.copy(alloc)?,
            south: self.south,
            name: self.name,
        })
    }
}

/// Gateways, the places of all faces, the links and what waits on them, each numbered from 1 in
/// order of making.
#[derive(Drop)]
pub struct ShownFabric<'a, K: Key> {
    pub(crate) gateways: Vec<ShownNode<'a, K>>,
    pub(crate) faces: Vec<ShownPlace>,
    pub(crate) links: Vec<ShownLink>,
    pub(crate) waiting: Vec<(u32, ShownQueue<K>)>,
}

impl<'a, K: Key> Model for ShownFabric<'a, K> {
    ghost use Rattle.zt_model.specs.Places.{Fabric};

    ghost Value = { Fabric K };

    ghost view = { λ s. record {
      gateways = s.gateways.items;
      faces = s.faces.items;
      links = s.links.items;
      waiting = s.waiting.items;
    } };
}

// Whether it is the place of a gateway's face.
fn is_place(place: &ShownPlace, gateway: u32, face: u32) -> bool
    ensures { result ≡ is_place gateway face place.now }
{
    gateway == place.gateway() && face == place.face()
}

// The number of a gateway's face among places; 0 where there is none.
fn number_among(places: &[ShownPlace], gateway: u32, face: u32) -> u64
    ensures { result ≡ number_from 1 gateway face places.now }
{
    for index in 0..places.len() {
        if is_place(&places[index], gateway, face) {
            return index as u64 + 1;
        }
    }
    0
}

// What waits for the other end of a face's link, among all that waits.
fn waiting_at<K: Key>(waiting: &[(u32, ShownQueue<K>)], face: u32) -> Option<&ShownQueue<K>>
    ensures { option_copied result ≡ at_id face waiting.now }
{
    for row in waiting {
        if face == row.0 {
            return Some(&row.1);
        }
    }
    None
}

// Equal gateways.
fn copy_nodes<'a, K: Key>(
    alloc: Global,
    nodes: &[ShownNode<'a, K>],
) -> Result<Vec<ShownNode<'a, K>>, Memory>
    ensures { IfOk result (λ copies. copies.items ≡ nodes.now) }
{
    let mut copies = Vec::new(alloc);
    for node in nodes {
        let copy = node.copy(alloc)?;
        copies.push(copy)?;
    }
    Ok(copies)
}

impl<'a, K: Key> ShownFabric<'a, K> {
    /// No gateway.
    pub fn new(alloc: Global) -> Self
        ensures { result ≡ empty_fabric }
    {
        ShownFabric {
            gateways: Vec::new(alloc),
            faces: Vec::new(alloc),
            links: Vec::new(alloc),
            waiting: Vec::new(alloc),
        }
    }

    /// The gateways.
    pub fn gateways(&self) -> &[ShownNode<'a, K>]
        ensures { result.now ≡ self.now.gateways }
    {
        &self.gateways
    }

    /// The places of all faces.
    pub fn faces(&self) -> &[ShownPlace]
        ensures { result.now ≡ self.now.faces }
    {
        &self.faces
    }

    /// The links.
    pub fn links(&self) -> &[ShownLink]
        ensures { result.now ≡ self.now.links }
    {
        &self.links
    }

    /// The gateway of a number.
    pub fn node(&self, number: u32) -> Option<&ShownNode<'a, K>>
        ensures { option_copied result ≡ nth number self.now.gateways }
    {
        member_of_number(&self.gateways, number)
    }

    /// The place of the face of a number in scripts.
    pub fn place(&self, number: u32) -> Option<&ShownPlace>
        ensures { option_copied result ≡ nth number self.now.faces }
    {
        member_of_number(&self.faces, number)
    }

    /// The link of a number.
    pub fn link(&self, number: u32) -> Option<&ShownLink>
        ensures { option_copied result ≡ nth number self.now.links }
    {
        member_of_number(&self.links, number)
    }

    /// What is printed for the face of a link and waits for the other end, oldest first.
    pub fn waiting(&self, face: u32) -> &[Message<K>]
        ensures { result.now ≡ waiting_of self.now face }
    {
        match waiting_at(&self.waiting, face) {
            None => &[],
            Some(queue) => queue.messages(),
        }
    }

    /// The number in scripts of a gateway's face; 0 where there is none.
    pub fn number_of_place(&self, gateway: u32, face: u32) -> u64
        ensures { result ≡ number_of_place self.now gateway face }
    {
        number_among(&self.faces, gateway, face)
    }

    /// A fabric equal to this one.
    pub fn copy(&self, alloc: Global) -> Result<Self, Memory>
        ensures { IfOk result (λ copy. copy ≡ self.now) }
    {
        Ok(ShownFabric {
            gateways: copy_nodes(alloc, &self.gateways)?,
            faces: copy_places(alloc, &self.faces)?,
            links: copy_links(alloc, &self.links)?,
            waiting: copy_queues(alloc, &self.waiting)?,
        })
    }
}
