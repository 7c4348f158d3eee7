// Whether one gateway lies above another.
ghost use Rattle.std.specs.Prelude.{◌≡◌, ◌&&◌, length};
ghost use Rattle.std.specs.Option.{option_copied};
ghost use Rattle.zt_region.specs.Region.{is_north};
ghost use Rattle.zt_model.specs.Linking.{climbs_to, gateway_above, gateway_beyond, is_end_of};
ghost use Rattle.zt_model.specs.Lists.{first_where};

use zt_check_causes::{has_one_north, is_north};
use zt_check_fabric::{ShownFabric, ShownLink};
use zt_check_faces::ShownFace;
use zt_keys::Key;

// Whether the face is at one of the link's ends.
fn is_end_of(link: &ShownLink, face: u64) -> bool
    ensures { result ≡ is_end_of face link.now }
{
    face == u64::from(link.one()) || face == u64::from(link.two())
}

// The first open link that the face ends.
fn open_link_of(links: &[ShownLink], face: u64) -> Option<&ShownLink>
    ensures { option_copied result
        ≡ first_where (λ link. link.is_open && is_end_of face link) links.now }
{
    for link in links {
        if link.is_open() && is_end_of(link, face) {
            return Some(link);
        }
    }
    None
}

// The gateway at the other end of a face's open link.
fn gateway_beyond<'a, K: Key>(fabric: &ShownFabric<'a, K>, face: u64) -> Option<u32>
    ensures { result ≡ gateway_beyond fabric.now face }
{
    let link = open_link_of(fabric.links(), face)?;
    let other = if face == u64::from(link.one()) {
        link.two()
    } else {
        link.one()
    };
    match fabric.place(other) {
        None => None,
        Some(place) => Some(place.gateway()),
    }
}

// The first face to the north.
fn first_north<K: Key>(faces: &[ShownFace<K>]) -> Option<&ShownFace<K>>
    ensures { option_copied result ≡ first_where (λ f. is_north f.region) faces.now }
{
    for face in faces {
        if is_north(face) {
            return Some(face);
        }
    }
    None
}

// The gateway above one that has one face to the north.
fn gateway_above<'a, K: Key>(fabric: &ShownFabric<'a, K>, gateway: u32) -> Option<u32>
    ensures { result ≡ gateway_above fabric.now gateway }
{
    let Some(node) = fabric.node(gateway) else {
        return None;
    };
    let rows = node.rows();
    if !has_one_north(rows.mode()) {
        return None;
    }
    let Some(face) = first_north(rows.faces()) else {
        return None;
    };
    gateway_beyond(fabric, fabric.number_of_place(gateway, face.number()))
}

/// Whether a gateway is another or lies below it, at most as many links away as there are gateways.
pub(crate) fn climbs_to<'a, K: Key>(fabric: &ShownFabric<'a, K>, from: u32, to: u32) -> bool
    ensures { result ≡ climbs_to (length fabric.now.gateways) fabric.now from to }
{
    let mut at = from;
    for climbed in 0..fabric.gateways().len() {
        if at == to {
            return true;
        }
        match gateway_above(fabric, at) {
            None => return false,
            Some(above) => at = above,
        }
    }
    at == to
}
