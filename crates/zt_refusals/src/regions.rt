// Which regions a gateway has, and which of them has its one face.
ghost use Rattle.std.specs.Prelude.{◌≡◌};
ghost use Rattle.std.specs.List.{list_any};
ghost use Rattle.zt_model.specs.Refusals.{are_numbers_spent, is_north_taken};
ghost use Rattle.zt_model.specs.Strategy.{is_region_of};
ghost use Rattle.zt_region.specs.Region.{is_north, region_eq};

use zt_hats::hat_of;
use zt_keys::Key;
use zt_region::Region;
use zt_state::{FaceState, GatewayState};

// Whether the region is one of these.
fn is_listed(listed: &[Region], region: Region) -> bool
    ensures { result ≡ list_any (region_eq region) listed.now }
{
    listed.iter().any(|one| region == *one)
}

/// Whether a gateway that lists these south regions has the region.
pub fn is_region_of(listed: &[Region], region: Region) -> bool
    ensures { result ≡ is_region_of listed.now region }
{
    match region {
        Region::North | Region::Local => true,
        Region::South { .. } => is_listed(listed, region),
    }
}

/// Whether the gateway has the region. A look-up.
pub fn has_region<K: Key>(g: &GatewayState<K>, region: Region) -> bool
    ensures { result ≡ is_region_of g.now.regions region }
{
    match region {
        Region::North | Region::Local => true,
        Region::South { .. } => g.lists(region),
    }
}

// Whether the face is of the region.
fn is_in<K: Key>(f: &FaceState<K>, region: Region) -> bool
    ensures { result ≡ region_eq f.now.region region }
{
    f.region() == region
}

// Whether a face of the gateway leads to the north.
fn has_north<K: Key>(g: &GatewayState<K>) -> bool
    ensures { result ≡ list_any (λ f. is_north f.region) g.now.faces }
{
    !g.north().is_empty()
}

// Whether a face of the gateway is of the region. To the north this is a look-up.
fn has_face<K: Key>(g: &GatewayState<K>, region: Region) -> bool
    ensures { result ≡ list_any (λ f. region_eq f.region region) g.now.faces }
{
    match region {
        Region::North => has_north(g),
        Region::Local | Region::South { .. } => g.faces().any(|f| is_in(f, region)),
    }
}

/// Whether the region has one face at most, and has it already.
pub fn is_north_taken<K: Key>(g: &GatewayState<K>, region: Region) -> bool
    ensures { result ≡ is_north_taken region g.now }
{
    hat_of(g.mode(), region).has_one_face() && has_face(g, region)
}

/// Whether a new face would get a number above the greatest.
pub(crate) fn are_numbers_spent<K: Key>(g: &GatewayState<K>) -> bool
    ensures { result ≡ are_numbers_spent g.now }
{
    u32::MAX <= g.made()
}
