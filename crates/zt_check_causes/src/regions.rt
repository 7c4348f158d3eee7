// Which regions a gateway has, and whether there is room for a face.
ghost use Rattle.std.specs.Prelude.{◌≡◌};
ghost use Rattle.std.specs.List.{list_any};
ghost use Rattle.zt_model.specs.Refusals.{are_numbers_spent, is_north_taken};
ghost use Rattle.zt_model.specs.Strategy.{is_region_of};
ghost use Rattle.zt_region.specs.Region.{region_eq};

use crate::hats::has_one_face;
use zt_check_faces::ShownFace;
use zt_check_rows::ShownRows;
use zt_keys::Key;
use zt_region::Region;

// Whether the region is among others.
fn is_among(regions: &[Region], region: Region) -> bool
    ensures { result ≡ list_any (region_eq region) regions.now }
{
    regions.iter().any(|other| region == *other)
}

/// Whether the region is one of a gateway that lists these in the south.
pub fn is_region_of(listed: &[Region], region: Region) -> bool
    ensures { result ≡ is_region_of listed.now region }
{
    match region {
        Region::North | Region::Local => true,
        Region::South { .. } => is_among(listed, region),
    }
}

// Whether one of these faces is of the region.
fn is_any_of<K: Key>(faces: &[ShownFace<K>], region: Region) -> bool
    ensures { result ≡ list_any (λ f. region_eq f.region region) faces.now }
{
    faces.iter().any(|face| face.region() == region)
}

/// Whether the region has its one face.
pub fn is_north_taken<K: Key>(rows: &ShownRows<K>, region: Region) -> bool
    ensures { result ≡ is_north_taken region rows.now }
{
    has_one_face(rows.mode(), region) && is_any_of(rows.faces(), region)
}

/// Whether a new face would get no number.
pub(crate) fn are_numbers_spent<K: Key>(rows: &ShownRows<K>) -> bool
    ensures { result ≡ are_numbers_spent rows.now }
{
    u32::MAX <= rows.made()
}
