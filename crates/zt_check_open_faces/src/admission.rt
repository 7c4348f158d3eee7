// Whose tokens faces of a region see, and which of these the admission table admits.
ghost use Rattle.std.specs.Prelude.{◌≡◌, ◌&&◌};
ghost use Rattle.zt_region.specs.Admission.{admits, is_pair};
ghost use Rattle.zt_model.specs.Seen.{sees};

use zt_region::{Region, WhatAmI};

/// Whether faces of a region see the tokens of another.
pub fn sees(own: Region, source: Region) -> bool
    ensures { result ≡ sees own source }
{
    match own {
        Region::Local => true,
        Region::South {
            mode: WhatAmI::Client,
            ..
        } => true,
        _ => own != source,
    }
}

// Whether the pair is that of the two regions.
fn is_pair(pair: &(Region, Region), source: Region, own: Region) -> bool
    ensures { result ≡ is_pair source own pair.now }
{
    pair.0 == source && pair.1 == own
}

/// Whether the admission table refuses no token of the one region to the other.
pub fn admits(refused: &[(Region, Region)], source: Region, own: Region) -> bool
    ensures { result ≡ admits refused.now source own }
{
    for pair in refused {
        if is_pair(pair, source, own) {
            return false;
        }
    }
    true
}

/// Whether faces of a region see the tokens of another, and the admission table admits them.
pub fn is_shown_and_admitted(refused: &[(Region, Region)], own: Region, source: Region) -> bool
    ensures { result ≡ (sees own source && admits refused.now source own) }
{
    sees(own, source) && admits(refused, source, own)
}
