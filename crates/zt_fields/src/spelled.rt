// Values that a text spells.
ghost use Rattle.std.specs.Prelude.{◌≡◌, ℕ, List, Option, codes};
ghost use Rattle.zt_fields.specs.Fields.{behind};
ghost use Rattle.zt_fields.specs.Numbers.{u16_of, u32_of, u64_of};
ghost use Rattle.zt_fields.specs.Values.{mode_of, bound_of, interest_mode_of, options_of, zid_of};
ghost use Rattle.zt_fields.specs.Values.{first_of, south_of, region_of, pair_of, triple_of};

use crate::fields::{behind, three_parts, two_parts};
use crate::numbers::number_up_to;
use crate::values::{bound_of, interest_mode_of, mode_of, options_of, zid_of};
use zt_protocol::{InterestMode, InterestOptions};
use zt_region::{Bound, Region, WhatAmI, Zid};

/// A value that a text spells.
pub trait Spelled: Sized + Drop {
    /// The value, if the text spells one.
    ghost of_text: { List ℕ → Option Self };

    fn read(text: &str) -> Option<Self>
        ensures { result ≡ of_text text.now };
}

impl Spelled for u16 {
    ghost of_text = { u16_of };

    fn read(text: &str) -> Option<u16> {
        Some(number_up_to(text.as_bytes(), u64::from(u16::MAX))? as u16)
    }
}

impl Spelled for u32 {
    ghost of_text = { u32_of };

    fn read(text: &str) -> Option<u32> {
        Some(number_up_to(text.as_bytes(), u64::from(u32::MAX))? as u32)
    }
}

impl Spelled for u64 {
    ghost of_text = { u64_of };

    fn read(text: &str) -> Option<u64> {
        number_up_to(text.as_bytes(), u64::MAX)
    }
}

impl Spelled for Zid {
    ghost of_text = { zid_of };

    fn read(text: &str) -> Option<Zid> {
        zid_of(text)
    }
}

impl Spelled for WhatAmI {
    ghost of_text = { mode_of };

    fn read(text: &str) -> Option<WhatAmI> {
        mode_of(text)
    }
}

impl Spelled for Bound {
    ghost of_text = { bound_of };

    fn read(text: &str) -> Option<Bound> {
        bound_of(text)
    }
}

impl Spelled for InterestMode {
    ghost of_text = { interest_mode_of };

    fn read(text: &str) -> Option<InterestMode> {
        interest_mode_of(text)
    }
}

impl Spelled for InterestOptions {
    ghost of_text = { options_of };

    fn read(text: &str) -> Option<InterestOptions> {
        options_of(text)
    }
}

impl Spelled for Region {
    ghost of_text = { region_of };

    #[tactic(auto, unfolding(crate::specs::Values::region_of))]
    fn read(text: &str) -> Option<Region> {
        match text {
            "north" => Some(Region::North),
            "local" => Some(Region::Local),
            _ => south_region_of(text),
        }
    }
}

fn south_region_of(text: &str) -> Option<Region>
    ensures { result ≡ south_of (behind (codes "south") text.now) }
{
    let (number, mode) = two_parts(behind(text, "south")?, '-')?;
    let id = u32::read(number)?;
    let mode = WhatAmI::read(mode)?;
    Some(Region::South { id, mode })
}

/// Two values with `:` between them.
impl<A: Spelled, B: Spelled> Spelled for (A, B) {
    ghost of_text = { pair_of A.of_text B.of_text };

    fn read(text: &str) -> Option<(A, B)> {
        let (one, two) = two_parts(text, ':')?;
        Some((A::read(one)?, B::read(two)?))
    }
}

/// Three values with `:` between them.
impl<A: Spelled, B: Spelled, C: Spelled> Spelled for (A, B, C) {
    ghost of_text = { triple_of A.of_text B.of_text C.of_text };

    fn read(text: &str) -> Option<(A, B, C)> {
        let (one, two, three) = three_parts(text, ':')?;
        Some((A::read(one)?, B::read(two)?, C::read(three)?))
    }
}

/// An id that a face may begin with.
pub(crate) fn first_of(text: &str) -> Option<u32>
    ensures { result ≡ first_of text.now }
{
    let first = u32::read(text)?;
    if first == 0 {
        return None;
    }
    Some(first)
}
