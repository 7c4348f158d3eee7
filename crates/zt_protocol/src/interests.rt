ghost use Rattle.std.specs.Prelude.{⊤, ◌≡◌, [], ◌∷◌, codes};
ghost use Rattle.zt_protocol.specs.Interest.{is_current, is_future};

use bitflags::{Flag, Flags, bitflag_items};

/// When an interest is answered: once and at once, from now on, or both.
///
/// In Zenoh's session interface a `get` asks `Current`, a subscriber `Future`, and a subscriber
/// with history `CurrentFuture`.
#[derive(Clone, Copy, PartialEq, Eq, PartialOrd, Ord, Hash, Debug)]
pub enum InterestMode {
    Current,
    Future,
    CurrentFuture,
}

impl InterestMode {
    /// Whether what is there now is asked for, which one final ends.
    pub fn is_current(&self) -> bool
        ensures { result ≡ is_current self.now }
    {
        matches!(self, InterestMode::Current | InterestMode::CurrentFuture)
    }

    /// Whether what comes later is asked for, until the interest is finalised.
    pub fn is_future(&self) -> bool
        ensures { result ≡ is_future self.now }
    {
        matches!(self, InterestMode::Future | InterestMode::CurrentFuture)
    }
}

/// What an interest asks about, a set of five named bits.
///
/// `TOKENS` asks for liveliness tokens, `SUBSCRIBERS` and `QUERYABLES` for those entities, and
/// `AGGREGATE` for one declaration in place of many. `KEYEXPRS` is carried and asks for nothing
/// here. `ALL` is the first four.
#[derive(Clone, Copy, PartialEq, Eq, PartialOrd, Ord, Hash, Debug)]
pub struct InterestOptions(u8);

bitflag_items! {
    impl InterestOptions: u8 {
        const KEYEXPRS = 1;
        const SUBSCRIBERS = 2;
        const QUERYABLES = 4;
        const TOKENS = 8;
        const AGGREGATE = 16;
        const ALL = 15;
    }
}

impl Flags for InterestOptions {
    type Bits = u8;

    ghost exact = { ⊤ };

    ghost table = { (codes "KEYEXPRS", 1) ∷ (codes "SUBSCRIBERS", 2) ∷ (codes "QUERYABLES", 4)
        ∷ (codes "TOKENS", 8) ∷ (codes "AGGREGATE", 16) ∷ (codes "ALL", 15) ∷ [] };

    ghost set_of = { λ options. options.0 };

    fn flags<'a>() -> &'a [Flag<InterestOptions>] {
        InterestOptions::FLAGS
    }

    fn bits(&self) -> u8 {
        self.0
    }

    fn from_bits_retain(bits: u8) -> InterestOptions {
        InterestOptions(bits)
    }
}
