// The passes.
ghost use Rattle.zt_shared_value.specs.Single.{HasOnePart, one_part-prop};

use crate::part::{Part, View};
use atomic_table::Seat;
use std::marker::Model;

/// The right to call a shared value, for one thread at a time. It has a number, and knows its own
/// entries.
#[derive(Drop)]
pub struct Pass<J> {
    pub(crate) seat: Seat<J, View<J>>,
    pub(crate) number: u32,
    pub(crate) seen: u64,
    pub(crate) known: u32,
    ghost one: { HasOnePart seat.me number seen known } by { one_part-prop seat-code seat number seen known },
}

impl<J> Model for Pass<J> {
    ghost use Rattle.zt_shared_value.specs.Passes.{Standing, standing};

    ghost Value = { Standing J };

    ghost view = { λ pass. standing pass.seat.table_id pass.one.0 };
}

impl<J> Pass<J> {
    ghost use Rattle.std.specs.Prelude.{◌≡◌, ◌<◌};
    ghost use Rattle.zt_shared_value.specs.Passes.{first_pass, standing, part_of};
    ghost use Rattle.zt_shared_value.specs.Plays.{alone, part_made};
    ghost use Rattle.zt_shared_value.specs.Rule.{first_part};

    // The pass of a table's first seat.
    pub(crate) fn first(seat: Seat<J, View<J>>) -> Pass<J>
        requires { (value : J) × (seat.me ≡ alone (first_part value)) }
        ensures { (value : J) → seat.me ≡ alone (first_part value)
            → result ≡ first_pass seat.table_id value }
    {
        Pass {
            seat,
            number: 0,
            seen: 0,
            known: 1,
        }
    }

    // The pass of a seat that was cut off with its number.
    pub(crate) fn made(seat: Seat<J, View<J>>, number: u32, seen: u64) -> Pass<J>
        requires room { number < 4294967295 }
        requires alone { (p : Part J) × (seat.me ≡ alone (part_made number p)) × (p.seen ≡ seen) }
        ensures { (p : Part J) → seat.me ≡ alone (part_made number p)
            → result ≡ standing seat.table_id (part_made number p) }
    {
        Pass {
            seat,
            number,
            seen,
            known: number + 1,
        }
    }

    // The seat alone.
    pub(crate) fn into_seat(self) -> Seat<J, View<J>>
        ensures { (result.table_id ≡ self.table) × (result.me ≡ alone (part_of self)) }
    {
        let Pass {
            seat,
            number: _,
            seen: _,
            known: _,
        } = self;
        seat
    }

    /// The number by which the journal names this pass; the first is 0.
    pub fn number(&self) -> u32
        ensures { result ≡ self.now.number }
    {
        self.number
    }

    /// How long it has seen the journal: it never falls.
    pub fn seen(&self) -> u64
        ensures { result ≡ self.now.seen }
    {
        self.seen
    }
}
