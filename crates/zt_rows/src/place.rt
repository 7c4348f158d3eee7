// Places of rows.
ghost use Rattle.std.specs.Map.Iter.{deref_pair};
ghost use Rattle.std.specs.Option.{option_copied, option_map};
ghost use Rattle.std.specs.Prelude.{◌≡◌, None, Some};

use std::marker::Model;
use std::mem;
use zt_ordered::Numbered;

// What stands in a place. The id stands beside the mark of its kind, where it takes no room of its
// own: so a place with a row of one pointer takes two words.
#[derive(Drop)]
pub(crate) enum Slot<X> {
    Taken(u32, X),
    Empty(u32),
}

/// A place under an id. A row stands in it, or none: then the place is empty.
#[derive(Drop)]
pub struct Place<X> {
    slot: Slot<X>,
}

impl<X> Model for Place<X> {
    ghost use Rattle.std.specs.Prelude.{ℕ, Option};
    ghost use Rattle.zt_rows.specs.Slots.{id_and_row};

    ghost Value = { ℕ × Option X };

    ghost view = { λ p. id_and_row p.slot };
}

impl<X> Numbered for Place<X> {
    ghost use Rattle.zt_ordered.specs.Pairs.{pairs-same};

    type Row = Option<X>;

    ghost pair = { λ place. place };

    ghost pairs = { λ places. places };

    ghost pairs_are = { pairs-same };

    fn number(&self) -> u32 {
        self.id()
    }
}

impl<X> Place<X> {
    // A place in which the row stands.
    pub(crate) fn taken(id: u32, row: X) -> Self
        ensures { result ≡ (id, Some row) }
    {
        Place {
            slot: Slot::Taken(id, row),
        }
    }

    /// The id.
    pub fn id(&self) -> u32
        ensures { result ≡ self.now.0 }
    {
        match &self.slot {
            Slot::Taken(id, _) | Slot::Empty(id) => *id,
        }
    }

    /// The row, if one stands here.
    pub fn row(&self) -> Option<&X>
        ensures { option_copied result ≡ self.now.1 }
    {
        match &self.slot {
            Slot::Taken(_, row) => Some(row),
            Slot::Empty(_) => None,
        }
    }

    // The row with its id, if one stands here.
    pub(crate) fn entry(&self) -> Option<(&u32, &X)>
        ensures { option_map deref_pair result ≡ option_map (λ row. (self.now.0, row)) self.now.1 }
    {
        match &self.slot {
            Slot::Taken(id, row) => Some((id, row)),
            Slot::Empty(_) => None,
        }
    }

    // Takes the row, if one stands here. The place is empty then.
    pub(crate) fn take(&mut self) -> Option<X>
        ensures row { result ≡ self.old.1 }
        ensures emptied { self.new ≡ (self.old.0, None) }
    {
        let id = self.id();
        match mem::replace(&mut self.slot, Slot::Empty(id)) {
            Slot::Taken(_, row) => Some(row),
            Slot::Empty(_) => None,
        }
    }
}

impl<X: Drop> Place<X> {
    // Puts the row here, in place of the one that stands here, if any.
    pub(crate) fn put(&mut self, row: X)
        ensures { self.new ≡ (self.old.0, Some row) }
    {
        self.slot = Slot::Taken(self.id(), row);
    }
}
