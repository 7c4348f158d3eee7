// Which entries of a table count: of those that clash, the first does.
ghost use Rattle.std.specs.Prelude.{◌≡◌, [], IfOk};
ghost use Rattle.std.specs.List.{list_any};
ghost use Rattle.zt_model.specs.Trees.{counted_beside};

use std::alloc::Global;
use zt_keys::Memory;
use zt_region::{NodeId, Zid};

// An entry of a table.
pub(crate) trait Entry: Copy {
    ghost use Rattle.std.specs.Prelude.{◌≡◌, Bool};

    // It doesn't count where that one does.
    ghost clash: { Self → Self → Bool };

    fn clashes(&self, other: &Self) -> bool
        ensures { result ≡ clash self.now other.now };
}

impl Entry for (NodeId, Zid) {
    ghost use Rattle.zt_model.specs.Trees.{is_same_router};

    ghost clash = { is_same_router };

    fn clashes(&self, other: &(NodeId, Zid)) -> bool {
        self.0 == other.0 || self.1 == other.1
    }
}

impl Entry for (u32, NodeId, Zid) {
    ghost use Rattle.zt_model.specs.Trees.{is_same_link};

    ghost clash = { is_same_link };

    fn clashes(&self, other: &(u32, NodeId, Zid)) -> bool {
        self.0 == other.0 && (self.1 == other.1 || self.2 == other.2)
    }
}

// Whether an entry clashes with one of those that count.
fn clashes_with_any<E: Entry>(entry: &E, counted: &[E]) -> bool
    ensures { result ≡ list_any (E.clash entry.now) counted.now }
{
    counted.iter().any(|other| entry.clashes(other))
}

// The entries that count.
pub(crate) fn counted<E: Entry>(alloc: Global, entries: &[E]) -> Result<Vec<E>, Memory>
    ensures { IfOk result (λ counted. counted.items ≡ counted_beside E.clash [] entries.now) }
{
    let mut counted = Vec::new(alloc);
    for entry in entries {
        if !clashes_with_any(entry, &counted) {
            counted.push(*entry)?;
        }
    }
    Ok(counted)
}
