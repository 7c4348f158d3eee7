// The interests that faces hold, as they come and go: those in tokens, and the others.
ghost use Rattle.std.specs.Prelude.{◌≡◌, OnOk};
ghost use Rattle.zt_protocol.specs.Interest.{has_tokens};
ghost use Rattle.zt_rows.specs.ById.{IsInOrder};
ghost use Rattle.zt_token_index.specs.Seekers.{DropsAll, DropsOf, PutsOf, RemovesOf};
ghost use Rattle.zt_token_index.specs.Seekers.{in_others, in_tokens};

use bitflags::Flags;
use std::alloc::Global;
use zt_face::{FaceState, RemoteInterest};
use zt_interest_index::InterestIndex;
use zt_keys::{Key, Memory};
use zt_protocol::InterestOptions;

// Whether an interest is one in tokens.
fn is_in_tokens<K: Key>(interest: &RemoteInterest<K>) -> bool
    ensures { result ≡ has_tokens interest.now.options }
{
    interest.options().contains(InterestOptions::TOKENS)
}

// The interest that a face holds under an id goes.
fn remove_held<K: Key>(
    tokens: &mut InterestIndex<K>,
    others: &mut InterestIndex<K>,
    face: u32,
    id: u32,
    interest: &RemoteInterest<K>,
)
    ensures tokens { RemovesOf K.cmp in_tokens face id interest.now tokens.old tokens.new }
    ensures others { RemovesOf K.cmp in_others face id interest.now others.old others.new }
{
    if is_in_tokens(interest) {
        tokens.remove(face, id, interest.expr());
    } else {
        others.remove(face, id, interest.expr());
    }
}

/// The interest that the face holds under the id, if any, goes.
pub(crate) fn drop_held<K: Key>(
    tokens: &mut InterestIndex<K>,
    others: &mut InterestIndex<K>,
    f: &FaceState<K>,
    id: u32,
)
    ensures ordered { IsInOrder f.now.held }
    ensures tokens { DropsOf K.cmp in_tokens f.now id tokens.old tokens.new }
    ensures others { DropsOf K.cmp in_others f.now id others.old others.new }
{
    if let Some(held) = f.held().at(id) {
        remove_held(tokens, others, f.number(), id, held);
    }
}

/// An interest comes.
pub(crate) fn put_held<K: Key>(
    alloc: Global,
    tokens: &mut InterestIndex<K>,
    others: &mut InterestIndex<K>,
    face: u32,
    id: u32,
    interest: &RemoteInterest<K>,
) -> Result<(), Memory>
    ensures tokens { OnOk result (PutsOf K.cmp in_tokens face id interest.now
        tokens.old tokens.new) }
    ensures others { OnOk result (PutsOf K.cmp in_others face id interest.now
        others.old others.new) }
{
    if is_in_tokens(interest) {
        tokens.put(alloc, face, id, interest.expr())
    } else {
        others.put(alloc, face, id, interest.expr())
    }
}

/// All interests that the face holds go.
pub(crate) fn drop_all<K: Key>(
    tokens: &mut InterestIndex<K>,
    others: &mut InterestIndex<K>,
    f: &FaceState<K>,
)
    ensures tokens { DropsAll K.cmp in_tokens f.now tokens.old tokens.new }
    ensures others { DropsAll K.cmp in_others f.now others.old others.new }
{
    for (id, held) in f.held().iter() {
        remove_held(tokens, others, f.number(), *id, held);
    }
}
