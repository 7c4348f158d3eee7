// Tables of keys in order, and what an ask was answered.
ghost use Rattle.std.specs.Prelude.{◌≡◌, [], ◌∷◌, ◌++◌, IfOk, OnOk};
ghost use Rattle.zt_model.specs.Lists.{is_among};
ghost use Rattle.zt_model.specs.Promises.{answered_by};
ghost use Rattle.zt_presence.specs.Presence.{IsTable, beyond, listed};
ghost use Rattle.zt_theorem_journal.specs.Asked.{answers_to};

use std::alloc::Global;
use zt_keys::{Key, Memory};
use zt_protocol::{InterestId, Message, Sent};

/// What a poll found.
#[derive(PartialEq, Eq, Debug, Drop)]
pub struct Change<K> {
    /// The place of the poll's entry in the journal, from 0: what was found held there.
    pub place: u64,
    /// What the table gained, in key order.
    pub joined: Vec<K>,
    /// What the table lost, in key order.
    pub left: Vec<K>,
}

// The expression of a token that answers the interest of this id.
fn answered<K: Key>(id: InterestId, message: Message<K>) -> Option<K>
    ensures { listed result ≡ answered_by id message }
{
    match message {
        Message::DeclareToken {
            id: _,
            expr,
            interest_id,
            node_id: _,
        } => match interest_id {
            Some(interest) => { if id == interest { Some(expr) } else { None } }
            None => None,
        },
        _ => None,
    }
}

// The expression that the ask of a face is answered by a message, where it is one of its answers.
fn answer_of<K: Key>(face: u32, id: InterestId, sent: Sent<K>) -> Option<K>
    ensures { listed result ≡ answers_to face id (sent ∷ []) }
{
    if face == sent.face {
        answered(id, sent.message)
    } else {
        None
    }
}

// Adds what the ask of a face is answered by a message.
fn add_answer<K: Key>(
    keys: &mut Vec<K>,
    face: u32,
    id: InterestId,
    sent: Sent<K>,
) -> Result<(), Memory>
    ensures { OnOk result (keys.new.items
        ≡ keys.old.items ++ answers_to face id (sent ∷ [])) }
{
    match answer_of(face, id, sent) {
        None => Ok(()),
        Some(key) => {
            keys.push(key)?;
            Ok(())
        }
    }
}

/// The expressions that the ask of a face is answered among messages, in their order.
pub fn answers<K: Key>(
    alloc: Global,
    face: u32,
    id: InterestId,
    sent: Vec<Sent<K>>,
) -> Result<Vec<K>, Memory>
    ensures { IfOk result (λ keys. keys.items ≡ answers_to face id sent.items) }
{
    let mut keys = Vec::new(alloc);
    for one in sent {
        add_answer(&mut keys, face, id, one)?;
    }
    Ok(keys)
}

// Whether the key is in the table. A binary search.
fn is_in<K: Key>(key: &K, table: &[K]) -> bool
    requires { IsTable K.cmp table.now }
    ensures { result ≡ is_among K.cmp key.now table.now }
{
    table.binary_search(key).is_ok()
}

// Adds a copy of the key where the table lacks it.
fn add_beyond<K: Key>(alloc: Global, found: &mut Vec<K>, table: &[K], key: &K) -> Result<(), Memory>
    requires { IsTable K.cmp table.now }
    ensures { OnOk result (found.new.items
        ≡ found.old.items ++ beyond K.cmp table.now (key.now ∷ [])) }
{
    if is_in(key, table) {
        return Ok(());
    }
    found.push(key.copy(alloc)?)?;
    Ok(())
}

/// Copies of the keys that the table lacks, in their order.
pub fn copy_beyond<K: Key>(alloc: Global, table: &[K], keys: &[K]) -> Result<Vec<K>, Memory>
    requires { IsTable K.cmp table.now }
    ensures { IfOk result (λ found. found.items ≡ beyond K.cmp table.now keys.now) }
{
    let mut found = Vec::new(alloc);
    for key in keys {
        add_beyond(alloc, &mut found, table, key)?;
    }
    Ok(found)
}

/// How a table that was found at a place differs from the one before.
pub fn change_of<K: Key>(
    alloc: Global,
    place: u64,
    old: &[K],
    new: &[K],
) -> Result<Change<K>, Memory>
    requires old { IsTable K.cmp old.now }
    requires new { IsTable K.cmp new.now }
    ensures place { IfOk result (λ change. change.place ≡ place) }
    ensures joined { IfOk result (λ change. change.joined.items ≡ beyond K.cmp old.now new.now) }
    ensures left { IfOk result (λ change. change.left.items ≡ beyond K.cmp new.now old.now) }
{
    let joined = copy_beyond(alloc, old, new)?;
    let left = copy_beyond(alloc, new, old)?;
    Ok(Change {
        place,
        joined,
        left,
    })
}
