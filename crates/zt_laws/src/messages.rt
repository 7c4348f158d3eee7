//! What messages change, whatever calls they come from: their order among faces is nothing, and
//! what a face was told is what it keeps.

ghost use Rattle.std.specs.Prelude.{◌≡◌, ◌==◌, max, ℕ, Bool, false, List, Some, None, filter};
ghost use Rattle.zt_protocol.specs.Plain.{PlainCall, PlainLine};
ghost use Rattle.zt_protocol.specs.declared.entries.Sent.{Sent};
ghost use Rattle.zt_protocol.specs.declared.messages.Message.{Message};
ghost use Rattle.zt_model.specs.Fabric.{Fabric, after_hearing, entry_of, fabric_after, printed_for};
ghost use Rattle.zt_model.specs.Fabric.{sorted_by_face, with_waiting};
ghost use Rattle.zt_model.specs.Hearing.{heard_all, messages_for, rows_heard};
ghost use Rattle.zt_model.specs.Rows.{Face, Rows};
ghost use Rattle.zt_model.specs.Says.{Sends, find_face, said};
ghost use Rattle.zt_model.specs.Transcript.{FaceAt, StandInOrderOfFace, face_numbered, messages_of};
ghost use Rattle.zt_laws.specs.Kept.{has_pair, is_kept, next_sent, told_by_all, told_of};
ghost use Rattle.zt_laws.specs.Order.{FabricIsInOrder, RowsAreInOrder};
ghost use Rattle.zt_laws.specs.Sound.{HasFirstIds, rows_after_call};

use zt_keys::Key;

/// Sorting by face: what is printed stands in order of face, and the messages of each face are
/// those that were sent to it, in the order sent.
pub fn sorting_keeps_each_faces_messages<K: Key>()
    ensures in_order { (ms : List (Sent K)) → StandInOrderOfFace (sorted_by_face ms) }
    ensures of_face { (n : ℕ) (ms : List (Sent K))
        → filter (λ m. n == m.face) (sorted_by_face ms) ≡ filter (λ m. n == m.face) ms }
{}

/// Interleaving and sorting change nothing: messages that are the same for each face leave the same
/// fabric and the same messages waiting, at a gateway the same rows; sorted messages are such.
pub fn interleaving_changes_nothing<K: Key>()
    ensures hearing { (ms ns : List (Sent K)) (s : Fabric K)
        → ((n : ℕ) → printed_for n ms ≡ printed_for n ns)
        → after_hearing K.cmp ms s ≡ after_hearing K.cmp ns s }
    ensures waiting { (ms ns : List (Sent K)) (s : Fabric K)
        → ((n : ℕ) → printed_for n ms ≡ printed_for n ns) → with_waiting ms s ≡ with_waiting ns s }
    ensures rows { (ss ts : Sends K) (g : Rows K)
        → ((n : ℕ) → messages_for n ss ≡ messages_for n ts)
        → rows_heard K.cmp ss g ≡ rows_heard K.cmp ts g }
    ensures sorted { (ms : List (Sent K)) (s : Fabric K)
        → after_hearing K.cmp (sorted_by_face ms) s ≡ after_hearing K.cmp ms s }
    ensures sorted_waiting { (ms : List (Sent K)) (s : Fabric K)
        → with_waiting (sorted_by_face ms) s ≡ with_waiting ms s }
{}

/// What is told is what is kept, literally: after any messages a face has a pair of id and
/// expression exactly where its messages, read one by one, leave the pair, and its next id is one
/// more than the greatest that was sent, or that which it had. Hearing changes nothing but told
/// rows, the next id, and the rows of upstream interests and of asks.
pub fn told_is_kept<K: Key>()
    ensures pairs { (now id : ℕ) (e : K) (ms : List (Message K)) (f : Face K)
        → has_pair K.cmp id e (heard_all K.cmp now ms f).told
        ≡ is_kept K.cmp id e ms (has_pair K.cmp id e f.told) }
    ensures next { (now : ℕ) (ms : List (Message K)) (f : Face K)
        → (heard_all K.cmp now ms f).next ≡ max f.next (next_sent ms) }
    ensures alone { (now : ℕ) (ms : List (Message K)) (f : Face K)
        → told_of (heard_all K.cmp now ms f) ≡ told_by_all K.cmp ms (told_of f) }
    ensures rest { (now : ℕ) (ms : List (Message K)) (f : Face K)
        → (let h = heard_all K.cmp now ms f in h
        ≡ record f {
          told = h.told;
          next = h.next;
          locals = h.locals;
          pendings = h.pendings;
          asks = h.asks;
        }) }
{}

/// What is told is what a call's messages say, whatever the call: the told rows and the next id of
/// a face that was open are those that the messages for it leave, and a face that the call opens
/// had none before them. What a call changes itself tells nothing.
pub fn calls_tell_by_messages_alone<K: Key>()
    ensures standing { (c : PlainCall K) (g : Rows K) (n : ℕ) (before after : Face K)
        → RowsAreInOrder K.cmp K.matching g
        → find_face n g ≡ Some before
        → find_face n (rows_after_call K.cmp K.matching c g) ≡ Some after
        → told_of after ≡ told_by_all K.cmp (messages_for n (said K.cmp K.matching c g))
        (told_of before) }
    ensures opened { (c : PlainCall K) (g : Rows K) (n id : ℕ) (e : K) (after : Face K)
        → RowsAreInOrder K.cmp K.matching g
        → find_face n g ≡ None → find_face n (rows_after_call K.cmp K.matching c g) ≡ Some after
        → has_pair K.cmp id e after.told
        ≡ is_kept K.cmp id e (messages_for n (said K.cmp K.matching c g)) false }
{}

/// The same of the lines of a script: what a face was told after a line is what the line's entry
/// prints for it, by its number in scripts, and a face that the line makes was told nothing before.
pub fn lines_tell_by_messages_alone<K: Key>()
    ensures standing { (line : PlainLine K) (s : Fabric K) (n : ℕ) (before after : FaceAt K)
        → HasFirstIds line → FabricIsInOrder K.cmp K.matching s
        → (let entry = entry_of K.cmp K.matching line s in
        face_numbered s n ≡ Some before
        → face_numbered (fabric_after K.cmp K.matching line entry s) n ≡ Some after
        → told_of after.face ≡ told_by_all K.cmp (printed_for n (messages_of entry))
        (told_of before.face)) }
    ensures opened { (line : PlainLine K) (s : Fabric K) (n id : ℕ) (e : K) (after : FaceAt K)
        → HasFirstIds line → FabricIsInOrder K.cmp K.matching s
        → (let entry = entry_of K.cmp K.matching line s in
        face_numbered s n ≡ None
        → face_numbered (fabric_after K.cmp K.matching line entry s) n ≡ Some after
        → has_pair K.cmp id e after.face.told
        ≡ is_kept K.cmp id e (printed_for n (messages_of entry)) false) }
{}
