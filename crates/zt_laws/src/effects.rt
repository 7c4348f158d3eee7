//! What single calls and lines come to: a declaration whose row is there, the closing of a face,
//! the ids that are drawn, and the two calls of a link's line.

ghost use Rattle.std.specs.Prelude.{◌≡◌, ◌==◌, ◌+◌, ◌≤◌, ℕ, Bool, true, false, not, if◌then◌else◌};
ghost use Rattle.std.specs.Prelude.{List, [], Option, Some, None, length, map, filter};
ghost use Rattle.zt_protocol.specs.Plain.{PlainCall, DeclareToken, CloseFace, PlainLine};
ghost use Rattle.zt_protocol.specs.declared.entries.Sent.{Sent};
ghost use Rattle.zt_model.specs.Closing.{leaving};
ghost use Rattle.zt_model.specs.Fabric.{Fabric, after_hearing, closed_ends, entry_of, opened_ends};
ghost use Rattle.zt_model.specs.Hearing.{messages_for};
ghost use Rattle.zt_model.specs.Linking.{LinkEnd};
ghost use Rattle.zt_model.specs.Lists.{at_id, same};
ghost use Rattle.zt_model.specs.Parts.{unsaid_to};
ghost use Rattle.zt_model.specs.Promises.{DrawsNextIds, HaveNextIds};
ghost use Rattle.zt_model.specs.Refusals.{can_draw, need};
ghost use Rattle.zt_model.specs.Rows.{Face, Rows};
ghost use Rattle.zt_model.specs.Says.{Sends, altered, find_face, is_routed, said, said_by};
ghost use Rattle.zt_model.specs.Transcript.{Each, fabric_shown};
ghost use Rattle.zt_laws.specs.Order.{FabricIsInOrder, RowsAreInOrder};
ghost use Rattle.zt_laws.specs.Shown.{as_shown};
ghost use Rattle.zt_laws.specs.Sound.{CallHasFirstIds, HasFirstIds, rows_after_call};

use zt_keys::Key;

/// A declaration whose row is there, under its id and with the same expression, changes no live row
/// of any face.
pub fn repeats_change_no_row<K: Key>()
    ensures { (n id node : ℕ) (e live : K) (interest : Option ℕ) (f : Face K) (g : Rows K)
        → RowsAreInOrder K.cmp K.matching g
        → find_face n g ≡ Some f → at_id id f.live ≡ Some live → same K.cmp e live ≡ true
        → map (λ h. h.live) (rows_after_call K.cmp K.matching
        (DeclareToken n id e node interest) g).faces ≡ map (λ h. h.live) g.faces }
{}

/// Closing a face outside router regions says what undeclaring its tokens, finalising its
/// interests, dropping its asks and ending its pendings say, one after another, without what they
/// say to the face itself. A face of a router region leaves without a word, and no closing says
/// anything to the face that it closes.
pub fn closing_says_what_leaving_says<K: Key>()
    ensures leaves { (n : ℕ) (f : Face K) (g : Rows K) → find_face n g ≡ Some f
        → is_routed g f ≡ false
        → said K.cmp K.matching (CloseFace n) g
        ≡ said_by K.cmp K.matching (unsaid_to n (leaving K.cmp K.matching n f)) g }
    ensures others { (n k : ℕ) (ss : Sends K)
        → messages_for k (filter (λ s. not (n == s.0)) ss)
        ≡ (if n == k then [] else messages_for k ss) }
    ensures routed { (n : ℕ) (f : Face K) (g : Rows K) → find_face n g ≡ Some f
        → is_routed g f ≡ true → said K.cmp K.matching (CloseFace n) g ≡ [] }
    ensures itself { (n : ℕ) (g : Rows K)
        → messages_for n (said K.cmp K.matching (CloseFace n) g) ≡ [] }
{}

/// A call that can draw no ids, which are all but declarations, interests and the opening of a
/// transport's face, draws none: it needs none, and each face that it leaves has the next id that
/// it had, or its first.
pub fn other_calls_draw_no_ids<K: Key>()
    ensures { (c : PlainCall K) (g : Rows K) → can_draw K.cmp K.matching c ≡ false
        → CallHasFirstIds c → RowsAreInOrder K.cmp K.matching g
        → map (λ f. f.next) (rows_after_call K.cmp K.matching c g).faces
        ≡ map (λ f. f.next + need K.cmp K.matching c g f) (altered K.cmp K.matching c g).faces }
{}

/// The ids that a call draws: for each face that it leaves, each token under a real id has the
/// face's next one or that under which the face keeps it, and each interest has the next one, as
/// the messages are heard one by one.
pub fn calls_draw_next_ids<K: Key>()
    ensures { (c : PlainCall K) (g : Rows K) → CallHasFirstIds c → RowsAreInOrder K.cmp K.matching g
        → Each (λ f. HaveNextIds K.cmp K.matching
        (messages_for f.number (said K.cmp K.matching c g)) f)
        (altered K.cmp K.matching c g).faces }
{}

/// The promise of ids, for every line of a script: what a line's entry prints for a face draws its
/// next ids, as `DrawsNextIds` has it of a turn, from the fabric that a transcript shows of the
/// machine's.
pub fn lines_draw_next_ids<K: Key>()
    ensures { (line : PlainLine K) (s : Fabric K) → HasFirstIds line
        → FabricIsInOrder K.cmp K.matching s
        → (let entry = entry_of K.cmp K.matching line s in
        let before = as_shown s in
        DrawsNextIds K.cmp K.matching
        (record {
          line = line;
          entry = entry;
          before = before;
          after = fabric_shown K.cmp K.matching line entry before;
        })) }
{}

/// What the first call of a link's line says may be heard before the second call or after it:
/// closing faces and hearing can be exchanged, and so can opening the ends of a link and hearing
/// messages to faces that were there.
pub fn hearing_may_wait<K: Key>()
    ensures closing { (faces : List ℕ) (ms : List (Sent K)) (s : Fabric K)
        → after_hearing K.cmp ms (closed_ends K.cmp K.matching faces s)
        ≡ closed_ends K.cmp K.matching faces (after_hearing K.cmp ms s) }
    ensures opening { (ends : List (LinkEnd K)) (ms : List (Sent K)) (s : Fabric K)
        → Each (λ end. 1 ≤ end.first) ends → FabricIsInOrder K.cmp K.matching s
        → Each (λ m. m.face ≤ length s.faces) ms
        → after_hearing K.cmp ms (opened_ends K.cmp K.matching ends s)
        ≡ opened_ends K.cmp K.matching ends (after_hearing K.cmp ms s) }
{}
