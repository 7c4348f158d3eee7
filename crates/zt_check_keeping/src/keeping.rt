// What faces keep after a turn.
ghost use Rattle.std.specs.Prelude.{◌≡◌, ◌==◌, ◌&&◌, ◌||◌, not, true, None, Some};
ghost use Rattle.std.specs.List.{list_all};
ghost use Rattle.zt_model.specs.Parts.{is_routed};
ghost use Rattle.zt_model.specs.Rows.{Face};
ghost use Rattle.zt_model.specs.Seen.{may_hear};
ghost use Rattle.zt_check_keeping.specs.Keeping.{are_no_less, are_no_more, at_face, at_gateway};
ghost use Rattle.zt_check_keeping.specs.Keeping.{changed_are_kept, faces_keep_rightly};
ghost use Rattle.zt_check_keeping.specs.Keeping.{heard_are_kept, heard_is_kept, holder_keeps};
ghost use Rattle.zt_check_keeping.specs.Keeping.{keeps_bound, keeps_no_less_of};
ghost use Rattle.zt_check_keeping.specs.Keeping.{keeps_no_more_of, keeps_rightly};
ghost use Rattle.zt_check_keeping.specs.Keeping.{may_hear_all};
ghost use Rattle.zt_check_keeping.specs.Keeping.{opened_keeps_all, unheld_may_hear};
ghost use Rattle.zt_check_keeping.specs.Owing.{keeps_all};

use crate::breaking::{Breaks, first_region};
use crate::changed::Changed;
use crate::heard::Heard;
use crate::owing::keeps_all;
use crate::seen::{is_owed, is_seen, may_hear};
use crate::showing::is_among_changed;
use zt_check_fabric::ShownFabric;
use zt_check_faces::ShownFace;
use zt_check_rows::ShownRows;
use zt_keys::Key;
use zt_region::Region;

// The two bounds on what faces keep.
#[derive(Clone, Copy, PartialEq, Eq)]
pub(crate) enum Bound {
    Upper,
    Lower,
}

// The face keeps the expression only if it is visible to it and it may hear of it.
fn keeps_no_more_of<K: Key>(rows: &ShownRows<K>, face: &ShownFace<K>, expr: &K) -> bool
    ensures { result ≡ keeps_no_more_of K.cmp K.matching rows.now face.now expr.now }
{
    if !face.has_told(expr) {
        return true;
    }
    may_hear(face, expr) && is_seen(rows, face.region(), expr)
}

// The face keeps the expression if it is admitted and owed to it.
fn keeps_no_less_of<K: Key>(rows: &ShownRows<K>, face: &ShownFace<K>, expr: &K) -> bool
    ensures { result ≡ keeps_no_less_of K.cmp K.matching rows.now face.now expr.now }
{
    if face.has_told(expr) {
        return true;
    }
    !is_owed(face, expr) || !rows.is_seen_and_admitted(face.region(), expr)
}

// The face keeps of the expression what this bound asks for.
fn keeps_bound<K: Key>(bound: Bound, rows: &ShownRows<K>, face: &ShownFace<K>, expr: &K) -> bool
    ensures { result ≡ keeps_bound K.cmp K.matching bound rows.now face.now expr.now }
{
    match bound {
        Bound::Upper => keeps_no_more_of(rows, face, expr),
        Bound::Lower => keeps_no_less_of(rows, face, expr),
    }
}

// Each face keeps of the expression what this bound asks for, since no token of it is there.
fn is_shown_to_none<K: Key>(bound: Bound, rows: &ShownRows<K>, expr: &K) -> bool
    ensures { result ≡ true → (f : Face K)
        → keeps_rightly K.cmp K.matching bound rows.now f expr.now ≡ true }
{
    match bound {
        Bound::Upper => false,
        Bound::Lower => !is_seen(rows, Region::Local, expr),
    }
}

// All faces of a gateway keep of the expression what they should. Those alone are looked at that keep
// it, or that it is owed to.
fn faces_keep_rightly<K: Key>(bound: Bound, rows: &ShownRows<K>, expr: &K) -> bool
    ensures { result ≡ faces_keep_rightly K.cmp K.matching bound rows.now expr.now }
{
    if is_shown_to_none(bound, rows, expr) {
        return true;
    }
    let breaks = Breaks::new(bound, rows, first_region(rows), expr);
    match bound {
        Bound::Upper => !rows.any_told(expr, &breaks),
        Bound::Lower => !rows.any_owed(expr, &breaks),
    }
}

// Of a token that the line changes all faces of its gateway keep what they should.
fn changed_is_kept<'a, K: Key>(
    bound: Bound,
    fabric: &ShownFabric<'a, K>,
    gateway: u32,
    expr: &K,
) -> bool
    ensures { result ≡ at_gateway fabric.now gateway
        (λ g. faces_keep_rightly K.cmp K.matching bound g expr.now) }
{
    match fabric.node(gateway) {
        None => true,
        Some(node) => faces_keep_rightly(bound, node.rows(), expr),
    }
}

// Of the tokens that the line changes all faces keep what they should.
fn changed_are_kept<'a, K: Key>(
    bound: Bound,
    fabric: &ShownFabric<'a, K>,
    tokens: &[(u32, K)],
) -> bool
    ensures { result ≡ changed_are_kept K.cmp K.matching bound fabric.now tokens.now }
{
    for token in tokens {
        if !changed_is_kept(bound, fabric, token.0, &token.1) {
            return false;
        }
    }
    true
}

// Of a token of which it heard the face keeps what it should, if it is of the number.
fn is_kept<K: Key>(
    bound: Bound,
    rows: &ShownRows<K>,
    face: &ShownFace<K>,
    number: u32,
    expr: &K,
) -> bool
    ensures { result ≡ ((not (number == face.now.number) || is_routed rows.now face.now)
        || keeps_bound K.cmp K.matching bound rows.now face.now expr.now) }
{
    number != face.number() || rows.is_routed(face) || keeps_bound(bound, rows, face, expr)
}

// Of a token of which they heard faces of the number keep what they should.
fn face_keeps_bound<K: Key>(bound: Bound, rows: &ShownRows<K>, number: u32, expr: &K) -> bool
    ensures { result ≡ at_face number
        (λ g f. keeps_bound K.cmp K.matching bound g f expr.now) rows.now }
{
    for face in rows.faces_of(number) {
        if !is_kept(bound, rows, face, number, expr) {
            return false;
        }
    }
    true
}

// Of a token of which it heard a face keeps what it should.
fn heard_is_kept<'a, K: Key>(
    bound: Bound,
    fabric: &ShownFabric<'a, K>,
    token: &(u32, u32, K),
) -> bool
    ensures { result ≡ heard_is_kept K.cmp K.matching bound fabric.now token.now }
{
    match fabric.node(token.0) {
        None => true,
        Some(node) => face_keeps_bound(bound, node.rows(), token.1, &token.2),
    }
}

// The same, where faces keep what they should of the tokens that the line changes: those were
// looked at.
fn heard_is_kept_beside<'a, K: Key>(
    bound: Bound,
    fabric: &ShownFabric<'a, K>,
    changed: &[(u32, K)],
    token: &(u32, u32, K),
) -> bool
    requires { changed_are_kept K.cmp K.matching bound fabric.now changed.now ≡ true }
    ensures { result ≡ heard_is_kept K.cmp K.matching bound fabric.now token.now }
{
    if is_among_changed(changed, token.0, &token.2) {
        return true;
    }
    heard_is_kept(bound, fabric, token)
}

// Of the tokens of which they heard faces keep what they should.
fn heard_are_kept<'a, K: Key>(
    bound: Bound,
    fabric: &ShownFabric<'a, K>,
    changed: &[(u32, K)],
    tokens: &[(u32, u32, K)],
) -> bool
    requires { changed_are_kept K.cmp K.matching bound fabric.now changed.now ≡ true }
    ensures { result ≡ heard_are_kept K.cmp K.matching bound fabric.now tokens.now }
{
    for token in tokens {
        if !heard_is_kept_beside(bound, fabric, changed, token) {
            return false;
        }
    }
    true
}

// Of the tokens that the line changes, and of those of which they heard, faces keep what they
// should.
fn tokens_are_kept<'a, K: Key>(
    bound: Bound,
    fabric: &ShownFabric<'a, K>,
    changed: &[(u32, K)],
    heard: &[(u32, u32, K)],
) -> bool
    ensures { result ≡ (changed_are_kept K.cmp K.matching bound fabric.now changed.now
        && heard_are_kept K.cmp K.matching bound fabric.now heard.now) }
{
    if !changed_are_kept(bound, fabric, changed) {
        return false;
    }
    heard_are_kept(bound, fabric, changed, heard)
}

// The face may hear of all these tokens.
fn may_hear_all<K: Key>(face: &ShownFace<K>, told: &[(u32, K)]) -> bool
    ensures { result ≡ list_all (λ row. may_hear K.matching face.now row.1) told.now }
{
    for row in told {
        if !may_hear(face, &row.1) {
            return false;
        }
    }
    true
}

// The face may hear of all that it keeps, if it is of the number.
fn is_hearing<K: Key>(rows: &ShownRows<K>, face: &ShownFace<K>, number: u32) -> bool
    ensures { result ≡ ((not (number == face.now.number) || is_routed rows.now face.now)
        || may_hear_all K.cmp K.matching face.now) }
{
    number != face.number() || rows.is_routed(face) || may_hear_all(face, face.told())
}

// Faces of the number may hear of all that they keep.
fn face_may_hear_all<K: Key>(rows: &ShownRows<K>, number: u32) -> bool
    ensures { result ≡ at_face number (λ g f. may_hear_all K.cmp K.matching f) rows.now }
{
    for face in rows.faces_of(number) {
        if !is_hearing(rows, face, number) {
            return false;
        }
    }
    true
}

// A face that holds an interest no more may hear of all that it keeps.
fn unheld_may_hear<'a, K: Key>(fabric: &ShownFabric<'a, K>, at: &(u32, u32)) -> bool
    ensures { result ≡ unheld_may_hear K.cmp K.matching fabric.now at.now }
{
    match fabric.node(at.0) {
        None => true,
        Some(node) => face_may_hear_all(node.rows(), at.1),
    }
}

// The face keeps all that is owed to it, of what the interest of an id concerns where one is given,
// if it is of the number.
fn is_keeping<K: Key>(
    rows: &ShownRows<K>,
    face: &ShownFace<K>,
    number: u32,
    id: Option<u32>,
) -> bool
    ensures { result ≡ ((not (number == face.now.number) || is_routed rows.now face.now)
        || keeps_all K.cmp K.matching rows.now face.now id) }
{
    number != face.number() || rows.is_routed(face) || keeps_all(rows, face, id)
}

// Faces of the number do.
fn face_keeps_all<K: Key>(rows: &ShownRows<K>, number: u32, id: Option<u32>) -> bool
    ensures { result ≡ at_face number (λ g f. keeps_all K.cmp K.matching g f id) rows.now }
{
    for face in rows.faces_of(number) {
        if !is_keeping(rows, face, number, id) {
            return false;
        }
    }
    true
}

// A new face keeps all that is owed to it.
fn opened_keeps_all<'a, K: Key>(fabric: &ShownFabric<'a, K>, at: &(u32, u32)) -> bool
    ensures { result ≡ opened_keeps_all K.cmp K.matching fabric.now at.now }
{
    match fabric.node(at.0) {
        None => true,
        Some(node) => face_keeps_all(node.rows(), at.1, None),
    }
}

// A face that begins to hold an interest keeps what this concerns.
fn holder_keeps<'a, K: Key>(fabric: &ShownFabric<'a, K>, at: &(u32, u32, u32)) -> bool
    ensures { result ≡ holder_keeps K.cmp K.matching fabric.now at.now }
{
    match fabric.node(at.0) {
        None => true,
        Some(node) => face_keeps_all(node.rows(), at.1, Some(at.2)),
    }
}

// Faces that hold an interest no more may hear of all that they keep.
fn all_unheld_may_hear<'a, K: Key>(fabric: &ShownFabric<'a, K>, unheld: &[(u32, u32)]) -> bool
    ensures { result ≡ list_all (unheld_may_hear K.cmp K.matching fabric.now) unheld.now }
{
    for at in unheld {
        if !unheld_may_hear(fabric, at) {
            return false;
        }
    }
    true
}

// Faces that open keep all that is owed to them.
fn all_opened_keep<'a, K: Key>(fabric: &ShownFabric<'a, K>, opened: &[(u32, u32)]) -> bool
    ensures { result ≡ list_all (opened_keeps_all K.cmp K.matching fabric.now) opened.now }
{
    for at in opened {
        if !opened_keeps_all(fabric, at) {
            return false;
        }
    }
    true
}

// Faces that begin to hold an interest keep what this concerns.
fn all_holders_keep<'a, K: Key>(fabric: &ShownFabric<'a, K>, held: &[(u32, u32, u32)]) -> bool
    ensures { result ≡ list_all (holder_keeps K.cmp K.matching fabric.now) held.now }
{
    for at in held {
        if !holder_keeps(fabric, at) {
            return false;
        }
    }
    true
}

/// Faces outside router regions keep only visible tokens that they may hear of: it is looked at for
/// all pairs of a face and an expression that the line or its messages may have changed. The fabric
/// is that after its entry.
pub fn keeps_no_more<'a, K: Key>(
    fabric: &ShownFabric<'a, K>,
    changed: &Changed<K>,
    heard: &Heard<K>,
) -> bool
    ensures { result ≡ are_no_more K.cmp K.matching fabric.now
        changed.now.tokens.items heard.now.tokens.items changed.now.unheld.items }
{
    tokens_are_kept(
        Bound::Upper,
        fabric,
        changed.tokens.as_slice(),
        heard.tokens.as_slice(),
    ) && all_unheld_may_hear(fabric, changed.unheld.as_slice())
}

// Faces that open, and faces that begin to hold an interest, keep all that is owed to them then.
fn asked_are_kept<'a, K: Key>(
    fabric: &ShownFabric<'a, K>,
    opened: &[(u32, u32)],
    held: &[(u32, u32, u32)],
) -> bool
    ensures { result ≡ (list_all (opened_keeps_all K.cmp K.matching fabric.now) opened.now
        && list_all (holder_keeps K.cmp K.matching fabric.now) held.now) }
{
    all_opened_keep(fabric, opened) && all_holders_keep(fabric, held)
}

/// Faces outside router regions keep every admitted token that is owed to them: it is looked at for
/// all pairs of a face and an expression that the line or its messages may have changed. The fabric
/// is that after its entry.
pub fn keeps_no_less<'a, K: Key>(
    fabric: &ShownFabric<'a, K>,
    changed: &Changed<K>,
    heard: &Heard<K>,
) -> bool
    ensures { result ≡ are_no_less K.cmp K.matching fabric.now
        changed.now.tokens.items heard.now.tokens.items
        changed.now.opened.items changed.now.held.items }
{
    tokens_are_kept(
        Bound::Lower,
        fabric,
        changed.tokens.as_slice(),
        heard.tokens.as_slice(),
    ) && asked_are_kept(fabric, changed.opened.as_slice(), changed.held.as_slice())
}
