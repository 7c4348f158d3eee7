// Whether a face keeps all that is owed to it.
ghost use Rattle.std.specs.Prelude.{◌≡◌, ◌||◌, not};
ghost use Rattle.std.specs.List.{list_all};
ghost use Rattle.std.specs.Option.{option_copied};
ghost use Rattle.zt_check_keeping.specs.Owing.{AreAsking, IsOnlyKey, asks_for_tokens};
ghost use Rattle.zt_check_keeping.specs.Owing.{holds_current, is_asked_by, is_concerned, key_under};
ghost use Rattle.zt_check_keeping.specs.Owing.{keeps_all, keeps_concerned, keeps_declared};
ghost use Rattle.zt_check_keeping.specs.Owing.{keeps_near, may_be_owed};
ghost use Rattle.zt_check_keeping.specs.Owing.{is_shown_and_admitted, keeps_of_faces, keeps_routed};

use crate::seen::{asks_now, has_tokens, is_owed, is_shown_and_admitted};
use zt_check_faces::{ShownFace, ShownInterest};
use zt_check_rows::{ShownRouted, ShownRows, TokenTest};
use zt_keys::Key;
use zt_region::Region;

// Whether an interest that is held under an id concerns the expression, and asked for what was there
// too.
fn is_concerned<K: Key>(held: &[(u32, ShownInterest<K>)], id: u32, expr: &K) -> bool
    ensures { result ≡ is_concerned K.cmp K.matching held.now id expr.now }
{
    for row in held {
        if row.0 == id && asks_now(&row.1, expr) {
            return true;
        }
    }
    false
}

// The interests of an id that a face holds, perhaps beside others.
fn asking_rows<K: Key>(face: &ShownFace<K>, id: Option<u32>) -> &[(u32, ShownInterest<K>)]
    ensures { AreAsking K.cmp K.matching face.now id result.now }
{
    match id {
        None => face.held(),
        Some(id) => face.held_of(id),
    }
}

// Whether an expression is asked about: where no id is given, all is.
fn is_asked<K: Key>(asking: &[(u32, ShownInterest<K>)], id: Option<u32>, expr: &K) -> bool
    ensures { result ≡ is_asked_by K.cmp K.matching asking.now id expr.now }
{
    match id {
        None => true,
        Some(id) => is_concerned(asking, id, expr),
    }
}

// Whether a face keeps an expression that is owed to it, where the interest of an id concerns it.
fn keeps_concerned<K: Key>(
    face: &ShownFace<K>,
    asking: &[(u32, ShownInterest<K>)],
    id: Option<u32>,
    expr: &K,
) -> bool
    requires { AreAsking K.cmp K.matching face.now id asking.now }
    ensures { result ≡ keeps_concerned K.cmp K.matching face.now id expr.now }
{
    face.has_told(expr) || !is_asked(asking, id, expr) || !is_owed(face, expr)
}

// Whether a face keeps all that another declares and that is owed to it.
fn keeps_declared<K: Key>(
    face: &ShownFace<K>,
    asking: &[(u32, ShownInterest<K>)],
    id: Option<u32>,
    live: &[(u32, K)],
) -> bool
    requires { AreAsking K.cmp K.matching face.now id asking.now }
    ensures { result ≡ keeps_declared K.cmp K.matching face.now id live.now }
{
    for row in live {
        if !keeps_concerned(face, asking, id, &row.1) {
            return false;
        }
    }
    true
}

// Whether a face keeps all that another declares and that is admitted and owed to it.
fn keeps_of_face<K: Key>(
    refused: &[(Region, Region)],
    face: &ShownFace<K>,
    asking: &[(u32, ShownInterest<K>)],
    id: Option<u32>,
    source: &ShownFace<K>,
) -> bool
    requires { AreAsking K.cmp K.matching face.now id asking.now }
    ensures { result
        ≡ (not (is_shown_and_admitted refused.now face.now.region source.now.region)
        || keeps_declared K.cmp K.matching face.now id source.now.live) }
{
    !is_shown_and_admitted(refused, face.region(), source.region())
        || keeps_declared(face, asking, id, source.live())
}

// Whether a face keeps all that other faces declare and that is admitted and owed to it.
fn keeps_of_faces<K: Key>(
    refused: &[(Region, Region)],
    face: &ShownFace<K>,
    asking: &[(u32, ShownInterest<K>)],
    id: Option<u32>,
    sources: &[ShownFace<K>],
) -> bool
    requires { AreAsking K.cmp K.matching face.now id asking.now }
    ensures { result
        ≡ keeps_of_faces K.cmp K.matching refused.now face.now id sources.now }
{
    for source in sources {
        if !keeps_of_face(refused, face, asking, id, source) {
            return false;
        }
    }
    true
}

// Whether a face keeps the token of a router, where it is admitted and owed to it.
fn keeps_routed<K: Key>(
    rows: &ShownRows<K>,
    face: &ShownFace<K>,
    asking: &[(u32, ShownInterest<K>)],
    id: Option<u32>,
    row: &ShownRouted<K>,
) -> bool
    requires { AreAsking K.cmp K.matching face.now id asking.now }
    ensures { result ≡ keeps_routed K.cmp K.matching rows.now face.now id row.now }
{
    row.source() == rows.zid()
        || !is_shown_and_admitted(rows.refused(), face.region(), row.region())
        || keeps_concerned(face, asking, id, row.expr())
}

// Whether a face keeps all tokens of routers that are admitted and owed to it.
fn keeps_of_routers<K: Key>(
    rows: &ShownRows<K>,
    face: &ShownFace<K>,
    asking: &[(u32, ShownInterest<K>)],
    id: Option<u32>,
    routed: &[ShownRouted<K>],
) -> bool
    requires { AreAsking K.cmp K.matching face.now id asking.now }
    ensures { result
        ≡ list_all (keeps_routed K.cmp K.matching rows.now face.now id) routed.now }
{
    for row in routed {
        if !keeps_routed(rows, face, asking, id, row) {
            return false;
        }
    }
    true
}

// Whether an interest asked for the tokens that were there too.
fn asks_for_tokens<K: Key>(interest: &ShownInterest<K>) -> bool
    ensures { result ≡ asks_for_tokens interest.now }
{
    interest.mode().is_current() && has_tokens(interest)
}

// Whether one of these interests did.
fn holds_current<K: Key>(held: &[(u32, ShownInterest<K>)]) -> bool
    ensures { result ≡ holds_current held.now }
{
    for row in held {
        if asks_for_tokens(&row.1) {
            return true;
        }
    }
    false
}

// Whether an expression may be asked about and owed to a face.
fn may_be_owed<K: Key>(
    face: &ShownFace<K>,
    asking: &[(u32, ShownInterest<K>)],
    id: Option<u32>,
) -> bool
    ensures { result ≡ may_be_owed face.now asking.now id }
{
    match id {
        None => face.region() == Region::North || holds_current(face.held()),
        Some(_) => holds_current(asking),
    }
}

// The key that the expressions match that are asked about, where one interest asks and has a key.
fn only_key<K: Key>(asking: &[(u32, ShownInterest<K>)], id: Option<u32>) -> Option<&K>
    ensures { IsOnlyKey K.cmp K.matching asking.now id (option_copied result) }
{
    match (asking, id) {
        ([row], Some(id)) => key_under(row, id),
        _ => None,
    }
}

// The key of an interest, where it is of the id and asked for the tokens that were there too.
fn key_under<K: Key>(row: &(u32, ShownInterest<K>), id: u32) -> Option<&K>
    ensures { option_copied result ≡ key_under row.now id }
{
    if row.0 != id || !asks_for_tokens(&row.1) {
        return None;
    }
    row.1.expr().as_ref()
}

// A face doesn't keep an expression, though it is admitted from the face that declares it.
#[derive(Drop)]
struct Lacks<'r, K: Key> {
    refused: &'r [(Region, Region)],
    face: &'r ShownFace<K>,
}

impl<'r, K: Key> TokenTest<K> for Lacks<'r, K> {
    ghost use Rattle.zt_check_keeping.specs.Owing.{lacks};

    ghost passes = { λ t source e. lacks K.cmp K.matching t.refused.now t.face.now source e };

    fn passes(&self, source: &ShownFace<K>, expr: &K) -> bool {
        is_shown_and_admitted(self.refused, self.face.region(), source.region())
            && !self.face.has_told(expr)
    }
}

// Whether a face keeps all that other faces declare, is admitted to it and matches the key.
fn keeps_near<K: Key>(rows: &ShownRows<K>, face: &ShownFace<K>, key: &K) -> bool
    ensures { result ≡ keeps_near K.cmp K.matching rows.now face.now key.now }
{
    let lacks = Lacks {
        refused: rows.refused(),
        face,
    };
    !rows.any_near(key, &lacks)
}

// Whether a face keeps all that other faces declare and that is admitted and owed to it. Where what
// is asked about matches a key, tokens are looked up.
fn keeps_of_sources<K: Key>(
    rows: &ShownRows<K>,
    face: &ShownFace<K>,
    asking: &[(u32, ShownInterest<K>)],
    id: Option<u32>,
) -> bool
    requires { AreAsking K.cmp K.matching face.now id asking.now }
    ensures { result
        ≡ keeps_of_faces K.cmp K.matching rows.now.refused face.now id rows.now.faces }
{
    match only_key(asking, id) {
        None => keeps_of_faces(rows.refused(), face, asking, id, rows.faces()),
        Some(key) => keeps_near(rows, face, key),
    }
}

/// Whether a face keeps all tokens that are admitted and owed to it, of those that the
/// interest of an id concerns, where one is given.
pub(crate) fn keeps_all<K: Key>(rows: &ShownRows<K>, face: &ShownFace<K>, id: Option<u32>) -> bool
    ensures { result ≡ keeps_all K.cmp K.matching rows.now face.now id }
{
    let asking = asking_rows(face, id);
    if !may_be_owed(face, asking, id) {
        return true;
    }
    keeps_of_sources(rows, face, asking, id)
        && keeps_of_routers(rows, face, asking, id, rows.routed())
}
