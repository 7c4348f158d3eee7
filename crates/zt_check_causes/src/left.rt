// Whether faces may have too few ids left, by what could be drawn for them at the most.
ghost use Rattle.std.specs.Prelude.{◌≡◌, ◌+◌, ◌≤◌, ◌*◌, filter, length, nat_lt, not, sum_by, IfOk};
ghost use Rattle.std.specs.List.{list_any};
ghost use Rattle.zt_model.specs.Refusals.{left_ids};
ghost use Rattle.zt_model.specs.Transcript.{most_ids};
ghost use Rattle.zt_model.specs.Visible.{keeps};

use crate::expressions::visible_expressions;
use std::alloc::Global;
use zt_check_faces::ShownFace;
use zt_check_rows::ShownRows;
use zt_keys::{Key, Memory};

// How many ids are left for a face.
fn left_ids<K: Key>(face: &ShownFace<K>) -> u64
    ensures { result ≡ left_ids face.now }
{
    u64::from(u32::MAX).saturating_sub(face.next())
}

// Whether the face was told an expression, and not told that it is gone.
fn keeps<K: Key>(face: &ShownFace<K>, expr: &K) -> bool
    ensures { result ≡ keeps K.cmp face.now expr.now }
{
    face.told().iter().any(|row| expr == &row.1)
}

// How many of the expressions the face doesn't keep.
fn count_untold<K: Key>(face: &ShownFace<K>, exprs: &[K]) -> usize
    ensures { result ≡ length (filter (λ e. not (keeps K.cmp face.now e)) exprs.now) }
{
    exprs.iter().filter(|expr| !keeps(face, expr)).count()
}

// How many interests the faces hold.
fn count_held<K: Key>(faces: &[ShownFace<K>]) -> u128
    ensures { result ≡ sum_by (λ f. length f.held) faces.now }
{
    let mut count = 0u128;
    for face in faces {
        count += face.held().len() as u128;
    }
    count
}

// How many questions of the faces stand.
fn count_asks<K: Key>(faces: &[ShownFace<K>]) -> u128
    ensures { result ≡ sum_by (λ f. length f.asks) faces.now }
{
    let mut count = 0u128;
    for face in faces {
        count += face.asks().len() as u128;
    }
    count
}

// Whether three numbers together are above a bound.
fn are_above(bound: u64, one: usize, two: u128, three: u128) -> bool
    ensures { result ≡ nat_lt bound (one + (two + three)) }
{
    let bound = u128::from(bound);
    let one = one as u128;
    bound < one || bound - one < two || bound - one - two < three
}

// Whether the face may have too few ids left.
fn may_face_lack<K: Key>(
    alloc: Global,
    rows: &ShownRows<K>,
    held: u128,
    asks: u128,
    face: &ShownFace<K>,
) -> Result<bool, Memory>
    requires held { held ≡ sum_by (λ f. length f.held) rows.now.faces }
    requires asks { asks ≡ sum_by (λ f. length f.asks) rows.now.faces }
    ensures { IfOk result (λ lacks. lacks
        ≡ nat_lt (left_ids face.now) (most_ids K.cmp K.matching rows.now face.now)) }
{
    let exprs = visible_expressions(alloc, rows, face.region())?;
    Ok(are_above(left_ids(face), count_untold(face, &exprs), held, asks))
}

/// Whether some face of the gateway may have too few ids left.
pub fn may_lack_ids<K: Key>(alloc: Global, rows: &ShownRows<K>) -> Result<bool, Memory>
    ensures { IfOk result (λ lack. lack
        ≡ list_any (λ f. nat_lt (left_ids f) (most_ids K.cmp K.matching rows.now f))
        rows.now.faces) }
{
    let held = count_held(rows.faces());
    let asks = count_asks(rows.faces());
    for face in rows.faces() {
        if may_face_lack(alloc, rows, held, asks, face)? {
            return Ok(true);
        }
    }
    Ok(false)
}
