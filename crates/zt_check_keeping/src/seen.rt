// Who wants a token, and who sees it.
ghost use Rattle.std.specs.Prelude.{◌≡◌, ◌&&◌};
ghost use Rattle.std.specs.List.{list_any};
ghost use Rattle.zt_region.specs.Region.{is_north};
ghost use Rattle.zt_protocol.specs.Interest.{has_tokens, is_current};
ghost use Rattle.zt_model.specs.Seen.{concerns, is_seen, may_hear};
ghost use Rattle.zt_model.specs.Wants.{is_about};

use bitflags::Flags;
use zt_check_faces::{ShownFace, ShownInterest};
use zt_check_rows::ShownRows;
pub(crate) use zt_check_rows::is_owed;
pub use zt_check_rows::{is_shown_and_admitted, sees};
use zt_keys::Key;
use zt_protocol::InterestOptions;
use zt_region::Region;

/// Whether an interest without expression, or with one that the other matches, is about it.
pub fn is_about<K: Key>(asked: &Option<K>, expr: &K) -> bool
    ensures { result ≡ is_about K.matching asked.now expr.now }
{
    match asked {
        None => true,
        Some(key) => key.matches(expr),
    }
}

/// Whether an interest asks for tokens.
pub fn has_tokens<K: Key>(interest: &ShownInterest<K>) -> bool
    ensures { result ≡ has_tokens interest.now.options }
{
    interest.options().contains(InterestOptions::TOKENS)
}

// Whether an interest in tokens concerns an expression.
fn concerns<K: Key>(interest: &ShownInterest<K>, expr: &K) -> bool
    ensures { result ≡ concerns K.matching interest.now expr.now }
{
    has_tokens(interest) && is_about(interest.expr(), expr)
}

// Whether the region is the north.
fn is_north(region: Region) -> bool
    ensures { result ≡ is_north region }
{
    region == Region::North
}

// Whether one of the interests that a face holds concerns the expression.
fn is_interested<K: Key>(held: &[(u32, ShownInterest<K>)], expr: &K) -> bool
    ensures { result ≡ list_any (λ row. concerns K.matching row.1 expr.now) held.now }
{
    for row in held {
        if concerns(&row.1, expr) {
            return true;
        }
    }
    false
}

/// Whether a face may be told of the expression.
pub(crate) fn may_hear<K: Key>(face: &ShownFace<K>, expr: &K) -> bool
    ensures { result ≡ may_hear K.matching face.now expr.now }
{
    is_north(face.region()) || is_interested(face.held(), expr)
}

/// Whether an interest concerns the expression, and asked for what was there too.
pub(crate) fn asks_now<K: Key>(interest: &ShownInterest<K>, expr: &K) -> bool
    ensures { result
        ≡ (concerns K.matching interest.now expr.now && is_current interest.now.mode) }
{
    interest.mode().is_current() && concerns(interest, expr)
}

/// Whether faces of a region see the expression. A look-up.
pub fn is_seen<K: Key>(rows: &ShownRows<K>, own: Region, expr: &K) -> bool
    ensures { result ≡ is_seen K.cmp rows.now own expr.now }
{
    rows.is_seen(own, expr)
}
