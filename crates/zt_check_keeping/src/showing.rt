// Whether an expression is shown to the faces of a region.
ghost use Rattle.std.specs.Prelude.{◌≡◌, ◌==◌, ◌&&◌, true};
ghost use Rattle.std.specs.List.{list_any};
ghost use Rattle.zt_model.specs.Lists.{same};
ghost use Rattle.zt_check_keeping.specs.Keeping.{is_shown};

use crate::keeping::Bound;
use crate::seen::is_seen;
use zt_check_rows::ShownRows;
use zt_keys::Key;
use zt_region::Region;

// So many expressions are looked through, and no more.
const FEW: usize = 4;

/// Whether the expression is shown to faces of a region, as this bound asks.
pub(crate) fn is_shown<K: Key>(bound: Bound, rows: &ShownRows<K>, own: Region, expr: &K) -> bool
    ensures { result ≡ is_shown K.cmp K.matching bound rows.now own expr.now }
{
    match bound {
        Bound::Upper => is_seen(rows, own, expr),
        Bound::Lower => rows.is_seen_and_admitted(own, expr),
    }
}

// Whether a token of a gateway is this one.
fn is_token<K: Key>(token: &(u32, K), gateway: u32, expr: &K) -> bool
    ensures { result ≡ (gateway == token.now.0 && same K.cmp expr.now token.now.1) }
{
    gateway == token.0 && *expr == token.1
}

/// Whether a gateway's token is found among those that the line changes, where these are few.
pub(crate) fn is_among_changed<K: Key>(changed: &[(u32, K)], gateway: u32, expr: &K) -> bool
    ensures { result ≡ true
        → list_any (λ t. gateway == t.0 && same K.cmp expr.now t.1) changed.now ≡ true }
{
    changed.len() <= FEW && changed.iter().any(|token| is_token(token, gateway, expr))
}
