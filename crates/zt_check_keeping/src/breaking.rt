// Faces that break a bound at an expression.
ghost use Rattle.std.specs.Prelude.{◌≡◌};
ghost use Rattle.zt_check_keeping.specs.Keeping.{breaks_where, is_shown, is_shown_beside};

use crate::keeping::Bound;
use crate::seen::may_hear;
use crate::showing::is_shown;
use zt_check_faces::ShownFace;
use zt_check_rows::{FaceTest, ShownRows};
use zt_keys::Key;
use zt_region::Region;

/// A face outside router regions breaks a bound at an expression, if it keeps this or it is owed to
/// it, as the bound has it. Of one region it is asked once whether the expression is shown to its
/// faces.
#[derive(Drop)]
pub(crate) struct Breaks<'r, K: Key> {
    bound: Bound,
    rows: &'r ShownRows<K>,
    expr: &'r K,
    own: Region,
    shown: bool,
}

impl<'r, K: Key> Breaks<'r, K> {
    /// The test of a bound at an expression; to faces of a region it is shown or not.
    pub(crate) fn new(bound: Bound, rows: &'r ShownRows<K>, own: Region, expr: &'r K) -> Self
        ensures bound { result.bound ≡ bound }
        ensures rows { result.rows.now ≡ rows.now }
        ensures expr { result.expr.now ≡ expr.now }
        ensures shown { result.shown
            ≡ is_shown K.cmp K.matching bound rows.now result.own expr.now }
    {
        let shown = is_shown(bound, rows, own, expr);
        Breaks {
            bound,
            rows,
            expr,
            own,
            shown,
        }
    }

    // Whether the expression is shown to faces of a region.
    fn is_shown_to(&self, own: Region) -> bool
        ensures { result ≡ is_shown_beside K.cmp K.matching self.now.bound self.now.own
            self.now.shown self.now.rows.now own self.now.expr.now }
    {
        if self.own == own {
            return self.shown;
        }
        is_shown(self.bound, self.rows, own, self.expr)
    }
}

// Whether a face that keeps the expression, or that it is owed to, breaks the bound.
fn breaks_where<K: Key>(bound: Bound, shown: bool, face: &ShownFace<K>, expr: &K) -> bool
    ensures { result ≡ breaks_where K.cmp K.matching bound shown face.now expr.now }
{
    match bound {
        Bound::Upper => !shown || !may_hear(face, expr),
        Bound::Lower => shown && !face.has_told(expr),
    }
}

impl<'r, K: Key> FaceTest<K> for Breaks<'r, K> {
    ghost use Rattle.zt_check_keeping.specs.Keeping.{breaks};

    ghost passes = { λ t f. breaks K.cmp K.matching t.bound t.own t.shown t.rows.now t.expr.now f };

    fn passes(&self, face: &ShownFace<K>) -> bool {
        !self.rows.is_routed(face)
            && breaks_where(self.bound, self.is_shown_to(face.region()), face, self.expr)
    }
}

/// The region of a gateway's first face, or of sessions where it has none.
pub(crate) fn first_region<K: Key>(rows: &ShownRows<K>) -> Region {
    match rows.faces().first() {
        Some(face) if !rows.is_routed(face) => face.region(),
        _ => Region::Local,
    }
}
