// Keys among others.
ghost use Rattle.std.specs.Prelude.{◌≡◌};
ghost use Rattle.zt_model.specs.Lists.{is_among};

use zt_keys::Key;

/// Whether an expression is among others.
pub fn is_among<K: Key>(expr: &K, exprs: &[K]) -> bool
    ensures { result ≡ is_among K.cmp expr.now exprs.now }
{
    exprs.iter().any(|other| expr == other)
}
