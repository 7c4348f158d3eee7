// The numbers of expressions, by the dictionary.
ghost use Rattle.std.specs.Prelude.{◌≡◌, IfOk};
ghost use Rattle.zt_model.specs.Entities.{number_of};

use zt_keys::{Key, Memory};
use zt_state::GatewayState;

// The number of an expression, from 1; without one 0. Numbers that run out count as out of memory.
pub(crate) fn number_of<K: Key>(g: &GatewayState<K>, expr: &K) -> Result<u32, Memory>
    ensures { IfOk result (λ number. number ≡ number_of K.cmp g.now expr.now) }
{
    g.dictionary().number_of(expr)
}
