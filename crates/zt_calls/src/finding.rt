// What an undeclaration is about.
ghost use Rattle.std.specs.Prelude.{◌≡◌, IfOk};
ghost use Rattle.std.specs.Option.{option_copied};
ghost use Rattle.zt_model.specs.Telling.{undeclared};

use std::alloc::Global;
use zt_keys::{Key, Memory};
use zt_protocol::TokenId;
use zt_state::FaceState;

/// The expression that an undeclaration is about: that of its id, or else the given one.
pub(crate) fn undeclared<'a, K: Key>(
    f: &'a FaceState<K>,
    id: TokenId,
    given: &'a Option<K>,
) -> Option<&'a K>
    ensures { option_copied result
        ≡ undeclared K.cmp K.matching id given.now f.now }
{
    match f.live().at(id) {
        None => given.as_ref(),
        Some(expr) => Some(expr),
    }
}

/// A copy of that expression, if there is one.
pub(crate) fn copy_undeclared<K: Key>(
    alloc: Global,
    f: &FaceState<K>,
    id: TokenId,
    given: &Option<K>,
) -> Result<Option<K>, Memory>
    ensures { IfOk result (λ copy. copy
        ≡ undeclared K.cmp K.matching id given.now f.now) }
{
    match undeclared(f, id, given) {
        None => Ok(None),
        Some(expr) => Ok(Some(expr.copy(alloc)?)),
    }
}
