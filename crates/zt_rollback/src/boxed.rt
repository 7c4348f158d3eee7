// What a gateway keeps, in a box.
ghost use Rattle.std.specs.Prelude.{◌≡◌, IfOk};

use std::alloc::Global;
use std::marker::Model;
use std::mem;
use zt_keys::{Key, Memory};
use zt_state::GatewayState;

/// What a gateway keeps, in a box: it is large and passed on often, and a pointer moves then.
#[derive(Drop)]
pub struct BoxedState<K: Key> {
    pub(crate) inner: Box<GatewayState<K>>,
}

impl<K: Key> Model for BoxedState<K> {
    ghost use Rattle.zt_model.specs.Rows.{Rows};

    ghost Value = { Rows K };

    ghost view = { λ b. b.inner.value };
}

impl<K: Key> BoxedState<K> {
    /// What the gateway keeps.
    pub fn state(&self) -> &GatewayState<K>
        ensures { result.now ≡ self.now }
    {
        &*self.inner
    }
}

/// An equal state, in a box.
pub(crate) fn boxed_copy<K: Key>(
    alloc: Global,
    state: &GatewayState<K>,
) -> Result<BoxedState<K>, Memory>
    ensures { IfOk result (λ copy. copy ≡ state.now) }
{
    let inner = Box::new(alloc, state.copy(alloc)?)?;
    Ok(BoxedState { inner })
}

/// Exchanges a state for one in a box.
pub(crate) fn exchange<K: Key>(state: &mut GatewayState<K>, boxed: &mut BoxedState<K>)
    ensures state { state.new ≡ boxed.old }
    ensures boxed { boxed.new ≡ state.old }
{
    mem::swap(state, &mut *boxed.inner);
}
