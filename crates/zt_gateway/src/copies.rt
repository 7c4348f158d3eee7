// Copies of what a caller passes.
ghost use Rattle.std.specs.Prelude.{◌≡◌, IfOk, option_copied};

use std::alloc::Global;
use zt_keys::{Key, Memory};
use zt_protocol::Message;

// Copies of messages.
pub(crate) fn copy_messages<K: Key>(
    alloc: Global,
    messages: &[(u32, Message<K>)],
) -> Result<Vec<(u32, Message<K>)>, Memory>
    ensures { IfOk result (λ copies. copies.items ≡ messages.now) }
{
    let mut copies = Vec::new(alloc);
    for message in messages {
        copies.push((message.0, message.1.copy(alloc)?))?;
    }
    Ok(copies)
}

// A copy of an expression, where there is one.
pub(crate) fn copy_option<K: Key>(alloc: Global, expr: Option<&K>) -> Result<Option<K>, Memory>
    ensures { IfOk result (λ copy. copy ≡ option_copied expr.entry) }
{
    match expr {
        None => Ok(None),
        Some(key) => Ok(Some(key.copy(alloc)?)),
    }
}
