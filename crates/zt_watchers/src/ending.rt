// What a monitor has done, when it has ended.
ghost use Rattle.std.specs.Prelude.{◌≡◌, ◌++◌, [], ◌∷◌, length, IfOk};
ghost use lib.ListN.{replicate};

use crate::monitoring::Watching;
use crate::polls::Poll;
use std::alloc::Global;
use zt_dealing::Done;
use zt_keys::{Key, Memory};

/// The numbers of the lines of a monitor that has made these polls: those of its session and of
/// each.
pub fn zeros<P>(alloc: Global, polls: &[P]) -> Result<Vec<u64>, Memory>
    ensures { IfOk result (λ lines. lines.items ≡ replicate (length polls.now) 0 ++ 0 ∷ []) }
{
    let mut lines = vec![in alloc; 0; polls.len()]?;
    lines.push(0)?;
    Ok(lines)
}

/// The pass of a monitor with the numbers of its lines, and its polls.
pub fn ended<K: Key>(
    alloc: Global,
    watching: Watching<K>,
) -> Result<(Done<K>, Vec<Poll<K>>), Memory>
    ensures pass { IfOk result (λ parts. parts.0.pass ≡ watching.pass) }
    ensures lines { IfOk result (λ parts. parts.0.lines.items
        ≡ replicate (length watching.polls.items) 0 ++ 0 ∷ []) }
    ensures polls { IfOk result (λ parts. parts.1.items ≡ watching.polls.items) }
{
    let Watching {
        monitor: _,
        pass,
        wanted: _,
        polls,
    } = watching;
    let lines = zeros(alloc, polls.as_slice())?;
    Ok((Done { pass, lines }, polls))
}
