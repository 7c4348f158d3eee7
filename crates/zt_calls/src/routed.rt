// Tokens of routers, and new tables.
ghost use Rattle.std.specs.Prelude.{◌≡◌, ◌∷◌, [], OnOk};
ghost use Rattle.zt_calls.specs.Does.{Does};
ghost use Rattle.zt_model.specs.Parts.{Alter, Say, to_each};
ghost use Rattle.zt_model.specs.Says.{forget, tell};
ghost use Rattle.zt_model.specs.Trees.{but_for, changing_table, counted_table, forgetting};
ghost use Rattle.zt_model.specs.Trees.{greet_to, hiding, pass_on, showing, unpass, with_routed};
ghost use Rattle.zt_model.specs.Trees.{with_table, without_routed};
ghost use Rattle.zt_protocol.specs.Plain.{trees_of};

use crate::speech::{Speech, say, spare};
use crate::tokens::{forget_all, tell_all};
use std::alloc::Global;
use zt_keys::{Key, Memory};
use zt_link_state::KeptTable;
use zt_protocol::TreeTable;
use zt_region::{Region, Zid};
use zt_routers::{greet, left_out, pass_on, table_of, unpass};
use zt_state::GatewayState;

/// A face of a router region declares a token of a router.
pub(crate) fn declare_routed<K: Key>(
    alloc: Global,
    g: &mut GatewayState<K>,
    speech: &mut Speech<K>,
    face: u32,
    region: Region,
    source: Zid,
    expr: &K,
) -> Result<(), Memory>
    ensures { OnOk result (Does K.cmp K.matching
        (Alter (with_routed K.cmp region source expr.now)
        ∷ Say (λ h. but_for K.cmp face (pass_on K.cmp region source expr.now h))
        ∷ Say (tell K.cmp K.matching region expr.now)
        ∷ showing K.cmp region expr.now)
        g.old g.new speech.old speech.new) }
{
    g.add_routed(alloc, region, source, expr)?;
    let mut passed = pass_on(alloc, g, region, source, expr)?;
    spare(&mut passed, face);
    say(alloc, g, speech, passed)?;
    tell_all(alloc, g, speech, region, expr)
}

/// A face of a router region undeclares a token of a router.
pub(crate) fn undeclare_routed<K: Key>(
    alloc: Global,
    g: &mut GatewayState<K>,
    speech: &mut Speech<K>,
    face: u32,
    region: Region,
    source: Zid,
    expr: &K,
) -> Result<(), Memory>
    ensures { OnOk result (Does K.cmp K.matching
        (Alter (without_routed K.cmp region source expr.now)
        ∷ Say (λ h. but_for K.cmp face (unpass K.cmp region source expr.now h))
        ∷ Say (forget K.cmp K.matching region expr.now)
        ∷ hiding K.cmp region expr.now)
        g.old g.new speech.old speech.new) }
{
    g.drop_routed(region, source, expr);
    let mut passed = unpass(alloc, g, region, source, expr)?;
    spare(&mut passed, face);
    say(alloc, g, speech, passed)?;
    forget_all(alloc, g, speech, region, expr)
}

// These expressions are gone from a region.
fn forget_each<K: Key>(
    alloc: Global,
    g: &mut GatewayState<K>,
    speech: &mut Speech<K>,
    region: Region,
    exprs: &[K],
) -> Result<(), Memory>
    ensures { OnOk result (Does K.cmp K.matching (forgetting K.cmp K.matching region exprs.now)
        g.old g.new speech.old speech.new) }
{
    for expr in exprs {
        forget_all(alloc, g, speech, region, expr)?;
    }
    Ok(())
}

// The table is kept, and faces that are new among a source's children are told its tokens; `before`
// is the table that counted until now.
fn keep_and_greet<K: Key>(
    alloc: Global,
    g: &mut GatewayState<K>,
    speech: &mut Speech<K>,
    region: Region,
    table: KeptTable,
    before: &KeptTable,
) -> Result<(), Memory>
    ensures { OnOk result (Does K.cmp K.matching
        (Alter (with_table K.cmp region table)
        ∷ Say (λ h. to_each (greet_to K.cmp h region (counted_table before.now)) h.faces) ∷ [])
        g.old g.new speech.old speech.new) }
{
    g.keep_table(region, table)?;
    let greetings = greet(alloc, g, region, before)?;
    say(alloc, g, speech, greetings)
}

/// A router region is handed a new table.
pub(crate) fn change_table<K: Key>(
    alloc: Global,
    g: &mut GatewayState<K>,
    speech: &mut Speech<K>,
    region: Region,
    table: &TreeTable,
) -> Result<(), Memory>
    ensures { OnOk result (Does K.cmp K.matching
        (changing_table K.cmp K.matching region (trees_of table.now) g.old)
        g.old g.new speech.old speech.new) }
{
    let kept = KeptTable::new(alloc, table.copy(alloc)?)?;
    let before = table_of(alloc, g, region)?;
    let gone = left_out(alloc, g, region, &kept)?;
    g.drop_left_out(region, &kept);
    forget_each(alloc, g, speech, region, &gone)?;
    keep_and_greet(alloc, g, speech, region, kept, &before)
}
