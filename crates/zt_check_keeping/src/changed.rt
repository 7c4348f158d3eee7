// What an accepted line itself changes, as far as it matters to what faces keep: read before it.
ghost use Rattle.std.specs.Prelude.{◌≡◌, ◌∷◌, ◌++◌, [], IfOk, OnOk};
ghost use Rattle.zt_protocol.specs.Plain.{plain_line};
ghost use Rattle.zt_model.specs.Fabric.{closing_call};
ghost use Rattle.zt_model.specs.Lists.{nth};
ghost use Rattle.zt_check_fabric.specs.Made.{made_at};
ghost use Rattle.zt_check_keeping.specs.Changed.{held_at, next_one, next_two, opened_at};
ghost use Rattle.zt_check_keeping.specs.Changed.{opened_by, tokens_at, tokens_between, tokens_by};
ghost use Rattle.zt_check_keeping.specs.Changed.{unheld_at};

use crate::seeking::{add_held, add_opened, add_unheld, next_number};
use crate::tokens::add_tokens;
use std::alloc::Global;
use zt_check_fabric::ShownFabric;
use zt_keys::{Key, Memory};
use zt_protocol::{Call, Line};

/// What a line changes, each under the number of its gateway.
#[derive(Drop)]
pub struct Changed<K: Key> {
    /// Expressions whose tokens may be there now and weren't, or were and aren't.
    pub tokens: Vec<(u32, K)>,
    /// Faces that are new, and perhaps numbers of faces that aren't there.
    pub opened: Vec<(u32, u32)>,
    /// Faces that begin to hold an interest, with its id.
    pub held: Vec<(u32, u32, u32)>,
    /// Faces that hold an interest no more.
    pub unheld: Vec<(u32, u32)>,
}

// Adds the tokens of a call that was found.
fn add_tokens_at<'a, K: Key>(
    alloc: Global,
    tokens: &mut Vec<(u32, K)>,
    fabric: &ShownFabric<'a, K>,
    found: &Option<(u32, Call<K>)>,
) -> Result<(), Memory>
    ensures { OnOk result (tokens.new.items
        ≡ tokens.old.items ++ tokens_at (made_at fabric.now found.now)) }
{
    let Some((gateway, call)) = found else {
        return Ok(());
    };
    let Some(node) = fabric.node(*gateway) else {
        return Ok(());
    };
    add_tokens(alloc, tokens, *gateway, node.rows(), call)
}

// The tokens of both faces of a link that closes.
fn tokens_between<'a, K: Key>(
    alloc: Global,
    fabric: &ShownFabric<'a, K>,
    link: u32,
) -> Result<Vec<(u32, K)>, Memory>
    ensures { IfOk result
        (λ tokens. tokens.items ≡ tokens_between fabric.now (nth link fabric.now.links)) }
{
    let mut tokens = Vec::new(alloc);
    let Some(link) = fabric.link(link) else {
        return Ok(tokens);
    };
    let one = fabric.closing_call(alloc, link.one())?;
    add_tokens_at(alloc, &mut tokens, fabric, &one)?;
    let two = fabric.closing_call(alloc, link.two())?;
    add_tokens_at(alloc, &mut tokens, fabric, &two)?;
    Ok(tokens)
}

// The tokens of the one call of a line.
fn tokens_at<'a, K: Key>(
    alloc: Global,
    fabric: &ShownFabric<'a, K>,
    found: &Option<(u32, Call<K>)>,
) -> Result<Vec<(u32, K)>, Memory>
    ensures { IfOk result (λ tokens. tokens.items ≡ tokens_at (made_at fabric.now found.now)) }
{
    let mut tokens = Vec::new(alloc);
    add_tokens_at(alloc, &mut tokens, fabric, found)?;
    Ok(tokens)
}

// The expressions whose tokens a line may change.
fn tokens_by<'a, K: Key>(
    alloc: Global,
    fabric: &ShownFabric<'a, K>,
    line: &Line<K>,
    found: &Option<(u32, Call<K>)>,
) -> Result<Vec<(u32, K)>, Memory>
    ensures { IfOk result (λ tokens. tokens.items
        ≡ tokens_by (plain_line line.now) (made_at fabric.now found.now) fabric.now) }
{
    match line {
        Line::Unlink { link } => tokens_between(alloc, fabric, *link),
        _ => tokens_at(alloc, fabric, found),
    }
}

// The face that the one call of a line opens.
fn opened_at<'a, K: Key>(
    alloc: Global,
    fabric: &ShownFabric<'a, K>,
    found: &Option<(u32, Call<K>)>,
) -> Result<Vec<(u32, u32)>, Memory>
    ensures { IfOk result (λ opened. opened.items ≡ opened_at (made_at fabric.now found.now)) }
{
    let mut opened = Vec::new(alloc);
    let Some((gateway, call)) = found else {
        return Ok(opened);
    };
    let Some(node) = fabric.node(*gateway) else {
        return Ok(opened);
    };
    add_opened(&mut opened, *gateway, node.rows(), call)?;
    Ok(opened)
}

// The face that a gateway makes next.
fn add_next<'a, K: Key>(
    opened: &mut Vec<(u32, u32)>,
    fabric: &ShownFabric<'a, K>,
    gateway: u32,
) -> Result<(), Memory>
    ensures { OnOk result (opened.new.items
        ≡ opened.old.items ++ next_one gateway (nth gateway fabric.now.gateways)) }
{
    let Some(node) = fabric.node(gateway) else {
        return Ok(());
    };
    let number = next_number(node.rows(), 1)?;
    opened.push((gateway, number))?;
    Ok(())
}

// The two faces that a gateway makes next.
fn add_next_two<'a, K: Key>(
    opened: &mut Vec<(u32, u32)>,
    fabric: &ShownFabric<'a, K>,
    gateway: u32,
) -> Result<(), Memory>
    ensures { OnOk result (opened.new.items
        ≡ opened.old.items ++ next_two gateway (nth gateway fabric.now.gateways)) }
{
    let Some(node) = fabric.node(gateway) else {
        return Ok(());
    };
    let number = next_number(node.rows(), 1)?;
    let after = next_number(node.rows(), 2)?;
    opened.push((gateway, number))?;
    opened.push((gateway, after))?;
    Ok(())
}

// The faces that a link opens at its gateways.
fn opened_between<'a, K: Key>(
    alloc: Global,
    fabric: &ShownFabric<'a, K>,
    one: u32,
    two: u32,
) -> Result<Vec<(u32, u32)>, Memory>
    ensures { IfOk result (λ opened. opened.items ≡ next_one one (nth one fabric.now.gateways)
        ++ next_two two (nth two fabric.now.gateways)) }
{
    let mut opened = Vec::new(alloc);
    add_next(&mut opened, fabric, one)?;
    add_next_two(&mut opened, fabric, two)?;
    Ok(opened)
}

// The faces that a line opens.
fn opened_by<'a, K: Key>(
    alloc: Global,
    fabric: &ShownFabric<'a, K>,
    line: &Line<K>,
    found: &Option<(u32, Call<K>)>,
) -> Result<Vec<(u32, u32)>, Memory>
    ensures { IfOk result (λ opened. opened.items
        ≡ opened_by (plain_line line.now) (made_at fabric.now found.now) fabric.now) }
{
    match line {
        Line::Link { one, two, .. } => opened_between(alloc, fabric, *one, *two),
        _ => opened_at(alloc, fabric, found),
    }
}

// The face that begins to hold an interest by the one call of a line.
fn held_at<'a, K: Key>(
    alloc: Global,
    fabric: &ShownFabric<'a, K>,
    found: &Option<(u32, Call<K>)>,
) -> Result<Vec<(u32, u32, u32)>, Memory>
    ensures { IfOk result (λ held. held.items ≡ held_at (made_at fabric.now found.now)) }
{
    let mut held = Vec::new(alloc);
    let Some((gateway, call)) = found else {
        return Ok(held);
    };
    let Some(_) = fabric.node(*gateway) else {
        return Ok(held);
    };
    add_held(&mut held, *gateway, call)?;
    Ok(held)
}

// The face that holds an interest no more by it.
fn unheld_at<'a, K: Key>(
    alloc: Global,
    fabric: &ShownFabric<'a, K>,
    found: &Option<(u32, Call<K>)>,
) -> Result<Vec<(u32, u32)>, Memory>
    ensures { IfOk result (λ unheld. unheld.items ≡ unheld_at (made_at fabric.now found.now)) }
{
    let mut unheld = Vec::new(alloc);
    let Some((gateway, call)) = found else {
        return Ok(unheld);
    };
    let Some(node) = fabric.node(*gateway) else {
        return Ok(unheld);
    };
    add_unheld(&mut unheld, *gateway, node.rows(), call)?;
    Ok(unheld)
}

/// What an accepted line changes of a fabric, whose call is `found`. The only error is an allocation
/// that fails, as which counts that the numbers of faces are given out.
pub fn changed_by<'a, K: Key>(
    alloc: Global,
    fabric: &ShownFabric<'a, K>,
    line: &Line<K>,
    found: &Option<(u32, Call<K>)>,
) -> Result<Changed<K>, Memory>
    ensures tokens { IfOk result (λ changed. changed.tokens.items
        ≡ tokens_by (plain_line line.now) (made_at fabric.now found.now) fabric.now) }
    ensures opened { IfOk result (λ changed. changed.opened.items
        ≡ opened_by (plain_line line.now) (made_at fabric.now found.now) fabric.now) }
    ensures held { IfOk result
        (λ changed. changed.held.items ≡ held_at (made_at fabric.now found.now)) }
    ensures unheld { IfOk result
        (λ changed. changed.unheld.items ≡ unheld_at (made_at fabric.now found.now)) }
{
    let tokens = tokens_by(alloc, fabric, line, found)?;
    let opened = opened_by(alloc, fabric, line, found)?;
    let held = held_at(alloc, fabric, found)?;
    let unheld = unheld_at(alloc, fabric, found)?;
    Ok(Changed {
        tokens,
        opened,
        held,
        unheld,
    })
}
