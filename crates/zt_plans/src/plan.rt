// What is read of a script, before any of it is carried out.
ghost use Rattle.std.specs.Prelude.{◌≡◌, ◌+◌, ◌++◌, [], ◌∷◌, true, false, length, IfOk, IfSome};
ghost use Rattle.std.specs.Prelude.{IfNone};
ghost use Rattle.zt_model.specs.Journal.{is_driven};
ghost use Rattle.zt_protocol.specs.Plain.{plain_line};
ghost use Rattle.zt_plans.specs.Plans.{AddsLine, AreInForm, HasNoPlace, IsPlan, plan_lines};
ghost use Rattle.zt_plans.specs.Plans.{script_lines};

use std::alloc::Global;
use zt_gateway::GatewayBuilder;
use zt_keys::{Key, Memory};
use zt_protocol::{Call, Line};

/// A call that speaks for a face or closes it, with the number of its line.
#[derive(Drop)]
pub struct Numbered<K> {
    pub line: u64,
    pub call: Call<K>,
}

/// A script that isn't empty: the settings of its gateway, the lines that open faces, and those
/// that speak.
#[derive(Drop)]
pub struct Plan<K> {
    pub gateway: GatewayBuilder,
    pub makings: Vec<Line<K>>,
    pub calls: Vec<Numbered<K>>,
}

// The plan that begins with the line, where it makes a gateway.
fn begun<K: Key>(alloc: Global, line: Line<K>) -> Option<Plan<K>>
    ensures lines { IfSome result (λ plan. plan_lines plan ≡ plain_line line ∷ []) }
    ensures form { IfSome result IsPlan }
    ensures other { IfNone result (is_driven (plain_line line ∷ []) ≡ false) }
{
    match line {
        Line::Gateway {
            mode,
            zid,
            regions,
            south,
            name,
            timeout,
            refuse,
        } => Some(Plan {
            gateway: GatewayBuilder::new(alloc, mode, zid)
                .subregions(regions)
                .south(south)
                .name(name)
                .timeout(timeout)
                .admission(refuse),
            makings: Vec::new(alloc),
            calls: Vec::new(alloc),
        }),
        _ => None,
    }
}

// Adds the line of this number behind the others, where it has a place there, and answers whether
// it has.
fn add_behind<K: Key>(plan: &mut Plan<K>, number: u64, line: Line<K>) -> Result<bool, Memory>
    requires form { IsPlan plan.old }
    requires number { number ≡ length (plan_lines plan.old) + 1 }
    ensures lines { IfOk result (λ added. added ≡ true → plan_lines plan.new ≡ plan_lines plan.old
        ++ plain_line line ∷ []) }
    ensures form { IfOk result (λ added. added ≡ true → IsPlan plan.new) }
    ensures other { IfOk result (λ added. added
        ≡ false → HasNoPlace (plan_lines plan.old) (plain_line line)) }
{
    match line {
        Line::Session { .. } | Line::Face { .. } => {
            if !plan.calls.is_empty() {
                return Ok(false);
            }
            plan.makings.push(line)?;
            Ok(true)
        }
        Line::Speak { call } => {
            plan.calls.push(Numbered { line: number, call })?;
            Ok(true)
        }
        _ => Ok(false),
    }
}

/// Adds the line of this number behind the others, where it has a place there, and answers whether
/// it has. The only error is want of memory.
pub fn add_line<K: Key>(
    alloc: Global,
    plan: &mut Option<Plan<K>>,
    number: u64,
    line: Line<K>,
) -> Result<bool, Memory>
    requires form { AreInForm plan.old }
    requires number { number ≡ length (script_lines plan.old) + 1 }
    ensures { IfOk result (λ added. AddsLine plan.old (plain_line line) added plan.new) }
{
    match plan {
        Some(plan) => add_behind(plan, number, line),
        None => {
            *plan = begun(alloc, line);
            Ok(plan.is_some())
        }
    }
}
