// The lines that open faces, carried out before any worker is there.
ghost use Rattle.std.specs.Prelude.{◌≡◌, [], None, Ok, map, IfOk, OnOk};
ghost use Rattle.zt_gateway.specs.Running.{by_face, planned, sent_alone};
ghost use Rattle.zt_laws.specs.Sound.{HasFirstIds};
ghost use Rattle.zt_model.specs.Journal.{cause_of, outcome_of, rows_after};
ghost use Rattle.zt_model.specs.Says.{said};
ghost use Rattle.zt_model.specs.Transcript.{Each};
ghost use Rattle.zt_protocol.specs.Plain.{PlainCall, plain_call, plain_entry, plain_line};
ghost use Rattle.zt_theorem_journal.specs.Alone.{gateway_named, made_entries, made_entry, made_rows};
ghost use Rattle.zt_theorem_journal.specs.Alone.{opening_call, rows_made};
ghost use Rattle.zt_workers.specs.Opening.{IsEntryOf};

use std::alloc::Global;
use zt_gateway::{Gateway, Prepared};
use zt_keys::{Key, Memory};
use zt_protocol::{Call, CallError, Entry, Line, Refusal};
use zt_shared::sent_by;

// The number of the gateway that the line names.
fn gateway_named<K>(line: &Line<K>) -> u32
    ensures { result ≡ gateway_named (plain_line line.now) }
{
    match line {
        Line::Session { gateway, .. } | Line::Face { gateway, .. } => *gateway,
        _ => 0,
    }
}

// The line's call on its gateway.
fn opening_call<K>(line: &Line<K>) -> Call<K>
    ensures { plain_call result ≡ opening_call (plain_line line.now) }
{
    match line {
        Line::Session { first, .. } => Call::NewSession { first: *first },
        Line::Face {
            mode,
            zid,
            region,
            bound,
            first,
            ..
        } => Call::NewTransport {
            zid: *zid,
            whatami: *mode,
            region: *region,
            remote_bound: *bound,
            first: *first,
        },
        _ => Call::Expire { now: 0 },
    }
}

// Carries out a call that was prepared, and answers its messages.
fn carry_out<K: Key>(
    alloc: Global,
    gateway: &mut Gateway<K>,
    call: &Call<K>,
    prepared: Prepared<K>,
) -> Result<Entry<K>, Memory>
    requires accepted { cause_of K.cmp K.matching (plain_call call.now) gateway.old.rows ≡ None }
    requires planned { prepared ≡ planned K.cmp K.matching (plain_call call.now) gateway.old }
    ensures entry { IfOk result (λ entry. plain_entry entry
        ≡ Ok (map sent_alone (by_face prepared.said))) }
    ensures done { OnOk result (gateway.new ≡ record prepared.after { waiting = [] }) }
{
    let sent = sent_by(alloc, &prepared)?;
    gateway.commit_call(prepared, call);
    gateway.clear_outbox();
    Ok(Entry { outcome: Ok(sent) })
}

// The entry of a refused call. The only error is want of memory.
fn refused<K: Key>(error: CallError) -> Result<Entry<K>, Memory>
    ensures { IfOk result (λ entry. IsEntryOf error (plain_entry entry)) }
{
    match error {
        CallError::Refused(refusal) => Ok(Entry {
            outcome: Err(refusal),
        }),
        CallError::Memory => Err(Memory),
    }
}

// What the line comes to.
fn make_face<K: Key>(
    alloc: Global,
    gateway: &mut Gateway<K>,
    line: &Line<K>,
) -> Result<Entry<K>, Memory>
    requires first { HasFirstIds (plain_line line.now) }
    requires quiet { gateway.old.waiting ≡ [] }
    ensures entry { IfOk result (λ entry. plain_entry entry
        ≡ made_entry K.cmp K.matching (plain_line line.now) gateway.old.rows) }
    ensures done { OnOk result (gateway.new
        ≡ record {
          rows = made_rows K.cmp K.matching
              (plain_line line.now) gateway.old.rows;
          waiting = [];
        }) }
{
    if gateway_named(line) != 1 {
        return Ok(Entry {
            outcome: Err(Refusal::UnknownGateway),
        });
    }
    let call = opening_call(line);
    match gateway.prepare(&call) {
        Ok(prepared) => carry_out(alloc, gateway, &call, prepared),
        Err(error) => refused(error),
    }
}

/// Opens the faces, and answers what the lines come to. The only error is want of memory.
pub fn make_faces<K: Key>(
    alloc: Global,
    gateway: &mut Gateway<K>,
    lines: &[Line<K>],
) -> Result<Vec<Entry<K>>, Memory>
    requires first { Each HasFirstIds (map plain_line lines.now) }
    requires quiet { gateway.old.waiting ≡ [] }
    ensures entries { IfOk result (λ entries. map plain_entry entries.items
        ≡ made_entries K.cmp K.matching (map plain_line lines.now) gateway.old.rows) }
    ensures done { OnOk result (gateway.new
        ≡ record {
          rows = rows_made K.cmp K.matching
              (map plain_line lines.now) gateway.old.rows;
          waiting = [];
        }) }
{
    let mut entries = Vec::new(alloc);
    for line in lines {
        entries.push(make_face(alloc, gateway, line)?)?;
    }
    Ok(entries)
}
