// All that is wrong of a claimed transcript, line by line.
ghost use Rattle.zt_keys.specs.Key.{OneSpelling};

use crate::forms::{misprinted_entry, misprinted_totals};
use crate::list::{is_full, tell};
use crate::turns::tell_turn;
use std::alloc::Global;
use zt_breaks::Break;
use zt_check_fabric::ShownFabric;
use zt_check_lines::line_cause;
use zt_check_trace::next_entry;
use zt_keys::{Key, Memory};
use zt_protocol::{Entry, Line, Report};

// Counts an entry.
fn count<K>(report: &mut Report, entry: &Entry<K>) {
    report.lines = report.lines.saturating_add(1);
    match &entry.outcome {
        Ok(sents) => report.messages = report.messages.saturating_add(sents.len() as u128),
        Err(_) => report.refusals = report.refusals.saturating_add(1),
    }
}

// The transcript's row behind so many entries, from 1.
fn row_behind(report: &Report) -> u128 {
    u128::from(report.lines)
        .saturating_add(report.messages)
        .saturating_add(1)
}

// Tells what is wrong of the text behind the last entry.
fn tell_totals<K: Key>(
    alloc: Global,
    breaks: &mut Vec<Break<K>>,
    report: Report,
    rest: &[u8],
) -> Result<(), Memory> {
    let number = report.lines.saturating_add(1);
    match misprinted_totals(alloc, rest, row_behind(&report), report)? {
        Some(finding) => tell(breaks, number, finding),
        None => Ok(()),
    }
}

/// All that is wrong of the transcript that is claimed for the lines of a script, up to where it
/// can't be followed, or the most that is told.
pub(crate) fn breaks_of<K: Key>(
    alloc: Global,
    lines: &[Line<K>],
    claimed: &[u8],
) -> Result<Vec<Break<K>>, Memory>
    requires spelling { OneSpelling K.reading K.printed }
{
    let mut breaks = Vec::new(alloc);
    let mut report = Report {
        lines: 0,
        messages: 0,
        refusals: 0,
    };
    let mut rest = claimed;
    let mut fabric = ShownFabric::new(alloc);
    for line in lines {
        let number = report.lines.saturating_add(1);
        let Some((entry, behind)) = next_entry::<K>(alloc, rest, number)? else {
            let cause = line_cause(alloc, &fabric, line)?;
            let row = row_behind(&report);
            let finding = misprinted_entry(alloc, rest, row, number, cause)?;
            tell(&mut breaks, number, finding)?;
            return Ok(breaks);
        };
        count(&mut report, &entry);
        rest = behind;
        if !tell_turn(alloc, &mut breaks, number, &mut fabric, line, &entry)?
            || is_full(breaks.as_slice())
        {
            return Ok(breaks);
        }
    }
    tell_totals(alloc, &mut breaks, report, rest)?;
    Ok(breaks)
}
