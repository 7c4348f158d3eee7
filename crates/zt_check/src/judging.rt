//! Claimed transcripts judged, from the bytes of an input to a verdict.
ghost use Rattle.std.specs.Prelude.{◌≡◌, ◌<◌, IfOk, map, length};
ghost use Rattle.zt_keys.specs.Key.{OneSpelling};
ghost use Rattle.zt_protocol.specs.Plain.{plain_entry, plain_line};
ghost use Rattle.zt_check.specs.Clauses.{every_clause};
ghost use Rattle.zt_check.specs.Totals.{IsInRange, with_entry};
ghost use Rattle.zt_check.specs.Judging.{Judges, JudgesInput, JudgesTotals};

use crate::turns::judge_turn;
use crate::verdict::{CheckError, Clause, Verdict};
use std::alloc::Global;
use zt_check_fabric::ShownFabric;
use zt_check_trace::{LinesError, cut, next_entry, read_lines};
use zt_keys::{Key, Memory};
use zt_protocol::{Entry, Line, Report};
use zt_streams::SCRIPT_BYTES;
use zt_text::print_report;

// Counts an entry.
fn count<K>(report: &mut Report, entry: &Entry<K>)
    requires room { report.old.lines < 18446744073709551615 }
    requires range { IsInRange report.old }
    ensures counted { report.new ≡ with_entry (plain_entry entry.now) report.old }
    ensures range { IsInRange report.new }
{
    report.lines += 1;
    match &entry.outcome {
        Ok(sent) => report.messages += sent.len() as u128,
        Err(_) => report.refusals += 1,
    }
}

// Behind the last entry the line of the totals is left, and no more; a verdict at one line more
// else.
fn judge_totals(alloc: Global, report: Report, rest: &[u8]) -> Result<Verdict, Memory>
    requires room { report.lines < 18446744073709551615 }
    ensures { IfOk result (λ verdict. JudgesTotals report rest.now verdict) }
{
    let totals = print_report(alloc, &report)?;
    if rest == totals.as_bytes() {
        return Ok(Verdict::Holds(report));
    }
    Ok(Verdict::Breaks {
        line: report.lines + 1,
        clause: Clause::Text,
    })
}

// Judges the transcript that is claimed for the lines of a script.
fn judge_claim<K: Key>(alloc: Global, lines: &[Line<K>], claimed: &[u8]) -> Result<Verdict, Memory>
    requires spelling { OneSpelling K.reading K.printed }
    requires room { length lines.now < 18446744073709551615 }
    ensures { IfOk result
        (λ verdict. Judges K.cmp K.matching K.printed every_clause
        (map plain_line lines.now) claimed.now verdict) }
{
    let mut report = Report {
        lines: 0,
        messages: 0,
        refusals: 0,
    };
    let mut rest = claimed;
    let mut fabric = ShownFabric::new(alloc);
    for line in lines {
        let number = report.lines + 1;
        let Some((entry, behind)) = next_entry::<K>(alloc, rest, number)? else {
            return Ok(Verdict::Breaks {
                line: number,
                clause: Clause::Text,
            });
        };
        count(&mut report, &entry);
        rest = behind;
        let failed = judge_turn(alloc, &mut fabric, line, &entry)?;
        if let Some(clause) = failed {
            return Ok(Verdict::Breaks {
                line: number,
                clause,
            });
        }
    }
    judge_totals(alloc, report, rest)
}

/// Judges an input: a script, a line `---`, and the transcript that is claimed for the script. A
/// type of keys that is read in several spellings can't be judged so.
///
/// `NoTrace` comes exactly where no line is `---`, `TooLong` exactly where the script before the
/// first such line has more than 1,048,576 bytes, and `BadScript` exactly where neither holds and a
/// line of the script isn't in the grammar, unless memory runs out. No other error comes.
pub fn judge<K: Key>(alloc: Global, input: &[u8]) -> Result<Verdict, CheckError>
    requires spelling { OneSpelling K.reading K.printed }
    ensures { JudgesInput K.cmp K.matching K.reading K.printed input.now result }
{
    let Some((script, claimed)) = cut(input) else {
        return Err(CheckError::NoTrace);
    };
    if script.len() > SCRIPT_BYTES {
        return Err(CheckError::TooLong);
    }
    let lines = match read_lines::<K>(alloc, script) {
        Ok(lines) => lines,
        Err(LinesError::BadLine(number)) => return Err(CheckError::BadScript(number)),
        Err(LinesError::Memory) => return Err(CheckError::Alloc),
    };
    match judge_claim(alloc, &lines, claimed) {
        Ok(verdict) => Ok(verdict),
        Err(_) => Err(CheckError::Alloc),
    }
}
