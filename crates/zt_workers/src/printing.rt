// The text of a transcript whose lines stand in an order of their own.
ghost use Rattle.std.specs.Prelude.{◌≡◌, ◌+◌, ◌<◌, ◌^◌, length, map, string_bytes, IfOk};
ghost use Rattle.zt_fabric.specs.Carrying.{IsInRange, with_entry};
ghost use Rattle.zt_protocol.specs.Plain.{plain_entry};
ghost use Rattle.zt_workers.specs.Answers.{AnswersFit, answered, totals_of, transcript_text};

use crate::answering::Answer;
use std::alloc::Global;
use zt_keys::{Key, Memory};
use zt_protocol::{Entry, Report};
use zt_text::{write_entry, write_report};

// Counts an entry.
fn count<K>(report: &mut Report, entry: &Entry<K>)
    requires room { report.old.lines + 1 < 2 ^ 64 }
    requires range { IsInRange report.old }
    ensures counted { report.new ≡ with_entry (plain_entry entry.now) report.old }
    ensures range { IsInRange report.new }
{
    report.lines += 1;
    match &entry.outcome {
        Ok(sent) => report.messages += sent.len() as u128,
        Err(_) => report.refusals += 1,
    }
}

/// The text of the answers and of their totals, and these. The numbers of the answers are within
/// their types, so that the text tells them apart from others. The only error is want of memory.
pub fn print_all<K: Key>(alloc: Global, answers: &[Answer<K>]) -> Result<(String, Report), Memory>
    requires { length answers.now < 2 ^ 63 }
    ensures text { IfOk result (λ printed. string_bytes printed.0
        ≡ transcript_text K.printed (map answered answers.now)) }
    ensures totals { IfOk result (λ printed. printed.1 ≡ totals_of (map answered answers.now)) }
    ensures fit { IfOk result (λ _. AnswersFit (map answered answers.now)) }
{
    let mut text = String::new(alloc);
    let mut report = Report {
        lines: 0,
        messages: 0,
        refusals: 0,
    };
    for answer in answers {
        write_entry(&mut text, answer.line, &answer.entry)?;
        count(&mut report, &answer.entry);
    }
    write_report(&mut text, &report)?;
    Ok((text, report))
}
