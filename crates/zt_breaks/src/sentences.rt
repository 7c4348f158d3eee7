//! Breaks told in sentences, a line for each.
ghost use Rattle.std.specs.Prelude.{◌≡◌, ◌++◌, codes, decimal, string_bytes, IfOk, OnOk};
ghost use Rattle.std.specs.List.{flat_map};
ghost use Rattle.zt_breaks.specs.Sentences.{asked_text, break_text, breaks_text, cause_text};
ghost use Rattle.zt_breaks.specs.Sentences.{count_text, ending_text, finding_text, form_text};
ghost use Rattle.zt_breaks.specs.Sentences.{given_text, head_text, is_given, keeping_text};
ghost use Rattle.zt_breaks.specs.Sentences.{outcome_text, owed_text, quoted, reason_text};
ghost use Rattle.zt_breaks.specs.Sentences.{region_text, row_text, totals_text};

use crate::breaks::{Answer, Break, Ending, Finding, Form, Keeping, Owed, Row};
use crate::words::{
    put, put_ask, put_face, put_keyed, put_named, put_number, put_numbered, put_refused,
    put_region, put_two,
};
use std::alloc::Global;
use zt_keys::{Key, Memory};
use zt_protocol::{Refusal, Report};
use zt_region::Region;

fn put_totals(out: &mut String, report: &Report) -> Result<(), Memory>
    ensures { OnOk result
        (string_bytes out.new ≡ string_bytes out.old ++ totals_text report.now) }
{
    put_numbered(out, "total ", u128::from(report.lines), " ")?;
    put_numbered(out, "", report.messages, " ")?;
    put_number(out, u128::from(report.refusals))
}

// The first line of an entry.
fn put_head(out: &mut String, line: u64, cause: Option<Refusal>) -> Result<(), Memory>
    ensures { OnOk result
        (string_bytes out.new ≡ string_bytes out.old ++ head_text line cause) }
{
    put_number(out, u128::from(line))?;
    match cause {
        None => put(out, " ok"),
        Some(cause) => {
            put(out, " refused ")?;
            put(out, cause.name())
        }
    }
}

// The first line of an entry between two texts.
fn put_headed(
    out: &mut String,
    before: &str,
    line: u64,
    cause: Option<Refusal>,
    behind: &str,
) -> Result<(), Memory>
    ensures { OnOk result (string_bytes out.new
        ≡ string_bytes out.old ++ (before.now ++ (head_text line cause ++ behind.now))) }
{
    put(out, before)?;
    put_head(out, line, cause)?;
    put(out, behind)
}

// The line of totals between two texts.
fn put_totalled(out: &mut String, before: &str, report: &Report, behind: &str) -> Result<(), Memory>
    ensures { OnOk result (string_bytes out.new
        ≡ string_bytes out.old ++ (before.now ++ (totals_text report.now ++ behind.now))) }
{
    put(out, before)?;
    put_totals(out, report)?;
    put(out, behind)
}

// What was expected.
fn put_form(out: &mut String, form: &Form) -> Result<(), Memory>
    ensures { OnOk result (string_bytes out.new ≡ string_bytes out.old ++ form_text form.now) }
{
    match form {
        Form::Head { line, cause } => put_headed(out, "Expected is `", *line, *cause, "`."),
        Form::Message => put(out, "Expected is a message, `> GATEWAY FACE MESSAGE`."),
        Form::Order { face } => put_numbered(
            out,
            "It stands behind a message for face ",
            u128::from(*face),
            ", and messages stand in order of face.",
        ),
        Form::NoMessage => put(out, "A refused line has no message."),
        Form::Totals(report) => {
            put_totalled(out, "Expected is `", report, "`, and nothing behind it.")
        }
    }
}

// What was found.
fn put_row(out: &mut String, row: &Row) -> Result<(), Memory>
    ensures { OnOk result (string_bytes out.new ≡ string_bytes out.old ++ row_text row.now) }
{
    match row {
        Row::Missing => put(out, " is missing. "),
        Row::Line(text) => put_named(out, " is `", text.as_str(), "`. "),
        Row::Unended(text) => { put_named(out, " is `", text.as_str(), "` without a line feed. ") }
    }
}

fn put_outcome(out: &mut String, refusal: Option<Refusal>) -> Result<(), Memory>
    ensures { OnOk result (string_bytes out.new ≡ string_bytes out.old ++ outcome_text refusal) }
{
    match refusal {
        None => put(out, "it is accepted. "),
        Some(refusal) => put_refused(out, "it is refused as ", refusal, ". "),
    }
}

fn put_cause(out: &mut String, cause: Option<Refusal>) -> Result<(), Memory>
    ensures { OnOk result (string_bytes out.new ≡ string_bytes out.old ++ cause_text cause) }
{
    match cause {
        None => put(out, "Nothing refuses it."),
        Some(cause) => put_refused(out, "Its first cause of refusal is ", cause, "."),
    }
}

// What an interest asks for.
fn put_asked<K: Key>(out: &mut String, expr: &Option<K>) -> Result<(), Memory>
    ensures { OnOk result
        (string_bytes out.new ≡ string_bytes out.old ++ asked_text K.printed expr.now) }
{
    match expr {
        None => put(out, " in all."),
        Some(expr) => put_keyed(out, " in ", expr, "."),
    }
}

// The interest that a face holds, behind a text.
fn put_interest<K: Key>(
    out: &mut String,
    before: &str,
    id: u32,
    expr: &Option<K>,
) -> Result<(), Memory>
    ensures { OnOk result (string_bytes out.new
        ≡ string_bytes out.old ++ (before.now ++ (decimal id ++ asked_text K.printed expr.now))) }
{
    put(out, before)?;
    put_number(out, u128::from(id))?;
    put_asked(out, expr)
}

fn put_owed<K: Key>(out: &mut String, owed: &Owed<K>) -> Result<(), Memory>
    ensures { OnOk result
        (string_bytes out.new ≡ string_bytes out.old ++ owed_text K.printed owed.now) }
{
    match owed {
        Owed::North => put(out, " is shown to it, and it is to the north."),
        Owed::Interest { id, expr } => {
            put_interest(out, " is shown to it, and it holds interest ", *id, expr)
        }
    }
}

// An expression that a face lacks, with a region and why it is to know of it.
fn put_lacked<K: Key>(
    out: &mut String,
    before: &str,
    expr: &K,
    behind: &str,
    region: Region,
    owed: &Owed<K>,
) -> Result<(), Memory>
    ensures { OnOk result (string_bytes out.new
        ≡ string_bytes out.old ++ (before.now ++ (quoted (K.printed expr.now)
        ++ (behind.now ++ (region_text region ++ owed_text K.printed owed.now))))) }
{
    put_keyed(out, before, expr, behind)?;
    put_region(out, region)?;
    put_owed(out, owed)
}

fn put_keeping<K: Key>(out: &mut String, expr: &K, keeping: &Keeping<K>) -> Result<(), Memory>
    ensures { OnOk result (string_bytes out.new
        ≡ string_bytes out.old ++ keeping_text K.printed expr.now keeping.now) }
{
    match keeping {
        Keeping::Unseen => {
            put_keyed(
                out,
                " keeps ",
                expr,
                ". No live token of it is shown to the face.",
            )
        }
        Keeping::Unsought => put_keyed(out, " keeps ", expr, ". It holds no interest in that."),
        Keeping::Lacked { region, owed } => {
            put_lacked(
                out,
                " lacks ",
                expr,
                ". A live token in region ",
                *region,
                owed,
            )
        }
    }
}

// Whether an ask gets the expression wrongly, or doesn't get it.
fn is_given(answer: Answer) -> bool
    ensures { result ≡ is_given answer }
{
    match answer {
        Answer::Unanswered | Answer::NotPassedOn => false,
        _ => true,
    }
}

fn given(is_given: bool) -> &'static str
    ensures { result.now ≡ given_text is_given }
{
    if is_given {
        " is answered "
    } else {
        " isn't answered "
    }
}

fn reason(answer: Answer) -> &'static str
    ensures { result.now ≡ reason_text answer }
{
    match answer {
        Answer::Repeated => "It was answered that already.",
        Answer::Unasked => "It doesn't ask for that.",
        Answer::Unseen => "No live token of that is shown to the face.",
        Answer::Undeclared => "The line declares no such token in answer to it.",
        Answer::Unanswered => "It asks for that, and a live token of it is shown to the face.",
        Answer::NotPassedOn => "It asks for that, and the line declares it in answer.",
    }
}

// How an ask is answered an expression.
fn put_answer<K: Key>(out: &mut String, expr: &K, answer: Answer) -> Result<(), Memory>
    ensures { OnOk result (string_bytes out.new ≡ string_bytes out.old ++ (given_text
        (is_given answer) ++ (quoted (K.printed expr.now) ++ (codes ". " ++ reason_text answer)))) }
{
    put_keyed(out, given(is_given(answer)), expr, ". ")?;
    put(out, reason(answer))
}

fn put_ending(out: &mut String, ending: &Ending) -> Result<(), Memory>
    ensures { OnOk result
        (string_bytes out.new ≡ string_bytes out.old ++ ending_text ending.now) }
{
    match ending {
        Ending::Missing => put(
            out,
            " lacks its final. All that it asked upstream is finished.",
        ),
        Ending::Doubled => put(out, " gets more than one final."),
        Ending::Early { face, interest } => put_two(
            out,
            " gets its final early. Interest ",
            u128::from(*interest),
            ", which was sent to face ",
            u128::from(*face),
            " for it, isn't finished.",
        ),
        Ending::Nobodys => put(out, " gets a final. The face has no such ask."),
        Ending::Followed => put(out, " gets an answer behind its final."),
    }
}

// A row that isn't in the printed form, and what was expected.
fn put_misprinted(
    out: &mut String,
    before: &str,
    number: u128,
    behind: &str,
    row: &Row,
    form: &Form,
) -> Result<(), Memory>
    ensures { OnOk result (string_bytes out.new ≡ string_bytes out.old ++ (before.now
        ++ (decimal number ++ (behind.now ++ (row_text row.now ++ form_text form.now))))) }
{
    put_numbered(out, before, number, behind)?;
    put_row(out, row)?;
    put_form(out, form)
}

fn put_finding<K: Key>(out: &mut String, finding: &Finding<K>) -> Result<(), Memory>
    ensures { OnOk result
        (string_bytes out.new ≡ string_bytes out.old ++ finding_text K.printed finding.now) }
{
    match finding {
        Finding::Unnamed(clause) => put_named(out, "it breaks `", clause.name(), "`."),
        Finding::Misprinted { number, row, form } => {
            put_misprinted(out, "row ", *number, " of the transcript", row, form)
        }
        Finding::Refused { refusal, cause } => {
            put_outcome(out, *refusal)?;
            put_cause(out, *cause)
        }
        Finding::Kept { at, expr, keeping } => {
            put_face(out, *at)?;
            put_keeping(out, expr, keeping)
        }
        Finding::Answered {
            at,
            interest,
            expr,
            answer,
        } => {
            put_ask(out, *at, *interest)?;
            put_answer(out, expr, *answer)
        }
        Finding::Finished {
            at,
            interest,
            ending,
        } => {
            put_ask(out, *at, *interest)?;
            put_ending(out, ending)
        }
    }
}

fn put_break<K: Key>(out: &mut String, told: &Break<K>) -> Result<(), Memory>
    ensures { OnOk result
        (string_bytes out.new ≡ string_bytes out.old ++ break_text K.printed told.now) }
{
    put_numbered(out, "Line ", u128::from(told.line), ": ")?;
    put_finding(out, &told.finding)?;
    put(out, "\n")
}

fn put_breaks<K: Key>(out: &mut String, breaks: &[Break<K>]) -> Result<(), Memory>
    ensures { OnOk result (string_bytes out.new
        ≡ string_bytes out.old ++ flat_map (break_text K.printed) breaks.now) }
{
    for told in breaks {
        put_break(out, told)?;
    }
    Ok(())
}

// How many breaks are told.
fn put_count(out: &mut String, count: usize) -> Result<(), Memory>
    ensures { OnOk result (string_bytes out.new ≡ string_bytes out.old ++ count_text count) }
{
    if count == 0 {
        return put(out, "No break.\n");
    }
    if count == 1 {
        return put(out, "1 break.\n");
    }
    put_number(out, count as u128)?;
    put(out, " breaks.\n")
}

/// The sentences on breaks: a line for each, and one of how many they are.
pub fn print_breaks<K: Key>(alloc: Global, breaks: &[Break<K>]) -> Result<String, Memory>
    ensures { IfOk result (λ text. string_bytes text ≡ breaks_text K.printed breaks.now) }
{
    let mut text = String::new(alloc);
    put_breaks(&mut text, breaks)?;
    put_count(&mut text, breaks.len())?;
    Ok(text)
}
