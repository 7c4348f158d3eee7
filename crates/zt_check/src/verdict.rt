//! What a judge answers, and the line in which it says so.
ghost use Rattle.std.specs.Prelude.{◌≡◌, ◌++◌, ◌∷◌, [], OnOk, IfOk, decimal, string_bytes};
ghost use Rattle.zt_text.specs.Text.{spaced};
ghost use Rattle.zt_check.specs.Verdicts.{clause_name, verdict_text};

use itoa::Buffer;
use std::alloc::Global;
use zt_keys::Memory;
use zt_protocol::Report;

/// What a claimed transcript is asked for, line by line. That each is decided rightly is proved.
#[derive(Clone, Copy, PartialEq, Eq, Debug)]
pub enum Clause {
    /// The printed form: an entry for each line, with its messages in order of face, and the
    /// totals behind them.
    Text,
    /// The line is refused exactly by its first cause.
    Cause,
    /// Faces outside router regions keep only visible tokens that they seek.
    Upper,
    /// They keep every admitted token that is owed to them.
    Lower,
    /// Asks are answered what they ask for, each expression once.
    Answers,
    /// Each ask gets its one final when it ends, and nothing behind it.
    Finals,
}

impl Clause {
    /// Its name, as a verdict prints it.
    pub fn name(&self) -> &'static str
        ensures { result.now ≡ clause_name self.now }
    {
        match self {
            Clause::Text => "text",
            Clause::Cause => "cause",
            Clause::Upper => "upper",
            Clause::Lower => "lower",
            Clause::Answers => "answers",
            Clause::Finals => "finals",
        }
    }
}

/// What a judge says of a claimed transcript.
#[derive(Clone, Copy, PartialEq, Eq, Debug)]
pub enum Verdict {
    /// No clause fails, and these are the totals.
    Holds(Report),
    /// A clause fails, at this line first.
    Breaks {
        /// The number of the script's line, from 1; one more than the last where the totals are
        /// wrong or missing, or more follows them.
        line: u64,
        /// The first clause that fails there.
        clause: Clause,
    },
}

/// Why there is no verdict.
#[derive(Clone, Copy, PartialEq, Eq, Debug)]
pub enum CheckError {
    /// The source failed.
    ReadFault,
    /// The sink failed.
    WriteFault,
    /// The input has more than 16,777,216 bytes, or its script more than 1,048,576.
    TooLong,
    /// No line of the input is `---`.
    NoTrace,
    /// The script's line of this number, from 1, is its first that isn't in the grammar.
    BadScript(u64),
    /// Memory ran out.
    Alloc,
}

fn put_field(out: &mut String, field: &str) -> Result<(), Memory>
    ensures { OnOk result
        (string_bytes out.new ≡ string_bytes out.old ++ spaced (field.now ∷ [])) }
{
    out.push(' ')?;
    out.push_str(field)?;
    Ok(())
}

fn put_number(out: &mut String, number: u128) -> Result<(), Memory>
    ensures { OnOk result
        (string_bytes out.new ≡ string_bytes out.old ++ spaced (decimal number ∷ [])) }
{
    let mut buffer = Buffer::new();
    put_field(out, buffer.format(number))
}

/// The line that says a verdict: `holds LINES MESSAGES REFUSALS` or `breaks LINE CLAUSE`.
pub fn print_verdict(alloc: Global, verdict: &Verdict) -> Result<String, Memory>
    ensures { IfOk result (λ text. string_bytes text ≡ verdict_text verdict.now) }
{
    let mut text = String::new(alloc);
    match verdict {
        Verdict::Holds(report) => {
            text.push_str("holds")?;
            put_number(&mut text, u128::from(report.lines))?;
            put_number(&mut text, report.messages)?;
            put_number(&mut text, u128::from(report.refusals))?;
        }
        Verdict::Breaks { line, clause } => {
            text.push_str("breaks")?;
            put_number(&mut text, u128::from(*line))?;
            put_field(&mut text, clause.name())?;
        }
    }
    text.push('\n')?;
    Ok(text)
}
