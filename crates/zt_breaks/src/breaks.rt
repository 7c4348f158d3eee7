//! A break of a rule: where it is, and what was expected and found there.
use zt_check::Clause;
use zt_protocol::{Refusal, Report};
use zt_region::Region;

/// A face, by its number in the script, from 1 over the faces of all gateways.
#[derive(Clone, Copy, PartialEq, Eq)]
pub struct FaceNumber {
    /// The number of its gateway.
    pub gateway: u32,
    /// Its own number.
    pub face: u64,
}

/// A row of a claimed transcript, up to 80 characters of it. Bytes that are no text are told
/// as such.
#[derive(PartialEq, Eq, Drop)]
pub enum Row {
    /// A whole line.
    Line(String),
    /// The last line, which has no line feed.
    Unended(String),
    /// The transcript ends before it.
    Missing,
}

/// What the printed form asks for.
#[derive(Clone, Copy, PartialEq, Eq)]
pub enum Form {
    /// The first line of the entry of this number, which is accepted, or refused for its first
    /// cause.
    Head { line: u64, cause: Option<Refusal> },
    /// A message.
    Message,
    /// A message for this face or a later one.
    Order { face: u32 },
    /// No message, since the line is refused.
    NoMessage,
    /// The totals, and nothing behind them.
    Totals(Report),
}

/// Why a face is to know of an expression.
#[derive(PartialEq, Eq, Drop)]
pub enum Owed<K> {
    /// It is to the north.
    North,
    /// It holds this interest in what is there now and comes later; without an expression in all.
    Interest { id: u32, expr: Option<K> },
}

/// How a face keeps an expression wrongly.
#[derive(PartialEq, Eq, Drop)]
pub enum Keeping<K> {
    /// It keeps it, and no live token of it is shown to the face.
    Unseen,
    /// It keeps it, and holds no interest in it.
    Unsought,
    /// It lacks it, though a live token of this region is shown to it.
    Lacked { region: Region, owed: Owed<K> },
}

/// How an ask is answered an expression wrongly.
#[derive(Clone, Copy, PartialEq, Eq)]
pub enum Answer {
    /// It was answered it before.
    Repeated,
    /// It doesn't ask for it.
    Unasked,
    /// No live token of it is shown to the face.
    Unseen,
    /// Nothing that it asked upstream was answered it by this line.
    Undeclared,
    /// It isn't answered it, though a live token of it is shown to the face.
    Unanswered,
    /// It isn't answered it, though it was declared in answer to what it asked upstream.
    NotPassedOn,
}

/// How the final of an ask is wrong.
#[derive(Clone, Copy, PartialEq, Eq)]
pub enum Ending {
    /// It is missing.
    Missing,
    /// It comes more than once.
    Doubled,
    /// It comes while this interest, which was sent to this face, isn't finished.
    Early { face: u64, interest: u32 },
    /// The face has no such ask.
    Nobodys,
    /// An answer to the ask follows it.
    Followed,
}

/// What is wrong.
#[derive(PartialEq, Eq, Drop)]
pub enum Finding<K> {
    /// This clause fails, and no more can be said of it.
    Unnamed(Clause),
    /// The row of this number of the transcript, from 1, isn't in the printed form.
    Misprinted {
        number: u128,
        row: Row,
        form: Form,
    },
    /// The line is accepted, or refused as this, where its first cause is another or none.
    Refused {
        refusal: Option<Refusal>,
        cause: Option<Refusal>,
    },
    /// A face keeps an expression wrongly.
    Kept {
        at: FaceNumber,
        expr: K,
        keeping: Keeping<K>,
    },
    /// The ask of an interest is answered an expression wrongly.
    Answered {
        at: FaceNumber,
        interest: u32,
        expr: K,
        answer: Answer,
    },
    /// The final of an interest is wrong.
    Finished {
        at: FaceNumber,
        interest: u32,
        ending: Ending,
    },
}

/// A break of a rule by a claimed transcript.
#[derive(PartialEq, Eq, Drop)]
pub struct Break<K> {
    /// The number of the script's line, from 1; one more than the last where the totals are wrong.
    pub line: u64,
    /// The clause that fails.
    pub clause: Clause,
    /// What is wrong.
    pub finding: Finding<K>,
}

impl<K> Finding<K> {
    /// The clause that fails.
    pub fn clause(&self) -> Clause {
        match self {
            Finding::Unnamed(clause) => *clause,
            Finding::Misprinted { .. } => Clause::Text,
            Finding::Refused { .. } => Clause::Cause,
            Finding::Kept {
                keeping: Keeping::Lacked { .. },
                ..
            } => Clause::Lower,
            Finding::Kept { .. } => Clause::Upper,
            Finding::Answered { .. } => Clause::Answers,
            Finding::Finished { .. } => Clause::Finals,
        }
    }
}
