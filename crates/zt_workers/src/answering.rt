// What lines came to, with their numbers.
ghost use Rattle.std.specs.Prelude.{◌≡◌, ◌+◌, ◌<◌, ◌^◌, ◌++◌, [], ◌∷◌, Ok, Err, length, map, IfOk};
ghost use Rattle.std.specs.Prelude.{OnOk};
ghost use Rattle.zt_protocol.specs.Plain.{plain_entry};
ghost use Rattle.zt_theorem_journal.specs.Dealt.{numbered_from};
ghost use Rattle.zt_shared.specs.Recorded.{plain_outcome};
ghost use Rattle.zt_workers.specs.Answers.{answered};
ghost use Rattle.zt_dealing.specs.Dealing.{with_lines};

use std::alloc::Global;
use zt_keys::{Key, Memory};
use zt_plans::Numbered;
use zt_protocol::{Entry, Line, Refusal};
use zt_shared::{Journal, JournalEntry};

/// What the line of this number came to.
#[derive(Drop)]
pub struct Answer<K> {
    pub line: u64,
    pub entry: Entry<K>,
}

// Adds refused lines behind the others.
fn refuse<K: Key, L>(
    answers: &mut Vec<Answer<K>>,
    lines: &[L],
    refusal: Refusal,
) -> Result<(), Memory>
    requires { length answers.old.items + length lines.now < 2 ^ 32 }
    ensures { OnOk result (map answered answers.new.items
        ≡ map answered answers.old.items
        ++ numbered_from (length answers.old.items + 1) (map (λ _. Err refusal) lines.now)) }
{
    for _ in lines {
        let line = answers.len() as u64 + 1;
        answers.push(Answer {
            line,
            entry: Entry {
                outcome: Err(refusal),
            },
        })?;
    }
    Ok(())
}

/// The answers where the gateway is refused: then no other line finds a gateway or a face.
pub fn all_refused<K: Key>(
    alloc: Global,
    refusal: Refusal,
    makings: &[Line<K>],
    calls: &[Numbered<K>],
) -> Result<Vec<Answer<K>>, Memory>
    requires { length makings.now + length calls.now < 2 ^ 31 }
    ensures { IfOk result (λ answers. map answered answers.items ≡ numbered_from 1 (Err refusal
        ∷ (map (λ _. Err Refusal.UnknownGateway) makings.now
        ++ map (λ _. Err Refusal.UnknownFace) calls.now))) }
{
    let mut answers = Vec::new(alloc);
    refuse(&mut answers, &[()], refusal)?;
    refuse(&mut answers, makings, Refusal::UnknownGateway)?;
    refuse(&mut answers, calls, Refusal::UnknownFace)?;
    Ok(answers)
}

/// The answers of the gateway's line and of those that open faces.
pub fn answer_makings<K: Key>(
    alloc: Global,
    entries: Vec<Entry<K>>,
) -> Result<Vec<Answer<K>>, Memory>
    requires { length entries.items < 2 ^ 31 }
    ensures { IfOk result (λ answers. map answered answers.items
        ≡ numbered_from 1 (Ok [] ∷ map plain_entry entries.items)) }
{
    let mut answers = Vec::new(alloc);
    answers.push(Answer {
        line: 1,
        entry: Entry {
            outcome: Ok(Vec::new(alloc)),
        },
    })?;
    let mut line = 2;
    for entry in entries {
        answers.push(Answer { line, entry })?;
        line += 1;
    }
    Ok(answers)
}

// What a call of a journal came to.
fn entry_of<K: Key>(entry: JournalEntry<K>) -> Entry<K>
    ensures { plain_entry result ≡ plain_outcome entry.outcome }
{
    let JournalEntry {
        pass: _,
        call: _,
        made: _,
        outcome,
    } = entry;
    Entry { outcome }
}

/// Adds the answers of a journal's entries, with their lines.
pub fn answer_journal<K: Key>(
    answers: &mut Vec<Answer<K>>,
    journal: Journal<K>,
    lines: &[u64],
) -> Result<(), Memory>
    requires { length lines.now ≡ length journal.entries.items }
    ensures { OnOk result (map answered answers.new.items
        ≡ map answered answers.old.items
        ++ with_lines lines.now
        (map (λ entry. plain_outcome entry.outcome) journal.entries.items)) }
{
    let mut place = 0;
    for entry in journal.entries {
        let line = lines[place];
        let entry = entry_of(entry);
        answers.push(Answer { line, entry })?;
        place += 1;
    }
    Ok(())
}
