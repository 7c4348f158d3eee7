//! The lines of a whole script.
ghost use Rattle.std.specs.Prelude.{◌≡◌, [], ◌∷◌, ◌++◌, Ok, OnOk, IfOk, IfErr, map};
ghost use Rattle.zt_streams.specs.Lines.{rest_of, lines_of};
ghost use Rattle.zt_protocol.specs.Plain.{plain_line};
ghost use Rattle.zt_lines.specs.Reading.{line_read};
ghost use Rattle.zt_check_trace.specs.Script.{AreRead, LineStops, StopsReading};

use crate::parts::first_line;
use std::alloc::Global;
use zt_keys::Key;
use zt_lines::read_line;
use zt_protocol::{Line, LineError};

/// Why the lines of a script weren't read.
#[derive(Clone, Copy, PartialEq, Eq, Debug)]
pub enum LinesError {
    /// The line of this number, from 1, is the first that is no line of the grammar.
    BadLine(u64),
    /// Memory ran out.
    Memory,
}

// The line of this number that the text is.
fn good_line<K: Key>(alloc: Global, text: &[u8], number: u64) -> Result<Line<K>, LinesError>
    ensures ok { IfOk result (λ line. line_read K.reading text.now ≡ Ok (plain_line line)) }
    ensures err { IfErr result (λ error. LineStops K.reading text.now number error) }
{
    match read_line(alloc, text) {
        Ok(line) => Ok(line),
        Err(LineError::NotUtf8 | LineError::NotInGrammar) => Err(LinesError::BadLine(number)),
        Err(LineError::Memory) => Err(LinesError::Memory),
    }
}

fn keep<T: Drop>(kept: &mut Vec<T>, item: T) -> Result<(), LinesError>
    ensures ok { OnOk result (kept.new.items ≡ kept.old.items ++ item ∷ []) }
    ensures err { IfErr result (λ error. error ≡ LinesError.Memory) }
{
    match kept.push(item) {
        Ok(()) => Ok(()),
        Err(_) => Err(LinesError::Memory),
    }
}

/// The lines of a script, each of which has its line feed.
///
/// `BadLine` comes exactly where a line isn't in the grammar, unless memory runs out first.
pub fn read_lines<K: Key>(alloc: Global, script: &[u8]) -> Result<Vec<Line<K>>, LinesError>
    requires whole { rest_of script.now ≡ [] }
    ensures ok { IfOk result
        (λ lines. AreRead K.reading (lines_of script.now) (map plain_line lines.items)) }
    ensures err { IfErr result (λ error. StopsReading K.reading (lines_of script.now) error) }
{
    let mut lines = Vec::new(alloc);
    let mut rest = script;
    while let Some((text, behind)) = first_line(rest) {
        let number = lines.len() as u64 + 1;
        let line = match good_line(alloc, text, number) {
            Ok(line) => line,
            Err(error) => return Err(error),
        };
        if let Err(error) = keep(&mut lines, line) {
            return Err(error);
        }
        rest = behind;
    }
    Ok(lines)
}
