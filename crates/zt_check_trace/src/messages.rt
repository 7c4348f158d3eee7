// The messages of an entry.
ghost use Rattle.std.specs.Prelude.{◌≡◌, ◌↔◌, IsTrue, IfOk, MatchOption, Ok, is_err, true};
ghost use Rattle.std.specs.Option.{option_map};
ghost use Rattle.zt_keys.specs.Key.{OneSpelling};
ghost use Rattle.zt_text.specs.Sent.{sent_read};
ghost use Rattle.zt_model.specs.Transcript.{StandInOrderOfFace};
ghost use Rattle.zt_check_trace.specs.Entries.{FindsMessages};

use crate::parts::{begins_with_mark, first_line};
use std::alloc::Global;
use zt_keys::{Key, Memory};
use zt_protocol::{LineError, Sent};
use zt_text::read_sent;

// The message that a line prints. None exactly where it prints none.
fn good_sent<K: Key>(alloc: Global, line: &[u8]) -> Result<Option<Sent<K>>, Memory>
    ensures { IfOk result (λ found. MatchOption found (is_err (sent_read K.reading line.now) ≡ true)
        (λ sent. sent_read K.reading line.now ≡ Ok sent)) }
{
    match read_sent(alloc, line) {
        Ok(sent) => Ok(Some(sent)),
        Err(LineError::NotUtf8 | LineError::NotInGrammar) => Ok(None),
        Err(LineError::Memory) => Err(Memory),
    }
}

/// The messages at the front of a text, up to the first line that doesn't begin with `>`, and what
/// is behind them. None exactly where one of these lines is no message.
pub(crate) fn take_messages<K: Key>(
    alloc: Global,
    text: &[u8],
) -> Result<Option<(Vec<Sent<K>>, &[u8])>, Memory>
    requires spelling { OneSpelling K.reading K.printed }
    ensures { IfOk result (λ found. FindsMessages K.printed text.now
        (option_map (λ x. (x.0.items, x.1.now)) found)) }
{
    let mut sents = Vec::new(alloc);
    let mut rest = text;
    while begins_with_mark(rest) {
        let Some((line, behind)) = first_line(rest) else {
            return Ok(None);
        };
        let Some(sent) = good_sent(alloc, line)? else {
            return Ok(None);
        };
        sents.push(sent)?;
        rest = behind;
    }
    Ok(Some((sents, rest)))
}

/// Whether messages stand in order of face.
pub(crate) fn stand_in_order<K>(sents: &[Sent<K>]) -> bool
    ensures { IsTrue result ↔ StandInOrderOfFace sents.now }
{
    let mut face = 0;
    for sent in sents {
        if sent.face < face {
            return false;
        }
        face = sent.face;
    }
    true
}
