// The text of a transcript with the polls of a monitor behind it.
ghost use Rattle.std.specs.Prelude.{◌≡◌, ◌<◌, ◌^◌, length, map, string_bytes, IfErr, IfOk};
ghost use Rattle.zt_watchers.specs.Text.{plain_poll};
ghost use Rattle.zt_workers.specs.Answers.{AnswersFit, answered, totals_of};
ghost use Rattle.zt_watch_tool.specs.Watching.{watched_text};

use std::alloc::Global;
use zt_keys::Key;
use zt_protocol::{Report, RunError};
use zt_watchers::{Poll, write_polls};
use zt_workers::{Answer, print_all};

/// The text of the answers and of their totals, with the lines of the polls behind them, and the
/// totals. The numbers of the answers are within their types. The only error is `Alloc`.
pub fn printed<K: Key>(
    alloc: Global,
    answers: &[Answer<K>],
    polls: &[Poll<K>],
) -> Result<(String, Report), RunError>
    requires { length answers.now < 2 ^ 63 }
    ensures text { IfOk result (λ made. string_bytes made.0
        ≡ watched_text K.printed (map answered answers.now) (map plain_poll polls.now)) }
    ensures totals { IfOk result (λ made. made.1 ≡ totals_of (map answered answers.now)) }
    ensures fit { IfOk result (λ _. AnswersFit (map answered answers.now)) }
    ensures err { IfErr result (λ error. error ≡ RunError.Alloc) }
{
    let Ok((text, report)) = print_all(alloc, answers) else {
        return Err(RunError::Alloc);
    };
    let mut text = text;
    match write_polls(&mut text, polls) {
        Ok(()) => Ok((text, report)),
        Err(_) => Err(RunError::Alloc),
    }
}
