//! The export.
ghost use Rattle.std.specs.Prelude.{◌≡◌};
ghost use Rattle.zt_liveliness_c.specs.Running.{RunsInMemory, status_in_room};

use crate::streams::{SliceSource, TextSink, copy_front};
use std::alloc::Global;
use zt_fabric::run;
use zt_keys::{Key, KeyExpr};
use zt_protocol::{Report, RunError};

// The status where the transcript is longer than the room for it, and nothing else went wrong.
const SHORT: u32 = 4;

// The status where memory ran out, whatever the room: the text may lack its end then.
const OUT_OF_MEMORY: u32 = 5;

fn status(answer: &Result<Report, RunError>, length: usize, room: usize) -> u32
    ensures { result ≡ status_in_room length room answer.now }
{
    if room < length {
        return match answer {
            Ok(_) => SHORT,
            Err(RunError::BadLine(_) | RunError::TooLong | RunError::ReadFault) => SHORT,
            Err(RunError::WriteFault | RunError::Alloc) => OUT_OF_MEMORY,
        };
    }
    match answer {
        Ok(_) => 0,
        Err(RunError::BadLine(_)) => 1,
        Err(RunError::TooLong) => 2,
        Err(RunError::ReadFault) => 3,
        Err(RunError::WriteFault | RunError::Alloc) => OUT_OF_MEMORY,
    }
}

/// Carries out a script and writes its transcript to the front of `out`, which has room for
/// `out.len()` bytes. `written` is set to the length of all that the run wrote, whatever the room.
///
/// The result is a status: 0 where the whole transcript is in `out`; 1 where a line isn't in the
/// grammar and 2 where the script is longer than 1,048,576 bytes, and `out` has the entries of the
/// lines before; 4 where what would be in `out` with 0, 1 or 2 is longer than it, and `out` has
/// its first bytes; 5 where memory ran out, whatever the room: the run wrote a beginning of the
/// transcript, and `out` has as much of that as fits.
///
/// After 4 the same call with room for `written` bytes gives the rest too, unless memory runs out.
#[unsafe(no_mangle)]
pub extern "C" fn zl_run(alloc: Global, script: &[u8], out: &mut [u8], written: &mut usize) -> u32
    ensures { RunsInMemory ⟦<KeyExpr as Ord>⟧.cmp ⟦<KeyExpr as Key>⟧.matching
        ⟦<KeyExpr as Key>⟧.reading ⟦<KeyExpr as Key>⟧.printed script.now out.old out.new written.new
        result }
{
    let mut source = SliceSource::new(script);
    let mut sink = TextSink::new(alloc);
    let answer = run::<KeyExpr, SliceSource, TextSink>(alloc, &mut source, &mut sink);
    let text = sink.text.as_slice();
    let room = out.len();
    copy_front(text, out);
    *written = text.len();
    status(&answer, text.len(), room)
}
