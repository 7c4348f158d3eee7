// The reading of a whole script.
ghost use Rattle.std.specs.Prelude.{◌≡◌, ℕ, List, ◌+◌, ◌<◌, ◌≤◌, ◌++◌, [], ◌∷◌, length, vec_len};
ghost use Rattle.std.specs.Prelude.{IfOk, IfErr, OnOk};
ghost use Rattle.zt_streams.specs.Lines.{last_line, rest_of, whole_lines};
ghost use Rattle.zt_plans.specs.Plans.{LineStops, TextsStop, script_lines};
ghost use Rattle.zt_plans.specs.Reading.{HasRead, IsReading, ReadingStops, ReadsScript};
ghost use Rattle.zt_plans.specs.Reading.{TakesText};

use crate::plan::{Plan, add_line};
use std::alloc::Global;
use zt_keys::Key;
use zt_lines::read_line;
use zt_protocol::{LineError, RunError};
use zt_streams::{Feeder, SCRIPT_BYTES, Script};

// What was read so far: the plan, and how many lines.
#[derive(Drop)]
pub struct Reading<K> {
    pub plan: Option<Plan<K>>,
    pub lines: u64,
}

// Takes the next line.
fn take_line<K: Key>(alloc: Global, reading: &mut Reading<K>, text: &[u8]) -> Result<(), RunError>
    requires form { IsReading reading.old }
    requires room { reading.old.lines < SCRIPT_BYTES }
    ensures ok { OnOk result (TakesText K.reading text.now reading.old reading.new) }
    ensures err { IfErr result (λ error. LineStops K.reading
        (script_lines reading.old.plan) text.now (reading.old.lines + 1) error) }
{
    let number = reading.lines + 1;
    let line = match read_line(alloc, text) {
        Ok(line) => line,
        Err(LineError::NotUtf8 | LineError::NotInGrammar) => return Err(RunError::BadLine(number)),
        Err(LineError::Memory) => return Err(RunError::Alloc),
    };
    match add_line(alloc, &mut reading.plan, number, line) {
        Ok(true) => {}
        Ok(false) => return Err(RunError::BadLine(number)),
        Err(_) => return Err(RunError::Alloc),
    }
    reading.lines = number;
    Ok(())
}

// Takes the whole lines that the feeder keeps.
fn take_lines<K: Key>(alloc: Global, feeder: &mut Feeder) -> Result<Reading<K>, RunError>
    requires room { length feeder.old ≤ SCRIPT_BYTES }
    ensures ok { IfOk result (HasRead K.reading (whole_lines feeder.old)) }
    ensures rest { OnOk result (feeder.new ≡ rest_of feeder.old) }
    ensures lines { IfOk result (λ reading. reading.lines + length feeder.new ≤ length feeder.old) }
    ensures err { IfErr result (TextsStop K.reading (whole_lines feeder.old)) }
{
    let mut reading = Reading {
        plan: None,
        lines: 0,
    };
    while let Some(line) = feeder.next_line() {
        if let Err(error) = take_line(alloc, &mut reading, line) {
            return Err(error);
        }
    }
    Ok(reading)
}

// Takes the unfinished last line, if there is one.
fn take_rest<K: Key>(
    alloc: Global,
    reading: &mut Reading<K>,
    feeder: &mut Feeder,
) -> Result<(), RunError>
    requires form { IsReading reading.old }
    requires whole { whole_lines feeder.old ≡ [] }
    requires room { reading.old.lines + length feeder.old ≤ SCRIPT_BYTES }
    ensures ok { OnOk result ((texts : List (List ℕ)) → HasRead K.reading texts reading.old
        → HasRead K.reading (texts ++ last_line (rest_of feeder.old)) reading.new) }
    ensures err { IfErr result (λ error. (texts : List (List ℕ)) →
        HasRead K.reading texts reading.old
        → TextsStop K.reading (texts ++ last_line (rest_of feeder.old)) error) }
{
    let Some(line) = feeder.finish() else {
        return Ok(());
    };
    take_line(alloc, reading, line)
}

/// Reads the lines of a script. `BadLine` comes for the first line that isn't one of the grammar or
/// has no place where it stands, and `TooLong` where all whole lines are good but the script is
/// longer than what was read of it.
pub fn read_plan<K: Key>(alloc: Global, script: &Script) -> Result<Option<Plan<K>>, RunError>
    requires { vec_len script.now.bytes ≤ SCRIPT_BYTES }
    ensures ok { IfOk result (ReadsScript K.reading script.now.bytes.items script.now.longer) }
    ensures err { IfErr result (ReadingStops K.reading script.now.bytes.items script.now.longer) }
{
    let mut feeder = Feeder::new(alloc);
    if feeder.feed(script.bytes.as_slice()).is_err() {
        return Err(RunError::Alloc);
    }
    let mut reading = match take_lines(alloc, &mut feeder) {
        Ok(reading) => reading,
        Err(error) => return Err(error),
    };
    if script.longer {
        return Err(RunError::TooLong);
    }
    if let Err(error) = take_rest(alloc, &mut reading, &mut feeder) {
        return Err(error);
    }
    Ok(reading.plan)
}
