//! What a line does to a replay.
ghost use Rattle.std.specs.Prelude.{◌≡◌, ◌≢◌, ◌≤◌, ◌+◌, ℕ, List, true, length, Err, Ok, IfErr, IfOk, IsTrue};
ghost use Rattle.sd_sched.specs.declared.Event.{Event as AnyEvent};
ghost use Rattle.sd_history.specs.World.{Setting};
ghost use Rattle.sd_files.specs.work.Steps.{end_step, refused_step, step_for};
ghost use Rattle.sd_resume.specs.command.Parts.{part_work};
ghost use Rattle.sd_resume.specs.command.Played.{ComesTo, HasPlayed, HasTakenLine, IsInputRefused, IsTaken, StepsOn};
ghost use Rattle.sd_io.specs.stream.Reader.{text_left, bytes_before};
ghost use Rattle.sd_files.specs.work.Nexts.{HoldsNext};

use crate::command::playing::DeviceReplay;
use crate::command::refusals::refusal;
use sd_files::CommandError;
use sd_files::planfiles::SetupError;
use sd_io::outside::Shelf;
use sd_io::stream::{LineReader, StreamFault};
use sd_num::NoMemory;
use sd_replay::ReplayFault;
use std::alloc::Global;

/// How many events were replayed.
pub(crate) fn count(replay: &DeviceReplay) -> u64
    ensures count { (setting : Setting) (events : List AnyEvent)
        → HasPlayed replay.now setting events → result ≡ length events }
    ensures few { result ≤ 67_108_864 }
{
    replay.fleet().world().events()
}

/// The event of a line happens, if there is one and it is accepted.
fn step(alloc: Global, replay: &mut DeviceReplay, line: &[u8]) -> Result<bool, NoMemory>
    ensures { IfOk result (λ took. (setting : Setting) (events : List AnyEvent)
        → HasPlayed replay.old setting events
        → IsTaken replay.new setting events line.now took) }
{
    match replay.step(alloc, line) {
        Ok(()) => Ok(true),
        Err(ReplayFault::Line(_)) => Ok(false),
        Err(ReplayFault::Apply(_)) => Ok(false),
        Err(ReplayFault::Memory) => Err(NoMemory),
    }
}

/// The text is refused at its next line.
fn refuse(alloc: Global, replay: &DeviceReplay, word: &str, why: &str) -> Result<bool, SetupError>
    ensures comes { (setting : Setting) (events : List AnyEvent) → HasPlayed replay.now setting events
        → ComesTo (part_work word.now setting) setting replay.now events
        (refused_step (part_work word.now setting) events why.now) result }
    ensures gives { IfErr result IsInputRefused }
    ensures never { result ≢ Ok true }
    ensures unblamed { result ≢ Err (SetupError.Stopped CommandError.Shelf) }
{
    Err(refusal(alloc, word, count(replay) + 1, why))
}

/// Takes a line.
fn take_lent(
    alloc: Global,
    replay: &mut DeviceReplay,
    word: &str,
    line: &[u8],
) -> Result<bool, SetupError>
    ensures comes { (setting : Setting) (events : List AnyEvent) → HasPlayed replay.old setting events
        → ComesTo (part_work word.now setting) setting replay.new events
        (step_for (part_work word.now setting) events
        ((part_work word.now setting).says events line.now)) result }
    ensures gives { IfErr result IsInputRefused }
    ensures unblamed { result ≢ Err (SetupError.Stopped CommandError.Shelf) }
{
    match step(alloc, replay, line) {
        Ok(true) => Ok(true),
        Ok(false) => refuse(alloc, replay, word, "Refused"),
        Err(_) => Err(SetupError::Stopped(CommandError::Memory)),
    }
}

/// The text has ended. One without a line is refused.
fn at_end(alloc: Global, replay: &DeviceReplay, word: &str) -> Result<bool, SetupError>
    ensures comes { (setting : Setting) (events : List AnyEvent) → HasPlayed replay.now setting events
        → ComesTo (part_work word.now setting) setting replay.now events
        (end_step (part_work word.now setting) events) result }
    ensures gives { IfErr result IsInputRefused }
    ensures never { result ≢ Ok true }
    ensures unblamed { result ≢ Err (SetupError.Stopped CommandError.Shelf) }
{
    if count(replay) == 0 {
        return refuse(alloc, replay, word, "NoEnd");
    }
    Ok(false)
}

/// Takes the next line of a text, or finds that it has ended.
pub(crate) fn take_line<S: Shelf>(
    alloc: Global,
    reader: &mut LineReader<'_, S>,
    replay: &mut DeviceReplay,
    word: &str,
) -> Result<bool, SetupError>
    ensures steps { HoldsNext (StepsOn word.now replay.old replay.new result)
        (text_left S.Shelf reader.old) (bytes_before reader.old) }
    ensures gives { IfErr result IsInputRefused }
    ensures reader { HasTakenLine S.Shelf reader.old reader.new result }
{
    match reader.next_line() {
        Ok(Some(line)) => take_lent(alloc, replay, word, line),
        Ok(None) => at_end(alloc, replay, word),
        Err(StreamFault::ReadFault) => Err(SetupError::Stopped(CommandError::Shelf)),
        Err(StreamFault::LongLine) => refuse(alloc, replay, word, "LongLine"),
        Err(StreamFault::Limit) => refuse(alloc, replay, word, "Limit"),
    }
}
