//! `run`: the command of the words.
ghost use Rattle.std.specs.Prelude.{◌≡◌, ◌⊎◌, ℕ, false, All, Err, IfErr, IfOk, IsTrue, None, Ok, map, string_bytes};
ghost use Rattle.sd_io.specs.outside.Causes.{RisesFor, Rose};
ghost use Rattle.sd_io.specs.outside.Shelves.{KeepsShelf};
ghost use Rattle.sd_files.specs.Statuses.{is_among, stop_of};
ghost use Rattle.sd_files.specs.Writes.{WritesOnce};
ghost use Rattle.sd_record.specs.merge.Laws.{FeedIsMerged};
ghost use Rattle.sd_record.specs.Lawful.{LogIsRecorded};
ghost use Rattle.sd_ctl_top.specs.Promise.{IsUsageLine, IsVersionLine, MeetsOutcome, MeetsResult, task_of};
ghost use Rattle.sd_ctl_top.specs.Reasons.{ReasonsAreRight};
ghost use Rattle.sd_ctl_top.specs.Words as meaning;
ghost use Rattle.sd_ctl_top.specs.Words.{names_of};

use crate::bounding::{BoundsLines, print_texts};
use crate::reasons::reason_answer;
use crate::renewal::{RenewalFiles, renewal_answer};
use crate::whole::whole_answer;
use crate::words::{Command, command_of};
use sd_files::{IoError, Status, write_answer};
use sd_io::outside::{Shelf, Sink};
use sd_record::merge::merge_feed;
use sd_record::record_files;
use sd_resume::command::resume;
use std::alloc::Global;

/// Does the work of the words that follow the program's name, and answers how it ended.
///
/// The files that the words name are begun on the shelf, and what is printed goes to the sink by one
/// write, or, of `bounds`, a recording or a merge, each step by one.
pub fn run<S: Shelf, O: Sink>(alloc: Global, words: &[String], shelf: &mut S, out: &mut O) -> Status
    requires fresh { S.begun shelf.old ≡ false }
    requires serves { All (λ name. IsTrue (S.serves shelf.old name))
        (names_of (meaning.command_of (map string_bytes words.now))) }

    // Over a shelf that tells its texts: what the words write and answer. A plan is printed only
    // where the checker accepts it, and it leaves out just what is absent. It is no worse by the
    // drill than the first greedy plan that the checker accepts. No plan is printed only where it
    // refuses them all: what `sundial plan` prints, or `sundial renew`. Then, with nothing absent, the
    // reason that `why` prints is printed too, just where it prints one.
    // It is printed that an opening agrees only where all later events that may follow both are the
    // same after both, and what breaks after the opening is broken after the schedule; and that it
    // differs only where no shift of numbers makes it agree. Of a recording each line of the log
    // has its lines of the schedule by one write, and of a merge each line of the feed the lines of
    // logs that it has settled.
    ensures outcome { MeetsOutcome (S.held shelf.old) (map string_bytes words.now)
        (O.written out.old) (O.written out.new) result }

    // Over every shelf and sink: a run that is not stopped gives one of the command's statuses. The
    // outside is blamed only where it failed in this call. Any other answer, out of memory too, is
    // given only where it did not fail.
    ensures gives { stop_of result ≡ None
        → IsTrue (is_among (task_of (meaning.command_of (map string_bytes words.now))).gives
        result) }
    ensures usage { meaning.command_of (map string_bytes words.now) ≡ None
        → (result ≡ Status.Usage) ⊎ (result ≡ Status.SinkFault) }
    ensures shelf { RisesFor (result ≡ Status.ShelfFault) (S.faults shelf.old)
        (S.faults shelf.new) }
    ensures sink { RisesFor (result ≡ Status.SinkFault) (O.faults out.old) (O.faults out.new) }
    ensures complete { (Rose (S.faults shelf.old) (S.faults shelf.new) → ⊥)
        → (Rose (O.faults out.old) (O.faults out.new) → ⊥)
        → (stop_of result ≡ None) ⊎ (result ≡ Status.Memory) }

    // Of a reason that is printed: where it holds, the checker accepts no plan that has all of the
    // topology and whose root and backup root are candidates.
    ensures impossible { ReasonsAreRight }

    // Of the schedule that a recording writes: each line of a log that is accepted is recorded by
    // its event, after losses alone, and each event is accepted after those before it.
    ensures lawful { LogIsRecorded }

    // Of what a merge writes: it is the merge of the logs, and what is settled stays so, however the
    // logs go on.
    ensures merged { (count : ℕ) → FeedIsMerged count }
{
    match perform(alloc, words, shelf, out) {
        Ok(status) => status,
        Err(stop) => stop.status(),
    }
}

/// Does the work of the words, or is stopped.
fn perform<S: Shelf, O: Sink>(
    alloc: Global,
    words: &[String],
    shelf: &mut S,
    out: &mut O,
) -> Result<Status, IoError>
    requires { All (λ name. IsTrue (S.serves shelf.old name))
        (names_of (meaning.command_of (map string_bytes words.now))) }
    ensures outcome { MeetsResult (S.held shelf.old) (map string_bytes words.now)
        (O.written out.old) (O.written out.new) result }
    ensures gives { IfOk result
        (λ status. IsTrue
        (is_among (task_of (meaning.command_of (map string_bytes words.now))).gives status)) }
    ensures usage { meaning.command_of (map string_bytes words.now) ≡ None
        → (result ≡ Ok Status.Usage) ⊎ (result ≡ Err IoError.Sink) }
    ensures shelf { KeepsShelf S.Shelf (result ≡ Err IoError.Shelf) shelf.old shelf.new }
    ensures sink { RisesFor (result ≡ Err IoError.Sink) (O.faults out.old) (O.faults out.new) }
{
    match command_of(words) {
        Some(Command::Search { topology, settings }) => {
            let made = whole_answer(alloc, shelf, topology, settings);
            write_answer(alloc, &made, out)
        }
        Some(
            Command::Renew {
                topology,
                plan,
                absent,
                settings,
            },
        ) => {
            let files = RenewalFiles {
                topology,
                plan,
                absent,
            };
            let made = renewal_answer(alloc, shelf, files, settings);
            write_answer(alloc, &made, out)
        }
        Some(Command::Why { topology }) => {
            let made = reason_answer(alloc, shelf, topology);
            write_answer(alloc, &made, out)
        }
        Some(
            Command::Bounds {
                topology,
                plan,
                budget,
            },
        ) => print_texts::<BoundsLines, S, O>(alloc, shelf, topology, plan, budget, out),
        Some(Command::Resume { files }) => {
            let made = resume(alloc, shelf, files);
            write_answer(alloc, &made, out)
        }
        Some(Command::Record { files }) => record_files(alloc, shelf, files, out),
        Some(Command::Merge { logs, feed }) => merge_feed(alloc, shelf, logs as usize, feed, out),
        Some(Command::Version) => version(out),
        None => usage(out),
    }
}

/// Writes a line.
fn write_line<O: Sink>(out: &mut O, line: &[u8], status: Status) -> Result<Status, IoError>
    ensures outcome { WritesOnce (λ bytes answer. (bytes ≡ line.now) × (answer ≡ status))
        (O.written out.old) (O.written out.new) result }
    ensures either { (result ≡ Ok status) ⊎ (result ≡ Err IoError.Sink) }
    ensures sink { RisesFor (result ≡ Err IoError.Sink) (O.faults out.old) (O.faults out.new) }
{
    match out.write(line) {
        Ok(()) => Ok(status),
        Err(_) => Err(IoError::Sink),
    }
}

/// Writes the version of both programs.
fn version<O: Sink>(out: &mut O) -> Result<Status, IoError>
    ensures outcome { WritesOnce IsVersionLine (O.written out.old) (O.written out.new) result }
    ensures done { IfOk result (λ status. status ≡ Status.Done) }
    ensures only { IfErr result (λ why. why ≡ IoError.Sink) }
    ensures sink { RisesFor (result ≡ Err IoError.Sink) (O.faults out.old) (O.faults out.new) }
{
    write_line(out, b"version 1.0.0\n", Status::Done)
}

/// Writes the usage line.
fn usage<O: Sink>(out: &mut O) -> Result<Status, IoError>
    ensures outcome { WritesOnce IsUsageLine (O.written out.old) (O.written out.new) result }
    ensures usage { (result ≡ Ok Status.Usage) ⊎ (result ≡ Err IoError.Sink) }
    ensures sink { RisesFor (result ≡ Err IoError.Sink) (O.faults out.old) (O.faults out.new) }
{
    write_line(
        out,
        b"usage: sundialctl search TOPOLOGY BASE HOLD SEED STEPS | renew TOPOLOGY PLAN ABSENT BASE HOLD SEED STEPS | why TOPOLOGY | bounds TOPOLOGY PLAN BASE HOLD | resume TOPOLOGY PLAN.. SCHEDULE / PLAN.. OPENING | record TOPOLOGY PLAN.. LOG | merge LOGS FEED | version\n",
        Status::Usage,
    )
}
