//! `run`: the command of the words.
ghost use Rattle.std.specs.Prelude.{◌≡◌, ◌⊎◌, [], ◌∷◌, false, true, All, Err, IfOk, IfSome, IsTrue, None, Ok, Some, map, string_bytes};
ghost use Rattle.sd_io.specs.outside.Causes.{RisesFor, Rose};
ghost use Rattle.sd_io.specs.outside.Shelves.{KeepsShelf};
ghost use Rattle.sd_io.specs.stream.Reader.{IsNear};
ghost use Rattle.sd_files.specs.Statuses.{is_among, stop_of};
ghost use Rattle.sd_files.specs.Texts.{texts_of};
ghost use Rattle.sd_files.specs.Writes.{WritesOnce};
ghost use Rattle.sd_files.specs.work.Ending.{LeavesAt};
ghost use Rattle.sd_files.specs.work.Works.{refused_part};
ghost use Rattle.sd_top.specs.Bounds.{MeetsBounds};
ghost use Rattle.sd_top.specs.Ends.{MeetsResult};
ghost use Rattle.sd_top.specs.Headlines.{MeetsHeadline};
ghost use Rattle.sd_top.specs.Laws.{Laws};
ghost use Rattle.sd_top.specs.Promise.{IsNearRefusal, IsUsage, KeepsPromise, MeetsOutcome, task_of};
ghost use Rattle.sd_top.specs.Schedules.{solo_work};
ghost use Rattle.sd_top.specs.SoloWrites.{SoloIn};
ghost use Rattle.sd_top.specs.Words as meaning;
ghost use Rattle.sd_top.specs.Words.{files_of, name_of};

use crate::check::check;
use crate::migrate::migrate;
use crate::plan::plan;
use crate::renew::renew;
use crate::solo::replay_solo;
use crate::twoway::twoway;
use crate::words::{Command, command_of};
use sd_commands::replay::{order, replay};
use sd_drill_text::{DrillLines, print_texts};
use sd_files::{IoError, Status, write_answer};
use sd_gen::command::case;
use sd_io::outside::{Shelf, Sink};
use std::alloc::Global;

/// Does the work of the words that follow the program's name, and answers how it ended.
///
/// The files that the words name are begun on the shelf, and what is printed goes to the sink: each
/// step by one write.
///
/// ```text
/// // words: "check", "topology", "plan"
/// let mut shelf = MemShelf::new(files, 4096, Vec::new(alloc));
/// let mut out = MemSink::new(alloc, 10_000, Vec::new(alloc))?;
/// let status = run(alloc, words.as_slice(), &mut shelf, &mut out);
/// // Status::Done, with the line "accepted 5 6 11"
/// ```
pub fn run<S: Shelf, O: Sink>(alloc: Global, words: &[String], shelf: &mut S, out: &mut O) -> Status
    requires fresh { S.begun shelf.old ≡ false }
    requires serves { All (λ file. IsTrue (S.serves shelf.old (name_of file)))
        (files_of (meaning.command_of (map string_bytes words.now))) }

    // Over a shelf that tells its texts: what the words write and answer.
    ensures outcome { MeetsOutcome (S.held shelf.old) (map string_bytes words.now)
        (O.written out.old) (O.written out.new) result }
    ensures near { result ≡ Status.InputRefused
        → IsNearRefusal (S.held shelf.old) (map string_bytes words.now) (S.rest shelf.new) }
    ensures promise { KeepsPromise (S.held shelf.old) (map string_bytes words.now) }
    // no alarm before the first broken premise, in all that this run added to what was written
    ensures headline { MeetsHeadline (S.held shelf.old) (map string_bytes words.now)
        (O.written out.old) (O.written out.new) }
    // no report above the number that a drill prints for its device, in any history that meets the premises of the drill
    ensures bounds { MeetsBounds (S.held shelf.old) (map string_bytes words.now) }

    // Over every shelf and sink: a run that is not stopped gives one of the command's statuses. The
    // outside is blamed only where it failed in this call. Any other answer, out of memory too, is
    // given only where it did not fail.
    ensures gives { stop_of result ≡ None
        → IsTrue (is_among (task_of (meaning.command_of (map string_bytes words.now))).gives
        result) }
    ensures usage { meaning.command_of (map string_bytes words.now) ≡ None
        → (result ≡ Status.Usage) ⊎ (result ≡ Status.SinkFault) }
    ensures shelf { RisesFor (result ≡ Status.ShelfFault) (S.faults shelf.old)
        (S.faults shelf.new) }
    ensures sink { RisesFor (result ≡ Status.SinkFault) (O.faults out.old) (O.faults out.new) }
    ensures complete { (Rose (S.faults shelf.old) (S.faults shelf.new) → ⊥)
        → (Rose (O.faults out.old) (O.faults out.new) → ⊥)
        → (stop_of result ≡ None) ⊎ (result ≡ Status.Memory) }

    // Of the answers themselves.
    ensures laws { Laws }
{
    match perform(alloc, words, shelf, out) {
        Ok(status) => status,
        Err(stop) => stop.status(),
    }
}

/// Does the work of the words, or is stopped.
fn perform<S: Shelf, O: Sink>(
    alloc: Global,
    words: &[String],
    shelf: &mut S,
    out: &mut O,
) -> Result<Status, IoError>
    requires { All (λ file. IsTrue (S.serves shelf.old (name_of file)))
        (files_of (meaning.command_of (map string_bytes words.now))) }
    ensures outcome { MeetsResult (S.held shelf.old) (map string_bytes words.now)
        (O.written out.old) (O.written out.new) result }
    ensures near { result ≡ Ok Status.InputRefused
        → IsNearRefusal (S.held shelf.old) (map string_bytes words.now) (S.rest shelf.new) }
    ensures gives { IfOk result
        (λ status. IsTrue
        (is_among (task_of (meaning.command_of (map string_bytes words.now))).gives status)) }
    ensures usage { meaning.command_of (map string_bytes words.now) ≡ None
        → (result ≡ Ok Status.Usage) ⊎ (result ≡ Err IoError.Sink) }
    ensures shelf { KeepsShelf S.Shelf (result ≡ Err IoError.Shelf) shelf.old shelf.new }
    ensures sink { RisesFor (result ≡ Err IoError.Sink) (O.faults out.old) (O.faults out.new) }
{
    match command_of(words) {
        Some(Command::Solo { schedule }) => solo(alloc, shelf, schedule, out),
        Some(Command::Plan { topology }) => {
            let made = plan(alloc, shelf, topology);
            write_answer(alloc, &made, out)
        }
        Some(Command::Check { topology, plan }) => {
            let made = check(alloc, shelf, topology, plan);
            write_answer(alloc, &made, out)
        }
        Some(
            Command::Renew {
                topology,
                plan,
                absent,
            },
        ) => {
            let made = renew(alloc, shelf, topology, plan, absent);
            write_answer(alloc, &made, out)
        }
        Some(Command::Replay { files }) => replay(alloc, shelf, files, out),
        Some(Command::Case { number, fabric }) => {
            let made = case(alloc, number, fabric);
            write_answer(alloc, &made, out)
        }
        Some(Command::Migrate { topology }) => {
            let made = migrate(alloc, shelf, topology);
            write_answer(alloc, &made, out)
        }
        Some(Command::Order { files }) => order(alloc, shelf, files, out),
        Some(
            Command::Twoway {
                topology,
                exchanges,
            },
        ) => twoway(alloc, shelf, topology, exchanges, out),
        Some(
            Command::Drill {
                topology,
                plan,
                budget,
            },
        ) => print_texts::<DrillLines, S, O>(alloc, shelf, topology, plan, budget, out),
        None => usage(out),
    }
}

/// Runs the schedule of one device.
fn solo<S: Shelf, O: Sink>(
    alloc: Global,
    shelf: &mut S,
    schedule: &str,
    out: &mut O,
) -> Result<Status, IoError>
    requires { IsTrue (S.serves shelf.old schedule.now) }
    ensures outcome { IfSome (S.held shelf.old)
        (λ held. LeavesAt true (SoloIn (texts_of held schedule.now)) (O.written out.old)
        (O.written out.new) result) }
    ensures gives { IfOk result
        (λ status. IsTrue (is_among (Status.Done ∷ Status.InputRefused ∷ []) status)) }
    ensures near { result ≡ Ok Status.InputRefused
        → IfSome (S.held shelf.old)
        (λ held. IsNear (Some (refused_part solo_work (texts_of held schedule.now)))
        (S.rest shelf.new)) }
    ensures shelf { KeepsShelf S.Shelf (result ≡ Err IoError.Shelf) shelf.old shelf.new }
    ensures sink { RisesFor (result ≡ Err IoError.Sink) (O.faults out.old) (O.faults out.new) }
{
    match shelf.begin(schedule) {
        Ok(()) => replay_solo(alloc, shelf, out),
        Err(_) => Err(IoError::Shelf),
    }
}

/// Writes the usage line.
fn usage<O: Sink>(out: &mut O) -> Result<Status, IoError>
    ensures outcome { WritesOnce IsUsage (O.written out.old) (O.written out.new) result }
    ensures usage { (result ≡ Ok Status.Usage) ⊎ (result ≡ Err IoError.Sink) }
    ensures sink { RisesFor (result ≡ Err IoError.Sink) (O.faults out.old) (O.faults out.new) }
{
    match out.write(
        b"usage: sundial solo SCHEDULE | plan TOPOLOGY | check TOPOLOGY PLAN | renew TOPOLOGY PLAN ABSENT | replay TOPOLOGY PLAN.. SCHEDULE | case NUMBER LEAVES SPINES | migrate TOPOLOGY | order TOPOLOGY PLAN.. SCHEDULE | twoway TOPOLOGY EXCHANGES | drill TOPOLOGY PLAN BASE HOLD\n",
    ) {
        Ok(()) => Ok(Status::Usage),
        Err(_) => Err(IoError::Sink),
    }
}
