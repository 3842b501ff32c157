//! `replay` and `order`: the schedule after the topology and the plans, line by line.
ghost use Rattle.std.specs.Prelude.{◌≡◌, ◌≤◌, All, [], ◌∷◌, true, Ok, Err, IsTrue, IfOk, IfSome, Some, length, map, string_bytes};
ghost use Rattle.sd_io.specs.outside.Causes.{RisesFor};
ghost use Rattle.sd_io.specs.outside.Shelves.{KeepsShelf};
ghost use Rattle.sd_io.specs.stream.Reader.{IsNear};
ghost use Rattle.sd_files.specs.Statuses.{is_among};
ghost use Rattle.sd_files.specs.Texts.{texts_of};
ghost use Rattle.sd_files.specs.work.Ending.{LeavesAt};
ghost use Rattle.sd_files.specs.work.Works.{InSteps, IsOutcome, Work, refused_part};
ghost use Rattle.sd_files.specs.work.WholeLines.{WritesWhole};
ghost use Rattle.sd_files.specs.Answering.{InWrites};
ghost use Rattle.sd_commands.specs.replay.Runs.{HasRun};
ghost use Rattle.sd_commands.specs.replay.Replays.{order_work, replay_work};

use crate::replay::Files;
use crate::replay::files::{end_early, start};
use crate::replay::observer::WaitObserver;
use crate::replay::order_work::OrderWork;
use crate::replay::replay_work::ReplayWork;
use sd_device::msg::NoObserver;
use sd_files::work::{LineWork, work_through};
use sd_files::{IoError, Status};
use sd_io::outside::{LineBuffer, Shelf, Sink};
use std::alloc::Global;

/// Reads a topology and plans and then a schedule line by line, and writes what a replay of the
/// schedule shows: the lines of each step by one write.
pub fn replay<S: Shelf, O: Sink>(
    alloc: Global,
    shelf: &mut S,
    files: Files<'_>,
    out: &mut O,
) -> Result<Status, IoError>
    requires topology { IsTrue (S.serves shelf.old files.topology.now) }
    requires plans { All (λ name. IsTrue (S.serves shelf.old name))
        (map string_bytes files.plans.now) }
    requires schedule { IsTrue (S.serves shelf.old files.schedule.now) }
    requires some { 1 ≤ length files.plans.now }
    requires few { length files.plans.now ≤ 64 }
    ensures { HasRun S.Shelf O.Sink replay_work files.entry shelf.old shelf.new out.old out.new
        result }
{
    let line = LineBuffer::new(alloc)?;
    match start(alloc, shelf, files, NoObserver) {
        Ok(replay) => {
            let work = ReplayWork::new(alloc, replay, line);
            go_through(alloc, shelf, files.schedule, work, out)
        }
        Err(early) => end_early(alloc, early, out),
    }
}

/// The same with commit wait: after the lines of a step come those of its report, by the same
/// write.
pub fn order<S: Shelf, O: Sink>(
    alloc: Global,
    shelf: &mut S,
    files: Files<'_>,
    out: &mut O,
) -> Result<Status, IoError>
    requires topology { IsTrue (S.serves shelf.old files.topology.now) }
    requires plans { All (λ name. IsTrue (S.serves shelf.old name))
        (map string_bytes files.plans.now) }
    requires schedule { IsTrue (S.serves shelf.old files.schedule.now) }
    requires some { 1 ≤ length files.plans.now }
    requires few { length files.plans.now ≤ 64 }
    ensures { HasRun S.Shelf O.Sink order_work files.entry shelf.old shelf.new out.old out.new
        result }
{
    let line = LineBuffer::new(alloc)?;
    match start(alloc, shelf, files, WaitObserver::new(alloc)) {
        Ok(replay) => {
            let replayed = ReplayWork::new(alloc, replay, line);
            go_through(alloc, shelf, files.schedule, OrderWork { replayed }, out)
        }
        Err(early) => end_early(alloc, early, out),
    }
}

/// Begins a schedule, and has the work take it line by line.
fn go_through<S: Shelf, O: Sink, W: LineWork>(
    alloc: Global,
    shelf: &mut S,
    schedule: &str,
    work: W,
    out: &mut O,
) -> Result<Status, IoError>
    requires { IsTrue (S.serves shelf.old schedule.now) }
    ensures outcome { (w : Work W.Item) → W.does work w [] → WritesWhole w
        → IfSome (S.held shelf.old)
        (λ held. LeavesAt true
        (InWrites (InSteps w (texts_of held schedule.now))
        (IsOutcome w (texts_of held schedule.now)))
        (O.written out.old) (O.written out.new) result) }
    ensures gives { IfOk result
        (λ status. IsTrue (is_among (Status.InputRefused ∷ W.gives) status)) }
    ensures near { (w : Work W.Item) → W.does work w [] → result ≡ Ok Status.InputRefused
        → IfSome (S.held shelf.old)
        (λ held. IsNear (Some (refused_part w (texts_of held schedule.now)))
        (S.rest shelf.new)) }
    ensures shelf { KeepsShelf S.Shelf (result ≡ Err IoError.Shelf) shelf.old shelf.new }
    ensures sink { RisesFor (result ≡ Err IoError.Sink) (O.faults out.old) (O.faults out.new) }
{
    match shelf.begin(schedule) {
        Ok(()) => work_through(alloc, shelf, work, out),
        Err(_) => Err(IoError::Shelf),
    }
}
