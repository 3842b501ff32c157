//! A log that is recorded line by line.
ghost use Rattle.std.specs.Prelude.{◌≡◌, ◌≤◌, ◌<◌, ◌^◌, [], ◌∷◌, List, true, length, Err, IsTrue, IfOk, IfSome};
ghost use Rattle.sd_io.specs.outside.Causes.{RisesFor};
ghost use Rattle.sd_io.specs.outside.Shelves.{KeepsShelf};
ghost use Rattle.sd_plan.specs.topo.Topologies.{network};
ghost use Rattle.sd_sched.specs.declared.Event.{Event as AnyEvent};
ghost use Rattle.sd_world.specs.membership.Plans.{AreSound};
ghost use Rattle.sd_history.specs.World.{setting_over};
ghost use Rattle.sd_files.specs.Answering.{InWrites};
ghost use Rattle.sd_files.specs.Statuses.{is_among};
ghost use Rattle.sd_files.specs.Texts.{texts_of};
ghost use Rattle.sd_files.specs.work.Ending.{LeavesAt};
ghost use Rattle.sd_files.specs.work.WholeLines.{WritesWhole};
ghost use Rattle.sd_files.specs.work.Works.{InSteps, IsOutcome, Work};
ghost use Rattle.sd_record.specs.Doing.{DoesRecord};
ghost use Rattle.sd_record.specs.Works.{record_work};

use crate::{Recorder, Recording};
use sd_files::work::work_through;
use sd_files::{IoError, Status};
use sd_io::outside::{LineBuffer, Shelf, Sink};
use sd_plan::Plan;
use sd_plan::topo::Topology;
use std::alloc::Global;

/// Begins a log, and has a recording take it line by line.
fn go_through<S: Shelf, O: Sink>(
    alloc: Global,
    shelf: &mut S,
    log: &str,
    work: Recording,
    out: &mut O,
) -> Result<Status, IoError>
    requires { IsTrue (S.serves shelf.old log.now) }
    ensures outcome { (w : Work (List AnyEvent)) → DoesRecord work w [] → WritesWhole w
        → IfSome (S.held shelf.old)
        (λ held. LeavesAt true
        (InWrites (InSteps w (texts_of held log.now)) (IsOutcome w (texts_of held log.now)))
        (O.written out.old) (O.written out.new) result) }
    ensures gives { IfOk result
        (λ status. IsTrue (is_among (Status.InputRefused ∷ Status.Done ∷ []) status)) }
    ensures shelf { KeepsShelf S.Shelf (result ≡ Err IoError.Shelf) shelf.old shelf.new }
    ensures sink { RisesFor (result ≡ Err IoError.Sink) (O.faults out.old) (O.faults out.new) }
{
    match shelf.begin(log) {
        Ok(()) => work_through(alloc, shelf, work, out),
        Err(_) => Err(IoError::Shelf),
    }
}

/// Records a log over a topology and plans: the lines of the schedule that each of its lines adds
/// are written before the next one is read. A log ends with `end`.
pub fn record_log<S: Shelf, O: Sink>(
    alloc: Global,
    shelf: &mut S,
    topo: &Topology,
    plans: &[Plan],
    log: &str,
    out: &mut O,
) -> Result<Status, IoError>
    requires log { IsTrue (S.serves shelf.old log.now) }
    requires some { 1 ≤ length plans.now }
    requires count { length plans.now < 2 ^ 32 }
    requires sound { AreSound (network topo.now) plans.now }
    ensures outcome { IfSome (S.held shelf.old)
        (λ held. LeavesAt true
        (InWrites
        (InSteps (record_work (setting_over (network topo.now) plans.now)) (texts_of held log.now))
        (IsOutcome (record_work (setting_over (network topo.now) plans.now))
        (texts_of held log.now)))
        (O.written out.old) (O.written out.new) result) }
    ensures gives { IfOk result
        (λ status. IsTrue (is_among (Status.InputRefused ∷ Status.Done ∷ []) status)) }
    ensures shelf { KeepsShelf S.Shelf (result ≡ Err IoError.Shelf) shelf.old shelf.new }
    ensures sink { RisesFor (result ≡ Err IoError.Sink) (O.faults out.old) (O.faults out.new) }
{
    let line = LineBuffer::new(alloc)?;
    let recorder = Recorder::new(alloc, topo, plans)?;
    let work = Recording::new(recorder, line);
    go_through(alloc, shelf, log, work, out)
}
