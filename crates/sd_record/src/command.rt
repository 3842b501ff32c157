//! `record`: the topology and the plans, and then the log line by line.
ghost use Rattle.std.specs.Prelude.{◌≡◌, ◌≤◌, ◌∷◌, [], All, Err, IsTrue, IfOk, IfSome, length, map, string_bytes, true};
ghost use Rattle.sd_io.specs.outside.Causes.{RisesFor};
ghost use Rattle.sd_io.specs.outside.Shelves.{KeepsShelf};
ghost use Rattle.sd_plan.specs.topo.Topologies.{network};
ghost use Rattle.sd_files.specs.Statuses.{is_among};
ghost use Rattle.sd_files.specs.Texts.{texts_of};
ghost use Rattle.sd_files.specs.work.Ending.{LeavesAt};
ghost use Rattle.sd_record.specs.Lawful.{LogIsRecorded};
ghost use Rattle.sd_record.specs.Recordings.{IsRecording, MayRecord};

use crate::record_log;
use sd_files::planfiles::load_plans;
use sd_files::{IoError, Status, load_topology, write_answer};
use sd_io::outside::{Shelf, Sink};
use sd_plan::topo::Topology;
use std::alloc::Global;

/// The names of the files of a recording.
#[derive(Clone, Copy)]
pub struct RecordFiles<'w> {
    pub topology: &'w str,
    /// The plans, 1 to 64, the first in force at first.
    pub plans: &'w [String],
    pub log: &'w str,
}

/// Reads a topology and plans and then a log line by line, and writes the lines of the schedule
/// that each line of the log adds, before the next line is read.
pub fn record_files<S: Shelf, O: Sink>(
    alloc: Global,
    shelf: &mut S,
    files: RecordFiles<'_>,
    out: &mut O,
) -> Result<Status, IoError>
    requires topology { IsTrue (S.serves shelf.old files.topology.now) }
    requires plans { All (λ name. IsTrue (S.serves shelf.old name))
        (map string_bytes files.plans.now) }
    requires log { IsTrue (S.serves shelf.old files.log.now) }
    requires some { 1 ≤ length files.plans.now }
    requires few { length files.plans.now ≤ 64 }
    ensures outcome { IfSome (S.held shelf.old) (λ held. LeavesAt true
        (IsRecording (texts_of held files.entry.topology.now)
        (map (λ name. texts_of held name) (map string_bytes files.entry.plans.now))
        (texts_of held files.entry.log.now))
        (O.written out.old) (O.written out.new) result) }
    // The history that each accepted line leaves is the lawful record of its entry, and accepted.
    ensures lawful { LogIsRecorded }
    ensures gives { IfOk result (λ status. IsTrue
        (is_among (Status.Done ∷ Status.PlanRefused ∷ Status.InputRefused ∷ []) status)) }
    ensures shelf { KeepsShelf S.Shelf (result ≡ Err IoError.Shelf) shelf.old shelf.new }
    ensures sink { RisesFor (result ≡ Err IoError.Sink) (O.faults out.old) (O.faults out.new) }
{
    match load_topology(alloc, shelf, files.topology) {
        Ok(topo) => record_over(alloc, shelf, &topo, files, out),
        Err(why) => write_answer(alloc, &Err(why), out),
    }
}

/// The same over a topology that is lent, and so dropped in one place.
fn record_over<S: Shelf, O: Sink>(
    alloc: Global,
    shelf: &mut S,
    topo: &Topology,
    files: RecordFiles<'_>,
    out: &mut O,
) -> Result<Status, IoError>
    requires plans { All (λ name. IsTrue (S.serves shelf.old name))
        (map string_bytes files.plans.now) }
    requires log { IsTrue (S.serves shelf.old files.log.now) }
    requires some { 1 ≤ length files.plans.now }
    requires few { length files.plans.now ≤ 64 }
    ensures outcome { IfSome (S.held shelf.old) (λ held. LeavesAt true
        (MayRecord (network topo.now)
        (map (λ name. texts_of held name) (map string_bytes files.entry.plans.now))
        (texts_of held files.entry.log.now))
        (O.written out.old) (O.written out.new) result) }
    ensures gives { IfOk result (λ status. IsTrue
        (is_among (Status.Done ∷ Status.PlanRefused ∷ Status.InputRefused ∷ []) status)) }
    ensures shelf { KeepsShelf S.Shelf (result ≡ Err IoError.Shelf) shelf.old shelf.new }
    ensures sink { RisesFor (result ≡ Err IoError.Sink) (O.faults out.old) (O.faults out.new) }
{
    match load_plans(alloc, shelf, topo, files.plans) {
        Ok(plans) => record_log(alloc, shelf, topo, plans.as_slice(), files.log, out),
        Err(early) => write_answer(alloc, &early.made(), out),
    }
}
