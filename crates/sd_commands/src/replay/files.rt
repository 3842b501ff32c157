//! The files of a replay: the topology and the plans are read and judged before the schedule is
//! begun.
ghost use Rattle.std.specs.Prelude.{◌≡◌, ◌≤◌, ◌↔◌, All, [], Ok, Err, IsTrue, IfErr, IfOk, IfSome, length, map, string_bytes};
ghost use Rattle.sd_io.specs.outside.Causes.{RisesFor};
ghost use Rattle.sd_io.specs.outside.Shelves.{KeepsShelf};
ghost use Rattle.sd_files.specs.Texts.{texts_of};
ghost use Rattle.sd_files.specs.Writes.{IsAllowed, HasOutput, WritesOnce};
ghost use Rattle.sd_files.specs.planfiles.SetupError.{IsPlanRefused, made_of};
ghost use Rattle.sd_commands.specs.replay.Early.{EndsBefore};
ghost use Rattle.sd_commands.specs.replay.Starting.{HasStarted};

use sd_device::Device;
use sd_device::msg::Observer;
use sd_files::planfiles::{SetupError, load_plans};
use sd_files::{CommandError, IoError, Status, load_topology, write_answer};
use sd_io::outside::{Shelf, Sink};
use sd_replay::{PlanList, Replay};
use std::alloc::Global;

/// The names of the files of a replay.
#[derive(Clone, Copy)]
pub struct Files<'w> {
    pub topology: &'w str,
    /// The plans, 1 to 64, the first in force at first.
    pub plans: &'w [String],
    pub schedule: &'w str,
}

/// A replay over the topology and the plans, before its first event.
pub(crate) fn start<S: Shelf, V: Observer>(
    alloc: Global,
    shelf: &mut S,
    files: Files<'_>,
    observer: V,
) -> Result<Replay<Device, V>, SetupError>
    requires topology { IsTrue (S.serves shelf.old files.topology.now) }
    requires plans { All (λ name. IsTrue (S.serves shelf.old name))
        (map string_bytes files.plans.now) }
    requires some { 1 ≤ length files.plans.now }
    requires few { length files.plans.now ≤ 64 }
    requires observer { V.stands observer [] }
    ensures started { IfOk result (λ replay. IfSome (S.held shelf.old) (λ held.
        HasStarted V.Observer (texts_of held files.entry.topology.now)
        (map (λ name. texts_of held name) (map string_bytes files.entry.plans.now)) replay)) }
    ensures makes { IfErr result (λ early. IfSome (S.held shelf.old) (λ held.
        IsAllowed (EndsBefore (texts_of held files.entry.topology.now)
        (map (λ name. texts_of held name) (map string_bytes files.entry.plans.now)))
        (made_of early))) }
    ensures answered { IfErr result IsPlanRefused }
    ensures shelf { KeepsShelf S.Shelf (result ≡ Err (SetupError.Stopped CommandError.Shelf))
        shelf.old shelf.new }
{
    let topo = load_topology(alloc, shelf, files.topology)?;
    let plans = match load_plans(alloc, shelf, &topo, files.plans) {
        Ok(plans) => PlanList::from_vec(plans),
        Err(early) => return Err(early),
    };
    match Replay::new(alloc, topo, plans, observer) {
        Ok(replay) => Ok(replay),
        Err(_) => Err(SetupError::Stopped(CommandError::Memory)),
    }
}

/// Writes the answer of a command that ends before its schedule.
pub(crate) fn end_early<O: Sink>(
    alloc: Global,
    early: SetupError,
    out: &mut O,
) -> Result<Status, IoError>
    ensures writes { WritesOnce (HasOutput (made_of early)) (O.written out.old) (O.written out.new)
        result }
    ensures shelf { result ≡ Err IoError.Shelf ↔ early ≡ SetupError.Stopped CommandError.Shelf }
    ensures sink { RisesFor (result ≡ Err IoError.Sink) (O.faults out.old) (O.faults out.new) }
{
    write_answer(alloc, &early.made(), out)
}
