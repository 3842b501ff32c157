//! `resume`: the topology and the plans, and then both texts.
ghost use Rattle.std.specs.Prelude.{◌≡◌, ◌≤◌, ◌<◌, ◌∷◌, [], All, List, Err, IsTrue, IfOk, IfSome, drop, length, map, string_bytes};
ghost use Rattle.sd_io.specs.outside.Shelves.{KeepsShelf};
ghost use Rattle.sd_plan.specs.topo.Network.{Each, Network};
ghost use Rattle.sd_plan.specs.topo.Topologies.{network};
ghost use Rattle.sd_plan.specs.declared.Plan.{Plan as AnyPlan};
ghost use Rattle.sd_plan.specs.Plans.{Fits};
ghost use Rattle.sd_history.specs.World.{setting_over};
ghost use Rattle.sd_checker.specs.Conditions.{IsAccepted};
ghost use Rattle.sd_files.specs.Statuses.{is_among};
ghost use Rattle.sd_files.specs.Texts.{texts_of};
ghost use Rattle.sd_files.specs.Writes.{IsAllowed};
ghost use Rattle.sd_files.specs.planfiles.PlanFiles.{AfterAllPlans};
ghost use Rattle.sd_resume.specs.command.Played.{HasPlayed};
ghost use Rattle.sd_resume.specs.command.Resumes.{AfterBoth, IsResuming};

use crate::command::comparing::compare;
use crate::command::playing::{DeviceReplay, Text, play};
use sd_device::msg::NoObserver;
use sd_files::planfiles::load_plans;
use sd_files::{Answer, CommandError, Status, load_topology};
use sd_io::outside::Shelf;
use sd_num::NoMemory;
use sd_plan::Plan;
use sd_plan::topo::Topology;
use sd_replay::Replay;
use std::alloc::Global;

/// The files of a comparison.
#[derive(Clone, Copy)]
pub struct Files<'w> {
    pub topology: &'w str,
    /// The plans of the schedule, 1 to 64, the first in force at first.
    pub plans: &'w [String],
    pub schedule: &'w str,
    /// How many plans the opening leaves out at the front: fewer than there are.
    pub left: u32,
    pub opening: &'w str,
}

/// Plays a schedule and an opening, and says whether the opening stands for the schedule and is
/// honest: then all later events are the same after both, and what breaks after the opening is
/// broken after the schedule. Or in what they differ.
pub fn resume<S: Shelf>(
    alloc: Global,
    shelf: &mut S,
    files: Files<'_>,
) -> Result<Answer, CommandError>
    requires topology { IsTrue (S.serves shelf.old files.topology.now) }
    requires plans { All (λ name. IsTrue (S.serves shelf.old name))
        (map string_bytes files.plans.now) }
    requires schedule { IsTrue (S.serves shelf.old files.schedule.now) }
    requires opening { IsTrue (S.serves shelf.old files.opening.now) }
    requires few { length files.plans.now ≤ 64 }
    requires left { files.left < length files.plans.now }
    ensures makes { IfSome (S.held shelf.old) (λ held. IsAllowed
        (IsResuming (texts_of held files.entry.topology.now)
        (map (λ name. texts_of held name) (map string_bytes files.entry.plans.now))
        files.entry.left (texts_of held files.entry.schedule.now)
        (texts_of held files.entry.opening.now)) result) }
    ensures gives { IfOk result (λ answer. IsTrue (is_among
        (Status.Done ∷ Status.PlanRefused ∷ Status.InputRefused ∷ Status.Broken ∷ [])
        answer.status)) }
    ensures shelf { KeepsShelf S.Shelf (result ≡ Err CommandError.Shelf) shelf.old shelf.new }
{
    let topo = load_topology(alloc, shelf, files.topology)?;
    resume_over(alloc, shelf, &topo, files)
}

/// The same over a topology that is lent, and so dropped in one place.
fn resume_over<S: Shelf>(
    alloc: Global,
    shelf: &mut S,
    topo: &Topology,
    files: Files<'_>,
) -> Result<Answer, CommandError>
    requires plans { All (λ name. IsTrue (S.serves shelf.old name))
        (map string_bytes files.plans.now) }
    requires schedule { IsTrue (S.serves shelf.old files.schedule.now) }
    requires opening { IsTrue (S.serves shelf.old files.opening.now) }
    requires few { length files.plans.now ≤ 64 }
    requires left { files.left < length files.plans.now }
    ensures makes { IfSome (S.held shelf.old) (λ held. IsAllowed
        (AfterAllPlans (network topo.now)
        (map (λ name. texts_of held name) (map string_bytes files.entry.plans.now))
        (λ read. AfterBoth (network topo.now) read files.entry.left
        (texts_of held files.entry.schedule.now) (texts_of held files.entry.opening.now)))
        result) }
    ensures gives { IfOk result (λ answer. IsTrue (is_among
        (Status.Done ∷ Status.PlanRefused ∷ Status.InputRefused ∷ Status.Broken ∷ [])
        answer.status)) }
    ensures shelf { KeepsShelf S.Shelf (result ≡ Err CommandError.Shelf) shelf.old shelf.new }
{
    match load_plans(alloc, shelf, topo, files.plans) {
        Ok(plans) => resume_both(alloc, shelf, topo, plans.as_slice(), files),
        Err(early) => early.made(),
    }
}

/// The plans after the first ones.
fn plans_behind(plans: &[Plan], left: u32) -> &[Plan]
    requires { left ≤ length plans.now }
    ensures { result.now ≡ drop left plans.now }
{
    &plans[left as usize..]
}

/// A replay before any event, over a copy of the topology.
fn begin(alloc: Global, topo: &Topology, plans: &[Plan]) -> Result<DeviceReplay, NoMemory>
    requires some { 1 ≤ length plans.now }
    requires few { length plans.now ≤ 64 }
    requires fit { Each (Fits (network topo.now)) plans.now }
    requires accepted { Each (IsAccepted (network topo.now)) plans.now }
    ensures { IfOk result (λ replay. HasPlayed replay (setting_over (network topo.now) plans.now) []) }
{
    let copy = topo.copy(alloc)?;
    Replay::over(alloc, copy, plans, NoObserver)
}

/// Both texts, over plans that were read and accepted.
fn resume_both<S: Shelf>(
    alloc: Global,
    shelf: &mut S,
    topo: &Topology,
    plans: &[Plan],
    files: Files<'_>,
) -> Result<Answer, CommandError>
    requires schedule { IsTrue (S.serves shelf.old files.schedule.now) }
    requires opening { IsTrue (S.serves shelf.old files.opening.now) }
    requires few { length plans.now ≤ 64 }
    requires left { files.left < length plans.now }
    requires fit { Each (Fits (network topo.now)) plans.now }
    requires accepted { Each (IsAccepted (network topo.now)) plans.now }
    ensures makes { IfSome (S.held shelf.old) (λ held. IsAllowed
        (AfterBoth (network topo.now) plans.now files.entry.left
        (texts_of held files.entry.schedule.now) (texts_of held files.entry.opening.now))
        result) }
    ensures gives { IfOk result (λ answer. IsTrue (is_among
        (Status.Done ∷ Status.PlanRefused ∷ Status.InputRefused ∷ Status.Broken ∷ [])
        answer.status)) }
    ensures shelf { KeepsShelf S.Shelf (result ≡ Err CommandError.Shelf) shelf.old shelf.new }
{
    let mut one = begin(alloc, topo, plans)?;
    let made = resume_beside(alloc, shelf, topo, plans, &mut one, files);
    // for the prover: at the end of the function it would be dropped field by field
    drop(one);
    made
}

/// The same by a replay in which nothing has happened.
fn resume_beside<S: Shelf>(
    alloc: Global,
    shelf: &mut S,
    topo: &Topology,
    plans: &[Plan],
    one: &mut DeviceReplay,
    files: Files<'_>,
) -> Result<Answer, CommandError>
    requires schedule { IsTrue (S.serves shelf.old files.schedule.now) }
    requires opening { IsTrue (S.serves shelf.old files.opening.now) }
    requires few { length plans.now ≤ 64 }
    requires left { files.left < length plans.now }
    requires fit { Each (Fits (network topo.now)) plans.now }
    requires accepted { Each (IsAccepted (network topo.now)) plans.now }
    ensures makes { HasPlayed one.old (setting_over (network topo.now) plans.now) []
        → IfSome (S.held shelf.old) (λ held. IsAllowed
        (AfterBoth (network topo.now) plans.now files.entry.left
        (texts_of held files.entry.schedule.now) (texts_of held files.entry.opening.now))
        result) }
    ensures gives { IfOk result (λ answer. IsTrue (is_among
        (Status.Done ∷ Status.PlanRefused ∷ Status.InputRefused ∷ Status.Broken ∷ [])
        answer.status)) }
    ensures shelf { KeepsShelf S.Shelf (result ≡ Err CommandError.Shelf) shelf.old shelf.new }
{
    let mut other = begin(alloc, topo, plans_behind(plans, files.left))?;
    let made = resume_replays(alloc, shelf, one, &mut other, files);
    // for the prover, as above
    drop(other);
    made
}

/// The same by two such replays, which are lent.
fn resume_replays<S: Shelf>(
    alloc: Global,
    shelf: &mut S,
    one: &mut DeviceReplay,
    other: &mut DeviceReplay,
    files: Files<'_>,
) -> Result<Answer, CommandError>
    requires schedule { IsTrue (S.serves shelf.old files.schedule.now) }
    requires opening { IsTrue (S.serves shelf.old files.opening.now) }
    ensures makes { (net : Network) (plans : List AnyPlan) → files.entry.left < length plans
        → HasPlayed one.old (setting_over net plans) []
        → HasPlayed other.old (setting_over net (drop files.entry.left plans)) []
        → IfSome (S.held shelf.old) (λ held. IsAllowed (AfterBoth net plans files.entry.left
        (texts_of held files.entry.schedule.now) (texts_of held files.entry.opening.now))
        result) }
    ensures gives { IfOk result (λ answer. IsTrue (is_among
        (Status.Done ∷ Status.PlanRefused ∷ Status.InputRefused ∷ Status.Broken ∷ [])
        answer.status)) }
    ensures shelf { KeepsShelf S.Shelf (result ≡ Err CommandError.Shelf) shelf.old shelf.new }
{
    let schedule = Text {
        word: "schedule",
        name: files.schedule,
    };
    if let Err(early) = play(alloc, shelf, one, schedule) {
        return early.made();
    }
    let opening = Text {
        word: "opening",
        name: files.opening,
    };
    if let Err(early) = play(alloc, shelf, other, opening) {
        return early.made();
    }
    compare(alloc, one, other, files.left)
}
