//! The replay of a case, which is driven through the schedule of its number.
ghost use Rattle.std.specs.Prelude.{◌≡◌, ◌∷◌, [], IsTrue, IfErr, IfOk};
ghost use Rattle.sd_history.specs.World.{setting_over};
ghost use Rattle.sd_plan.specs.topo.Topologies.{network};
ghost use Rattle.sd_files.specs.Statuses.{is_among};
ghost use Rattle.sd_files.specs.Writes.{IsAllowed};
ghost use Rattle.sd_gen.specs.command.Cases.{IsTallied, case_tally};
ghost use Rattle.sd_gen.specs.command.Planned.{AreMade};
ghost use Rattle.sd_gen.specs.command.CaseRuns.{StandsFor};

use crate::command::tally::tally_answer;
use crate::{Driven, drive_schedule};
use sd_device::Device;
use sd_device::msg::NoObserver;
use sd_files::{Answer, CommandError, Status};
use sd_fleet::{Fleet, Outcome};
use sd_num::NoMemory;
use sd_plan::topo::Topology;
use sd_replay::{Event, PlanList, Replay, ReplayFault, Tally};
use std::alloc::Global;

/// A replay of devices, which tells nobody of its reports.
#[derive(Drop)]
pub(crate) struct CaseRun {
    replay: Replay<Device, NoObserver>,
}

impl Driven for CaseRun {
    ghost stands = { λ replayed setting run. StandsFor replayed setting run };

    fn offer(
        &mut self,
        alloc: Global,
        event: &Event,
        outcome: &mut Outcome,
    ) -> Result<bool, NoMemory> {
        match self.replay.step_outcome(alloc, event, outcome) {
            Ok(()) => Ok(true),
            Err(ReplayFault::Apply(_)) => Ok(false),
            Err(ReplayFault::Memory) => Err(NoMemory),
            // an event is no line
            Err(ReplayFault::Line(_)) => unreachable!(),
        }
    }

    fn fleet(&self) -> &Fleet<Device> {
        self.replay.fleet()
    }
}

/// The tally of the schedule of a number over a topology and both plans.
fn tally_schedule(
    alloc: Global,
    topo: Topology,
    plans: PlanList,
    number: u64,
) -> Result<Tally, NoMemory>
    requires { AreMade (network topo) plans }
    ensures { IfOk result (λ tally. tally ≡ case_tally (setting_over (network topo) plans) number) }
{
    let replay = Replay::new(alloc, topo, plans, NoObserver)?;
    let replayed = drive_schedule(alloc, CaseRun { replay }, number)?;
    let tally = replayed.replay.tally();
    // for the prover: at the end of the function it would be dropped field by field
    drop(replayed);
    Ok(tally)
}

/// Replays the schedule of a number over a topology and both plans, and makes the line of its tally.
pub(crate) fn replay_case(
    alloc: Global,
    topo: Topology,
    plans: PlanList,
    number: u64,
) -> Result<Answer, CommandError>
    requires { AreMade (network topo) plans }
    ensures makes { IsAllowed
        (IsTallied (case_tally (setting_over (network topo) plans) number)) result }
    ensures only { IfErr result (λ why. why ≡ CommandError.Memory) }
    ensures gives { IfOk result
        (λ answer. IsTrue (is_among (Status.Done ∷ Status.Broken ∷ []) answer.status)) }
{
    let tally = tally_schedule(alloc, topo, plans, number)?;
    tally_answer(alloc, tally)
}
