//! The command `case` after its words: a network of leaves and spines is made from its sizes and
//! planned twice, and a replay is driven through the schedule that a number makes over it.
//!
//! So it keeps no event of the schedule, and none of the lines that a replay of it would print: the
//! tally counts these.
ghost use Rattle.std.specs.Prelude.{◌≡◌, ◌≤◌, ◌∷◌, [], IsTrue, IfErr, IfOk, length};
ghost use Rattle.sd_plan.specs.topo.Topologies as topologies;
ghost use Rattle.sd_files.specs.Statuses.{is_among};
ghost use Rattle.sd_files.specs.Writes.{IsAllowed};
ghost use Rattle.sd_gen.specs.command.Cases.{IsCase, IsCaseOver};
ghost use Rattle.sd_gen.specs.command.Sizes.{IsWithin};

mod case_run;
mod plans;
mod tally;

use crate::fabric_topology;
use case_run::replay_case;
use plans::greedy_plans;
use sd_files::{Answer, CommandError, Status};
use sd_plan::topo::Topology;
use std::alloc::Global;

/// The sizes of a network of leaves and spines.
#[derive(Clone, Copy, Debug, PartialEq, Eq)]
pub struct FabricSize {
    /// 2 to 256.
    pub leaves: u32,
    /// 3 to 32.
    pub spines: u32,
}

/// Makes the case of a number over a network of leaves and spines, and replays it.
///
/// The answer is the line `case` with what its tally counts, with the status `Done`, or `Broken`
/// where a premise broke or an alarm was due; or it is the line of the first greedy plan that the
/// checker refuses. The only error is out of memory.
pub fn case(alloc: Global, number: u64, fabric: FabricSize) -> Result<Answer, CommandError>
    requires { IsWithin fabric }
    ensures makes { IsAllowed (IsCase number fabric.leaves fabric.spines) result }
    ensures gives { IfOk result
        (λ answer. IsTrue
        (is_among (Status.Done ∷ Status.PlanRefused ∷ Status.Broken ∷ []) answer.status)) }
    ensures only { IfErr result (λ why. why ≡ CommandError.Memory) }
{
    let topo = fabric_topology(alloc, fabric.leaves, fabric.spines)?;
    case_over(alloc, topo, number)
}

/// The same over a topology, which is handed on to the replay and so dropped in one place here.
fn case_over(alloc: Global, topo: Topology, number: u64) -> Result<Answer, CommandError>
    requires { 2 ≤ length (topologies.network topo).devices }
    ensures makes { IsAllowed (IsCaseOver (topologies.network topo) number) result }
    ensures gives { IfOk result
        (λ answer. IsTrue
        (is_among (Status.Done ∷ Status.PlanRefused ∷ Status.Broken ∷ []) answer.status)) }
    ensures only { IfErr result (λ why. why ≡ CommandError.Memory) }
{
    match greedy_plans(alloc, &topo) {
        Ok(plans) => replay_case(alloc, topo, plans, number),
        Err(early) => early.made(),
    }
}
