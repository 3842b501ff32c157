//! What the bounds of all domains share.
ghost use Rattle.std.specs.Prelude.{◌≡◌, ◌≤◌, ◌<◌, ◌+◌, ◌*◌, ◌^◌, length};
ghost use Rattle.sd_drill.specs.ages.Ages as ages;
ghost use Rattle.sd_drill.specs.Budgets.{IsBudget};
ghost use Rattle.sd_drill.specs.Drill as words;
ghost use Rattle.sd_drill.specs.Times.{AreTimes, IsGrowth};
ghost use Rattle.sd_plan.specs.Plans.{Fits};
ghost use Rattle.sd_plan.specs.topo.Network.{rates_of};
ghost use Rattle.sd_plan.specs.topo.Topologies.{network};

use crate::Budget;
use crate::ages::{ageing, oldest};
use crate::roots::root_halves;
use sd_checker::check_root::{greatest_up, silence_and_tick};
use sd_plan::topo::Topology;
use sd_plan::{IndexedPlan, Plan};

/// The times of a plan and a budget, in ps.
#[derive(Clone, Copy)]
pub(crate) struct Times {
    pub(crate) budget: Budget,
    /// The uncertainty of what an acting root sends, and the way between the two roots.
    pub(crate) sent: u128,
    /// For how long an acting end may be silent to all.
    pub(crate) settling: u128,
    /// The greatest silence over a sound path.
    pub(crate) silence: u128,
}

/// For how long an acting end may be silent to all: while the backup root takes over, or while
/// devices move to their backups.
fn settling(topo: &Topology, plan: &Plan) -> u128
    requires { Fits (network topo.now) plan.now }
    ensures is { result ≡ words.settling (network topo.now) plan.now }
    ensures bound { result ≤ 2 ^ 84 }
{
    let silent = silence_and_tick(topo);
    let first = greatest_up(topo, plan.wait_first);
    let second = greatest_up(topo, plan.wait_second);
    let takeover = first + second + 6 * silent;
    let moved = greatest_up(topo, plan.wait) + silent;
    takeover.max(moved)
}

/// What an acting root's own estimate has grown by, at one of the two roots.
pub(crate) fn held(topo: &Topology, root: u32, budget: Budget) -> u128
    requires root { root < length (network topo.now).devices }
    requires budget { IsBudget budget }
    ensures is { result ≡ ages.ageing (rates_of (network topo.now) root) budget.hold }
    ensures bound { result ≤ 2 ^ 61 }
{
    ageing(topo.rates(root), u128::from(budget.hold))
}

impl Times {
    /// The times of a plan and a budget.
    pub(crate) fn new(planned: IndexedPlan<'_>, budget: Budget) -> Times
        requires { IsBudget budget }
        ensures times { AreTimes (network planned.entry.topo.now) planned.entry.plan.now result }
        ensures budget { result.budget ≡ budget }
    {
        let topo = planned.topo;
        let plan = planned.plan;
        let way = u128::from(root_halves(planned));
        let held = held(topo, plan.root, budget) + held(topo, plan.backup_root, budget);
        Times {
            budget,
            sent: u128::from(budget.base) + held + 2 * way,
            settling: settling(topo, plan),
            silence: silence_and_tick(topo) - u128::from(topo.params().tick),
        }
    }

    /// By how much the estimate of a device has grown once it hears again, by walks of this length.
    pub(crate) fn growth(self, planned: IndexedPlan<'_>, d: u32, long: u32) -> u128
        requires times { AreTimes (network planned.topo.now) planned.plan.now self }
        requires device { d < length (network planned.topo.now).devices }
        requires long { long ≤ (network planned.topo.now).params.depth + 1 }
        ensures { IsGrowth (network planned.entry.topo.now) planned.entry.plan.now d long result }
    {
        let quiet = self.settling + 2 * self.silence * (u128::from(long) + 1);
        let rates = planned.topo.rates(d);
        ageing(rates, oldest(rates, quiet))
    }
}
