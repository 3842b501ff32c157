//! The number of each device while nothing has failed: no report is above it.
ghost use Rattle.std.specs.Prelude.{◌≡◌, ◌≤◌, ◌<◌, ◌^◌, length, IfOk};
ghost use Rattle.sd_drill.specs.Budgets.{IsBudget};
ghost use Rattle.sd_drill.specs.Calm as words;
ghost use Rattle.sd_drill.specs.Calm.{AreCalm, AreCalmTimes, IsCalm};
ghost use Rattle.sd_plan.specs.topo.Topologies.{network};

use crate::Budget;
use crate::ages::{ageing, oldest};
use crate::roots::halves_to_root;
use crate::times::held;
use sd_checker::check_root::greatest_up;
use sd_num::NoMemory;
use sd_plan::IndexedPlan;
use sd_plan::topo::Topology;
use std::alloc::Global;

/// What the calm numbers of all devices share, in ps.
#[derive(Clone, Copy)]
pub(crate) struct CalmTimes {
    budget: Budget,
    /// The uncertainty of what the root sends.
    sent: u128,
    /// For how long a device is silent at most.
    silence: u128,
}

/// For how long a device is silent at most while nothing has failed.
fn lag(topo: &Topology) -> u128
    ensures is { result ≡ words.lag (network topo.now) }
    ensures bound { result ≤ 2 ^ 96 }
{
    let params = topo.params();
    let depth = u128::from(params.depth);
    let delay = u128::from(topo.greatest_delay());
    let gap = greatest_up(topo, params.period) + u128::from(params.tick);
    let rounds = (u128::from(params.loss) + 1) * gap;
    rounds + gap + depth * delay
}

impl CalmTimes {
    /// The times of a plan and a budget.
    fn new(planned: IndexedPlan<'_>, budget: Budget) -> CalmTimes
        requires { IsBudget budget }
        ensures times { AreCalmTimes (network planned.entry.topo.now) planned.entry.plan.now
            result }
        ensures budget { result.budget ≡ budget }
    {
        CalmTimes {
            budget,
            sent: u128::from(budget.base) + held(planned.topo, planned.plan.root, budget),
            silence: lag(planned.topo),
        }
    }

    /// The calm number of a device.
    fn number(self, planned: IndexedPlan<'_>, d: u32) -> u128
        requires times { AreCalmTimes (network planned.topo.now) planned.plan.now self }
        requires device { d < length (network planned.topo.now).devices }
        ensures { IsCalm (network planned.entry.topo.now) planned.entry.plan.now self.budget d
            result }
    {
        let rates = planned.topo.rates(d);
        let growth = ageing(rates, oldest(rates, self.silence));
        self.sent + u128::from(halves_to_root(planned, d)) + growth
    }
}

/// The calm number of each device in ps, by ascending number: while nothing has failed no report is
/// above it. Both numbers of the budget are at most 2^60.
pub fn calm_numbers(
    alloc: Global,
    planned: IndexedPlan<'_>,
    budget: Budget,
) -> Result<Vec<u128>, NoMemory>
    requires { IsBudget budget }
    ensures { IfOk result (λ numbers. AreCalm (network planned.entry.topo.now)
        planned.entry.plan.now budget numbers.items) }
{
    let times = CalmTimes::new(planned, budget);
    let devices = planned.topo.devices();
    let Ok(mut numbers) = Vec::with_capacity(alloc, devices as usize) else {
        return Err(NoMemory);
    };
    for d in 0..devices {
        numbers.push_reserved(times.number(planned, d));
    }
    Ok(numbers)
}
