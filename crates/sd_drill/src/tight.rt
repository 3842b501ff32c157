//! A tighter number of each device, beside its bound: no report is above it either.
ghost use Rattle.std.specs.Prelude.{◌≡◌, ◌≤◌, ◌<◌, ◌+◌, ◌*◌, ◌^◌, length, IfOk};
ghost use Rattle.sd_checker.specs.check_hit.Outages.{net_of, plan_of};
ghost use Rattle.sd_checker.specs.check_loop.Loops.{HasNoCycle};
ghost use Rattle.sd_drill.specs.Budgets.{IsBudget};
ghost use Rattle.sd_drill.specs.Tight as words;
ghost use Rattle.sd_drill.specs.Tight.{AreTight, AreTightTimes, IsTightListed};
ghost use Rattle.sd_drill.specs.Tightening.{CanTighten, HasNumber, HasNumbers};
ghost use Rattle.sd_drill.specs.recovery.Recoveries.{IsRecovery};
ghost use Rattle.sd_drill.specs.recovery.Searches.{HasRoom as HasRecoveryRoom};
ghost use Rattle.sd_plan.specs.Plans.{Fits};
ghost use Rattle.sd_plan.specs.topo.Network.{rates_of};
ghost use Rattle.sd_plan.specs.topo.Topologies.{network};

use crate::Budget;
use crate::ages::{ageing, oldest};
use crate::bounds::WorstList;
use crate::recovery::{Recoveries, Recovery};
use crate::roots::root_halves;
use crate::times::Times;
use sd_checker::check_hit::{Impact, Outage};
use sd_checker::check_root::greatest_up;
use sd_num::NoMemory;
use sd_plan::domain::DomainId;
use sd_plan::topo::Topology;
use sd_plan::{IndexedPlan, Plan};
use std::alloc::Global;

/// What the tight numbers of all domains share, in ps.
#[derive(Clone, Copy)]
pub(crate) struct TightTimes {
    budget: Budget,
    /// The uncertainty of what an acting root sends.
    source: u128,
    /// For how long a device is silent at most.
    silence: u128,
}

/// A plan and a budget under drill for tight numbers: what serves one domain after another.
#[derive(Drop)]
pub struct TightDrill {
    times: TightTimes,
    impact: Impact,
    recoveries: Recoveries,
}

/// For how long devices may wait before they move: while the backup root takes over, or while they
/// move to their backups.
fn moving(topo: &Topology, plan: &Plan) -> u128
    requires { Fits (network topo.now) plan.now }
    ensures is { result ≡ words.moving (network topo.now) plan.now }
    ensures bound { result ≤ 2 ^ 84 }
{
    let params = topo.params();
    let tick = u128::from(params.tick);
    let depth = u128::from(params.depth);
    let delay = u128::from(topo.greatest_delay());
    let waits = greatest_up(topo, plan.wait_first) + greatest_up(topo, plan.wait_second);
    let takeover = waits + 2 * tick + (depth + 1) * delay;
    let moved = greatest_up(topo, plan.wait) + tick + (2 * (depth + 1) + 1) * delay;
    takeover.max(moved)
}

/// For how long a device is silent at most: before the failures, until all had time to move, and
/// until a round came down.
fn longest_silence(topo: &Topology, plan: &Plan) -> u128
    requires { Fits (network topo.now) plan.now }
    ensures is { result ≡ words.longest_silence (network topo.now) plan.now }
    ensures bound { result ≤ 2 ^ 96 }
{
    let params = topo.params();
    let depth = u128::from(params.depth);
    let delay = u128::from(topo.greatest_delay());
    let gap = greatest_up(topo, params.period) + u128::from(params.tick);
    let rounds = (u128::from(params.loss) + 1) * gap;
    let lag = rounds + gap + depth * delay;
    lag + moving(topo, plan) + (rounds + 2 * (depth + 1) * delay)
}

impl TightTimes {
    /// The times of a plan and a budget.
    fn new(planned: IndexedPlan<'_>, budget: Budget) -> TightTimes
        requires { IsBudget budget }
        ensures times { AreTightTimes (network planned.entry.topo.now) planned.entry.plan.now
            result }
        ensures budget { result.budget ≡ budget }
    {
        let times = Times::new(planned, budget);
        TightTimes {
            budget,
            source: times.sent - u128::from(root_halves(planned)),
            silence: longest_silence(planned.topo, planned.plan),
        }
    }

    /// By how much the estimate of a device has grown at most.
    fn growth(self, topo: &Topology, d: u32) -> u128
        requires silence { self.silence ≤ 2 ^ 96 }
        requires device { d < length (network topo.now).devices }
        ensures { words.IsGrown (rates_of (network topo.now) d) self.silence result }
    {
        let rates = topo.rates(d);
        ageing(rates, oldest(rates, self.silence))
    }

    /// The tight number of a device that recovers so, if it has one.
    fn number_by(self, outage: &Outage<'_>, d: u32, recovery: Recovery) -> Option<u128>
        requires times { AreTightTimes (net_of outage.now) (plan_of outage.now) self }
        requires device { d < length (net_of outage.now).devices }
        requires recovery { IsRecovery (net_of outage.now) (plan_of outage.now) outage.now.domain d
            recovery }
        ensures { IsTightListed (net_of outage.now) (plan_of outage.now) self.budget
            outage.now.domain d result }
    {
        if !recovery.fed {
            return None;
        }
        match recovery.reach {
            Some(reach) => {
                let growth = self.growth(outage.planned.topo, d);
                Some(self.source + u128::from(reach.far) + growth)
            }
            None => None,
        }
    }
}

/// The tight number of a device, if it has one.
fn number_of(
    times: TightTimes,
    recoveries: &mut Recoveries,
    outage: &Outage<'_>,
    d: u32,
) -> Result<Option<u128>, NoMemory>
    requires can { CanTighten (net_of outage.now) (plan_of outage.now) outage.now.domain times
        recoveries.old }
    requires device { d < length (net_of outage.now).devices }
    ensures { HasNumber (net_of outage.now) (plan_of outage.now) outage.now.domain times.budget d
        result recoveries.new }
{
    let recovery = recoveries.of(outage, d)?;
    Ok(times.number_by(outage, d, recovery))
}

/// The tight numbers of all devices.
fn all_numbers(
    alloc: Global,
    times: TightTimes,
    recoveries: &mut Recoveries,
    outage: &Outage<'_>,
) -> Result<WorstList, NoMemory>
    requires can { CanTighten (net_of outage.now) (plan_of outage.now) outage.now.domain times
        recoveries.old }
    ensures { HasNumbers (net_of outage.now) (plan_of outage.now) outage.now.domain times.budget
        result recoveries.new }
{
    let devices = outage.planned.topo.devices();
    let Ok(mut numbers) = Vec::with_capacity(alloc, devices as usize) else {
        return Err(NoMemory);
    };
    for d in 0..devices {
        let number = number_of(times, recoveries, outage, d)?;
        numbers.push_reserved(number);
    }
    Ok(WorstList::from_vec(numbers))
}

/// The tight numbers under an outage.
fn numbers_under(
    alloc: Global,
    times: TightTimes,
    recoveries: &mut Recoveries,
    outage: &Outage<'_>,
) -> Result<WorstList, NoMemory>
    requires times { AreTightTimes (net_of outage.now) (plan_of outage.now) times }
    requires acyclic { HasNoCycle (net_of outage.now) (plan_of outage.now) outage.now.domain }
    requires room { HasRecoveryRoom (net_of outage.now) recoveries.old }
    ensures { HasNumbers (net_of outage.now) (plan_of outage.now) outage.now.domain times.budget
        result recoveries.new }
{
    recoveries.clear();
    all_numbers(alloc, times, recoveries, outage)
}

impl TightDrill {
    ghost use Rattle.sd_plan.specs.domain.Lone.{IsDomain};
    ghost use Rattle.sd_drill.specs.Tight.{IsTightDrillOf};

    /// A drill of a plan.
    pub fn new(
        alloc: Global,
        planned: IndexedPlan<'_>,
        budget: Budget,
    ) -> Result<TightDrill, NoMemory>
        requires { IsBudget budget }
        ensures { IfOk result
            (λ drill. IsTightDrillOf (network planned.entry.topo.now) planned.entry.plan.now drill
            × (drill.times.budget ≡ budget)) }
    {
        let times = TightTimes::new(planned, budget);
        let impact = Impact::new(alloc, planned.topo)?;
        let recoveries = Recoveries::new(alloc, planned.topo)?;
        Ok(TightDrill {
            times,
            impact,
            recoveries,
        })
    }

    /// The tight number of each device in ps when the things of a domain fail, under which hops lead
    /// in no circle. It costs as much as there are devices and as the domain is long.
    pub fn tight(
        &mut self,
        alloc: Global,
        planned: IndexedPlan<'_>,
        domain: DomainId,
    ) -> Result<WorstList, NoMemory>
        requires drill { IsTightDrillOf (network planned.topo.now) planned.plan.now self.old }
        requires domain { IsDomain (network planned.topo.now) domain }
        requires acyclic { HasNoCycle (network planned.topo.now) planned.plan.now domain }
        ensures numbers { IfOk result
            (AreTight (network planned.entry.topo.now) planned.entry.plan.now self.old.times.budget
            domain) }
        ensures drill { IsTightDrillOf (network planned.entry.topo.now) planned.entry.plan.now
            self.new }
        ensures budget { self.new.times.budget ≡ self.old.times.budget }
    {
        self.impact.strike(alloc, planned, domain)?;
        let outage = self.impact.outage(planned, domain);
        numbers_under(alloc, self.times, &mut self.recoveries, &outage)
    }
}
