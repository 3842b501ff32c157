//! A plan under drill: one domain after another.
ghost use Rattle.std.specs.Prelude.{◌≡◌, ◌≤◌, ◌<◌, ◌+◌, length, IsTrue, IfOk};
ghost use Rattle.sd_drill.specs.Bounds.{AreBounds};
ghost use Rattle.sd_drill.specs.Bounding.{CanBound, HasBound, HasBounds};
ghost use Rattle.sd_drill.specs.Budgets.{IsBudget};
ghost use Rattle.sd_drill.specs.Drill.{IsListed};
ghost use Rattle.sd_drill.specs.Spared as words;
ghost use Rattle.sd_drill.specs.Times.{AreGrowths, AreKnown, AreTimes, IsBoundOf};
ghost use Rattle.sd_checker.specs.check_hit.Outages.{net_of, plan_of};
ghost use Rattle.sd_checker.specs.check_loop.Loops.{HasNoCycle};
ghost use Rattle.sd_drill.specs.recovery.Recoveries.{IsRecovery};

use crate::Budget;
use crate::bounds::WorstList;
use crate::growths::GrowthCache;
use crate::recovery::{Reach, Recoveries, Recovery};
use crate::spared::{SparedBounds, is_spared};
use crate::times::Times;
use sd_checker::check_hit::{Impact, Outage};
use sd_num::NoMemory;
use sd_plan::IndexedPlan;
use sd_plan::domain::DomainId;
use sd_plan::topo::Topology;
use std::alloc::Global;

/// What is known of devices from the domains before, and room for how they recover from the next.
#[derive(Drop)]
struct BoundCache {
    growths: GrowthCache,
    spared: SparedBounds,
    recoveries: Recoveries,
}

/// A plan and a budget under drill: what the bounds of all domains share, and what serves one domain
/// after another.
#[derive(Drop)]
pub struct Drill {
    times: Times,
    impact: Impact,
    known: BoundCache,
}

/// The bound of a device that comes to hear again over walks that reach so far.
fn bound_over(
    times: Times,
    growths: &mut GrowthCache,
    outage: &Outage<'_>,
    d: u32,
    reach: Reach,
) -> u128
    requires times { AreTimes (net_of outage.now) (plan_of outage.now) times }
    requires growths { AreGrowths (net_of outage.now) (plan_of outage.now) growths.old }
    requires device { d < length (net_of outage.now).devices }
    requires reach { reach.long ≤ (net_of outage.now).params.depth + 1 }
    ensures bound { IsBoundOf (net_of outage.now) (plan_of outage.now) times d reach result }
    ensures growths { AreGrowths (net_of outage.now) (plan_of outage.now) growths.new }
{
    let growth = growths.of(times, outage.planned, d, reach.long);
    times.sent + u128::from(reach.far) + growth
}

/// The bound of a device that recovers so, if it has one.
fn bound_by(
    times: Times,
    growths: &mut GrowthCache,
    outage: &Outage<'_>,
    d: u32,
    recovery: Recovery,
) -> Option<u128>
    requires times { AreTimes (net_of outage.now) (plan_of outage.now) times }
    requires growths { AreGrowths (net_of outage.now) (plan_of outage.now) growths.old }
    requires device { d < length (net_of outage.now).devices }
    requires recovery { IsRecovery (net_of outage.now) (plan_of outage.now) outage.now.domain d
        recovery }
    ensures bound { IsListed (net_of outage.now) (plan_of outage.now) times.budget
        outage.now.domain d result }
    ensures growths { AreGrowths (net_of outage.now) (plan_of outage.now) growths.new }
{
    if !recovery.fed {
        return None;
    }
    match recovery.reach {
        Some(reach) => Some(bound_over(times, growths, outage, d, reach)),
        None => None,
    }
}

/// The bound of a device, if it has one, by a search of how it recovers.
fn find_bound(
    times: Times,
    known: &mut BoundCache,
    outage: &Outage<'_>,
    d: u32,
) -> Result<Option<u128>, NoMemory>
    requires can { CanBound (net_of outage.now) (plan_of outage.now) outage.now.domain times
        known.old }
    requires device { d < length (net_of outage.now).devices }
    ensures { HasBound (net_of outage.now) (plan_of outage.now) outage.now.domain times.budget d
        result known.new }
{
    let recovery = known.recoveries.of(outage, d)?;
    Ok(bound_by(times, &mut known.growths, outage, d, recovery))
}

/// The same of a device that the domain spares. It is known from then on.
fn note_bound(
    times: Times,
    known: &mut BoundCache,
    outage: &Outage<'_>,
    d: u32,
) -> Result<Option<u128>, NoMemory>
    requires can { CanBound (net_of outage.now) (plan_of outage.now) outage.now.domain times
        known.old }
    requires device { d < length (net_of outage.now).devices }
    requires spared { IsTrue
        (words.is_spared (net_of outage.now) (plan_of outage.now) outage.now.domain d) }
    ensures { HasBound (net_of outage.now) (plan_of outage.now) outage.now.domain times.budget d
        result known.new }
{
    let bound = find_bound(times, known, outage, d)?;
    known.spared.note(d, bound);
    Ok(bound)
}

/// The bound of a device, if it has one. No walk is searched where the domain spares the device and
/// its bound is known.
fn bound_of(
    times: Times,
    known: &mut BoundCache,
    outage: &Outage<'_>,
    d: u32,
) -> Result<Option<u128>, NoMemory>
    requires can { CanBound (net_of outage.now) (plan_of outage.now) outage.now.domain times
        known.old }
    requires device { d < length (net_of outage.now).devices }
    ensures { HasBound (net_of outage.now) (plan_of outage.now) outage.now.domain times.budget d
        result known.new }
{
    if !is_spared(outage, d) {
        return find_bound(times, known, outage, d);
    }
    match known.spared.get(d) {
        Some(bound) => Ok(Some(bound)),
        None => note_bound(times, known, outage, d),
    }
}

/// The bounds of all devices.
fn all_bounds(
    alloc: Global,
    times: Times,
    known: &mut BoundCache,
    outage: &Outage<'_>,
) -> Result<WorstList, NoMemory>
    requires can { CanBound (net_of outage.now) (plan_of outage.now) outage.now.domain times
        known.old }
    ensures { HasBounds (net_of outage.now) (plan_of outage.now) outage.now.domain times.budget
        result known.new }
{
    let devices = outage.planned.topo.devices();
    let Ok(mut bounds) = Vec::with_capacity(alloc, devices as usize) else {
        return Err(NoMemory);
    };
    for d in 0..devices {
        let bound = bound_of(times, known, outage, d)?;
        bounds.push_reserved(bound);
    }
    Ok(WorstList::from_vec(bounds))
}

/// The bounds under an outage.
fn bounds_under(
    alloc: Global,
    times: Times,
    known: &mut BoundCache,
    outage: &Outage<'_>,
) -> Result<WorstList, NoMemory>
    requires times { AreTimes (net_of outage.now) (plan_of outage.now) times }
    requires known { AreKnown (net_of outage.now) (plan_of outage.now) times.budget known.old }
    requires acyclic { HasNoCycle (net_of outage.now) (plan_of outage.now) outage.now.domain }
    ensures { HasBounds (net_of outage.now) (plan_of outage.now) outage.now.domain times.budget
        result known.new }
{
    known.recoveries.clear();
    all_bounds(alloc, times, known, outage)
}

impl BoundCache {
    ghost use Rattle.sd_plan.specs.declared.Plan.{Plan};
    ghost use Rattle.sd_drill.specs.declared.Budget.{Budget as BudgetSeen};
    ghost use Rattle.sd_plan.specs.topo.Topologies.{network};

    /// Nothing is known of the devices of a topology.
    fn new(alloc: Global, topo: &Topology) -> Result<BoundCache, NoMemory>
        ensures { IfOk result (λ known. (plan : Plan) (budget : BudgetSeen)
            → AreKnown (network topo.now) plan budget known) }
    {
        let growths = GrowthCache::new(alloc, topo)?;
        let spared = SparedBounds::new(alloc, topo)?;
        let recoveries = Recoveries::new(alloc, topo)?;
        Ok(BoundCache {
            growths,
            spared,
            recoveries,
        })
    }
}

impl Drill {
    ghost use Rattle.sd_plan.specs.domain.Lone.{IsDomain};
    ghost use Rattle.sd_drill.specs.Times.{IsDrillOf};
    ghost use Rattle.sd_plan.specs.topo.Topologies.{network};

    /// A drill of a plan.
    pub fn new(alloc: Global, planned: IndexedPlan<'_>, budget: Budget) -> Result<Drill, NoMemory>
        requires { IsBudget budget }
        ensures { IfOk result
            (λ drill. IsDrillOf (network planned.entry.topo.now) planned.entry.plan.now drill
            × (drill.times.budget ≡ budget)) }
    {
        let times = Times::new(planned, budget);
        let impact = Impact::new(alloc, planned.topo)?;
        let known = BoundCache::new(alloc, planned.topo)?;
        Ok(Drill {
            times,
            impact,
            known,
        })
    }

    /// The bound of each device when the things of a domain fail, under which hops lead in no
    /// circle. It costs as much as there are devices and as the domain is long.
    pub fn worst(
        &mut self,
        alloc: Global,
        planned: IndexedPlan<'_>,
        domain: DomainId,
    ) -> Result<WorstList, NoMemory>
        requires drill { IsDrillOf (network planned.topo.now) planned.plan.now self.old }
        requires domain { IsDomain (network planned.topo.now) domain }
        requires acyclic { HasNoCycle (network planned.topo.now) planned.plan.now domain }
        ensures bounds { IfOk result
            (AreBounds (network planned.entry.topo.now) planned.entry.plan.now self.old.times.budget
            domain) }
        ensures drill { IsDrillOf (network planned.entry.topo.now) planned.entry.plan.now self.new }
        ensures budget { self.new.times.budget ≡ self.old.times.budget }
    {
        self.impact.strike(alloc, planned, domain)?;
        let outage = self.impact.outage(planned, domain);
        bounds_under(alloc, self.times, &mut self.known, &outage)
    }
}
