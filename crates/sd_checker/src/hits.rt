//! The conditions on what a fault domain hits (loop, domain, reach), all asked of one domain before
//! the next, so that what it hits is found once.
ghost use Rattle.std.specs.Prelude.{◌≡◌, IfOk};
ghost use Rattle.sd_checker.specs.check_reach.Searches.{HasRoom, IsSearchOf};
ghost use Rattle.sd_checker.specs.Findings as findings;
ghost use Rattle.sd_checker.specs.Findings.{Judges, Finds, IsSound, ComesAfterLoops};
ghost use Rattle.sd_checker.specs.check_hit.Outages.{net_of, plan_of};
ghost use Rattle.sd_plan.specs.topo.Topologies.{network};

use crate::Breach;
use crate::check_hit::{Impact, Outage};
use crate::check_loop::loop_breach_of;
use crate::check_reach::Search;
use crate::order::{domain_at, domain_count};
use sd_num::NoMemory;
use sd_plan::IndexedPlan;
use std::alloc::Global;

/// The first of these conditions that a domain breaks, of those that come before the condition of
/// what was found among earlier domains, which is no loop.
fn earlier_breach(
    alloc: Global,
    outage: &Outage<'_>,
    search: &mut Search,
    found: &Option<Breach>,
) -> Result<Option<Breach>, NoMemory>
    requires search { IsSearchOf (net_of outage.now)
        (plan_of outage.now) outage.now.domain search.old }
    requires room { HasRoom (net_of outage.now) search.old }
    requires found { ComesAfterLoops found.now }
    ensures judged { IfOk result
        (Judges (net_of outage.now) (plan_of outage.now) found.now outage.now.domain) }
    ensures room { HasRoom (net_of outage.now) search.new }
{
    let domain = outage.domain;
    if let Some(cycle) = loop_breach_of(alloc, outage)? {
        return Ok(Some(Breach::Loop { domain, cycle }));
    }
    if matches!(found, Some(Breach::Domain { .. })) {
        return Ok(None);
    }
    if let Some(device) = search.domain_breach(alloc, outage)? {
        return Ok(Some(Breach::Domain { domain, device }));
    }
    if found.is_some() {
        return Ok(None);
    }
    match search.reach_breach(alloc, outage)? {
        Some(chain) => Ok(Some(Breach::Reach { domain, chain })),
        None => Ok(None),
    }
}

/// Whether a breach is of the first of these conditions, so that no later domain has an earlier one.
fn is_loop(breach: &Breach) -> bool
    ensures { result ≡ findings.is_loop breach.now }
{
    matches!(breach, Breach::Loop { .. })
}

/// The first breach of a plan that meets the other conditions, in the order of the conditions and
/// then of the domains.
pub(crate) fn hit_breach(
    alloc: Global,
    planned: IndexedPlan<'_>,
) -> Result<Option<Breach>, NoMemory>
    requires { IsSound (network planned.topo.now) planned.plan.now }
    ensures { IfOk result (Finds (network planned.entry.topo.now) planned.entry.plan.now) }
{
    let mut impact = Impact::new(alloc, planned.topo)?;
    let mut search = Search::new(alloc, planned.topo)?;
    let mut found = None;
    for place in 0..domain_count(planned.topo) {
        let domain = domain_at(planned.topo, place);
        impact.strike(alloc, planned, domain)?;
        search.clear();
        let outage = impact.outage(planned, domain);
        if let Some(breach) = earlier_breach(alloc, &outage, &mut search, &found)? {
            if is_loop(&breach) {
                return Ok(Some(breach));
            }
            found = Some(breach);
        }
    }
    Ok(found)
}
