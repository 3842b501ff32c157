//! The condition on the two roots, asked of all domains. It costs as much as they are long together.
ghost use Rattle.std.specs.Prelude.{MatchOption};
ghost use Rattle.sd_checker.specs.Conditions.{Holds};
ghost use Rattle.sd_checker.specs.Verdicts.{Shows};
ghost use Rattle.sd_checker.specs.Conditions as condition;
ghost use Rattle.sd_checker.specs.declared.Breach.TheVariants as breach;
ghost use Rattle.sd_plan.specs.topo.Topologies.{network};

use crate::check_root::root_breach_in;
use crate::order::{domain_at, domain_count};
use sd_plan::IndexedPlan;
use sd_plan::domain::DomainId;
use sd_plan::topo::Thing;

/// The first domain that breaks the condition, with the thing that shows it.
pub(crate) fn first_root_breach(planned: IndexedPlan<'_>) -> Option<(DomainId, Thing)>
    ensures { MatchOption result
        (Holds (network planned.entry.topo.now) planned.entry.plan.now condition.root)
        (λ found. Shows (network planned.entry.topo.now) planned.entry.plan.now
        (breach.Root found.0 found.1)) }
{
    for place in 0..domain_count(planned.topo) {
        let domain = domain_at(planned.topo, place);
        if let Some(at) = root_breach_in(planned, domain) {
            return Some((domain, at));
        }
    }
    None
}
