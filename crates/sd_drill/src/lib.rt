//! The drill: the greatest epsilon that each device can report when the things of one domain fail, a
//! tighter number that no report exceeds either, and one while nothing has failed.
#![tactic(auto)]

ghost use Rattle.std.specs.Prelude.{◌≡◌, ◌^◌, ◌≤◌, IfOk};
ghost use Rattle.sd_checker.specs.Conditions.{IsAccepted};
ghost use Rattle.sd_plan.specs.domain.Lone.{IsDomain};
ghost use Rattle.sd_drill.specs.Bounds.{AreBounds};
ghost use Rattle.sd_drill.specs.Budgets.{IsBudget};
ghost use Rattle.sd_plan.specs.Plans.{Fits};
ghost use Rattle.sd_plan.specs.topo.Topologies.{network};

pub mod ages;
mod bounds;
mod calm;
mod drill;
mod growths;
pub mod recovery;
mod roots;
mod spared;
mod tight;
mod times;

pub use bounds::WorstList;
pub use calm::calm_numbers;
pub use drill::Drill;
use sd_num::NoMemory;
use sd_plan::domain::DomainId;
use sd_plan::topo::Topology;
use sd_plan::{IndexedPlan, Plan, WalkIndex};
use std::alloc::Global;
pub use tight::TightDrill;

/// What the operator grants.
#[derive(Clone, Copy, Debug, PartialEq, Eq)]
pub struct Budget {
    /// The uncertainty of starts and fixes, in ps.
    pub base: u64,
    /// For how long an acting root's estimate may age, in ps of its counter.
    pub hold: u64,
}

/// The bound of each device when the things of a domain fail: the greatest epsilon in ps that it can
/// report, or none where it does not come to hear an acting end again, or over a longer walk than
/// the depth and one. The plan is one that the checker accepts, and both numbers of the budget are
/// at most 2^60.
///
/// To ask of many domains, make a `Drill` once: it keeps what does not depend on the domain.
pub fn worst(
    alloc: Global,
    topo: &Topology,
    plan: &Plan,
    domain: DomainId,
    budget: Budget,
) -> Result<WorstList, NoMemory>
    requires fits { Fits (network topo.now) plan.now }
    requires accepted { IsAccepted (network topo.now) plan.now }
    requires domain { IsDomain (network topo.now) domain }
    requires budget { IsBudget budget }
    ensures { IfOk result (AreBounds (network topo.now) plan.now budget domain) }
{
    let index = WalkIndex::new(alloc, topo, plan)?;
    let planned = IndexedPlan {
        topo,
        plan,
        index: &index,
    };
    let mut drill = Drill::new(alloc, planned, budget)?;
    drill.worst(alloc, planned, domain)
}
