//! How good an accepted plan is, by its drill under all domains.
ghost use Rattle.std.specs.Prelude.{◌≡◌, ◌≤◌, ◌<◌, ◌+◌, ◌^◌, [], ◌∷◌, length, max, true, Ok, IfOk, Decides};
ghost use Rattle.sd_checker.specs.Conditions.{IsAccepted};
ghost use Rattle.sd_drill.specs.Bounds.{AreBounds};
ghost use Rattle.sd_drill.specs.Budgets.{IsBudget};
ghost use Rattle.sd_drill.specs.Times.{IsDrillOf};
ghost use Rattle.sd_plan.specs.Plans.{Fits};
ghost use Rattle.sd_plan.specs.domain.Lone.{IsDomain};
ghost use Rattle.sd_plan.specs.topo.Topologies.{network};
ghost use Rattle.sd_search.specs.Ratings as words;
ghost use Rattle.sd_search.specs.Ratings.{IsNoMore, IsNoWorse, IsRating};

use sd_checker::order::{domain_at, domain_count};
use sd_drill::{Budget, Drill};
use sd_num::NoMemory;
use sd_plan::domain::DomainId;
use sd_plan::topo::Topology;
use sd_plan::{IndexedPlan, Plan, WalkIndex};
use std::alloc::Global;

/// What the drill says of an accepted plan, over all domains and devices.
#[derive(Clone, Copy)]
pub(crate) struct Rating {
    /// How many bounds there are not.
    pub(crate) unbounded: u64,
    /// The greatest of those that there are, in ps.
    pub(crate) greatest: u128,
}

impl Rating {
    /// With one bound more.
    fn with_bound(self, bound: Option<u128>) -> Rating
        requires room { self.unbounded + 1 < 2 ^ 64 }
        ensures unbounded { result.unbounded ≡ self.unbounded + words.unbounded (bound ∷ []) }
        ensures greatest { result.greatest ≡ max self.greatest (words.greatest (bound ∷ [])) }
    {
        match bound {
            Some(bound) => Rating {
                unbounded: self.unbounded,
                greatest: self.greatest.max(bound),
            },
            None => Rating {
                unbounded: self.unbounded + 1,
                greatest: self.greatest,
            },
        }
    }

    /// With the bounds of all devices under one domain more.
    fn with_bounds(self, bounds: &[Option<u128>]) -> Rating
        requires room { self.unbounded + length bounds.now < 2 ^ 64 }
        ensures unbounded { result.unbounded ≡ self.unbounded + words.unbounded bounds.now }
        ensures greatest { result.greatest ≡ max self.greatest (words.greatest bounds.now) }
    {
        let mut rating = self;
        for bound in bounds {
            rating = rating.with_bound(*bound);
        }
        rating
    }

    /// Whether it is no more than another: the number of missing bounds counts first.
    fn is_no_more(self, other: Rating) -> bool
        ensures { Decides result (IsNoMore self other) }
    {
        if self.unbounded == other.unbounded {
            self.greatest <= other.greatest
        } else {
            self.unbounded < other.unbounded
        }
    }
}

/// The bounds under one domain, added to a rating.
#[tactic(auto, using(sd_drill::proofs::Circles::no_circle))]
fn rate_under(
    alloc: Global,
    planned: IndexedPlan<'_>,
    drill: &mut Drill,
    domain: DomainId,
    rating: Rating,
) -> Result<Rating, NoMemory>
    requires accepted { IsAccepted (network planned.topo.now) planned.plan.now }
    requires domain { IsDomain (network planned.topo.now) domain }
    requires drill { IsDrillOf (network planned.topo.now) planned.plan.now drill.old }
    requires room { rating.unbounded + 4096 < 2 ^ 64 }
    ensures rating { IfOk result (words.Adds (network planned.entry.topo.now)
        planned.entry.plan.now drill.old.times.budget domain rating) }
    ensures drill { IsDrillOf (network planned.entry.topo.now) planned.entry.plan.now drill.new }
    ensures budget { drill.new.times.budget ≡ drill.old.times.budget }
{
    let bounds = drill.worst(alloc, planned, domain)?;
    Ok(rating.with_bounds(bounds.as_slice()))
}

/// The rating of an accepted plan that is indexed.
fn rate_indexed(alloc: Global, planned: IndexedPlan<'_>, budget: Budget) -> Result<Rating, NoMemory>
    requires accepted { IsAccepted (network planned.topo.now) planned.plan.now }
    requires budget { IsBudget budget }
    ensures { IfOk result (IsRating (network planned.entry.topo.now) planned.entry.plan.now budget) }
{
    let mut drill = Drill::new(alloc, planned, budget)?;
    let mut rating = Rating {
        unbounded: 0,
        greatest: 0,
    };
    for place in 0..domain_count(planned.topo) {
        let domain = domain_at(planned.topo, place);
        rating = rate_under(alloc, planned, &mut drill, domain, rating)?;
    }
    Ok(rating)
}

/// The rating of an accepted plan.
fn rate(alloc: Global, topo: &Topology, plan: &Plan, budget: Budget) -> Result<Rating, NoMemory>
    requires fits { Fits (network topo.now) plan.now }
    requires accepted { IsAccepted (network topo.now) plan.now }
    requires budget { IsBudget budget }
    ensures { IfOk result (IsRating (network topo.now) plan.now budget) }
{
    let index = WalkIndex::new(alloc, topo, plan)?;
    let planned = IndexedPlan {
        topo,
        plan,
        index: &index,
    };
    rate_indexed(alloc, planned, budget)
}

/// Whether an accepted plan is rated no worse than another.
pub(crate) fn is_no_worse(
    alloc: Global,
    topo: &Topology,
    plan: &Plan,
    other: &Plan,
    budget: Budget,
) -> Result<bool, NoMemory>
    requires fits { Fits (network topo.now) plan.now }
    requires accepted { IsAccepted (network topo.now) plan.now }
    requires other_fits { Fits (network topo.now) other.now }
    requires other_accepted { IsAccepted (network topo.now) other.now }
    requires budget { IsBudget budget }
    ensures { result ≡ Ok true → IsNoWorse (network topo.now) budget other.now plan.now }
{
    let rating = rate(alloc, topo, plan, budget)?;
    let of_other = rate(alloc, topo, other, budget)?;
    Ok(rating.is_no_more(of_other))
}
