//! How good a draft is: its breaches, and where it has none, the numbers of its drill.
ghost use Rattle.sd_plan.specs.Plans.{Fits};
ghost use Rattle.sd_plan.specs.topo.Topologies.{network};
ghost use Rattle.std.proofs.Props.{props};
ghost use Rattle.sd_plan.specs.Props.{IsRow-prop};

use crate::draft::tables::{copy_entries, set_entry};
use crate::draft::{Bounds, Change, Draft, DraftDrill, Ground, Tally, places};
use crate::found::plan_of;
use sd_checker::order::{domain_at, domain_count};
use sd_checker::{Verdict, check};
use sd_drill::Budget;
use sd_num::NoMemory;
use sd_plan::Plan;
use sd_plan::topo::Topology;
use std::alloc::Global;
use std::mem::swap;

/// What speaks against a draft, the first number before the others.
#[derive(Clone, Copy)]
pub(crate) struct Weight {
    pub breaches: u64,
    /// How many devices have no bound, over all domains.
    pub unbounded: u64,
    /// The greatest bound in ps, over all domains and devices.
    pub greatest: u128,
    /// The sum of all bounds.
    pub sum: u128,
}

impl Weight {
    /// The weight of a draft with this many breaches, which is not drilled.
    pub(crate) fn of_breaches(breaches: u64) -> Weight {
        Weight {
            breaches,
            unbounded: 0,
            greatest: 0,
            sum: 0,
        }
    }

    /// Whether the weight is less than another.
    pub(crate) fn is_less(self, other: Weight) -> bool {
        if self.breaches != other.breaches {
            return self.breaches < other.breaches;
        }
        if self.unbounded != other.unbounded {
            return self.unbounded < other.unbounded;
        }
        if self.greatest != other.greatest {
            return self.greatest < other.greatest;
        }
        self.sum < other.sum
    }

    /// With the bounds under one domain more.
    fn with(self, bounds: Bounds) -> Weight {
        Weight {
            breaches: self.breaches,
            unbounded: self.unbounded.saturating_add(bounds.unbounded),
            greatest: self.greatest.max(bounds.greatest),
            sum: self.sum.saturating_add(bounds.sum),
        }
    }
}

/// The bounds of two drafts by the place of each domain: of the one that is gone on from, and of the
/// one that was drilled last.
#[derive(Drop)]
struct BoundTable {
    kept: Vec<Bounds>,
    tried: Vec<Bounds>,
    is_kept_whole: bool,
    is_tried_whole: bool,
}

/// No bounds at this many places.
fn no_bounds(alloc: Global, count: u32) -> Result<Vec<Bounds>, NoMemory> {
    match vec![in alloc; Bounds::NONE; count as usize] {
        Ok(bounds) => Ok(bounds),
        Err(_) => Err(NoMemory),
    }
}

impl BoundTable {
    fn new(alloc: Global, places: u32) -> Result<BoundTable, NoMemory> {
        Ok(BoundTable {
            kept: no_bounds(alloc, places)?,
            tried: no_bounds(alloc, places)?,
            is_kept_whole: false,
            is_tried_whole: false,
        })
    }

    /// The weight of what was drilled last.
    fn weight(&self) -> Weight {
        let mut weight = Weight::of_breaches(0);
        for bounds in &self.tried {
            weight = weight.with(*bounds);
        }
        weight
    }

    /// What was drilled last is gone on from.
    fn keep(&mut self) {
        swap(&mut self.kept, &mut self.tried);
        self.is_kept_whole = self.is_tried_whole;
    }
}

/// A draft that is tried: the one before, and what differs.
#[derive(Clone, Copy)]
pub(crate) struct Trial<'a> {
    pub before: &'a Draft,
    pub draft: &'a Draft,
    pub change: Change,
}

impl Trial<'_> {
    /// Whether each primary is as before.
    fn keeps_primaries(&self) -> bool {
        match self.change {
            Change::Row(d) => self.before.primary(d) == self.draft.primary(d),
            Change::All => false,
        }
    }
}

/// What drafts are weighed with, over a topology and a plan of which the waits are taken.
#[derive(Drop)]
pub(crate) struct Scales<'a> {
    pub ground: &'a Ground<'a>,
    topo: &'a Topology,
    frame: &'a Plan,
    tally: Tally,
    drill: DraftDrill,
    bounds: BoundTable,
    ghost fits: { Fits (network topo.now) frame.now } by { Prim.hlevel (props, IsRow-prop) },
}

impl<'a> Scales<'a> {
    /// Scales over a topology.
    pub(crate) fn new(
        alloc: Global,
        ground: &'a Ground<'a>,
        topo: &'a Topology,
        frame: &'a Plan,
        budget: Budget,
    ) -> Result<Scales<'a>, NoMemory>
        requires { Fits (network topo.now) frame.now }
    {
        let tally = Tally::new(alloc, ground)?;
        let drill = DraftDrill::new(alloc, ground, frame, budget)?;
        let bounds = BoundTable::new(alloc, places(ground))?;
        Ok(Scales {
            ground,
            topo,
            frame,
            tally,
            drill,
            bounds,
        })
    }

    /// Drills an accepted draft, under all domains or those that changed.
    fn drill(&mut self, draft: &Draft, only_changed: bool) -> Result<(), NoMemory> {
        let topo = self.topo;
        self.drill.set_to(topo, draft)?;
        for place in 0..domain_count(topo) {
            if !only_changed || self.tally.is_changed(place) {
                let domain = domain_at(topo, place);
                let bounds = self.drill.under(self.ground, draft, domain)?;
                set_entry(self.bounds.tried.as_mut_slice(), place, bounds);
            }
        }
        Ok(())
    }

    /// The weight of a draft without a breach that the tally knows.
    // A backup counts under the domains alone that hit its device: the bounds under others are as before.
    fn weigh_sound(&mut self, alloc: Global, trial: &Trial<'_>) -> Result<Weight, NoMemory> {
        let plan = plan_of(alloc, self.topo, self.frame, None, trial.draft)?;
        match check(alloc, self.topo, &plan)? {
            Verdict::Accepted => {}
            Verdict::Refused(_) => return Ok(Weight::of_breaches(1)),
        }
        let only_changed = self.bounds.is_kept_whole && trial.keeps_primaries();
        if only_changed {
            copy_entries(
                self.bounds.tried.as_mut_slice(),
                self.bounds.kept.as_slice(),
            );
        }
        self.drill(trial.draft, only_changed)?;
        self.bounds.is_tried_whole = true;
        Ok(self.bounds.weight())
    }

    /// The weight of a draft. Where it has more breaches than the limit, it may be of fewer than there
    /// are, but of more than the limit.
    pub(crate) fn weigh(
        &mut self,
        alloc: Global,
        trial: &Trial<'_>,
        limit: u64,
    ) -> Result<Weight, NoMemory> {
        self.bounds.is_tried_whole = false;
        let breaches = self.tally.count(
            self.ground,
            trial.before,
            trial.draft,
            trial.change,
            limit,
        )?;
        if breaches > 0 {
            return Ok(Weight::of_breaches(breaches));
        }
        self.weigh_sound(alloc, trial)
    }

    /// The draft that was weighed last is the one that is gone on from.
    pub(crate) fn keep(&mut self) {
        self.tally.keep();
        self.bounds.keep();
    }
}
