//! The search: the greedy rule under each pair of roots, and then moves from plan to plan.
ghost use Rattle.std.specs.Prelude.{◌≡◌, ◌<◌, length, IfOk, IfSome};
ghost use Rattle.sd_search.specs.Finds.{HasLeastWaits, IsAsGood, IsFound, IsJudged, IsNoneWorse, IsWanted};
ghost use Rattle.sd_drill.specs.Budgets.{IsBudget};
ghost use Rattle.sd_plan.specs.Plans.{Fits};
ghost use Rattle.sd_planner.specs.Absences.{IsAbsentOf};
ghost use Rattle.sd_checker.specs.Conditions.{IsAccepted};
ghost use Rattle.sd_plan.specs.topo.Topologies.{network};

use crate::candidates::Candidates;
use crate::draft::{Change, Draft, Greedy, Ground, Parallel};
use crate::found::{Found, judge, plan_of};
use crate::moves::Mover;
use crate::rating::is_no_worse;
use crate::trials::try_greedy;
use crate::weight::{Scales, Trial, Weight};
use sd_drill::Budget;
use sd_num::NoMemory;
use sd_plan::topo::Topology;
use sd_plan::{Absent, Plan};
use sd_planner::{Planned, plan_for};
use std::alloc::Global;

/// What a search is asked for.
#[derive(Clone, Copy, Debug, PartialEq, Eq)]
pub struct Settings {
    /// By which the drill of one plan is compared with that of another.
    pub budget: Budget,
    /// All that is drawn is drawn by it.
    pub seed: u64,
    /// How many drafts are tried at most, after the greedy plans: those under other pairs of roots, and
    /// then those that moves make.
    pub steps: u64,
}

/// A draft with its weight.
#[derive(Drop)]
struct Weighed {
    draft: Draft,
    weight: Weight,
}

impl Weighed {
    /// Becomes the lighter one of itself and another.
    fn improve(&mut self, draft: &Draft, weight: Weight) {
        if weight.is_less(self.weight) {
            self.draft.copy_from(draft);
            self.weight = weight;
        }
    }

    /// Whether it has no breach.
    fn is_sound(&self) -> bool {
        self.weight.breaches == 0
    }
}

/// Tries the greedy rule under each pair of roots, up to the first draft without a breach and to
/// this many tries, and tells how many it made.
fn try_pairs(
    alloc: Global,
    scales: &mut Scales<'_>,
    candidates: &Candidates,
    parallel: Parallel,
    most: u64,
    best: &mut Weighed,
) -> Result<u64, NoMemory> {
    let mut greedy = Greedy::new(alloc, scales.ground)?;
    let mut tries: u64 = 0;
    for place in 0..candidates.pairs() {
        if best.is_sound() || tries >= most {
            break;
        }
        if let Some(pair) = candidates.pair(place) {
            tries = tries.saturating_add(1);
            let draft = greedy.draft(alloc, scales.ground, pair, parallel)?;
            let limit = best.weight.breaches;
            let weight = scales.weigh(alloc, &anew(&draft), limit)?;
            best.improve(&draft, weight);
        }
    }
    Ok(tries)
}

/// A draft that is weighed with no other before it.
fn anew(draft: &Draft) -> Trial<'_> {
    Trial {
        before: draft,
        draft,
        change: Change::All,
    }
}

/// How many moves may bring nothing before a search begins anew.
fn patience(ground: &Ground<'_>) -> u64 {
    u64::from(ground.topo.devices()).saturating_mul(40)
}

/// Goes from draft to draft by this many moves, and keeps the best.
fn wander(
    alloc: Global,
    scales: &mut Scales<'_>,
    candidates: &Candidates,
    seed: u64,
    steps: u64,
    best: &mut Weighed,
) -> Result<(), NoMemory> {
    let ground = scales.ground;
    let mut mover = Mover::new(alloc, ground, seed)?;
    let mut here = best.draft.copy(alloc)?;
    let mut weight = scales.weigh(alloc, &anew(&here), u64::MAX)?;
    scales.keep();
    let mut next = best.draft.copy(alloc)?;
    let mut idle: u64 = 0;
    for _ in 0..steps {
        next.copy_from(&here);
        let mut change = Change::All;
        if idle > patience(ground) {
            idle = 0;
            if best.is_sound() {
                next.copy_from(&best.draft);
            } else {
                mover.scatter(ground, candidates, &mut next)?;
            }
            weight = Weight::of_breaches(u64::MAX);
        } else {
            change = mover.step(ground, candidates, &mut next);
        }
        let trial = Trial {
            before: &here,
            draft: &next,
            change,
        };
        let daring = weight.breaches.saturating_add(1);
        let reached = scales.weigh(alloc, &trial, daring)?;
        idle = if reached.is_less(weight) {
            0
        } else {
            idle.saturating_add(1)
        };
        let is_daring = reached.breaches <= daring && mover.below(64) == 0;
        if !weight.is_less(reached) || is_daring {
            here.copy_from(&next);
            weight = reached;
            scales.keep();
            best.improve(&next, reached);
        }
    }
    Ok(())
}

/// The best draft of a search. At most half of the steps go to pairs of roots.
fn best_draft(
    alloc: Global,
    topo: &Topology,
    absent: &Absent,
    root: Option<u32>,
    frame: &Plan,
    settings: Settings,
) -> Result<Draft, NoMemory>
    requires absent { IsAbsentOf (network topo.now) absent.now }
    requires frame { Fits (network topo.now) frame.now }
{
    let ground = Ground::new(alloc, topo, absent)?;
    let candidates = Candidates::new(alloc, &ground, root)?;
    let mut scales = Scales::new(alloc, &ground, topo, frame, settings.budget)?;
    let draft = Draft::of_plan(alloc, frame)?;
    let weight = scales.weigh(alloc, &anew(&draft), u64::MAX)?;
    let mut best = Weighed { draft, weight };
    let most = settings.steps / 2;
    let first = try_pairs(
        alloc,
        &mut scales,
        &candidates,
        Parallel::Never,
        most,
        &mut best,
    )?;
    let second = try_pairs(
        alloc,
        &mut scales,
        &candidates,
        Parallel::AsLastChoice,
        most.saturating_sub(first),
        &mut best,
    )?;
    let moves = settings.steps.saturating_sub(first).saturating_sub(second);
    wander(
        alloc,
        &mut scales,
        &candidates,
        settings.seed,
        moves,
        &mut best,
    )?;
    Ok(best.draft)
}

/// The greedy plan from the first candidate, or from the root that is given.
fn first_plan(
    alloc: Global,
    topo: &Topology,
    root: Option<u32>,
    absent: &Absent,
) -> Result<Plan, NoMemory>
    requires absent { IsAbsentOf (network topo.now) absent.now }
    requires root { IfSome root (λ r. r < length (network topo.now).devices) }
    ensures fits { IfOk result (Fits (network topo.now)) }
    ensures absent { IfOk result (λ plan. plan.absent ≡ absent.now) }
    ensures waits { IfOk result (HasLeastWaits (network topo.now)) }
{
    let root = match root {
        Some(root) => root,
        None => topo.roots()[0],
    };
    match plan_for(alloc, topo, root, absent)? {
        Planned::Plan(plan) => Ok(plan),
        Planned::NoPlan(plan, _) => Ok(plan),
    }
}

/// What a search comes to from a plan.
fn search_from(
    alloc: Global,
    topo: &Topology,
    absent: &Absent,
    root: Option<u32>,
    frame: &Plan,
    settings: Settings,
) -> Result<Found, NoMemory>
    requires absent { IsAbsentOf (network topo.now) absent.now }
    requires root { IfSome root (λ r. r < length (network topo.now).devices) }
    requires frame { Fits (network topo.now) frame.now }
    requires same { frame.now.absent ≡ absent.now }
    requires waits { HasLeastWaits (network topo.now) frame.now }
    ensures { IfOk result (IsJudged (network topo.now) absent.now root) }
{
    let draft = best_draft(alloc, topo, absent, root, frame, settings)?;
    let plan = plan_of(alloc, topo, frame, root, &draft)?;
    judge(alloc, topo, plan)
}

/// Whether two plans have the same roots and the same hops.
fn has_same_hops(a: &Plan, b: &Plan) -> bool {
    a.root == b.root && a.backup_root == b.backup_root && a.rows.as_slice() == b.rows.as_slice()
}

/// The accepted plan that a search comes to from an accepted plan: that one itself, or one that is no
/// worse by the drill.
fn refine(
    alloc: Global,
    topo: &Topology,
    absent: &Absent,
    root: Option<u32>,
    first: Plan,
    settings: Settings,
) -> Result<Plan, NoMemory>
    requires absent { IsAbsentOf (network topo.now) absent.now }
    requires root { IfSome root (λ r. r < length (network topo.now).devices) }
    requires wanted { IsWanted (network topo.now) absent.now root first }
    requires accepted { IsAccepted (network topo.now) first }
    requires budget { IsBudget settings.budget }
    ensures wanted { IfOk result (IsWanted (network topo.now) absent.now root) }
    ensures accepted { IfOk result (IsAccepted (network topo.now)) }
    ensures good { IfOk result (IsAsGood (network topo.now) settings.budget first) }
{
    // a search keeps its first plan until it has a better one
    let Found::Plan(plan) = search_from(alloc, topo, absent, root, &first, settings)? else {
        return Ok(first);
    };
    if has_same_hops(&plan, &first) || !is_no_worse(alloc, topo, &plan, &first, settings.budget)? {
        return Ok(first);
    }
    Ok(plan)
}

/// Searches for a plan without what is absent. Where a root is given the plan has that root, else
/// any two of the candidates may be its roots. A plan is found wherever the greedy plan from such a
/// root is accepted, and it is no worse by the drill than the first of these. Each plan has the least
/// waits that the timing condition allows. The same settings over the same topology give the same plan.
#[tactic(auto, using(crate::proofs::Greedy::none_either, crate::proofs::Greedy::none_worse))]
pub fn search(
    alloc: Global,
    topo: &Topology,
    absent: &Absent,
    root: Option<u32>,
    settings: Settings,
) -> Result<Found, NoMemory>
    requires absent { IsAbsentOf (network topo.now) absent.now }
    requires root { IfSome root (λ r. r < length (network topo.now).devices) }
    requires budget { IsBudget settings.budget }
    ensures found { IfOk result (IsFound (network topo.now) absent.now root) }
    ensures good { IfOk result (IsNoneWorse (network topo.now) absent.now root settings.budget) }
{
    match try_greedy(alloc, topo, absent, root)? {
        Some(first) => Ok(Found::Plan(refine(alloc, topo, absent, root, first, settings)?)),
        None => {
            let frame = first_plan(alloc, topo, root, absent)?;
            search_from(alloc, topo, absent, root, &frame, settings)
        }
    }
}
