//! `renew`: the greedy plan without what is absent.
ghost use Rattle.std.specs.Prelude.{◌≡◌, ◌≤◌, [], ◌∷◌, Err, IsTrue, IfSome};
ghost use Rattle.sd_num.specs.Lists.{ascends};
ghost use Rattle.sd_io.specs.outside.Shelves.{KeepsShelf};
ghost use Rattle.sd_plan.specs.topo.Topologies.{network};
ghost use Rattle.sd_files.specs.Answering.{After};
ghost use Rattle.sd_files.specs.Inputs.{absent_in_file, plan_in_file};
ghost use Rattle.sd_files.specs.Texts.{texts_of};
ghost use Rattle.sd_files.specs.Writes.{IsAllowed};
ghost use Rattle.sd_top.specs.Gives.{GivesAmong};
ghost use Rattle.sd_top.specs.Plannings as plannings;
ghost use Rattle.sd_top.specs.Plannings.{IsPlanning, IsRenewal};

use crate::planning::planning;
use sd_files::{Answer, CommandError, Status, load_absent, load_plan, load_topology};
use sd_io::outside::Shelf;
use sd_num::contains;
use sd_plan::topo::Topology;
use sd_plan::{Absent, Plan};
use std::alloc::Global;

/// Makes the plan of a topology that goes on from an old plan without what is absent.
pub fn renew<S: Shelf>(
    alloc: Global,
    shelf: &mut S,
    topology: &str,
    plan: &str,
    absent: &str,
) -> Result<Answer, CommandError>
    requires topology { IsTrue (S.serves shelf.old topology.now) }
    requires plan { IsTrue (S.serves shelf.old plan.now) }
    requires absent { IsTrue (S.serves shelf.old absent.now) }
    ensures makes { IfSome (S.held shelf.old)
        (λ held. IsAllowed
        (IsRenewal (texts_of held topology.now) (texts_of held plan.now) (texts_of held absent.now))
        result) }
    ensures gives { GivesAmong
        (Status.Done ∷ Status.PlanRefused ∷ Status.InputRefused ∷ []) result }
    ensures shelf { KeepsShelf S.Shelf (result ≡ Err CommandError.Shelf) shelf.old shelf.new }
{
    let topo = load_topology(alloc, shelf, topology)?;
    renew_over(alloc, shelf, &topo, plan, absent)
}

/// Makes the plan that goes on from the plan of a file, over a topology that is lent and so dropped
/// in one place, as in `check`.
fn renew_over<S: Shelf>(
    alloc: Global,
    shelf: &mut S,
    topo: &Topology,
    plan: &str,
    absent: &str,
) -> Result<Answer, CommandError>
    requires plan { IsTrue (S.serves shelf.old plan.now) }
    requires absent { IsTrue (S.serves shelf.old absent.now) }
    ensures makes { IfSome (S.held shelf.old)
        (λ held. IsAllowed
        (After (plan_in_file (network topo.now) 1 (texts_of held plan.now))
        (λ old. After (absent_in_file (network topo.now) (texts_of held absent.now))
        (λ left. IsPlanning (network topo.now) (plannings.renewed_root old left) left))) result) }
    ensures gives { GivesAmong
        (Status.Done ∷ Status.PlanRefused ∷ Status.InputRefused ∷ []) result }
    ensures shelf { KeepsShelf S.Shelf (result ≡ Err CommandError.Shelf) shelf.old shelf.new }
{
    let old = load_plan(alloc, shelf, plan, topo, 1)?;
    let absent = load_absent(alloc, shelf, absent, topo)?;
    planning(alloc, topo, renewed_root(&old, &absent), &absent)
}

/// The root of a renewed plan: the old one, or the backup root where the old one is absent.
fn renewed_root(plan: &Plan, absent: &Absent) -> u32
    requires { IsTrue (ascends absent.now.devices) }
    ensures { result ≡ plannings.renewed_root plan.now absent.now }
{
    if contains(absent.devices.as_slice(), plan.root) {
        plan.backup_root
    } else {
        plan.root
    }
}
