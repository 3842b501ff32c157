//! `plan`: the greedy plan of a topology.
ghost use Rattle.std.specs.Prelude.{◌≡◌, [], ◌∷◌, Err, IsTrue, IfErr, IfSome};
ghost use Rattle.sd_plan.specs.Plans.{nothing_absent};
ghost use Rattle.sd_io.specs.outside.Shelves.{KeepsShelf};
ghost use Rattle.sd_plan.specs.topo.Topologies.{network};
ghost use Rattle.sd_files.specs.Texts.{texts_of};
ghost use Rattle.sd_files.specs.Writes.{IsAllowed};
ghost use Rattle.sd_top.specs.Gives.{GivesAmong};
ghost use Rattle.sd_top.specs.Plannings.{IsPlanOf, IsPlanning, first_root};

use crate::planning::planning;
use sd_files::{Answer, CommandError, Status, load_topology};
use sd_io::outside::Shelf;
use sd_plan::topo::Topology;
use sd_plan::{Absent, DeviceList};
use std::alloc::Global;

/// Makes the plan of a topology.
pub fn plan<S: Shelf>(alloc: Global, shelf: &mut S, topology: &str) -> Result<Answer, CommandError>
    requires { IsTrue (S.serves shelf.old topology.now) }
    ensures makes { IfSome (S.held shelf.old)
        (λ held. IsAllowed (IsPlanOf (texts_of held topology.now)) result) }
    ensures gives { GivesAmong
        (Status.Done ∷ Status.PlanRefused ∷ Status.InputRefused ∷ []) result }
    ensures shelf { KeepsShelf S.Shelf (result ≡ Err CommandError.Shelf) shelf.old shelf.new }
{
    let topo = load_topology(alloc, shelf, topology)?;
    plan_whole(alloc, &topo)
}

/// The greedy plan from the first candidate, with nothing absent.
fn plan_whole(alloc: Global, topo: &Topology) -> Result<Answer, CommandError>
    ensures makes { IsAllowed
        (IsPlanning (network topo.now) (first_root (network topo.now)) nothing_absent) result }
    ensures gives { GivesAmong
        (Status.Done ∷ Status.PlanRefused ∷ Status.InputRefused ∷ []) result }
    ensures only { IfErr result (λ why. why ≡ CommandError.Memory) }
{
    let absent = Absent {
        devices: DeviceList::new(alloc),
        links: DeviceList::new(alloc),
    };
    planning(alloc, topo, topo.roots()[0], &absent)
}
