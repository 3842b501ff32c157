//! The two plans of a case, each judged before the next is made.
ghost use Rattle.std.specs.Prelude.{◌≡◌, ◌≤◌, ◌<◌, length, IfErr, IfOk};
ghost use Rattle.sd_plan.specs.Plans.{nothing_absent};
ghost use Rattle.sd_plan.specs.topo.Topologies.{network};
ghost use Rattle.sd_planner.specs.Absences.{IsAbsentOf};
ghost use Rattle.sd_gen.specs.fabric.Fabrics.{second_absent};
ghost use Rattle.sd_files.specs.Writes.{IsAllowed};
ghost use Rattle.sd_files.specs.planfiles.SetupError.{made_of};
ghost use Rattle.sd_files.specs.planfiles.Refusing.{Nothing};
ghost use Rattle.sd_gen.specs.command.Cases.{AfterBoth, AfterGreedy};
ghost use Rattle.sd_gen.specs.command.Planned.{AreMade, IsSetupError, IsMade};

use sd_files::planfiles::SetupError;
use sd_files::refused_plan;
use sd_num::NoMemory;
use sd_plan::topo::Topology;
use sd_plan::{Absent, DeviceList, Plan};
use sd_planner::{Planned, plan_for};
use sd_replay::PlanList;
use std::alloc::Global;

/// The greedy plan from a root without what is absent, if it is accepted; else the line of its
/// breach, with its place among the plans of the case.
fn accepted_plan(
    alloc: Global,
    topo: &Topology,
    place: u32,
    root: u32,
    absent: &Absent,
) -> Result<Plan, SetupError>
    requires root { root < length (network topo.now).devices }
    requires absent { IsAbsentOf (network topo.now) absent.now }
    ensures made { IfOk result (IsMade (network topo.now) root absent.now) }
    ensures makes { IfErr result
        (λ early. IsAllowed (AfterGreedy (network topo.now) place root absent.now Nothing)
        (made_of early)) }
    ensures early { IfErr result IsSetupError }
{
    match plan_for(alloc, topo, root, absent)? {
        Planned::Plan(plan) => Ok(plan),
        Planned::NoPlan(_, breach) => Err(SetupError::Answered(refused_plan(
            alloc, topo, place, &breach,
        )?)),
    }
}

/// What the first plan leaves out: nothing.
fn nothing(alloc: Global) -> Absent
    ensures { result ≡ nothing_absent }
{
    Absent {
        devices: DeviceList::new(alloc),
        links: DeviceList::new(alloc),
    }
}

/// The plan from the first root, with nothing absent.
fn first_plan(alloc: Global, topo: &Topology) -> Result<Plan, SetupError>
    requires { 2 ≤ length (network topo.now).devices }
    ensures made { IfOk result (IsMade (network topo.now) 0 nothing_absent) }
    ensures makes { IfErr result
        (λ early. IsAllowed (AfterGreedy (network topo.now) 1 0 nothing_absent Nothing)
        (made_of early)) }
    ensures early { IfErr result IsSetupError }
{
    let absent = nothing(alloc);
    accepted_plan(alloc, topo, 1, 0, &absent)
}

/// What the second plan leaves out: the first device.
fn without_first(alloc: Global) -> Result<Absent, NoMemory>
    ensures { IfOk result (λ absent. absent ≡ second_absent) }
{
    let mut devices = DeviceList::new(alloc);
    devices.push(alloc, 0)?;
    Ok(Absent {
        devices,
        links: DeviceList::new(alloc),
    })
}

/// The plan from the second root, without the first device.
fn second_plan(alloc: Global, topo: &Topology) -> Result<Plan, SetupError>
    requires { 2 ≤ length (network topo.now).devices }
    ensures made { IfOk result (IsMade (network topo.now) 1 second_absent) }
    ensures makes { IfErr result
        (λ early. IsAllowed (AfterGreedy (network topo.now) 2 1 second_absent Nothing)
        (made_of early)) }
    ensures early { IfErr result IsSetupError }
{
    let absent = without_first(alloc)?;
    accepted_plan(alloc, topo, 2, 1, &absent)
}

/// Both plans of a case, where they are accepted; else the line of the first that is refused.
pub(crate) fn greedy_plans(alloc: Global, topo: &Topology) -> Result<PlanList, SetupError>
    requires { 2 ≤ length (network topo.now).devices }
    ensures made { IfOk result (AreMade (network topo.now)) }
    ensures makes { IfErr result
        (λ early. IsAllowed (AfterBoth (network topo.now) Nothing) (made_of early)) }
    ensures early { IfErr result IsSetupError }
{
    let mut plans = PlanList::new(alloc);
    plans.push(alloc, first_plan(alloc, topo)?)?;
    plans.push(alloc, second_plan(alloc, topo)?)?;
    Ok(plans)
}
