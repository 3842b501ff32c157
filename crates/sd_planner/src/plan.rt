//! The greedy plan, and what the checker says of it.
ghost use Rattle.std.specs.Prelude.{◌≡◌, ◌<◌, length, IfOk};
ghost use Rattle.sd_plan.specs.topo.Topologies.{network};
ghost use Rattle.sd_plan.specs.Plans.{Fits};
ghost use Rattle.sd_planner.specs.Absences.{IsAbsentOf};
ghost use Rattle.sd_planner.specs.Greedy.{IsGreedy};
ghost use Rattle.sd_planner.specs.Planning.{IsPlanned};

use crate::backups::greedy_rows;
use crate::waits::least_waits;
use crate::{Planned, Present, backup_root_of, place};
use sd_checker::{Verdict, check};
use sd_num::NoMemory;
use sd_plan::topo::Topology;
use sd_plan::{Absent, DeviceList, Plan};
use std::alloc::Global;

/// A copy of numbers.
fn copy_list(alloc: Global, numbers: &[u32]) -> Result<DeviceList, NoMemory>
    ensures { IfOk result (λ list. list ≡ numbers.now) }
{
    let mut list = DeviceList::new(alloc);
    for number in numbers {
        list.push(alloc, *number)?;
    }
    Ok(list)
}

/// A copy of an absent list.
fn copy_absent(alloc: Global, absent: &Absent) -> Result<Absent, NoMemory>
    ensures { IfOk result (λ copy. copy ≡ absent.now) }
{
    let devices = copy_list(alloc, absent.devices.as_slice())?;
    let links = copy_list(alloc, absent.links.as_slice())?;
    Ok(Absent { devices, links })
}

/// The greedy plan.
fn greedy_plan(alloc: Global, topo: &Topology, root: u32, absent: &Absent) -> Result<Plan, NoMemory>
    requires root { root < length (network topo.now).devices }
    requires absent { IsAbsentOf (network topo.now) absent.now }
    ensures greedy { IfOk result (IsGreedy (network topo.now) root absent.now) }
    ensures fits { IfOk result (Fits (network topo.now)) }
{
    let present = Present::new(alloc, topo, absent)?;
    let placement = place(alloc, &present, root)?;
    let rows = greedy_rows(alloc, &present, &placement, root)?;
    let waits = least_waits(topo);
    Ok(Plan {
        root,
        backup_root: backup_root_of(&present, root),
        wait_first: waits.first,
        wait_second: waits.second,
        wait: waits.ordinary,
        absent: copy_absent(alloc, absent)?,
        rows,
    })
}

/// The greedy plan from a root over what is not absent, and the checker's breach of it if there is
/// one. The root is a number of the topology's devices; it need not be one of its candidates.
///
/// ```
/// let absent = Absent {
///     devices: DeviceList::new(alloc),
///     links: DeviceList::new(alloc),
/// };
/// match plan_for(alloc, &topo, root, &absent)? {
///     Planned::Plan(plan) => print(&plan)?,
///     Planned::NoPlan(_, breach) => refuse(breach)?,
/// }
/// ```
pub fn plan_for(
    alloc: Global,
    topo: &Topology,
    root: u32,
    absent: &Absent,
) -> Result<Planned, NoMemory>
    requires root { root < length (network topo.now).devices }
    requires absent { IsAbsentOf (network topo.now) absent.now }
    ensures { IfOk result (IsPlanned (network topo.now) root absent.now) }
{
    let plan = greedy_plan(alloc, topo, root, absent)?;
    match check(alloc, topo, &plan)? {
        Verdict::Accepted => Ok(Planned::Plan(plan)),
        Verdict::Refused(breach) => Ok(Planned::NoPlan(plan, breach)),
    }
}
