//! What a search ends with: a plan that the checker accepts, or the breach of the best that it had.
ghost use Rattle.std.specs.Prelude.{◌≡◌, ◌<◌, ℕ, length, Option, IfOk, IfSome};
ghost use Rattle.sd_search.specs.Finds.{HasLeastWaits, IsJudged, IsWanted};
ghost use Rattle.sd_plan.specs.declared.Absent.{Absent as AbsentSeen};
ghost use Rattle.sd_plan.specs.Plans.{Fits, IsHop, IsRow};
ghost use Rattle.sd_plan.specs.topo.Network.{Each};
ghost use Rattle.sd_plan.specs.topo.Topologies.{network};

use crate::draft::Draft;
use sd_checker::{Breach, Verdict, check};
use sd_num::NoMemory;
use sd_plan::topo::Topology;
use sd_plan::{Absent, DeviceList, Hop, Plan, PlanRow, RowList};
use std::alloc::Global;

/// A plan that the checker accepts, or the best one that there was, with its breach.
#[derive(Drop)]
pub enum Found {
    Plan(Plan),
    NoPlan(Plan, Breach),
}

/// A hop that names a device and a link of the topology.
fn hop_within(topo: &Topology, hop: Hop) -> Option<Hop>
    ensures { IfSome result (IsHop (network topo.now)) }
{
    if hop.parent < topo.devices() && hop.link < topo.links() {
        Some(hop)
    } else {
        None
    }
}

/// A row whose hops are within the topology.
fn row_within(topo: &Topology, row: Option<PlanRow>) -> Option<PlanRow>
    ensures { IsRow (network topo.now) result }
{
    let row = row?;
    let primary = hop_within(topo, row.primary)?;
    let backup = match row.backup {
        Some(hop) => hop_within(topo, hop),
        None => None,
    };
    Some(PlanRow { primary, backup })
}

/// The rows of a draft, one for each device.
#[tactic(auto, using(crate::proofs::Rows::rows_longer))]
fn rows_within(alloc: Global, topo: &Topology, draft: &Draft) -> Result<RowList, NoMemory>
    ensures rows { IfOk result (Each (IsRow (network topo.now))) }
    ensures count { IfOk result (λ rows. length rows ≡ length (network topo.now).devices) }
{
    let mut rows = RowList::new(alloc);
    for d in 0..topo.devices() {
        rows.push(alloc, row_within(topo, draft.row(d)))?;
    }
    Ok(rows)
}

/// A device of the topology.
fn device_within(topo: &Topology, d: u32) -> u32
    ensures { result < length (network topo.now).devices }
{
    if d < topo.devices() { d } else { 0 }
}

/// A copy of numbers.
fn copy_numbers(alloc: Global, numbers: &[u32]) -> Result<DeviceList, NoMemory>
    ensures { IfOk result (λ list. list ≡ numbers.now) }
{
    match Vec::from_slice(alloc, numbers) {
        Ok(copy) => return Ok(DeviceList::from_vec(copy)),
        Err(_) => return Err(NoMemory),
    }
}

/// A copy of what is absent.
fn copy_absent(alloc: Global, absent: &Absent) -> Result<Absent, NoMemory>
    ensures { IfOk result (λ copy. copy ≡ absent.now) }
{
    let devices = copy_numbers(alloc, absent.devices.as_slice())?;
    let links = copy_numbers(alloc, absent.links.as_slice())?;
    Ok(Absent { devices, links })
}

/// The root that is given, or a device of the topology.
fn root_within(topo: &Topology, given: Option<u32>, other: u32) -> u32
    requires { IfSome given (λ r. r < length (network topo.now).devices) }
    ensures within { result < length (network topo.now).devices }
    ensures given { IfSome given (λ r. result ≡ r) }
{
    match given {
        Some(root) => root,
        None => device_within(topo, other),
    }
}

/// The plan of a draft, with the waits of another plan and with all that is absent there. Where a root
/// is given, it is the plan's root.
pub(crate) fn plan_of(
    alloc: Global,
    topo: &Topology,
    frame: &Plan,
    root: Option<u32>,
    draft: &Draft,
) -> Result<Plan, NoMemory>
    requires frame { Fits (network topo.now) frame.now }
    requires root { IfSome root (λ r. r < length (network topo.now).devices) }
    ensures fits { IfOk result (Fits (network topo.now)) }
    ensures wanted { HasLeastWaits (network topo.now) frame.now
        → IfOk result (IsWanted (network topo.now) frame.now.absent root) }
{
    Ok(Plan {
        root: root_within(topo, root, draft.root),
        backup_root: device_within(topo, draft.backup_root),
        wait_first: frame.wait_first,
        wait_second: frame.wait_second,
        wait: frame.wait,
        absent: copy_absent(alloc, &frame.absent)?,
        rows: rows_within(alloc, topo, draft)?,
    })
}

/// A plan with what the checker says of it.
pub(crate) fn judge(alloc: Global, topo: &Topology, plan: Plan) -> Result<Found, NoMemory>
    requires { Fits (network topo.now) plan }
    ensures { (absent : AbsentSeen) (root : Option ℕ) → IsWanted (network topo.now) absent root plan
        → IfOk result (IsJudged (network topo.now) absent root) }
{
    match check(alloc, topo, &plan)? {
        Verdict::Accepted => Ok(Found::Plan(plan)),
        Verdict::Refused(breach) => Ok(Found::NoPlan(plan, breach)),
    }
}
