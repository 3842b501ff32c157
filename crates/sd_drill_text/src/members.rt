//! The members of a plan, as a list.
ghost use Rattle.std.specs.Prelude.{◌≡◌, ◌++◌, ◌∷◌, [], IfOk, OnOk, IsTrue, if◌then◌else◌};
ghost use Rattle.sd_num.specs.Lists.{ascends};
ghost use Rattle.sd_plan.specs.Plans as plans;
ghost use Rattle.sd_plan.specs.topo.Topologies.{network};

use sd_num::{NoMemory, contains};
use sd_plan::{DeviceList, IndexedPlan, Plan};
use std::alloc::Global;

/// Whether a device takes part.
fn is_member(plan: &Plan, d: u32) -> bool
    requires { IsTrue (ascends plan.now.absent.devices) }
    ensures { result ≡ plans.is_member plan.now d }
{
    !contains(plan.absent.devices.as_slice(), d)
}

/// Adds a device to the members, if it takes part.
fn add_member(alloc: Global, members: &mut DeviceList, plan: &Plan, d: u32) -> Result<(), NoMemory>
    requires { IsTrue (ascends plan.now.absent.devices) }
    ensures { OnOk result (members.new ≡ members.old
        ++ (if plans.is_member plan.now d then d ∷ [] else [])) }
{
    if !is_member(plan, d) {
        return Ok(());
    }
    members.push(alloc, d)
}

/// The members of a plan, ascending.
pub fn members_of(alloc: Global, planned: IndexedPlan<'_>) -> Result<DeviceList, NoMemory>
    ensures { IfOk result (λ members. members
        ≡ plans.members (network planned.entry.topo.now) planned.entry.plan.now) }
{
    let mut members = DeviceList::new(alloc);
    for d in 0..planned.topo.devices() {
        add_member(alloc, &mut members, planned.plan, d)?;
    }
    Ok(members)
}
