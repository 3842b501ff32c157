//! In what the nodes of a device differ, where it is up.
ghost use Rattle.std.specs.Prelude.{◌≡◌, ◌≤◌, ◌<◌, ◌^◌, true, Some, is_some, IfSome, OnOk, IfErr};
ghost use Rattle.sd_device.specs.Rules.{floor_in, ceiling_in};
ghost use Rattle.sd_world.specs.world.Registers.{up_at, reading_at};
ghost use Rattle.sd_fleet.specs.Nodes.{node_at};
ghost use Rattle.sd_resume.specs.Numbers.{shift_of};
ghost use Rattle.sd_resume.specs.Devices.{NodesAgree};
ghost use Rattle.sd_resume.specs.Worlds.{StatesAgree};
ghost use Rattle.sd_resume.specs.Fleets.{world_of, devices_of, FleetsDiffer};

use crate::devices::compare_devices;
use crate::differences::Difference;
use crate::shift::Shift;
use sd_device::Device;
use sd_fleet::Fleet;

/// The first register in which a device differs, of which they know the same.
pub(crate) fn compare_nodes(
    first: &Fleet<Device>,
    second: &Fleet<Device>,
    shift: &Shift,
    d: u32,
) -> Result<(), Difference>
    requires first { d < devices_of first.now }
    requires second { d < devices_of second.now }
    requires states { StatesAgree (world_of first.now) (world_of second.now) d }
    ensures agree { OnOk result (up_at (world_of second.now) d ≡ true
        → NodesAgree (shift_of shift.now) (reading_at (world_of second.now) d)
        (node_at first.now.nodes.items d) (node_at second.now.nodes.items d)) }
    ensures differ { IfErr result (FleetsDiffer (shift_of shift.now) first.now second.now) }
{
    let Some(one) = live_node(first, d) else {
        return Ok(());
    };
    let Some(other) = live_node(second, d) else {
        return Ok(());
    };
    let now = second.world().reading(d);
    match compare_devices(one, other, shift, now) {
        Some(register) => Err(Difference::Register {
            device: d,
            register,
        }),
        None => Ok(()),
    }
}

/// The node of a device, where it is up.
pub(crate) fn live_node(fleet: &Fleet<Device>, d: u32) -> Option<&Device>
    requires { d < devices_of fleet.now }
    ensures up { is_some result ≡ up_at (world_of fleet.now) d }
    ensures node { IfSome result (λ node. node_at fleet.now.nodes.items d ≡ Some node.now) }
    ensures floor { IfSome result
        (λ node. floor_in node.now ≤ reading_at (world_of fleet.now) d) }
    ensures ceiling { IfSome result (λ node. ceiling_in node.now < 2 ^ 100) }
{
    if !fleet.world().is_up(d) {
        return None;
    }
    let Some(node) = fleet.node(d) else {
        // a device that is up has a node
        unreachable!()
    };
    Some(node)
}
