//! In what the worlds of two fleets differ.
ghost use Rattle.std.specs.Prelude.{◌≡◌, ◌<◌, OnOk, IfErr};
ghost use Rattle.sd_resume.specs.Numbers.{shift_of};
ghost use Rattle.sd_resume.specs.Worlds.{MomentsAgree, StatesAgree, LinksAgree};
ghost use Rattle.sd_resume.specs.Fleets.{world_of, devices_of, links_of, FleetsDiffer};

use crate::differences::Difference;
use crate::shift::Shift;
use sd_device::Device;
use sd_fleet::Fleet;
use sd_plan::topo::Thing;

/// The first in which they differ, of what is one for all devices and links.
pub(crate) fn compare_moments(
    first: &Fleet<Device>,
    second: &Fleet<Device>,
    shift: &Shift,
) -> Result<(), Difference>
    ensures agree { OnOk result
        (MomentsAgree (shift_of shift.now) (world_of first.now) (world_of second.now)) }
    ensures differ { IfErr result (FleetsDiffer (shift_of shift.now) first.now second.now) }
{
    let one = first.world();
    let other = second.world();
    if one.window().is_open() || other.window().is_open() {
        return Err(Difference::Window);
    }
    if one.reference() != other.reference() {
        return Err(Difference::Time);
    }
    if u64::from(one.epoch()) != u64::from(other.epoch()) + u64::from(shift.plans) {
        return Err(Difference::Plan);
    }
    if one.has_ended() != other.has_ended() {
        return Err(Difference::End);
    }
    Ok(())
}

/// The first in which they differ, of what they know of a device.
pub(crate) fn compare_states(
    first: &Fleet<Device>,
    second: &Fleet<Device>,
    shift: &Shift,
    d: u32,
) -> Result<(), Difference>
    requires first { d < devices_of first.now }
    requires second { d < devices_of second.now }
    ensures agree { OnOk result (StatesAgree (world_of first.now) (world_of second.now) d) }
    ensures differ { IfErr result (FleetsDiffer (shift_of shift.now) first.now second.now) }
{
    let one = first.world();
    let other = second.world();
    if one.is_up(d) != other.is_up(d) {
        return Err(Difference::Up { device: d });
    }
    let thing = Thing::Device(d);
    if one.has_failed(thing) != other.has_failed(thing) {
        return Err(Difference::Failed { thing });
    }
    if other.is_up(d) && one.reading(d) != other.reading(d) {
        return Err(Difference::Reading { device: d });
    }
    Ok(())
}

/// The first link of which they do not know the same.
pub(crate) fn compare_links(
    first: &Fleet<Device>,
    second: &Fleet<Device>,
    shift: &Shift,
) -> Result<(), Difference>
    requires { links_of first.now ≡ links_of second.now }
    ensures agree { OnOk result (LinksAgree (world_of first.now) (world_of second.now)
        (links_of first.now)) }
    ensures differ { IfErr result (FleetsDiffer (shift_of shift.now) first.now second.now) }
{
    let one = first.world();
    let other = second.world();
    for l in 0..first.links() {
        let link = Thing::Link(l);
        if one.has_failed(link) != other.has_failed(link) {
            return Err(Difference::Failed { thing: link });
        }
    }
    Ok(())
}
