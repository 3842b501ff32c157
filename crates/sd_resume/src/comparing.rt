//! Whether two fleets stand so that all later events are the same after both.
ghost use Rattle.std.specs.Prelude.{◌≡◌, ◌<◌, ◌&&◌, nat_eq, OnOk, IfErr};
ghost use Rattle.sd_resume.specs.Numbers.{shift_of};
ghost use Rattle.sd_resume.specs.Fleets.{devices_of, links_of, DeviceAgrees, AllDevicesAgree, FleetsAgree, FleetsDiffer};
ghost use Rattle.sd_resume.specs.Messages.{MessagesAgree, MessagesDiffer};
ghost use Rattle.sd_resume.specs.Differences.{Differs, Opens, OfRuns};

use crate::differences::Difference;
use crate::messages::{first_on_its_way, has_sent};
use crate::nodes::compare_nodes;
use crate::shift::Shift;
use crate::worlds::{compare_links, compare_moments, compare_states};
use sd_device::Device;
use sd_fleet::Fleet;

/// Whether the second fleet is an opening for the first, whose numbers are greater by the shift: all
/// later events are the same after both then. Or the first in which they differ.
///
/// It costs a look at each device and each link, and at each message that the first has sent.
pub fn agrees(
    first: &Fleet<Device>,
    second: &Fleet<Device>,
    shift: &Shift,
) -> Result<(), Difference>
    ensures opens { OnOk result
        (OfRuns (shift_of shift.now) first.now second.now (Opens (shift_of shift.now))) }
    ensures differs { IfErr result (λ difference.
        OfRuns (shift_of shift.now) first.now second.now
        (λ net front plans one other. Differs (shift_of shift.now) one other difference)) }
{
    if !are_as_large(first, second) {
        return Err(Difference::Network);
    }
    compare_fleets(first, second, shift)?;
    compare_messages(first, second, shift)?;
    Ok(())
}

/// Whether they have as many devices and as many links.
fn are_as_large(first: &Fleet<Device>, second: &Fleet<Device>) -> bool
    ensures { result ≡ (nat_eq (devices_of first.now) (devices_of second.now)
        && nat_eq (links_of first.now) (links_of second.now)) }
{
    first.devices() == second.devices() && first.links() == second.links()
}

/// The first in which they differ, of what they keep beside flights.
fn compare_fleets(
    first: &Fleet<Device>,
    second: &Fleet<Device>,
    shift: &Shift,
) -> Result<(), Difference>
    requires devices { devices_of first.now ≡ devices_of second.now }
    requires links { links_of first.now ≡ links_of second.now }
    ensures agree { OnOk result (FleetsAgree (shift_of shift.now) first.now second.now) }
    ensures differ { IfErr result (FleetsDiffer (shift_of shift.now) first.now second.now) }
{
    compare_moments(first, second, shift)?;
    compare_all_devices(first, second, shift)?;
    compare_links(first, second, shift)?;
    Ok(())
}

/// The first in which they differ, of what they keep of devices.
fn compare_all_devices(
    first: &Fleet<Device>,
    second: &Fleet<Device>,
    shift: &Shift,
) -> Result<(), Difference>
    requires { devices_of first.now ≡ devices_of second.now }
    ensures agree { OnOk result (AllDevicesAgree (shift_of shift.now) first.now second.now
        (devices_of first.now)) }
    ensures differ { IfErr result (FleetsDiffer (shift_of shift.now) first.now second.now) }
{
    for d in 0..first.devices() {
        compare_device(first, second, shift, d)?;
    }
    Ok(())
}

/// The first in which they differ, of what they keep of a device.
fn compare_device(
    first: &Fleet<Device>,
    second: &Fleet<Device>,
    shift: &Shift,
    d: u32,
) -> Result<(), Difference>
    requires first { d < devices_of first.now }
    requires second { d < devices_of second.now }
    ensures agree { OnOk result (DeviceAgrees (shift_of shift.now) first.now second.now d) }
    ensures differ { IfErr result (FleetsDiffer (shift_of shift.now) first.now second.now) }
{
    compare_states(first, second, shift, d)?;
    compare_nodes(first, second, shift, d)?;
    Ok(())
}

/// The first in which they differ, of the messages that they sent.
fn compare_messages(
    first: &Fleet<Device>,
    second: &Fleet<Device>,
    shift: &Shift,
) -> Result<(), Difference>
    ensures agree { OnOk result (MessagesAgree (shift_of shift.now) first.now second.now) }
    ensures differ { IfErr result (MessagesDiffer (shift_of shift.now) first.now second.now) }
{
    if !has_sent(first, shift.messages) {
        return Err(Difference::Messages);
    }
    if !has_sent(second, 0) {
        return Err(Difference::Sent);
    }
    match first_on_its_way(first, shift.messages) {
        Some(number) => Err(Difference::OnItsWay { number }),
        None => Ok(()),
    }
}
