//! By how much the numbers of two fleets differ, as their devices tell.
ghost use Rattle.std.specs.Prelude.{◌≡◌, ◌<◌, Option, min};
ghost use Rattle.sd_resume.specs.Numbers.{shift_of};
ghost use Rattle.sd_resume.specs.Fleets.{devices_of};
ghost use Rattle.sd_resume.specs.Told as told;
ghost use Rattle.sd_resume.specs.Told.{stamp_at, IsTold};

use crate::Shift;
use crate::messages::messages_of;
use crate::nodes::live_node;
use sd_device::Device;
use sd_device::msg::Stamp;
use sd_fleet::Fleet;

/// The stamp of a device, where it is up and follows a plan.
fn stamp_of(fleet: &Fleet<Device>, d: u32) -> Option<Stamp>
    requires { d < devices_of fleet.now }
    ensures { result ≡ stamp_at fleet.now d }
{
    let registers = live_node(fleet, d)?.registers();
    if registers.duty.is_some() {
        Some(registers.stamp)
    } else {
        None
    }
}

/// The shift by these stamps of a device.
fn with_stamps(shift: Shift, one: Stamp, other: Stamp) -> Shift
    ensures { shift_of result ≡ told.with_stamps (shift_of shift) one other }
{
    let mut proposed = shift;
    proposed.term = one.term.saturating_sub(other.term);
    // later terms count their rounds from the same number in both
    if other.term == 0 {
        proposed.round = one.round.saturating_sub(other.round);
    }
    proposed
}

/// The shift by what a device tells, where it does in both.
fn with_told(shift: Shift, one: Option<Stamp>, other: Option<Stamp>) -> Shift
    ensures { shift_of result ≡ told.with_told (shift_of shift) one other }
{
    match one {
        Some(one) => match other {
            Some(other) => with_stamps(shift, one, other),
            None => shift,
        },
        None => shift,
    }
}

/// How many devices both have: over one network all.
fn devices_of_both(one: &Fleet<Device>, other: &Fleet<Device>) -> u32
    ensures { result ≡ min (devices_of one.now) (devices_of other.now) }
{
    let devices = one.devices();
    devices.min(other.devices())
}

/// By how much the numbers of the first are greater. The second leaves out this many of its plans.
pub(crate) fn propose(one: &Fleet<Device>, other: &Fleet<Device>, left: u32) -> Shift
    ensures left { result.plans ≡ left }
    ensures told { IsTold one.now other.now left (shift_of result) }
{
    let messages = messages_of(one);
    let mut shift = Shift {
        plans: left,
        messages,
        term: 0,
        round: 0,
    };
    for d in 0..devices_of_both(one, other) {
        shift = with_told(shift, stamp_of(one, d), stamp_of(other, d));
    }
    shift
}
