//! In which messages two fleets differ.
ghost use Rattle.std.specs.Prelude.{◌≡◌, ◌≤◌, ◌<◌, ◌^◌, ◌-◌, List, true, false, not, nat_le, None, IfSome};
ghost use Rattle.sd_device.specs.declared.registers.Registers.{Registers};
ghost use Rattle.sd_device.specs.contracts.device.DeviceNode.TheImpl.{ghosts as device};
ghost use Rattle.sd_history.specs.World.{Setting};
ghost use Rattle.sd_history.specs.Steps.{flight_count};
ghost use Rattle.sd_history.specs.flights.Flights.{says_unknown};
ghost use Rattle.sd_history.specs.Nodes.{NodeStep, steps_of};
ghost use Rattle.sd_fleet.specs.Standing.{StandsFor};
ghost use Rattle.sd_resume.specs.Messages.{HasSent, HasNoneOnItsWay, IsOnItsWay, IsNotOnItsWay};

use crate::differences::Difference;
use sd_device::Device;
use sd_device::msg::{Flight, TakeFault};
use sd_fleet::Fleet;

/// This many links a network has at most.
const MOST_LINKS: u64 = 32_768;

/// Whether something was found under a number that was given.
fn is_known(found: &Result<Flight, TakeFault>) -> bool
    ensures { result ≡ not (says_unknown found.now) }
{
    !matches!(found, Err(TakeFault::Unknown))
}

/// Whether this many messages were sent, or more.
fn has_sent_some(fleet: &Fleet<Device>, messages: u64) -> bool
    ensures { (setting : Setting) (run : List (NodeStep Registers))
        → StandsFor device fleet.now setting run
        → result ≡ nat_le messages (flight_count (steps_of run)) }
{
    if messages == 0 {
        return true;
    }
    let found = fleet.flight(messages);
    is_known(&found)
}

/// As many messages were sent at most: an event sends over each link once.
fn most_sent(fleet: &Fleet<Device>) -> u64
    ensures small { result < 2 ^ 64 - 1 }
    ensures most { (setting : Setting) (run : List (NodeStep Registers))
        → StandsFor device fleet.now setting run → flight_count (steps_of run) ≤ result }
{
    fleet.world().events() * MOST_LINKS
}

/// How many messages were sent.
pub(crate) fn messages_of(fleet: &Fleet<Device>) -> u64
    ensures { (setting : Setting) (run : List (NodeStep Registers))
        → StandsFor device fleet.now setting run → result ≡ flight_count (steps_of run) }
{
    let mut least = 0;
    let mut most = most_sent(fleet);
    while least < most {
        let middle = most - (most - least) / 2;
        if has_sent_some(fleet, middle) {
            least = middle;
        } else {
            most = middle - 1;
        }
    }
    least
}

/// Whether this many messages were sent, and no more.
pub(crate) fn has_sent(fleet: &Fleet<Device>, messages: u64) -> bool
    ensures { HasSent fleet.now messages result }
{
    messages_of(fleet) == messages
}

/// Whether the message with this number was sent and is not spent.
fn is_on_its_way(fleet: &Fleet<Device>, number: u64) -> bool
    ensures on { result ≡ true → IsOnItsWay fleet.now number }
    ensures off { result ≡ false → IsNotOnItsWay fleet.now number }
{
    let found = fleet.flight(number);
    found.is_ok()
}

/// The first message up to this number that is on its way, if there is one.
pub(crate) fn first_on_its_way(fleet: &Fleet<Device>, messages: u64) -> Option<u64>
    ensures none { result ≡ None → HasNoneOnItsWay fleet.now messages }
    ensures some { IfSome result (IsOnItsWay fleet.now) }
{
    for before in 0..messages {
        if is_on_its_way(fleet, before + 1) {
            return Some(before + 1);
        }
    }
    None
}
