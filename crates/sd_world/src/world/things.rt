//! What an event says of devices, links and messages.
ghost use Rattle.std.specs.Prelude.{◌≡◌};
ghost use Rattle.sd_sched.specs.Events as events;
ghost use Rattle.sd_history.specs.Things as of_things;

use sd_plan::topo::Thing;
use sd_sched::Event;

/// The device or link that the event fails.
pub fn failure_of(event: &Event) -> Option<Thing>
    ensures { result ≡ of_things.failure_of event.now }
{
    match *event {
        Event::FailDevice { device, .. } => Some(Thing::Device(device)),
        Event::FailLink { link, .. } => Some(Thing::Link(link)),
        _ => None,
    }
}

/// The device or link that the event mends.
pub fn mended(event: &Event) -> Option<Thing>
    ensures { result ≡ of_things.mended event.now }
{
    match *event {
        Event::MendDevice { device, .. } => Some(Thing::Device(device)),
        Event::MendLink { link, .. } => Some(Thing::Link(link)),
        _ => None,
    }
}

/// The number of the link that the event names.
pub fn link_of(event: &Event) -> Option<u32>
    ensures { result ≡ events.link_of event.now }
{
    match *event {
        Event::FailLink { link, .. } | Event::MendLink { link, .. } => Some(link),
        _ => None,
    }
}

/// The number of the message that the event receives or loses.
pub fn message_of(event: &Event) -> Option<u64>
    ensures { result ≡ events.message_of event.now }
{
    match *event {
        Event::Recv { message, .. } | Event::Lose { message, .. } => Some(message),
        _ => None,
    }
}
