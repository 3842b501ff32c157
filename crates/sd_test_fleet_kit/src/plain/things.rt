//! What events do to things and messages.

use sd_plan::topo::Thing;
use sd_sched::Event;

/// The thing that the event fails.
pub fn failed_by(event: &Event) -> Option<Thing> {
    match *event {
        Event::FailDevice { device, .. } => Some(Thing::Device(device)),
        Event::FailLink { link, .. } => Some(Thing::Link(link)),
        _ => None,
    }
}

/// The thing that the event mends.
pub fn mended_by(event: &Event) -> Option<Thing> {
    match *event {
        Event::MendDevice { device, .. } => Some(Thing::Device(device)),
        Event::MendLink { link, .. } => Some(Thing::Link(link)),
        _ => None,
    }
}

/// The number of the message that the event receives.
pub fn received_by(event: &Event) -> Option<u64> {
    match *event {
        Event::Recv { message, .. } => Some(message),
        _ => None,
    }
}

/// The number of the message that the event receives or loses.
pub fn used_by(event: &Event) -> Option<u64> {
    match *event {
        Event::Recv { message, .. } | Event::Lose { message, .. } => Some(message),
        _ => None,
    }
}
