//! An event happens in a fleet by a quick way, where it has one.
ghost use Rattle.std.specs.Prelude.{IsTrue};
ghost use Rattle.sd_sched.specs.declared.Event.TheVariants as events_of;
ghost use Rattle.sd_sched.specs.Spelled.{is_within};

use sd_device::Node;
use sd_fleet::{Fleet, Outcome};
use sd_sched::Event;
use std::alloc::Global;
use std::test::Fail;

/// Whether an event names a device that acts as root.
fn acts<N: Node>(fleet: &Fleet<N>, event: &Event) -> bool {
    match event.device() {
        Some(d) => d < fleet.devices() && fleet.acts(d),
        None => false,
    }
}

/// What a tick comes to that happens by a quick way, if it is one.
fn tick<N: Node>(
    alloc: Global,
    fleet: &mut Fleet<N>,
    reference: u64,
    device: u32,
    counter: u64,
    resting: Outcome,
) -> Result<Option<Outcome>, Fail>
    requires { IsTrue (is_within (events_of.Tick reference device counter)) }
{
    if fleet.rest(reference, device, counter) {
        return Ok(Some(resting));
    }
    fleet.ready(alloc, device)?;
    Ok(match fleet.emit(reference, device, counter) {
        Some(sent) => Some(Outcome {
            first_sent: sent.first,
            sent: sent.count,
            ..resting
        }),
        None => None,
    })
}

/// What a receipt comes to that happens by a quick way, if it is one.
fn receive<N: Node>(
    alloc: Global,
    fleet: &mut Fleet<N>,
    reference: u64,
    device: u32,
    counter: u64,
    message: u64,
    resting: Outcome,
) -> Result<Option<Outcome>, Fail>
    requires { IsTrue (is_within (events_of.Recv reference device counter message)) }
{
    fleet.ready(alloc, device)?;
    Ok(match fleet.hear(reference, device, counter, message) {
        Some(heard) => Some(Outcome {
            taken: Some(heard.flight),
            first_sent: heard.sent.first,
            sent: heard.sent.count,
            ..resting
        }),
        None => None,
    })
}

/// What an event comes to that happens by a quick way, if it is one.
pub(super) fn happen_quickly<N: Node>(
    alloc: Global,
    fleet: &mut Fleet<N>,
    event: &Event,
) -> Result<Option<Outcome>, Fail>
    requires { IsTrue (is_within event.now) }
{
    let resting = Outcome {
        acted: acts(fleet, event),
        ..Outcome::nothing()
    };
    match *event {
        Event::Tick {
            reference,
            device,
            counter,
        } => tick(alloc, fleet, reference, device, counter, resting),
        Event::Recv {
            reference,
            device,
            counter,
            message,
        } => receive(alloc, fleet, reference, device, counter, message, resting),
        _ => Ok(None),
    }
}
