//! The causes for which an event is refused.

use sd_fleet::ApplyFault;
use sd_plan::topo::Thing;
use sd_sched::Event;
use sd_test_fleet_kit::plain::{Plain, Stage, Subject};
use sd_world::world::{failure_of, link_of, mended, message_of};

/// Whether the event makes its device.
fn makes(event: &Event) -> bool {
    matches!(event, Event::Start { .. } | Event::Join { .. })
}

/// The first cause that holds.
pub(super) fn refusal(plain: &Plain<'_>, event: &Event) -> Option<ApplyFault> {
    let causes = [
        (
            ApplyFault::UnknownDevice,
            names_unknown_device(plain, event),
        ),
        (ApplyFault::UnknownLink, names_unknown_link(plain, event)),
        (ApplyFault::DeadDevice, names_dead_device(plain, event)),
        (ApplyFault::DeadLink, names_dead_link(plain, event)),
        (
            ApplyFault::UnknownMessage,
            names_unknown_message(plain, event),
        ),
        (ApplyFault::SpentMessage, names_spent_message(plain, event)),
        (ApplyFault::WrongDevice, names_wrong_device(plain, event)),
        (
            ApplyFault::TimeFalls,
            event.reference() < plain.latest_reference(),
        ),
        (ApplyFault::CounterFalls, counter_falls(plain, event)),
        (ApplyFault::NotStarted, is_not_started(plain, event)),
        (ApplyFault::StartedTwice, starts_twice(plain, event)),
        (ApplyFault::NoPlanLeft, lacks_plan(plain, event)),
        (ApplyFault::WindowOrder, is_out_of_order(plain, event)),
        (ApplyFault::AfterEnd, has_ended(plain)),
        (ApplyFault::NotFailed, mends_whole(plain, event)),
        (ApplyFault::NotMember, names_no_member(plain, event)),
        (ApplyFault::TooManyEvents, plain.steps.len() >= 1 << 26),
    ];
    for (fault, holds) in causes {
        if holds {
            return Some(fault);
        }
    }
    None
}

fn has_ended(plain: &Plain<'_>) -> bool {
    for step in &plain.steps {
        if matches!(step.event, Event::End { .. }) {
            return true;
        }
    }
    false
}

fn names_unknown_device(plain: &Plain<'_>, event: &Event) -> bool {
    match event.device() {
        Some(d) => d >= plain.net.devices,
        None => false,
    }
}

fn names_unknown_link(plain: &Plain<'_>, event: &Event) -> bool {
    match link_of(event) {
        Some(l) => l >= plain.net.links(),
        None => false,
    }
}

fn names_dead_device(plain: &Plain<'_>, event: &Event) -> bool {
    match event.device() {
        Some(d) => mended(event).is_none() && plain.has_failed(Thing::Device(d)),
        None => false,
    }
}

fn names_dead_link(plain: &Plain<'_>, event: &Event) -> bool {
    match link_of(event) {
        Some(l) => mended(event).is_none() && plain.has_failed(Thing::Link(l)),
        None => false,
    }
}

fn names_unknown_message(plain: &Plain<'_>, event: &Event) -> bool {
    match message_of(event) {
        Some(number) => plain.sent(number).is_none(),
        None => false,
    }
}

fn names_spent_message(plain: &Plain<'_>, event: &Event) -> bool {
    let Some(number) = message_of(event) else {
        return false;
    };
    match plain.sent(number) {
        Some(sent) => plain.is_spent(&sent, event.reference()),
        None => false,
    }
}

fn names_wrong_device(plain: &Plain<'_>, event: &Event) -> bool {
    match plain.taken(event) {
        Some(flight) => event.device() != Some(flight.receiver),
        None => false,
    }
}

fn counter_falls(plain: &Plain<'_>, event: &Event) -> bool {
    match (event.device(), event.counter()) {
        (Some(d), Some(counter)) => !makes(event)
            && counter < plain.latest_counter(d, Subject::Reading),
        _ => false,
    }
}

fn is_not_started(plain: &Plain<'_>, event: &Event) -> bool {
    let Some(d) = event.device() else {
        return false;
    };
    !makes(event) && failure_of(event).is_none() && mended(event).is_none() && !plain.is_up(d)
}

fn starts_twice(plain: &Plain<'_>, event: &Event) -> bool {
    match *event {
        Event::Start { device, .. } => plain.was_made(device),
        Event::Join { device, .. } => plain.is_counted(device),
        _ => false,
    }
}

fn lacks_plan(plain: &Plain<'_>, event: &Event) -> bool {
    matches!(event, Event::Stage { .. })
        && plain.stage() == Stage::NoWindow
        && plain.epoch() >= plain.net.plans()
}

fn is_out_of_order(plain: &Plain<'_>, event: &Event) -> bool {
    let staged = plain.staged_epoch();
    match *event {
        Event::Stage { .. } => plain.stage() != Stage::NoWindow,
        Event::Give { .. }
        | Event::Join { .. }
        | Event::MendDevice { .. }
        | Event::MendLink { .. } => plain.stage() != Stage::Preparing,
        Event::Commit { device, .. } => {
            plain.stage() != Stage::Preparing
                || !plain.net.is_root(staged, device)
                || plain.given(device) != Some(staged)
        }
        Event::Seal { device, .. } => {
            plain.stage() != Stage::Committed || !plain.is_of(device, staged)
        }
        _ => false,
    }
}

fn mends_whole(plain: &Plain<'_>, event: &Event) -> bool {
    match mended(event) {
        Some(thing) => !plain.has_failed(thing),
        None => false,
    }
}

fn names_no_member(plain: &Plain<'_>, event: &Event) -> bool {
    match *event {
        Event::Start { device, .. } => !plain.is_in_force(device),
        Event::Give { device, .. } | Event::Join { device, .. } => !plain.is_in_staged(device),
        _ => false,
    }
}
