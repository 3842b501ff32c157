//! What comes of an accepted event.

use sd_device::msg::{Flight, TakeFault};
use sd_fleet::Outcome;
use sd_num::clock::Report;
use sd_sched::Event;
use sd_test_fleet_kit::plain::Plain;
use std::alloc::AllocError;

/// How the message with a number stands.
pub(super) fn look(plain: &Plain<'_>, number: u64) -> Result<Flight, TakeFault> {
    match plain.sent(number) {
        None => Err(TakeFault::Unknown),
        Some(sent) if plain.is_spent(&sent, 0) => Err(TakeFault::Spent),
        Some(sent) => Ok(sent.flight),
    }
}

/// The report of an ask.
fn report_for(plain: &Plain<'_>, event: &Event) -> Option<(u32, Report)> {
    match *event {
        Event::Ask {
            device,
            counter,
            ..
        } => Some((device, plain.report(device, counter))),
        _ => None,
    }
}

/// The named device, where it follows the plan with a number.
fn follower(plain: &Plain<'_>, event: &Event, epoch: u32) -> Option<u32> {
    event.device().filter(|d| plain.is_of(*d, epoch))
}

/// Whether the named device acts as root.
fn acted(plain: &Plain<'_>, event: &Event) -> bool {
    match event.device() {
        Some(d) => plain.acts(d),
        None => false,
    }
}

/// An event happens that is not refused.
pub(super) fn happen(plain: &mut Plain<'_>, event: Event) -> Result<Outcome, AllocError> {
    let acted = acted(plain, &event);
    let taken = plain.taken(&event);
    let open = plain.is_open();
    let staged = plain.staged_epoch();
    let was_new = follower(plain, &event, staged).is_some();
    let first = plain.sent.len() as u64;
    let sent = plain.happen(event)?;
    let activated = follower(plain, &event, staged).filter(|_| open && !was_new);
    Ok(Outcome {
        report: report_for(plain, &event),
        taken,
        first_sent: if sent == 0 {
            0
        } else {
            first.saturating_add(1)
        },
        sent,
        activated,
        acted,
        closed: plain.has_just_closed(),
        ended: matches!(event, Event::End { .. }),
    })
}
