//! The premises on clocks that are set, on oscillators and on delays.

use super::replay::PlainReplay;
use sd_num::Rates;
use sd_sched::Event;
use sd_test_fleet_kit::plain::Subject;

/// Whether a counter went on by `elapsed` while the reference went on by `passed`, both in ps, at
/// the rates of its oscillator.
fn is_at_rate(rates: Rates, elapsed: u64, passed: u64) -> bool {
    let off = u128::from(elapsed.abs_diff(passed)).saturating_mul(1_000_000);
    let drift = u128::from(rates.ppm).saturating_mul(u128::from(elapsed));
    let grain = u128::from(rates.grain).saturating_mul(1_000_000);
    off <= drift.saturating_add(grain)
}

impl PlainReplay<'_> {
    /// A start, join or fix whose clock is farther from the reference than it says.
    pub(crate) fn is_against_start(&self, event: &Event) -> bool {
        match *event {
            Event::Start {
                reference,
                clock,
                eps,
                ..
            }
            | Event::Join {
                reference,
                clock,
                eps,
                ..
            }
            | Event::Fix {
                reference,
                clock,
                eps,
                ..
            } => clock.abs_diff(reference) > eps,
            _ => false,
        }
    }

    /// A reading that does not fit to one before it in the same life of its device.
    pub(crate) fn is_against_drift(&self, event: &Event) -> bool {
        let (Some(d), Some(counter)) = (event.device(), event.counter()) else {
            return false;
        };
        match self.plain.latest(d, Subject::Making) {
            Some(made) if !is_making(event) => {
                self.differs_since(made.place, d, counter, event.reference())
            }
            _ => false,
        }
    }

    /// Whether a reading does not fit to one of the device from some place on.
    fn differs_since(&self, place: usize, d: u32, counter: u64, reference: u64) -> bool {
        let rates = self.site.net.rates(d);
        for step in &self.plain.steps {
            if step.place >= place
                && step.names(d)
                && let Some(earlier) = step.event.counter()
                && !is_at_rate(
                    rates,
                    counter.saturating_sub(earlier),
                    reference.saturating_sub(step.event.reference()),
                )
            {
                return true;
            }
        }
        false
    }

    /// A message that is received too early or too late.
    pub(crate) fn is_against_delay(&self, event: &Event) -> bool {
        match self.plain.taken(event) {
            Some(flight) => {
                let age = event.reference().saturating_sub(flight.sent_at);
                let (least, most) = self.site.net.delay(flight.link, flight.receiver);
                age < least || age > most
            }
            None => false,
        }
    }
}

/// Whether a device's life begins with the event.
pub(crate) fn is_making(event: &Event) -> bool {
    matches!(event, Event::Start { .. } | Event::Join { .. })
}
