//! What devices and messages do by themselves: when devices tick, when messages come, and what
//! counters and clocks show.

use super::tempers::{Temper, goes_wrong};
use crate::plain::PlainReplay;
use sd_plan::topo::Thing;
use sd_sched::Event;
use sd_test_fleet_kit::plain::{Numbers, Plain, Sent, Step, Subject};

/// A history so far, and how it goes on.
#[derive(Clone, Copy)]
pub(super) struct Course<'a> {
    pub(super) replay: &'a PlainReplay<'a>,
    pub(super) temper: &'a Temper,
    /// What fails while the plan of each place is in force.
    pub(super) failures: &'a [Option<Thing>],
    /// Another number gives another history.
    pub(super) seed: u64,
}

/// What is drawn by lot of one and the same thing.
#[derive(Clone, Copy)]
pub(super) enum Lot {
    Tick,
    Delay,
    Loss,
    Counter,
}

/// What comes by itself.
#[derive(Clone, Copy)]
pub(super) enum Coming {
    Tick(u32),
    Message(Sent),
}

/// What comes at a moment.
#[derive(Clone, Copy)]
pub(super) struct Due {
    moment: u64,
    coming: Coming,
}

/// The earlier of two, the first where neither is.
fn earlier(first: Option<Due>, other: Option<Due>) -> Option<Due> {
    match (first, other) {
        (Some(one), Some(two)) => Some(if two.moment < one.moment { two } else { one }),
        (Some(one), None) => Some(one),
        (None, other) => other,
    }
}

impl Course<'_> {
    pub(super) fn plain(&self) -> &Plain<'_> {
        &self.replay.plain
    }

    /// Numbers that are the same for the same thing.
    fn lot(&self, lot: Lot, number: u64) -> Numbers {
        let key = number.wrapping_mul(4).wrapping_add(lot as u64);
        Numbers {
            state: self
                .seed
                .wrapping_add(key.wrapping_mul(0x9e37_79b9_7f4a_7c15)),
        }
    }

    /// The latest tick, start or join of a device.
    fn latest_look(&self, d: u32) -> Option<Step> {
        let mut latest = None;
        for step in &self.plain().steps {
            let looks = matches!(
                step.event,
                Event::Tick { .. } | Event::Start { .. } | Event::Join { .. }
            );
            if looks && step.names(d) {
                latest = Some(*step);
            }
        }
        latest
    }

    /// When a device that is up ticks next.
    fn tick_of(&self, d: u32) -> Option<Due> {
        let look = self.latest_look(d).filter(|_| self.plain().is_up(d))?;
        let mut numbers = self.lot(Lot::Tick, look.place as u64);
        let tick = self.replay.site.tick;
        let wait = if goes_wrong(&mut numbers, self.temper.ticks) {
            tick.saturating_add(1)
                .saturating_add(numbers.below(tick.saturating_mul(3)))
        } else {
            tick.saturating_sub(numbers.below(tick / 4))
        };
        Some(Due {
            moment: look.event.reference().saturating_add(wait),
            coming: Coming::Tick(d),
        })
    }

    /// When a message that may still come does so.
    fn arrival_of(&self, sent: &Sent) -> Option<Due> {
        if self.plain().is_spent(sent, 0) {
            return None;
        }
        let flight = sent.flight;
        let mut numbers = self.lot(Lot::Delay, flight.number);
        let (least, most) = self.replay.site.net.delay(flight.link, flight.receiver);
        let delay = if !goes_wrong(&mut numbers, self.temper.delays) {
            least.saturating_add(numbers.below(most.saturating_sub(least).saturating_add(1)))
        } else if numbers.once_in(2) {
            numbers.below(least)
        } else {
            most.saturating_add(1).saturating_add(numbers.below(most))
        };
        Some(Due {
            moment: flight.sent_at.saturating_add(delay),
            coming: Coming::Message(*sent),
        })
    }

    fn first_tick(&self) -> Option<Due> {
        let mut first = None;
        for d in 0..self.replay.site.net.devices {
            first = earlier(first, self.tick_of(d));
        }
        first
    }

    fn first_arrival(&self) -> Option<Due> {
        let mut first = None;
        for sent in &self.plain().sent {
            first = earlier(first, self.arrival_of(sent));
        }
        first
    }

    /// What comes next by itself, and when.
    pub(super) fn next(&self) -> Option<(u64, Coming)> {
        let due = earlier(self.first_arrival(), self.first_tick())?;
        Some((due.moment, due.coming))
    }

    /// Whether a message is lost on its way.
    pub(super) fn is_lost(&self, number: u64) -> bool {
        goes_wrong(&mut self.lot(Lot::Loss, number), self.temper.losses)
    }

    /// What the counter of a device shows. It never falls within a life.
    pub(super) fn counter(&self, d: u32, reference: u64) -> u64 {
        let rates = self.replay.site.net.rates(d);
        let fast = if rates.grain == 0 {
            0
        } else {
            u64::from(rates.ppm / 2)
        };
        let shown = reference
            .saturating_add(u64::from(d).saturating_mul(7))
            .saturating_add(reference.saturating_mul(fast) / 1_000_000);
        let mut numbers = self.lot(Lot::Counter, self.plain().steps.len() as u64);
        let wrong = if goes_wrong(&mut numbers, self.temper.counters) {
            numbers.below(60)
        } else {
            0
        };
        let read = self.plain().latest_counter(d, Subject::Reading);
        shown.saturating_add(wrong).max(read)
    }

    /// A clock that is set, and how far it may be off.
    pub(super) fn clock(&self, numbers: &mut Numbers, reference: u64) -> (u64, u64) {
        let eps = numbers.below(20);
        let off = if goes_wrong(numbers, self.temper.clocks) {
            eps.saturating_add(1).saturating_add(numbers.below(30))
        } else {
            numbers.below(eps.saturating_add(1))
        };
        let clock = if numbers.once_in(2) {
            reference.saturating_add(off)
        } else {
            reference.saturating_sub(off)
        };
        (clock, eps)
    }
}
