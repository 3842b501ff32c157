//! Messages: which were sent, and which of them may still come.

use crate::plain::history::{Plain, Sent};
use crate::plain::things::{failed_by, received_by, used_by};
use sd_device::msg::{Flight, Message};
use sd_plan::End;
use sd_plan::topo::Thing;
use sd_sched::Event;
use std::alloc::AllocError;

/// Whether the event fails the link or the receiver of a flight.
fn is_cut_by(event: &Event, flight: &Flight) -> bool {
    match failed_by(event) {
        Some(Thing::Link(link)) => link == flight.link,
        Some(Thing::Device(device)) => device == flight.receiver,
        None => false,
    }
}

impl Plain<'_> {
    /// The message with a number.
    pub fn sent(&self, number: u64) -> Option<Sent> {
        let place = usize::try_from(number.checked_sub(1)?).ok()?;
        self.sent.get(place).copied()
    }

    /// The flight of the message with a number.
    pub fn flight(&self, number: u64) -> Option<Flight> {
        Some(self.sent(number)?.flight)
    }

    /// Whether the message was received or lost.
    fn was_used(&self, number: u64) -> bool {
        for step in &self.steps {
            if used_by(&step.event) == Some(number) {
                return true;
            }
        }
        false
    }

    /// Whether its link or its receiver failed after it was sent.
    fn was_swept(&self, sent: &Sent) -> bool {
        for step in &self.steps {
            if step.place > sent.place && is_cut_by(&step.event, &sent.flight) {
                return true;
            }
        }
        false
    }

    /// Whether the event cuts off a message that could still come.
    pub fn sweeps(&self, event: &Event) -> bool {
        for sent in &self.sent {
            if is_cut_by(event, &sent.flight) && !self.is_spent(sent, event.reference()) {
                return true;
            }
        }
        false
    }

    /// Whether the message can no longer come at a reference.
    pub fn is_spent(&self, sent: &Sent, reference: u64) -> bool {
        !sent.flight.reaches
            || sent.flight.last < reference.max(self.latest_reference())
            || self.was_used(sent.flight.number)
            || self.was_swept(sent)
    }

    /// The message that an event receives.
    pub fn taken(&self, event: &Event) -> Option<Flight> {
        self.flight(received_by(event)?)
    }

    /// The flight of a message over one end.
    fn flight_over(&self, end: &End, sender: u32, message: Message) -> Flight {
        let sent_at = self.latest_reference();
        let (_, most) = self.net.delay(end.link, end.device);
        Flight {
            number: (self.sent.len() as u64).saturating_add(1),
            link: end.link,
            sender,
            receiver: end.device,
            sent_at,
            due: sent_at.saturating_add(most),
            last: sent_at.saturating_add(most).saturating_add(most),
            reaches: !self.has_failed(Thing::Link(end.link)) && self.is_up(end.device),
            message,
        }
    }

    /// A device sends a message at the latest step, and how many flights that makes.
    pub(crate) fn send(&mut self, d: u32, message: Message) -> Result<u32, AllocError> {
        let epoch = self.epoch_of(d);
        let is_staged = self.is_open() && epoch == self.staged_epoch();
        if epoch != self.epoch() && !is_staged {
            return Ok(0);
        }
        let place = self.steps.len().saturating_sub(1);
        let mut count = 0u32;
        let ends = self.net.ends_below(self.alloc, epoch, d)?;
        for end in &ends {
            let flight = self.flight_over(end, d, message);
            self.sent.push(Sent { place, flight })?;
            count = count.saturating_add(1);
        }
        Ok(count)
    }
}
