//! What an accepted event does.

use crate::plain::history::{Plain, Step, Transition};
use sd_device::msg::Message;
use sd_num::clock::Report;
use sd_sched::Event;
use std::alloc::AllocError;

impl Plain<'_> {
    /// What the named device does.
    fn transition(&self, event: &Event) -> Transition {
        match *event {
            Event::Start { .. } => Transition::Started(self.epoch()),
            Event::Join { .. } => Transition::Joined,
            Event::Tick {
                device,
                counter,
                ..
            } => self.tick(device, counter),
            Event::Recv {
                device,
                message,
                ..
            } => match self.flight(message) {
                Some(flight) => self.receipt(device, flight.link, &flight.message),
                None => Transition::Nothing,
            },
            Event::Give { .. } => Transition::Given(self.staged_epoch()),
            Event::Commit { device, .. } => self.commit(device),
            Event::Seal { .. } => Transition::Sealed,
            _ => Transition::Nothing,
        }
    }

    /// What the device sends after a transition at a counter.
    fn message(&self, d: u32, report: Report) -> Message {
        Message {
            epoch: self.epoch_of(d),
            stamp: self.stamp(d),
            clock: report.clock,
            eps: report.eps,
        }
    }

    /// The messages of the latest step: how many there are.
    fn send_for(&mut self, event: &Event, transition: Transition) -> Result<u32, AllocError> {
        match *event {
            Event::Tick {
                device,
                counter,
                ..
            } if matches!(transition, Transition::Emitted | Transition::TookOver) => {
                let message = self.message(device, self.report(device, counter));
                self.send(device, message)
            }
            Event::Recv { device, .. } if transition.accepts() => {
                let message = self.message(device, self.kept(device));
                self.send(device, message)
            }
            _ => Ok(0),
        }
    }

    /// An event happens that is not refused. Answers how many flights it sends.
    pub fn happen(&mut self, event: Event) -> Result<u32, AllocError> {
        let transition = self.transition(&event);
        self.steps.push(Step {
            place: self.steps.len(),
            event,
            transition,
            closed: false,
        })?;
        let sent = self.send_for(&event, transition)?;
        if self.can_close() {
            self.close();
        }
        Ok(sent)
    }
}
