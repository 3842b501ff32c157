//! What a history says of one device: all is looked up in the steps that name it.

use crate::plain::history::{NodeKind, Plain, Subject, Transition};
use crate::plain::things::received_by;
use sd_device::msg::{Message, Stamp};
use sd_num::clock::Report;
use sd_plan::{Hop, Plan};
use sd_sched::Event;

/// A clock and its uncertainty at a counter.
#[derive(Clone, Copy)]
struct Estimate {
    clock: u128,
    eps: u128,
    counter: u64,
}

/// Stands for the estimate of a device that was never made.
const NO_ESTIMATE: Estimate = Estimate {
    clock: 0,
    eps: 0,
    counter: 0,
};

/// The estimate that an event sets from outside.
fn set_by(event: &Event) -> Option<Estimate> {
    match *event {
        Event::Start {
            counter,
            clock,
            eps,
            ..
        }
        | Event::Join {
            counter,
            clock,
            eps,
            ..
        }
        | Event::Fix {
            counter,
            clock,
            eps,
            ..
        } => Some(Estimate {
            clock: u128::from(clock),
            eps: u128::from(eps),
            counter,
        }),
        _ => None,
    }
}

fn transition_if(holds: bool, transition: Transition) -> Transition {
    if holds {
        transition
    } else {
        Transition::Nothing
    }
}

impl Plain<'_> {
    /// The number of the plan that the device follows, 0 where it follows none.
    pub fn epoch_of(&self, d: u32) -> u32 {
        self.latest_transition(d, Subject::Plan).plan().unwrap_or(0)
    }

    /// Whether the device is up and follows the plan with a number.
    pub fn is_of(&self, d: u32, epoch: u32) -> bool {
        self.is_up(d) && self.epoch_of(d) == epoch
    }

    /// The number of the plan whose duty the device holds as given.
    pub fn given(&self, d: u32) -> Option<u32> {
        match self.latest_transition(d, Subject::Given) {
            Transition::Given(epoch) => Some(epoch),
            _ => None,
        }
    }

    /// Whether the device may move to its backup, or take over.
    pub fn is_sealed(&self, d: u32) -> bool {
        let transition = self.latest_transition(d, Subject::Sealed);
        transition.is_making() || transition == Transition::Sealed || self.has_sealed_itself(d)
    }

    /// Whether a device that seals itself has heard a message of the plan that it follows.
    fn has_sealed_itself(&self, d: u32) -> bool {
        match (
            self.latest(d, Subject::Plan),
            self.latest(d, Subject::Hearing),
        ) {
            (Some(plan), Some(heard)) => {
                self.kind == NodeKind::SelfSealing && plan.place <= heard.place
            }
            _ => false,
        }
    }

    fn has_moved(&self, d: u32) -> bool {
        self.latest_transition(d, Subject::Moved) == Transition::Moved
    }

    fn is_acting(&self, d: u32) -> bool {
        match self.latest_transition(d, Subject::Acting) {
            Transition::Started(epoch) => self.net.is_root(epoch, d),
            Transition::Committed(_) | Transition::Recommitted(_) | Transition::TookOver => true,
            _ => false,
        }
    }

    /// Whether the device is up and acts as root.
    pub fn acts(&self, d: u32) -> bool {
        self.is_up(d) && self.is_acting(d)
    }

    /// The parent that the device has, with the link to it.
    fn hop(&self, d: u32) -> Option<Hop> {
        let epoch = self.epoch_of(d);
        if self.is_acting(d) {
            None
        } else if self.has_moved(d) {
            self.net.backup(epoch, d)
        } else {
            self.net.primary(epoch, d)
        }
    }

    /// The parent of the device, where it is up.
    pub fn parent(&self, d: u32) -> Option<u32> {
        if self.is_up(d) {
            Some(self.hop(d)?.parent)
        } else {
            None
        }
    }

    /// How long it is since the latest step that tells of a subject.
    fn since(&self, d: u32, subject: Subject, counter: u64) -> u64 {
        counter.saturating_sub(self.latest_counter(d, subject))
    }

    /// The stamp that the device has seen last.
    pub(crate) fn stamp(&self, d: u32) -> Stamp {
        let mut stamp = Stamp { term: 0, round: 0 };
        for step in &self.steps {
            if step.names(d) {
                stamp = match self.message_at(&step.event) {
                    Some(message) if step.transition.accepts() => message.stamp,
                    _ => step.transition.stamp_after(stamp),
                };
            }
        }
        stamp
    }

    /// The message that an event receives.
    fn message_at(&self, event: &Event) -> Option<Message> {
        Some(self.flight(received_by(event)?)?.message)
    }

    /// The estimate that an accepted message gives.
    fn corrected(&self, event: &Event) -> Option<Estimate> {
        let Event::Recv {
            device,
            counter,
            message,
            ..
        } = *event
        else {
            return None;
        };
        let flight = self.flight(message)?;
        let (min, max) = self.net.delay(flight.link, device);
        let mid = min.saturating_add(max) / 2;
        let half = max.saturating_sub(mid);
        Some(Estimate {
            clock: flight.message.clock.saturating_add(u128::from(mid)),
            eps: flight.message.eps.saturating_add(u128::from(half)),
            counter,
        })
    }

    /// The estimate of the device: the latest that was set.
    fn estimate(&self, d: u32) -> Option<Estimate> {
        let step = self.latest(d, Subject::Estimate)?;
        if step.transition.accepts() {
            self.corrected(&step.event)
        } else {
            set_by(&step.event)
        }
    }

    /// What the device reports at a counter.
    pub fn report(&self, d: u32, counter: u64) -> Report {
        let estimate = self.estimate(d).unwrap_or(NO_ESTIMATE);
        let rates = self.net.rates(d);
        let elapsed = u128::from(counter.saturating_sub(estimate.counter));
        let growth = (u128::from(rates.ppm).saturating_mul(elapsed)).div_ceil(1_000_000);
        Report {
            clock: estimate.clock.saturating_add(elapsed),
            eps: estimate
                .eps
                .saturating_add(u128::from(rates.grain))
                .saturating_add(growth),
        }
    }

    /// What the device sends on of a message that it accepted.
    pub(crate) fn kept(&self, d: u32) -> Report {
        let Estimate { clock, eps, .. } = self.estimate(d).unwrap_or(NO_ESTIMATE);
        Report { clock, eps }
    }

    /// What the device does at a tick.
    pub(crate) fn tick(&self, d: u32, counter: u64) -> Transition {
        if self.is_acting(d) {
            return transition_if(
                self.since(d, Subject::Period, counter) >= self.net.period,
                Transition::Emitted,
            );
        }
        match self.net.plan(self.epoch_of(d)) {
            Some(plan) if self.is_sealed(d) => self.wait(
                plan,
                d,
                self.since(d, Subject::Silence, counter),
            ),
            _ => Transition::Nothing,
        }
    }

    /// What a sealed device that does not act does after a silence.
    fn wait(&self, plan: &Plan, d: u32, silence: u64) -> Transition {
        let moved = self.has_moved(d);
        if plan.backup_root == d && moved {
            transition_if(silence >= plan.wait_second, Transition::TookOver)
        } else if plan.backup_root == d {
            transition_if(silence >= plan.wait_first, Transition::Moved)
        } else {
            let falls_back = self.net.backup(self.epoch_of(d), d).is_some();
            transition_if(
                falls_back && !moved && silence >= plan.wait,
                Transition::Moved,
            )
        }
    }

    /// Whether a message is the entry of the device to the plan that was given to it.
    fn enters(&self, d: u32, link: u32, message: &Message) -> bool {
        match self.given(d) {
            Some(epoch) if epoch == message.epoch => match self.net.primary(epoch, d) {
                Some(hop) => hop.link == link,
                None => false,
            },
            _ => false,
        }
    }

    /// Whether a message comes from a parent, in the device's own plan, with news.
    fn is_news(&self, d: u32, parent: Option<Hop>, link: u32, message: &Message) -> bool {
        let seen = self.stamp(d);
        let newer = (message.stamp.term, message.stamp.round) > (seen.term, seen.round);
        match parent {
            Some(hop) => hop.link == link && newer && message.epoch == self.epoch_of(d),
            None => false,
        }
    }

    /// The parent to which a device goes back that moved.
    fn parent_to_return_to(&self, d: u32) -> Option<Hop> {
        if self.kind == NodeKind::FallingBack && self.has_moved(d) && !self.is_acting(d) {
            self.net.primary(self.epoch_of(d), d)
        } else {
            None
        }
    }

    /// What the device does with a message.
    pub(crate) fn receipt(&self, d: u32, link: u32, message: &Message) -> Transition {
        if self.enters(d, link, message) {
            Transition::Entered(message.epoch)
        } else if self.is_news(d, self.parent_to_return_to(d), link, message) {
            Transition::FellBack
        } else if self.is_news(d, self.hop(d), link, message) {
            Transition::Accepted
        } else {
            Transition::Nothing
        }
    }

    /// What the device does at a commit.
    pub(crate) fn commit(&self, d: u32) -> Transition {
        match self.given(d) {
            Some(epoch) if self.is_acting(d) => Transition::Recommitted(epoch),
            Some(epoch) => Transition::Committed(epoch),
            None => Transition::Nothing,
        }
    }
}
