//! What is kept of a history, and what it says of devices and links.

use crate::plain::net::Net;
use crate::plain::things::{failed_by, mended_by, received_by};
use sd_device::msg::{Flight, Stamp};
use sd_plan::topo::Thing;
use sd_sched::Event;
use std::alloc::Global;

/// What the named device did at an event. Numbers are those of plans.
#[derive(Clone, Copy, PartialEq)]
pub enum Transition {
    Started(u32),
    Joined,
    Given(u32),
    Entered(u32),
    Committed(u32),
    /// It acted as root already.
    Recommitted(u32),
    Accepted,
    Moved,
    /// It went back to its primary parent, and accepted its message.
    FellBack,
    TookOver,
    Emitted,
    Sealed,
    Nothing,
}

/// Of which kind the nodes are.
#[derive(Clone, Copy, PartialEq)]
pub enum NodeKind {
    Device,
    SelfSealing,
    FallingBack,
}

/// An accepted event.
#[derive(Clone, Copy)]
pub struct Step {
    /// How many events were accepted before.
    pub place: usize,
    pub event: Event,
    pub transition: Transition,
    /// Whether the window closed with it.
    pub closed: bool,
}

/// A message that was sent, at the step of this place.
#[derive(Clone, Copy)]
pub struct Sent {
    pub place: usize,
    pub flight: Flight,
}

/// A history: all accepted events, and all messages, the oldest first.
#[derive(Drop)]
pub struct Plain<'a> {
    pub alloc: Global,
    pub kind: NodeKind,
    pub net: &'a Net<'a>,
    pub steps: Vec<Step>,
    pub sent: Vec<Sent>,
}

/// What the latest of some steps tells of a device.
#[derive(Clone, Copy)]
pub enum Subject {
    /// Whether it is up.
    Life,
    /// That it was made.
    Making,
    /// The counter that it read last.
    Reading,
    /// That it heard a message.
    Hearing,
    /// Which plan it follows.
    Plan,
    /// The duty that it was given and did not take up.
    Given,
    Sealed,
    /// Whether it moved to its backup.
    Moved,
    Acting,
    /// Since when it has heard nothing.
    Silence,
    /// Since when it has sent nothing as root.
    Period,
    /// The clock that it keeps.
    Estimate,
}

impl Transition {
    pub(crate) fn is_making(self) -> bool {
        matches!(self, Transition::Started(_) | Transition::Joined)
    }

    /// Of which plan the device is from then on, 0 where it is of none.
    pub(crate) fn plan(self) -> Option<u32> {
        match self {
            Transition::Started(epoch)
            | Transition::Entered(epoch)
            | Transition::Committed(epoch)
            | Transition::Recommitted(epoch) => Some(epoch),
            Transition::Joined => Some(0),
            _ => None,
        }
    }

    /// Whether the message that came was accepted.
    pub(crate) fn accepts(self) -> bool {
        matches!(
            self,
            Transition::Accepted | Transition::FellBack | Transition::Entered(_)
        )
    }

    /// The stamp that a device sends next, where it is not the one of a message.
    pub(crate) fn stamp_after(self, before: Stamp) -> Stamp {
        let Stamp { term, round } = before;
        match self {
            Transition::Started(_) | Transition::Joined => Stamp { term: 0, round: 0 },
            Transition::Committed(_) => Stamp {
                term: term.saturating_add(1),
                round: 0,
            },
            Transition::TookOver => Stamp {
                term: term.saturating_add(1),
                round: 1,
            },
            Transition::Emitted => Stamp {
                term,
                round: round.saturating_add(1),
            },
            _ => before,
        }
    }

    /// Whether a transition tells of a subject.
    fn tells(self, subject: Subject) -> bool {
        match subject {
            Subject::Making => self.is_making(),
            Subject::Plan => self.plan().is_some(),
            Subject::Given => self.plan().is_some() || matches!(self, Transition::Given(_)),
            Subject::Sealed => self.plan().is_some() || self == Transition::Sealed,
            Subject::Moved => {
                self.plan().is_some() || matches!(self, Transition::Moved | Transition::FellBack)
            }
            Subject::Acting => self.plan().is_some() || self == Transition::TookOver,
            Subject::Silence => self.is_making() || self.accepts() || self == Transition::Moved,
            Subject::Period => {
                self.is_making()
                    || matches!(
                        self,
                        Transition::Committed(_) | Transition::TookOver | Transition::Emitted
                    )
            }
            Subject::Estimate => self.is_making() || self.accepts(),
            Subject::Life | Subject::Reading | Subject::Hearing => false,
        }
    }
}

impl Step {
    /// Whether the event names the device.
    pub fn names(&self, d: u32) -> bool {
        self.event.device() == Some(d)
    }

    /// Whether the event fails the thing.
    pub fn fails(&self, thing: Thing) -> bool {
        failed_by(&self.event) == Some(thing)
    }

    /// Whether a step of a device tells of a subject.
    fn tells(&self, subject: Subject) -> bool {
        match subject {
            Subject::Life => self.transition.is_making() || failed_by(&self.event).is_some(),
            Subject::Reading => self.event.counter().is_some(),
            Subject::Hearing => received_by(&self.event).is_some(),
            Subject::Estimate if matches!(self.event, Event::Fix { .. }) => true,
            _ => self.transition.tells(subject),
        }
    }
}

impl Plain<'_> {
    /// Devices before any event.
    pub fn new<'a>(alloc: Global, net: &'a Net<'a>) -> Plain<'a> {
        Plain::of_kind(alloc, net, NodeKind::Device)
    }

    /// Nodes of a kind before any event.
    pub fn of_kind<'a>(alloc: Global, net: &'a Net<'a>, kind: NodeKind) -> Plain<'a> {
        Plain {
            alloc,
            kind,
            net,
            steps: Vec::new(alloc),
            sent: Vec::new(alloc),
        }
    }

    /// The latest step of a device that tells of a subject.
    pub fn latest(&self, d: u32, subject: Subject) -> Option<Step> {
        let mut latest = None;
        for step in &self.steps {
            if step.names(d) && step.tells(subject) {
                latest = Some(*step);
            }
        }
        latest
    }

    /// What was done at that step, and nothing where there is none.
    pub fn latest_transition(&self, d: u32, subject: Subject) -> Transition {
        match self.latest(d, subject) {
            Some(step) => step.transition,
            None => Transition::Nothing,
        }
    }

    /// What the counter showed at that step, and 0 where there is none.
    pub fn latest_counter(&self, d: u32, subject: Subject) -> u64 {
        match self.latest(d, subject) {
            Some(step) => step.event.counter().unwrap_or(0),
            None => 0,
        }
    }

    /// Whether the device was made and has not failed since.
    pub fn is_up(&self, d: u32) -> bool {
        self.latest_transition(d, Subject::Life).is_making()
    }

    /// Whether the device was ever started or joined.
    pub fn was_made(&self, d: u32) -> bool {
        self.latest(d, Subject::Making).is_some()
    }

    /// Whether the thing failed and was not mended since.
    pub fn has_failed(&self, thing: Thing) -> bool {
        let mut failed = false;
        for step in &self.steps {
            if step.fails(thing) {
                failed = true;
            } else if mended_by(&step.event) == Some(thing) {
                failed = false;
            }
        }
        failed
    }

    /// The reference of the latest event, in ps; 0 where there is none.
    pub fn latest_reference(&self) -> u64 {
        match self.steps.last() {
            Some(step) => step.event.reference(),
            None => 0,
        }
    }

    /// Whether a window closed with the latest step.
    pub fn has_just_closed(&self) -> bool {
        match self.steps.last() {
            Some(step) => step.closed,
            None => false,
        }
    }

    /// What was done at the latest step of all.
    pub fn newest_transition(&self) -> Transition {
        match self.steps.last() {
            Some(step) => step.transition,
            None => Transition::Nothing,
        }
    }
}
