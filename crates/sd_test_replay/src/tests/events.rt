//! Events of one device, made as its history and its temper have it.

use super::course::Course;
use sd_plan::topo::Thing;
use sd_sched::Event;
use sd_test_fleet_kit::plain::{Numbers, Sent};

impl Course<'_> {
    /// A moment at which nothing else has happened since the latest event.
    pub(super) fn now(&self) -> u64 {
        self.plain().latest_reference()
    }

    pub(super) fn tick(&self, device: u32, reference: u64) -> Event {
        Event::Tick {
            reference,
            device,
            counter: self.counter(device, reference),
        }
    }

    /// A message comes, or is lost.
    pub(super) fn arrive(&self, sent: &Sent, reference: u64) -> Event {
        let message = sent.flight.number;
        let device = sent.flight.receiver;
        if self.is_lost(message) {
            return Event::Lose { reference, message };
        }
        Event::Recv {
            reference,
            device,
            counter: self.counter(device, reference),
            message,
        }
    }

    pub(super) fn start(&self, numbers: &mut Numbers, device: u32) -> Event {
        let reference = self.now();
        let (clock, eps) = self.clock(numbers, reference);
        Event::Start {
            reference,
            device,
            counter: self.counter(device, reference),
            clock,
            eps,
        }
    }

    pub(super) fn join(&self, numbers: &mut Numbers, device: u32) -> Event {
        let reference = self.now();
        let (clock, eps) = self.clock(numbers, reference);
        Event::Join {
            reference,
            device,
            counter: self.counter(device, reference),
            clock,
            eps,
        }
    }

    pub(super) fn fix(&self, numbers: &mut Numbers, device: u32) -> Event {
        let reference = self.now();
        let (clock, eps) = self.clock(numbers, reference);
        Event::Fix {
            reference,
            device,
            counter: self.counter(device, reference),
            clock,
            eps,
        }
    }

    pub(super) fn ask(&self, device: u32) -> Event {
        let reference = self.now();
        Event::Ask {
            reference,
            device,
            counter: self.counter(device, reference),
        }
    }

    pub(super) fn commit(&self, device: u32) -> Event {
        let reference = self.now();
        Event::Commit {
            reference,
            device,
            counter: self.counter(device, reference),
        }
    }

    pub(super) fn stage(&self) -> Event {
        Event::Stage {
            reference: self.now(),
        }
    }

    pub(super) fn give(&self, device: u32) -> Event {
        Event::Give {
            reference: self.now(),
            device,
        }
    }

    pub(super) fn seal(&self, device: u32) -> Event {
        Event::Seal {
            reference: self.now(),
            device,
        }
    }

    pub(super) fn fail(&self, thing: Thing) -> Event {
        let reference = self.now();
        match thing {
            Thing::Device(device) => Event::FailDevice { reference, device },
            Thing::Link(link) => Event::FailLink { reference, link },
        }
    }

    pub(super) fn mend(&self, thing: Thing) -> Event {
        let reference = self.now();
        match thing {
            Thing::Device(device) => Event::MendDevice { reference, device },
            Thing::Link(link) => Event::MendLink { reference, link },
        }
    }
}
