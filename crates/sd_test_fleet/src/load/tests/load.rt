//! The events of rounds.
ghost use Rattle.std.specs.Prelude.{◌≤◌, ◌^◌, IsTrue};
ghost use Rattle.sd_sched.specs.Spelled.{is_within};

use super::network::{DELAY, DEVICES, PERIOD};
use sd_device::Device;
use sd_fleet::{Fleet, Outcome};
use sd_sched::Event;
use std::alloc::Global;
use std::test::Fail;

/// A round sends no more messages than this.
const MOST: u32 = 100_000;

/// The greatest number of a message, and the last moment, in ps.
const LIMIT: u64 = 1 << 60;

/// How far a fleet has come.
#[derive(Drop)]
pub(super) struct Load<'a> {
    fleet: &'a mut Fleet<Device>,
    pub(super) events: u64,
    /// The number of the last message that was received.
    received: u64,
    /// The number of the last message that was sent.
    sent: u64,
}

/// A device starts at reference 0.
fn start_of(device: u32) -> Event
    ensures { IsTrue (is_within result) }
{
    Event::Start {
        reference: 0,
        device,
        counter: 0,
        clock: 0,
        eps: 500,
    }
}

/// A device ticks, and its counter shows the reference.
fn tick_of(device: u32, reference: u64) -> Event
    requires { reference ≤ 2 ^ 60 }
    ensures { IsTrue (is_within result) }
{
    Event::Tick {
        reference,
        device,
        counter: reference,
    }
}

/// A device receives a message, and its counter shows the reference.
fn receipt_of(device: u32, reference: u64, message: u64) -> Event
    requires reference { reference ≤ 2 ^ 60 }
    requires message { message ≤ 2 ^ 60 }
    ensures { IsTrue (is_within result) }
{
    Event::Recv {
        reference,
        device,
        counter: reference,
        message,
    }
}

impl Load<'_> {
    /// A fleet before any event.
    pub(super) fn new<'a>(fleet: &'a mut Fleet<Device>) -> Load<'a> {
        Load {
            fleet,
            events: 0,
            received: 0,
            sent: 0,
        }
    }

    fn apply(&mut self, alloc: Global, event: &Event) -> Result<(), Fail>
        requires { IsTrue (is_within event.now) }
    {
        let Outcome { sent, .. } = self.fleet.apply(alloc, event)?;
        self.events = self.events.saturating_add(1);
        self.sent = self.sent.saturating_add(u64::from(sent));
        Ok(())
    }

    /// All devices start.
    pub(super) fn start_all(&mut self, alloc: Global) -> Result<(), Fail> {
        for device in 0..DEVICES {
            self.apply(alloc, &start_of(device))?;
        }
        Ok(())
    }

    /// All devices tick as a round begins.
    pub(super) fn tick_all(&mut self, alloc: Global, round: u32) -> Result<(), Fail> {
        let reference = u64::from(round) * PERIOD;
        for device in 0..DEVICES {
            self.apply(alloc, &tick_of(device, reference))?;
        }
        Ok(())
    }

    /// Messages are received until none is on its way.
    pub(super) fn receive_all(&mut self, alloc: Global) -> Result<(), Fail> {
        for _ in 0..MOST {
            if self.received == self.sent {
                return Ok(());
            }
            self.receive_next(alloc)?;
        }
        Ok(())
    }

    fn receive_next(&mut self, alloc: Global) -> Result<(), Fail> {
        let message = self.received.saturating_add(1).min(LIMIT);
        let flight = self.fleet.flight(message)?;
        let reference = flight.sent_at.saturating_add(DELAY).min(LIMIT);
        self.received = message;
        self.apply(alloc, &receipt_of(flight.receiver, reference, message))
    }
}
