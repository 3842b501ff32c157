//! What an event says of itself.
ghost use Rattle.std.specs.Prelude.{◌≡◌};
ghost use Rattle.sd_sched.specs.Events.{reference_of, device_of, counter_of};

use crate::Event;

impl Event {
    /// The reference time of the event, in picoseconds.
    pub fn reference(&self) -> u64
        ensures { result ≡ reference_of self.now }
    {
        match *self {
            Event::Start { reference, .. }
            | Event::Tick { reference, .. }
            | Event::Recv { reference, .. }
            | Event::Lose { reference, .. }
            | Event::FailDevice { reference, .. }
            | Event::FailLink { reference, .. }
            | Event::Fix { reference, .. }
            | Event::Ask { reference, .. }
            | Event::Stage { reference, .. }
            | Event::Give { reference, .. }
            | Event::Commit { reference, .. }
            | Event::Seal { reference, .. }
            | Event::Join { reference, .. }
            | Event::MendDevice { reference, .. }
            | Event::MendLink { reference, .. }
            | Event::End { reference, .. } => reference,
        }
    }

    /// The number of the device that the event names.
    pub fn device(&self) -> Option<u32>
        ensures { result ≡ device_of self.now }
    {
        match *self {
            Event::Start { device, .. }
            | Event::Tick { device, .. }
            | Event::Recv { device, .. }
            | Event::FailDevice { device, .. }
            | Event::Fix { device, .. }
            | Event::Ask { device, .. }
            | Event::Give { device, .. }
            | Event::Commit { device, .. }
            | Event::Seal { device, .. }
            | Event::Join { device, .. }
            | Event::MendDevice { device, .. } => Some(device),
            Event::Lose { .. }
            | Event::FailLink { .. }
            | Event::Stage { .. }
            | Event::MendLink { .. }
            | Event::End { .. } => None,
        }
    }

    /// The counter that the device of the event read, in picoseconds.
    pub fn counter(&self) -> Option<u64>
        ensures { result ≡ counter_of self.now }
    {
        match *self {
            Event::Start { counter, .. }
            | Event::Tick { counter, .. }
            | Event::Recv { counter, .. }
            | Event::Fix { counter, .. }
            | Event::Ask { counter, .. }
            | Event::Commit { counter, .. }
            | Event::Join { counter, .. } => Some(counter),
            _ => None,
        }
    }
}
