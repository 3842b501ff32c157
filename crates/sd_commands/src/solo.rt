//! One device alone, with the number 0, 200 parts per million and a grain of 1000 picoseconds: what
//! its starts, fixes, asks and end do, and the reports that it makes.
ghost use Rattle.std.specs.Prelude.{◌≤◌, ◌<◌, ◌^◌};

mod device;
mod faults;
mod line;

pub use line::{read_solo_front, read_solo_line};
use sd_num::clock::Estimate;

/// Why an event is refused, the first cause in this order.
#[derive(Clone, Copy, Debug, PartialEq, Eq)]
pub enum SoloFault {
    /// The event names a device other than 0.
    UnknownDevice,
    /// The reference is less than that of the event before.
    TimeFalls,
    /// The counter is less than the latest reading, and the event is no start.
    CounterFalls,
    /// The device was not started yet.
    NotStarted,
    /// The device was started before.
    StartedTwice,
    /// The schedule has ended.
    AfterEnd,
    /// 2^26 events were accepted.
    TooManyEvents,
}

/// The device and what it keeps of its past.
#[derive(Debug, Drop)]
pub struct Solo {
    estimate: Estimate,
    started: bool,
    ended: bool,
    /// The reference of the latest event.
    reference: u64,
    /// The latest reading.
    counter: u64,
    /// How many events were accepted, and how many of them were asks.
    events: u32,
    reports: u32,
    ghost set_before: { estimate.at ≤ counter },
    ghost small_clock: { estimate.clock < 2 ^ 64 },
    ghost small_base: { estimate.base < 2 ^ 64 },
    ghost few: { events ≤ 2 ^ 26 },
    ghost fewer: { reports ≤ events },
}
