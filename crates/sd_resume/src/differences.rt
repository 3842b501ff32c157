//! In what two fleets may differ, and in what an opening may not be honest.
use sd_plan::topo::Thing;

/// A register of a device, in the normal form of all of them.
#[derive(Clone, Copy, Debug, PartialEq, Eq)]
pub enum Register {
    /// The duty of the plan that it follows.
    Duty,
    /// The duty that was given to it.
    Given,
    /// Whom it follows.
    Mode,
    /// Whether it may move.
    Sealed,
    /// The rates of its oscillator.
    Rates,
    /// The stamp of the message that it accepted last.
    Stamp,
    /// The counter since which it waits.
    Last,
    /// The counter at which it sent as root.
    Sent,
    /// What it knows of the reference time.
    Estimate,
}

/// In what the second of two fleets is no opening for the first.
#[derive(Clone, Copy, Debug, PartialEq, Eq)]
pub enum Difference {
    /// They have not as many devices and links.
    Network,
    /// A window is open, in one of the two.
    Window,
    /// The reference time of the latest event.
    Time,
    /// The plan in force.
    Plan,
    /// Whether the schedule has ended.
    End,
    /// How many messages the first has sent.
    Messages,
    /// The second has sent messages.
    Sent,
    /// This message of the first is on its way.
    OnItsWay { number: u64 },
    /// Whether the device is up.
    Up { device: u32 },
    /// Whether the device or the link is failed.
    Failed { thing: Thing },
    /// The latest counter of the device.
    Reading { device: u32 },
    /// This register of the device.
    Register { device: u32, register: Register },
}

/// In what an opening is not honest for the first of two histories.
#[derive(Clone, Copy, Debug, PartialEq, Eq)]
pub enum Dishonesty {
    /// A premise of the opening is broken.
    Broken,
    /// The readings of the device allow less: an offset of its present life in the first is greater
    /// than the opening's.
    Drift { device: u32 },
    /// The latest tick of the device is earlier in the opening.
    Tick { device: u32 },
    /// A member of the opening's first plan that the opening has neither made nor failed.
    Awaited { device: u32 },
    /// The first has made or failed the device, and the opening has not.
    Untouched { device: u32 },
    /// It failed since the latest closing in one of the two, and not in the other.
    FailedSince { thing: Thing },
}
