//! What crosses to C: structs of plain numbers, laid out as C lays them out.
//!
//! Counters, clocks, uncertainties and delays are in picoseconds, drifts in parts per million. A
//! flag is set where its byte is not 0.

/// A number of up to 128 bits.
#[repr(C)]
#[derive(Clone, Copy, Debug, PartialEq, Eq)]
pub struct PlainWide {
    pub low: u64,
    pub high: u64,
}

/// How far an oscillator may drift.
#[repr(C)]
#[derive(Clone, Copy, Debug, PartialEq, Eq)]
pub struct PlainRates {
    pub grain: u64,
    pub ppm: u32,
}

/// A parent, the link to it, and the correction of what comes from it.
#[repr(C)]
#[derive(Clone, Copy, Debug, PartialEq, Eq)]
pub struct PlainEdge {
    pub mid: u64,
    pub half: u64,
    pub parent: u32,
    pub link: u32,
}

/// What a device is told of a plan.
#[repr(C)]
#[derive(Clone, Copy, Debug, PartialEq, Eq)]
pub struct PlainDuty {
    pub primary: PlainEdge,
    pub backup: PlainEdge,
    pub period: u64,
    pub wait_first: u64,
    pub wait_second: u64,
    pub wait: u64,
    pub rates: PlainRates,
    pub epoch: u32,
    /// 0 the root, 1 the backup root, 2 any other device.
    pub role: u8,
    pub has_primary: u8,
    pub has_backup: u8,
}

/// The age of a message.
#[repr(C)]
#[derive(Clone, Copy, Debug, PartialEq, Eq)]
pub struct PlainStamp {
    pub round: u64,
    pub term: u32,
}

/// What a device knew of the reference time while its counter showed `at`.
#[repr(C)]
#[derive(Clone, Copy, Debug, PartialEq, Eq)]
pub struct PlainEstimate {
    pub clock: PlainWide,
    pub base: PlainWide,
    pub at: u64,
}

/// What a device takes the reference time for.
#[repr(C)]
#[derive(Clone, Copy, Debug, PartialEq, Eq)]
pub struct PlainReport {
    pub clock: PlainWide,
    pub eps: PlainWide,
}

/// What a device sends downward.
#[repr(C)]
#[derive(Clone, Copy, Debug, PartialEq, Eq)]
pub struct PlainMessage {
    pub clock: PlainWide,
    pub eps: PlainWide,
    pub stamp: PlainStamp,
    pub epoch: u32,
}

/// What a call sends to each device below, where the flag is set.
#[repr(C)]
#[derive(Clone, Copy, Debug, PartialEq, Eq)]
pub struct PlainEffect {
    pub message: PlainMessage,
    pub sends: u8,
}

/// The device that a device follows, where the flag is set.
#[repr(C)]
#[derive(Clone, Copy, Debug, PartialEq, Eq)]
pub struct PlainParent {
    pub parent: u32,
    pub has_parent: u8,
}

/// A device: all that it keeps.
#[repr(C)]
#[derive(Clone, Copy, Debug, PartialEq, Eq)]
pub struct PlainDevice {
    pub duty: PlainDuty,
    pub given: PlainDuty,
    pub estimate: PlainEstimate,
    pub stamp: PlainStamp,
    pub rates: PlainRates,
    pub last: u64,
    pub sent: u64,
    pub has_duty: u8,
    pub has_given: u8,
    /// 0 it follows its primary parent, 1 its backup parent, 2 it acts as root, 3 it has no duty.
    pub mode: u8,
    pub sealed: u8,
}

/// A link over which messages come to a device.
#[repr(C)]
#[derive(Clone, Copy, Debug, PartialEq, Eq)]
pub struct PlainPort {
    /// The counter from which on it takes what comes, where the flag is set.
    pub clear: PlainWide,
    pub is_open: u8,
}
