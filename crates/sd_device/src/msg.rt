//! Messages between devices, their age, and their flights over links.
mod book;
mod flights;
mod kept;
mod marks;
mod observer;
mod spent;
mod stamps;

pub use book::FlightBook;
pub use kept::KeptReports;
pub use observer::{NoObserver, Observer};
use sd_num::clock::Report;

/// The age of a message: the root's term, then its round.
#[derive(Clone, Copy, Debug, PartialEq, Eq)]
pub struct Stamp {
    /// How often a device began to act as root.
    pub term: u32,
    /// How often that root sent since.
    pub round: u64,
}

/// What a device sends downward: a report of the reference time, in ps.
#[derive(Clone, Copy, Debug, PartialEq, Eq)]
pub struct Message {
    /// The number of the plan that its sender follows.
    pub epoch: u32,
    pub stamp: Stamp,
    pub clock: u128,
    pub eps: u128,
}

/// One message on its way over one link. All times are reference times in ps.
#[derive(Clone, Copy, Debug, PartialEq, Eq)]
pub struct Flight {
    /// Its number, from 1.
    pub number: u64,
    pub link: u32,
    pub sender: u32,
    pub receiver: u32,
    /// Whether it can come at all.
    // Fields lie in this order: here it fills a gap.
    pub reaches: bool,
    pub sent_at: u64,
    /// By when it comes over a link that keeps its delay bounds.
    pub due: u64,
    /// After this it is no longer kept.
    pub last: u64,
    pub message: Message,
}

/// A report as an observer is told of it.
#[derive(Clone, Copy, Debug, PartialEq, Eq)]
pub struct SeenReport {
    /// The number of its line in the schedule.
    pub line: u64,
    pub device: u32,
    /// The reference time, in ps.
    pub reference: u64,
    pub report: Report,
}

/// Why there is no flight to take.
#[derive(Clone, Copy, Debug, PartialEq, Eq)]
pub enum TakeFault {
    /// The number was not given.
    Unknown,
    /// The flight was taken, lost, swept or purged, or never reached.
    Spent,
    /// Another device is its receiver.
    WrongDevice,
}
