//! Lines of logs of devices, in the compact form: each is an event of one device or of the world.
//!
//! A line is that of a schedule, except where a message is named: a log does not know its number.
//! It has the link, the epoch and the stamp of the message, which the receiver reads off it:
//!
//! ```text
//! recv REF DEVICE COUNTER LINK EPOCH TERM ROUND
//! lose REF DEVICE LINK EPOCH TERM ROUND
//! ```
//!
//! DEVICE is the receiver. Epochs and terms go to 2^32 - 1, as devices and links do, and rounds to
//! 2^60.
mod entries;
mod reading;
mod reasons;

pub use reading::{TakenNumber, read_entry, take_number};
pub use reasons::print_line_fault;
pub use sd_sched::{Event, LineFault};

/// A message as a log names it.
#[derive(Clone, Copy, Debug, PartialEq, Eq, PartialOrd, Ord)]
pub struct MessageName {
    pub receiver: u32,
    pub link: u32,
    /// The number of the plan that its sender followed.
    pub epoch: u32,
    /// The two parts of its stamp.
    pub term: u32,
    pub round: u64,
}

/// What a line of a log says.
#[derive(Clone, Copy, Debug, PartialEq, Eq)]
pub enum Entry {
    /// An event whose line in a schedule is the same.
    Plain(Event),
    /// `recv`: the message came to its receiver.
    Receipt {
        reference: u64,
        counter: u64,
        name: MessageName,
    },
    /// `lose`: the message is known to be lost.
    Loss {
        reference: u64,
        name: MessageName,
    },
}
