//! Commit wait: transactions that are held back until the lower end of a reported interval has
//! passed their stamp.
//!
//! Each report begins a transaction of its device, stamped with the upper end of the reported
//! interval. It ends at the first later report of that device whose interval lies wholly past the
//! stamp. A disorder shows where a transaction begins at or after the end of another and yet has no
//! greater stamp.
mod printing;
mod transactions;
mod waits;

pub use waits::Waits;

/// How many transactions began and ended, and at how many reports a disorder showed.
#[derive(Clone, Copy, Debug, PartialEq, Eq)]
pub struct WaitTally {
    pub begun: u64,
    pub ended: u64,
    pub disorders: u64,
}
