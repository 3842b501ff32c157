//! The replay of a schedule: a fleet driven event by event, its premises judged, its loops and
//! roots watched (`watch`), its lines printed, and its reports told to an observer, such as commit
//! wait (`wait`).
//!
//! [`Replay`] stands for runs (`StandsFor`, in specs/): an accepted event adds its step to every
//! run for which the replay stood, and a fault leaves it standing for the same runs.
#![tactic(auto)]

mod alarms;
mod counting;
mod event_output;
mod faults;
mod judging;
mod laws;
pub mod lines;
mod monitors;
mod observe;
mod replay;
mod trouble;
pub mod wait;
pub mod watch;

pub use faults::ReplayFault;
pub use laws::promises;
pub use replay::Replay;
pub use sd_fleet::ApplyFault;
use sd_plan::{List, Plan};
pub use sd_sched::{Event, LineFault};

/// A list of plans, the first in force at first.
pub type PlanList = List<Plan>;

/// How much happened in a history, and how much of it was a breach of a premise or an alarm.
#[derive(Clone, Copy, Debug, PartialEq, Eq)]
pub struct Tally {
    pub events: u64,
    pub reports: u64,
    /// Lines that name a broken premise.
    pub broken: u64,
    /// Lines of alarms.
    pub alarms: u64,
    /// The greatest uncertainty that was reported, in ps; 0 where there was no report.
    pub greatest_eps: u128,
}
