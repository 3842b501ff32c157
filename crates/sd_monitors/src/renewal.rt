//! The monitors of the premises on failures and on renewals: that all failures of a phase lie in one
//! fault domain, and that a window between two plans is prepared, committed, sealed and closed in
//! order. Each stands for the list of what was seen so far, and answers with each event whether its
//! premise holds still.
//!
//! No monitor takes memory once it is made. An event costs constant time but in three cases: a
//! failure is looked for in the listed domains; a commit is judged by a look at each device and each
//! link; and the first seal of a window by a look at each device.
mod commits;
mod domain;
mod judge;
mod judging;
mod mark;
mod moment;
mod progress;
mod renewal;

pub use domain::DomainMonitor;
pub use mark::Mark;
pub use moment::Moment;
pub use renewal::RenewalMonitor;
