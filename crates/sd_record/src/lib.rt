//! A schedule is recorded from the entries of logs (`logs`), in the order of their references. Logs
//! that grow are merged first (`merge`).
//!
//! A fleet is driven, so that a recorder knows the number of each message that an entry names, and
//! which messages are lost: those that no entry has received by the last moment at which they can
//! be. A line `lose` at that moment is printed for each, before the entry that shows that it is
//! past.
#![tactic(auto)]

mod command;
mod endings;
mod finding;
mod log;
pub mod logs;
pub mod merge;
mod names;
mod reasons;
mod recorder;
mod recording;
mod work;

pub use command::{RecordFiles, record_files};
pub use log::record_log;
pub use recorder::Recorder;
pub use sd_files::{IoError, Status};
pub use sd_fleet::ApplyFault;
pub use work::{History, Recording};
