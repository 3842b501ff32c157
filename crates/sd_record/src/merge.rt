//! Logs of devices that grow side by side are merged by reference as they grow.
//!
//! A feed is a text that tells how they grow, line by line:
//!
//! ```text
//! LOG ENTRY      the next line of the log of this number, in the compact form
//! LOG past REF   this log brings nothing before the reference any more
//! ```
//!
//! Each line of a log before which no log can bring another is written before the next line of the
//! feed is read.
mod feed;
mod log;
mod logs;
mod merger;
mod merging;
mod turns;
mod work;

pub use crate::logs::LineFault;
pub use merging::merge_feed;
pub use sd_files::{IoError, Status};
