//! Exact tests for what must not be seen of a fleet: loops of parents, several devices that act as
//! root, and intervals that miss the reference time. No call takes memory.
//!
//! A list of parents has at place `d` the parent of device `d`. A device that it gives no parent,
//! or that is not below its length, has none.
mod alarms;
mod loops;
mod marks;
pub mod parent_table;

pub use alarms::{outside, two_acting};
pub use loops::{first_loop, loop_at};
