//! The lines that are printed of one event of a replay: the premises that break with it, its
//! alarms, and its report.
mod buffer;
mod findings;
mod printing;

pub use buffer::EventLines;
pub use findings::Findings;
pub(crate) use findings::finds_none;
pub use printing::print_findings;
