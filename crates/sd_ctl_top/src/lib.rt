//! The whole work of the second program, `sundialctl`, over any shelf and any sink: `run`, with all
//! that is promised of it; and the lines of `bounds` (`bounding`).
#![tactic(auto)]

pub mod bounding;
mod finding;
mod reasons;
mod renewal;
mod top;
mod whole;
mod words;

pub use sd_files::Status;
pub use top::run;
