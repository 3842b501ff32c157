//! The whole work of the program, over any shelf and any sink: `run`, with all that is promised of it.
//!
//! It joins the commands (`sd_cmd_..`) with the proofs that an accepted plan is safe, that no report is
//! above its number of a drill, and that no alarm is written before the first broken premise.
#![tactic(auto)]

mod check;
mod lines;
mod migrate;
mod plan;
mod planning;
mod reasons;
mod renew;
mod solo;
mod top;
mod twoway;
mod words;

pub use sd_files::Status;
pub use top::run;
