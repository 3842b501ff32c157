//! What is written of a plan domain by domain: one write for each, and the last line.
#![tactic(auto)]

mod command;
pub mod domain_lines;
mod drill_lines;
mod endings;
pub mod kinds;
pub mod lines;
pub mod members;
mod page;
mod writing;

pub use command::print_texts;
pub use drill_lines::DrillLines;
