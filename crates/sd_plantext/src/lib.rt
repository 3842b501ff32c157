//! Plans as texts: read from JSON with `serde_json`, and printed.
#![tactic(auto)]

mod fault;
mod print;
mod read;

pub use fault::{PlanFault, PlanKey, PlanPlace};
pub use print::plan_text;
pub use read::{read_absent, read_plan};
