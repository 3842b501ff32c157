//! Tests of single calls below `check`, `plan`, `drill` and `search`: conditions, places, ages and drafts.
#![tactic(auto)]

mod checking;
mod drilling;
pub mod planner;
