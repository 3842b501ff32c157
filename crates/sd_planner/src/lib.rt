//! The greedy planner: where each device is placed, the backups of the placed devices, the least
//! waits, and the plan.
#![tactic(auto)]

mod backups;
mod left;
mod nearest;
mod placement;
mod placing;
mod plan;
mod present;
mod roots;
mod sides;
mod spreading;
mod waiting;
mod waits;

pub use placement::{Placed, Placement};
pub use placing::place;
pub use plan::plan_for;
pub use present::{Neighbour, Present};
pub use roots::backup_root_of;
use sd_checker::Breach;
use sd_plan::Plan;

/// The greedy plan, with the breach for which the checker refuses it, if there is one.
#[derive(Drop)]
pub enum Planned {
    Plan(Plan),
    NoPlan(Plan, Breach),
}
