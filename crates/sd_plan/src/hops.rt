//! The hops that a plan gives a device.
ghost use Rattle.std.specs.Prelude.{◌≡◌, ◌<◌, length};
ghost use Rattle.sd_plan.specs.Plans as plans;

use crate::{Hop, Plan};

/// The primary parent of a device, with the link to it.
pub fn primary_of(plan: &Plan, d: u32) -> Option<Hop>
    requires { d < length plan.now.rows }
    ensures { result ≡ plans.primary_of plan.now d }
{
    match plan.rows.as_slice()[d as usize] {
        Some(row) => Some(row.primary),
        None => None,
    }
}

/// The backup parent of a device, with the link to it.
pub fn backup_of(plan: &Plan, d: u32) -> Option<Hop>
    requires { d < length plan.now.rows }
    ensures { result ≡ plans.backup_of plan.now d }
{
    match plan.rows.as_slice()[d as usize] {
        Some(row) => row.backup,
        None => None,
    }
}
