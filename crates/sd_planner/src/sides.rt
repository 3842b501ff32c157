//! What may be passed on each side.
ghost use Rattle.std.specs.Prelude.{◌≡◌, ◌<◌, ◌&&◌, not, nat_eq, length, map, false, IfOk};
ghost use Rattle.sd_plan.specs.topo.Network.{device_numbers};
ghost use Rattle.sd_plan.specs.topo.Topologies.{network};
ghost use Rattle.sd_planner.specs.Views.{net_of, left_out};
ghost use Rattle.sd_planner.specs.Placing as placing;

use crate::placement::Placement;
use crate::present::Present;
use sd_num::NoMemory;
use sd_plan::topo::{Side, Topology};
use std::alloc::Global;

/// Whether a device may stand on the backup side alone.
fn is_on_backup_side(topo: &Topology, d: u32) -> bool
    requires { d < length (network topo.now).devices }
    ensures { result ≡ placing.is_on_backup_side (network topo.now) d }
{
    match topo.side(d) {
        Side::Root => false,
        Side::Backup => true,
    }
}

/// Whether a member is neither of the roots, and not on the backup side.
fn may_pass_root(present: &Present, root: u32, backup_root: u32, d: u32) -> bool
    requires range { d < length (net_of present.now).devices }
    requires backup_root { backup_root
        ≡ placing.backup_root_of (net_of present.now) root (left_out present.now) }
    ensures { result ≡ placing.through_root (net_of present.now) root (left_out present.now) d }
{
    present.takes_part(d) && d != root && d != backup_root && !is_on_backup_side(present.topo, d)
}

/// Whether a member is on the backup side, and has not been placed.
fn may_pass_backup(present: &Present, placement: &Placement, d: u32) -> bool
    requires range { d < length (net_of present.now).devices }
    requires count { placement.now.count ≡ length (net_of present.now).devices }
    ensures { result ≡ placing.through_backup (net_of present.now)
        (left_out present.now) placement.now.order d }
{
    present.takes_part(d) && is_on_backup_side(present.topo, d) && !placement.has(d)
}

/// Whether each device may be passed on the root's side: it takes part, is neither root nor backup
/// root, and is not on the backup side.
pub(crate) fn root_side(
    alloc: Global,
    present: &Present,
    root: u32,
    backup_root: u32,
) -> Result<Vec<bool>, NoMemory>
    requires { backup_root ≡ placing.backup_root_of (net_of present.now) root
        (left_out present.now) }
    ensures { IfOk result (λ flags. flags.items
        ≡ map (placing.through_root (net_of present.now) root (left_out present.now))
        (device_numbers (net_of present.now))) }
{
    let mut flags = Vec::new(alloc);
    for d in 0..present.topo.devices() {
        let Ok(()) = flags.push(may_pass_root(present, root, backup_root, d)) else {
            return Err(NoMemory);
        };
    }
    Ok(flags)
}

/// Whether each device may be passed on the backup side: it takes part, is on that side, and has
/// not been placed.
pub(crate) fn backup_side(
    alloc: Global,
    present: &Present,
    placement: &Placement,
) -> Result<Vec<bool>, NoMemory>
    requires { placement.now.count ≡ length (net_of present.now).devices }
    ensures { IfOk result (λ flags. flags.items
        ≡ map (placing.through_backup (net_of present.now) (left_out present.now)
        placement.now.order) (device_numbers (net_of present.now))) }
{
    let mut flags = Vec::new(alloc);
    for d in 0..present.topo.devices() {
        let Ok(()) = flags.push(may_pass_backup(present, placement, d)) else {
            return Err(NoMemory);
        };
    }
    Ok(flags)
}
