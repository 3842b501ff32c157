//! The root's side, the backup root, its side, and what is left.
ghost use Rattle.std.specs.Prelude.{◌≡◌, ◌<◌, true, false, nat_eq, length, IfOk, OnOk};
ghost use Rattle.sd_planner.specs.Usable.{takes_part};
ghost use Rattle.sd_planner.specs.Views.{net_of, left_out};
ghost use Rattle.sd_planner.specs.Placing as placing;
ghost use Rattle.sd_planner.specs.Trees.{Grows};

use crate::left::place_left;
use crate::nearest::place_nearest;
use crate::placement::{Placed, Placement};
use crate::present::Present;
use crate::roots::backup_root_of;
use crate::sides::{backup_side, root_side};
use crate::spreading::spread;
use sd_num::NoMemory;
use std::alloc::Global;

/// Places the root, and what is reached from it through the members on its side.
fn place_root_part(alloc: Global, present: &Present, root: u32) -> Result<Placement, NoMemory>
    requires { root < length (net_of present.now).devices }
    ensures { IfOk result (λ p. p ≡ record {
      order = placing.root_part (net_of present.now) root (left_out present.now);
      count = length (net_of present.now).devices;
    }) }
{
    let through = root_side(alloc, present, root, backup_root_of(present, root))?;
    let mut placement = Placement::new(alloc, present.topo.devices())?;
    let first = Placed {
        device: root,
        depth: 0,
        hop: None,
    };
    placement.add(first)?;
    spread(present, &through, &mut placement, first)?;
    Ok(placement)
}

/// Places what is reached from the backup root through the members on the backup side.
fn place_backup_part(
    alloc: Global,
    present: &Present,
    root: u32,
    placement: &mut Placement,
) -> Result<(), NoMemory>
    requires root { root < length (net_of present.now).devices }
    requires present { takes_part (net_of present.now) (left_out present.now) root ≡ true }
    requires so_far { placement.old ≡ record {
      order = placing.with_backup_root (net_of present.now) root (left_out present.now);
      count = length (net_of present.now).devices;
    } }
    requires differs { nat_eq (placing.backup_root_of (net_of present.now) root
        (left_out present.now)) root ≡ false }
    ensures { OnOk result (placement.new ≡ record {
      order = placing.both_parts (net_of present.now) root (left_out present.now);
      count = length (net_of present.now).devices;
    }) }
{
    let Some(source) = placement.find(backup_root_of(present, root)) else {
        return Ok(());
    };
    let through = backup_side(alloc, present, placement)?;
    spread(present, &through, placement, source)
}

/// Places the backup root below its nearest placed neighbour, and then what is reached from it.
fn place_backup_side(
    alloc: Global,
    present: &Present,
    root: u32,
    placement: &mut Placement,
) -> Result<(), NoMemory>
    requires root { root < length (net_of present.now).devices }
    requires present { takes_part (net_of present.now) (left_out present.now) root ≡ true }
    requires so_far { placement.old ≡ record {
      order = placing.root_part (net_of present.now) root (left_out present.now);
      count = length (net_of present.now).devices;
    } }
    ensures { OnOk result (placement.new ≡ record {
      order = placing.both_parts (net_of present.now) root (left_out present.now);
      count = length (net_of present.now).devices;
    }) }
{
    let backup_root = backup_root_of(present, root);
    if backup_root == root {
        return Ok(());
    }
    place_nearest(present, placement, backup_root)?;
    place_backup_part(alloc, present, root, placement)
}

/// Places the devices that the greedy plan places, in its order: the root with its side, the backup
/// root with its side, and what is left. Nothing is placed where the root is absent.
pub fn place(alloc: Global, present: &Present, root: u32) -> Result<Placement, NoMemory>
    requires root { root < length (net_of present.now).devices }
    ensures order { IfOk result (λ p. p ≡ record {
      order = placing.placed (net_of present.now) root (left_out present.now);
      count = length (net_of present.now).devices;
    }) }
    ensures grows { IfOk result
        (λ p. Grows (net_of present.now) root (left_out present.now) p.order) }
{
    if !present.takes_part(root) {
        return Placement::new(alloc, present.topo.devices());
    }
    let mut placement = place_root_part(alloc, present, root)?;
    place_backup_side(alloc, present, root, &mut placement)?;
    place_left(alloc, present, &mut placement)?;
    Ok(placement)
}
