//! Placing what is left: again and again the lowest device that has a placed neighbour.
ghost use Rattle.std.specs.Prelude.{◌≡◌, ◌<◌, length, OnOk, IfOk};
ghost use Rattle.sd_planner.specs.Usable.{neighbours_of};
ghost use Rattle.sd_planner.specs.Views.{net_of, left_out};
ghost use Rattle.sd_planner.specs.Placing as placing;
ghost use Rattle.sd_planner.specs.Trees.{HasGrown};
ghost use Rattle.sd_planner.specs.Waits.{AreWaiting, IsNextStep};

use crate::nearest::place_nearest;
use crate::placement::Placement;
use crate::present::Present;
use crate::waiting::{Waiting, add_neighbours, all_waiting};
use sd_num::NoMemory;
use std::alloc::Global;

/// Places the lowest device that waits, if one does. Whether one did.
fn place_lowest(
    present: &Present,
    waiting: &mut Waiting,
    placement: &mut Placement,
) -> Result<bool, NoMemory>
    requires count { placement.old.count ≡ length (net_of present.now).devices }
    requires grown { HasGrown (net_of present.now) (left_out present.now) placement.old.order }
    requires waiting { AreWaiting (neighbours_of (net_of present.now) (left_out present.now))
        placement.old.order placement.old.order waiting.old }
    ensures count { OnOk result (placement.new.count ≡ placement.old.count) }
    ensures step { IfOk result (λ more.
        IsNextStep (net_of present.now) (left_out present.now) more
        placement.old.order placement.new.order waiting.new) }
{
    let Some(d) = waiting.take_lowest() else {
        return Ok(false);
    };
    place_nearest(present, placement, d)?;
    add_neighbours(waiting, placement, present.neighbours_of(d))?;
    Ok(true)
}

/// Places what is left.
pub(crate) fn place_left(
    alloc: Global,
    present: &Present,
    placement: &mut Placement,
) -> Result<(), NoMemory>
    requires count { placement.old.count ≡ length (net_of present.now).devices }
    requires grown { HasGrown (net_of present.now) (left_out present.now) placement.old.order }
    ensures { OnOk result (placement.new ≡ record {
      order = placing.with_left (net_of present.now) (left_out present.now)
          (length (net_of present.now).devices) placement.old.order;
      count = placement.old.count;
    }) }
{
    let mut waiting = all_waiting(alloc, present, placement)?;
    for _ in 0..present.topo.devices() {
        match place_lowest(present, &mut waiting, placement) {
            Ok(true) => {}
            Ok(false) => return Ok(()),
            Err(fault) => return Err(fault),
        }
    }
    Ok(())
}
