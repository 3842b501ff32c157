//! Which placed devices follow the root over some devices and links.
ghost use Rattle.std.specs.Prelude.{◌≡◌, ◌||◌, false, length, IfOk};
ghost use Rattle.sd_num.specs.Lists.{map_or};
ghost use Rattle.sd_planner.specs.Flags as words;
ghost use Rattle.sd_planner.specs.Flags.{AreOver, HaveGrown};

use super::flags::{is_set, no_flags};
use crate::{Placed, Placement};
use sd_num::NoMemory;
use std::alloc::Global;

/// Whether the device or its hop is flagged, or its parent leads over something that is.
fn is_over(placed: Placed, devices: &[bool], links: &[bool], over: &[bool]) -> bool
    ensures { result ≡ (words.is_set devices.now placed.device
        || map_or placed.hop false
        (λ hop. words.is_set links.now hop.link || words.is_set over.now hop.parent)) }
{
    is_set(devices, placed.device)
        || match placed.hop {
            Some(hop) => is_set(links, hop.link) || is_set(over, hop.parent),
            None => false,
        }
}

/// For each placed device, whether its walk to the root leads over a flagged device, itself
/// counted, or a flagged link. Each parent is placed before its children, so one pass is enough.
pub(crate) fn led_over(
    alloc: Global,
    placement: &Placement,
    devices: &[bool],
    links: &[bool],
) -> Result<Vec<bool>, NoMemory>
    requires { HaveGrown (length devices.now) placement.now.order }
    ensures { IfOk result
        (λ over. AreOver devices.now links.now placement.now.order
        (length placement.now.order) over.items) }
{
    let mut over = no_flags(alloc, devices.len())?;
    for placed in placement.order() {
        over[placed.device as usize] = is_over(*placed, devices, links, over.as_slice());
    }
    Ok(over)
}
