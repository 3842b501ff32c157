//! Placing a device below its nearest placed neighbour.
ghost use Rattle.std.specs.Prelude.{◌≡◌, ◌<◌, ◌≤◌, ◌^◌, ◌+◌, length, false, All, Some, OnOk};
ghost use Rattle.sd_planner.specs.Views.{net_of, left_out};
ghost use Rattle.sd_planner.specs.Spreading.{is_placed};
ghost use Rattle.sd_planner.specs.Placing as placing;
ghost use Rattle.sd_planner.specs.Nearing as nearing;
ghost use Rattle.sd_planner.specs.Nearing.{AreKnown, IsNearest};

use crate::placement::{Placed, Placement};
use crate::present::{Neighbour, Present};
use sd_num::NoMemory;
use sd_plan::Hop;

/// A placed neighbour, and the link to it.
#[derive(Clone, Copy)]
struct Near {
    placed: Placed,
    link: u32,
}

/// Whether one comes before the other, or is it, by depth and then by number.
fn no_later(p: Placed, q: Placed) -> bool
    ensures { result ≡ placing.no_later p q }
{
    p.depth < q.depth || (p.depth == q.depth && p.device <= q.device)
}

/// The better of the best one so far and a neighbour, if that is placed.
fn closer(placement: &Placement, best: Option<Near>, neighbour: Neighbour) -> Option<Near>
    requires { neighbour.device < placement.now.count }
    ensures { result ≡ nearing.closer placement.now.order best neighbour }
{
    let Some(placed) = placement.find(neighbour.device) else {
        return best;
    };
    let near = Near {
        placed,
        link: neighbour.link,
    };
    match best {
        None => Some(near),
        Some(known) => {
            if no_later(known.placed, placed) {
                best
            } else {
                Some(near)
            }
        }
    }
}

/// The nearest of some neighbours that are placed, with the first link to it.
fn nearest_of(neighbours: &[Neighbour], placement: &Placement) -> Option<Near>
    requires neighbours { All (λ neighbour. neighbour.device < placement.now.count) neighbours.now }
    requires known { AreKnown placement.now.count placement.now.order }
    ensures { IsNearest placement.now.order neighbours.now result }
{
    let mut best = None;
    for neighbour in neighbours {
        best = closer(placement, best, *neighbour);
    }
    best
}

/// A device as it is placed below another.
fn below(near: Near, d: u32) -> Placed
    requires { near.placed.depth < 2 ^ 16 }
    ensures { result ≡ record {
      device = d;
      depth = near.placed.depth + 1;
      hop = Some (record { parent = near.placed.device; link = near.link });
    } }
{
    let hop = Hop {
        parent: near.placed.device,
        link: near.link,
    };
    Placed {
        device: d,
        depth: near.placed.depth + 1,
        hop: Some(hop),
    }
}

/// A device as it is placed below its nearest placed neighbour, if it has one.
fn below_nearest(present: &Present, placement: &Placement, d: u32) -> Option<Placed>
    requires range { d < length (net_of present.now).devices }
    requires count { placement.now.count ≡ length (net_of present.now).devices }
    requires known { AreKnown placement.now.count placement.now.order }
    ensures { result ≡ placing.below_nearest (net_of present.now)
        (left_out present.now) placement.now.order d }
{
    match nearest_of(present.neighbours_of(d), placement) {
        Some(near) => Some(below(near, d)),
        None => None,
    }
}

/// Places a device below its nearest placed neighbour, if it has one.
pub(crate) fn place_nearest(
    present: &Present,
    placement: &mut Placement,
    d: u32,
) -> Result<(), NoMemory>
    requires range { d < length (net_of present.now).devices }
    requires fresh { is_placed placement.old.order d ≡ false }
    requires count { placement.old.count ≡ length (net_of present.now).devices }
    requires known { AreKnown placement.old.count placement.old.order }
    ensures { OnOk result (placement.new ≡ record {
      order = placing.with_device (net_of present.now) (left_out present.now) placement.old.order d;
      count = placement.old.count;
    }) }
{
    match below_nearest(present, placement, d) {
        Some(placed) => placement.add(placed),
        None => Ok(()),
    }
}
