//! Breadth first from a placed device.
ghost use Rattle.std.specs.Prelude.{◌≡◌, ◌<◌, ◌≤◌, ◌^◌, ◌-◌, ◌++◌, ◌∷◌, [], ℕ, List, Bool, false, true, length, drop, OnOk, slice_index_or};
ghost use Rattle.sd_planner.specs.Usable.{neighbours_of};
ghost use Rattle.sd_planner.specs.Views.{net_of, left_out};
ghost use Rattle.sd_planner.specs.Spreading as spreading;
ghost use Rattle.sd_planner.specs.Spreading.{is_placed};
ghost use Rattle.sd_planner.specs.Sweeps.{children, IsShallow, Sweeps};
ghost use Rattle.sd_planner.specs.declared.placement.Placed.{Placed};

use crate::placement::{Placed, Placement};
use crate::present::{Neighbour, Present};
use sd_num::NoMemory;
use sd_plan::Hop;

/// Places a neighbour of a placed parent, if it may be passed and is not placed yet.
fn place_over(
    may_pass: &[bool],
    placement: &mut Placement,
    parent: Placed,
    neighbour: Neighbour,
) -> Result<(), NoMemory>
    requires flags { length may_pass.now ≡ placement.old.count }
    requires range { neighbour.device < placement.old.count }
    requires deep { parent.depth < 2 ^ 32 - 1 }
    ensures { OnOk result (placement.new ≡ record {
      order = placement.old.order
          ++ children may_pass.now parent.device parent.depth placement.old.order (neighbour ∷ []);
      count = placement.old.count;
    }) }
{
    if may_pass[neighbour.device as usize] && !placement.has(neighbour.device) {
        placement.add(Placed {
            device: neighbour.device,
            depth: parent.depth + 1,
            hop: Some(Hop {
                parent: parent.device,
                link: neighbour.link,
            }),
        })?;
    }
    Ok(())
}

/// Places the neighbours of a placed parent that may be passed and are not placed yet.
fn place_below(
    present: &Present,
    may_pass: &[bool],
    placement: &mut Placement,
    parent: Placed,
) -> Result<(), NoMemory>
    requires count { placement.old.count ≡ length (net_of present.now).devices }
    requires flags { length may_pass.now ≡ placement.old.count }
    requires range { parent.device < placement.old.count }
    requires deep { parent.depth < 2 ^ 32 - 1 }
    ensures { OnOk result (placement.new ≡ record {
      order = placement.old.order
          ++ children may_pass.now parent.device parent.depth placement.old.order
          (neighbours_of (net_of present.now) (left_out present.now) parent.device);
      count = placement.old.count;
    }) }
{
    let neighbours = present.neighbours_of(parent.device);
    for neighbour in neighbours {
        place_over(may_pass, placement, parent, *neighbour)?;
    }
    Ok(())
}

/// Works off the queue, which is the placement's own order from a place on.
fn sweep(
    present: &Present,
    may_pass: &[bool],
    placement: &mut Placement,
    first: usize,
) -> Result<(), NoMemory>
    requires count { placement.old.count ≡ length (net_of present.now).devices }
    requires flags { length may_pass.now ≡ placement.old.count }
    requires first { first ≤ length placement.old.order }
    requires deep { IsShallow first placement.old.order }
    ensures { (final : List Placed)
        → Sweeps may_pass.now (neighbours_of (net_of present.now) (left_out present.now))
        (drop first placement.old.order) placement.old.order final
        → OnOk result (placement.new ≡ record { order = final; count = placement.old.count }) }
{
    let mut next = first;
    while next < placement.order().len() {
        let parent = placement.order()[next];
        place_below(present, may_pass, placement, parent)?;
        next += 1;
    }
    Ok(())
}

/// Places, breadth first below a placed source, each device that may be passed and is reached: the
/// devices in the order in which they were placed, and the neighbours of each by ascending number.
pub(crate) fn spread(
    present: &Present,
    may_pass: &[bool],
    placement: &mut Placement,
    source: Placed,
) -> Result<(), NoMemory>
    requires count { placement.old.count ≡ length (net_of present.now).devices }
    requires flags { length may_pass.now ≡ placement.old.count }
    requires deep { source.depth ≤ 2 ^ 16 }
    requires source { is_placed placement.old.order source.device ≡ true }
    requires range { source.device < placement.old.count }
    requires fresh { (d : ℕ) → slice_index_or may_pass.now d false ≡ true
        → is_placed placement.old.order d ≡ false }
    ensures { (through : ℕ → Bool)
        → ((d : ℕ) → d < placement.old.count → slice_index_or may_pass.now d false ≡ through d)
        → OnOk result (placement.new ≡ record {
          order = placement.old.order
              ++ spreading.spread (net_of present.now) (left_out present.now)
              source.device through source.depth;
          count = placement.old.count;
        }) }
{
    let first = placement.order().len();
    place_below(present, may_pass, placement, source)?;
    sweep(present, may_pass, placement, first)
}
