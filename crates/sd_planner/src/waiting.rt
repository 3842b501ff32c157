//! The devices that wait for their place: not placed, with a placed neighbour.
ghost use Rattle.std.specs.Prelude.{◌≡◌, ℕ, ◌<◌, ◌||◌, ◌&&◌, not, [], All, nat_eq, length, OnOk, IfOk};
ghost use Rattle.sd_num.specs.Lists.{has};
ghost use Rattle.sd_planner.specs.Spreading.{is_placed};
ghost use Rattle.sd_planner.specs.Waits.{IsTaken, AreWaiting, lead_to};
ghost use Rattle.sd_planner.specs.Usable.{neighbours_of};
ghost use Rattle.sd_planner.specs.Views.{net_of, left_out};

use crate::placement::Placement;
use crate::present::{Neighbour, Present};
use sd_num::NoMemory;
use std::alloc::Global;
use std::collections::BTreeSet;
use std::marker::Model;

/// Devices by ascending number.
#[derive(Drop)]
pub(crate) struct Waiting {
    numbers: BTreeSet<u32>,
}

impl Model for Waiting {
    ghost use Rattle.std.specs.Prelude.{ℕ, List};

    ghost Value = { List ℕ };

    ghost view = { λ waiting. waiting.numbers.keys };
}

impl Waiting {
    /// None.
    fn new(alloc: Global) -> Waiting
        ensures { result ≡ [] }
    {
        Waiting {
            numbers: BTreeSet::new(alloc),
        }
    }

    /// One more.
    fn add(&mut self, d: u32) -> Result<(), NoMemory>
        ensures { OnOk result ((x : ℕ) → has self.new x ≡ (nat_eq x d || has self.old x)) }
    {
        match self.numbers.insert(d) {
            Ok(_) => Ok(()),
            Err(_) => Err(NoMemory),
        }
    }

    /// Takes the lowest of them away.
    pub(crate) fn take_lowest(&mut self) -> Option<u32>
        ensures { IsTaken self.old self.new result }
    {
        self.numbers.pop_first()
    }
}

/// Adds those of some neighbours that are not placed.
pub(crate) fn add_neighbours(
    waiting: &mut Waiting,
    placement: &Placement,
    neighbours: &[Neighbour],
) -> Result<(), NoMemory>
    requires { All (λ neighbour. neighbour.device < placement.now.count) neighbours.now }
    ensures { OnOk result ((x : ℕ) → has waiting.new x
        ≡ (has waiting.old x
        || (not (is_placed placement.now.order x) && lead_to neighbours.now x))) }
{
    for neighbour in neighbours {
        if placement.has(neighbour.device) {
            continue;
        }
        match waiting.add(neighbour.device) {
            Ok(()) => {}
            Err(fault) => return Err(fault),
        }
    }
    Ok(())
}

/// All devices that wait.
pub(crate) fn all_waiting(
    alloc: Global,
    present: &Present,
    placement: &Placement,
) -> Result<Waiting, NoMemory>
    requires { placement.now.count ≡ length (net_of present.now).devices }
    ensures { IfOk result (λ waiting.
        AreWaiting (neighbours_of (net_of present.now) (left_out present.now))
        placement.now.order placement.now.order waiting) }
{
    let mut waiting = Waiting::new(alloc);
    for placed in placement.order() {
        let neighbours = present.neighbours_of(placed.device);
        match add_neighbours(&mut waiting, placement, neighbours) {
            Ok(()) => {}
            Err(fault) => return Err(fault),
        }
    }
    Ok(waiting)
}
