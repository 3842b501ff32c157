//! What has been placed so far.
ghost use Rattle.std.specs.Prelude.{◌≡◌, ◌<◌, ◌≤◌, ◌++◌, [], ◌∷◌, false, length, All, IfOk, OnOk};
ghost use Rattle.sd_planner.specs.Spreading.{is_placed, placed_at};

use sd_num::NoMemory;
use sd_plan::Hop;
use std::alloc::Global;
use std::marker::Model;

/// A placed device: its depth below the root, and its hop to its parent, which the root has not.
#[derive(Clone, Copy, Debug, PartialEq, Eq)]
pub struct Placed {
    pub device: u32,
    pub depth: u32,
    pub hop: Option<Hop>,
}

/// The placed devices in their order, and the place of each.
#[derive(Drop)]
pub struct Placement {
    order: Vec<Placed>,
    places: Vec<Option<u32>>,
}

impl Model for Placement {
    ghost use Rattle.sd_planner.specs.Placements.{Placements};

    ghost Value = { Placements };

    ghost use Rattle.sd_planner.specs.PlacementView.{placement_seen, IsPlacement};

    ghost view = { placement_seen };

    ghost invariant = { IsPlacement };
}

impl Placement {
    /// Nothing placed of that many devices.
    pub fn new(alloc: Global, count: u32) -> Result<Placement, NoMemory>
        ensures { IfOk result (λ placement. placement ≡ record { order = []; count = count }) }
    {
        match vec![in alloc; None; count as usize] {
            Ok(places) => Ok(Placement {
                order: Vec::new(alloc),
                places,
            }),
            Err(_) => Err(NoMemory),
        }
    }

    /// Places one device more.
    pub fn add(&mut self, placed: Placed) -> Result<(), NoMemory>
        requires range { placed.device < self.old.count }
        requires fresh { is_placed self.old.order placed.device ≡ false }
        ensures { OnOk result
            (self.new ≡ record { order = self.old.order ++ placed ∷ []; count = self.old.count }) }
    {
        let place = self.order.len() as u32;
        match self.order.push(placed) {
            Ok(()) => {}
            Err(_) => return Err(NoMemory),
        }
        self.places[placed.device as usize] = Some(place);
        Ok(())
    }

    /// A device as it was placed, if it was.
    pub fn find(&self, d: u32) -> Option<Placed>
        requires { d < self.now.count }
        ensures { result ≡ placed_at self.now.order d }
    {
        match self.places[d as usize] {
            Some(place) => Some(self.order[place as usize]),
            None => None,
        }
    }

    /// Whether a device has been placed.
    pub fn has(&self, d: u32) -> bool
        requires { d < self.now.count }
        ensures { result ≡ is_placed self.now.order d }
    {
        self.places[d as usize].is_some()
    }

    /// The placed devices, in their order: no more than there are.
    pub fn order(&self) -> &[Placed]
        ensures order { result.now ≡ self.now.order }
        ensures within { All (λ p. p.device < self.now.count) self.now.order }
        ensures few { length self.now.order ≤ self.now.count }
    {
        self.order.as_slice()
    }
}
