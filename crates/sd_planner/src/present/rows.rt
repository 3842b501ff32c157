//! Lists of neighbours, one for each device.
ghost use Rattle.std.specs.Prelude.{◌≡◌, ◌++◌, [], ◌∷◌, replicate, OnOk, IfOk};

use crate::present::Neighbour;
use sd_num::NoMemory;
use std::alloc::Global;
use std::marker::Model;

/// The neighbours of one device.
#[derive(Drop)]
pub(crate) struct NeighbourRow {
    items: Vec<Neighbour>,
}

impl Model for NeighbourRow {
    ghost use Rattle.std.specs.Prelude.{List};
    ghost use Rattle.sd_planner.specs.declared.present.Neighbour.{Neighbour};

    ghost Value = { List Neighbour };

    ghost view = { λ row. row.items.items };
}

impl NeighbourRow {
    fn new(alloc: Global) -> NeighbourRow
        ensures { result ≡ [] }
    {
        NeighbourRow {
            items: Vec::new(alloc),
        }
    }

    pub(crate) fn push(&mut self, neighbour: Neighbour) -> Result<(), NoMemory>
        ensures { OnOk result (self.new ≡ self.old ++ (neighbour ∷ [])) }
    {
        match self.items.push(neighbour) {
            Ok(()) => Ok(()),
            Err(_) => Err(NoMemory),
        }
    }

    pub(crate) fn as_slice(&self) -> &[Neighbour]
        ensures { result.now ≡ self.now }
    {
        self.items.as_slice()
    }
}

/// A list for each device, with nothing in it.
pub(crate) fn no_neighbours(alloc: Global, count: usize) -> Result<Vec<NeighbourRow>, NoMemory>
    ensures { IfOk result (λ rows. rows.items ≡ replicate count []) }
{
    let mut rows = Vec::new(alloc);
    for _ in 0..count {
        let Ok(()) = rows.push(NeighbourRow::new(alloc)) else {
            return Err(NoMemory);
        };
    }
    Ok(rows)
}
