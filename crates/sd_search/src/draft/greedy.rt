//! The draft that the greedy rule makes below a given pair of roots.
use crate::draft::backups::{Chooser, Parallel};
use crate::draft::draft::Draft;
use crate::draft::ground::Ground;
use crate::draft::placing::Places;
use sd_num::NoMemory;
use std::alloc::Global;

/// The root and the backup root of a draft.
#[derive(Clone, Copy)]
pub struct Pair {
    pub root: u32,
    pub backup_root: u32,
}

/// The greedy rule, with room for its work.
#[derive(Drop)]
pub struct Greedy {
    places: Places,
    chooser: Chooser,
}

impl Greedy {
    /// Room for a topology.
    pub fn new(alloc: Global, ground: &Ground<'_>) -> Result<Greedy, NoMemory> {
        Ok(Greedy {
            places: Places::new(alloc, ground.topo.devices())?,
            chooser: Chooser::new(alloc, ground)?,
        })
    }

    /// The draft below a pair of roots.
    pub fn draft(
        &mut self,
        alloc: Global,
        ground: &Ground<'_>,
        pair: Pair,
        parallel: Parallel,
    ) -> Result<Draft, NoMemory> {
        let devices = ground.topo.devices();
        let mut draft = Draft::new(alloc, devices, pair.root, pair.backup_root)?;
        self.places.place_all(ground, &mut draft)?;
        self.chooser
            .choose_all(ground, &mut draft, &self.places, parallel);
        Ok(draft)
    }
}
