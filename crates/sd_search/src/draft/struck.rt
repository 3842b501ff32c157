//! What one fault domain fails of a draft, and the members that it hits: those whose way along primary
//! hops, up to the first root, has something that fails.
use crate::draft::children::Children;
use crate::draft::draft::Draft;
use crate::draft::failing::{Failing, devices_in, links_in};
use crate::draft::ground::Ground;
use crate::draft::tables::{is_set, no_flags, push, set_entry};
use sd_num::NoMemory;
use sd_plan::domain::DomainId;
use sd_plan::topo::Topology;
use std::alloc::Global;

/// What fails, and who is hit.
#[derive(Drop)]
pub(crate) struct Struck {
    pub failing: Failing,
    /// The devices that are hit, each once.
    pub hit: Vec<u32>,
    is_hit: Vec<bool>,
}

impl Struck {
    /// Nothing of a topology fails.
    pub(crate) fn new(alloc: Global, ground: &Ground<'_>) -> Result<Struck, NoMemory> {
        Ok(Struck {
            failing: Failing::new(alloc, ground)?,
            hit: Vec::new(alloc),
            is_hit: no_flags(alloc, ground.topo.devices())?,
        })
    }

    /// Whether a device is hit.
    pub(crate) fn hits(&self, d: u32) -> bool {
        is_set(self.is_hit.as_slice(), d)
    }

    /// One of the devices that are hit, by its place.
    pub(crate) fn hit_at(&self, place: usize) -> Option<u32> {
        match self.hit.get(place) {
            Some(d) => Some(*d),
            None => None,
        }
    }

    /// A device is hit.
    fn hit(&mut self, d: u32) -> Result<(), NoMemory> {
        if !self.hits(d) {
            set_entry(self.is_hit.as_mut_slice(), d, true);
            push(&mut self.hit, d)?;
        }
        Ok(())
    }

    /// The children of a device are hit.
    fn hit_below(&mut self, topo: &Topology, children: &Children, d: u32) -> Result<(), NoMemory> {
        let mut child = children.first_of(d);
        for _ in 0..topo.devices() {
            let Some(here) = child else {
                return Ok(());
            };
            self.hit(here)?;
            child = children.next_after(here);
        }
        Ok(())
    }

    /// Those are hit that follow another over a thing of the domain.
    fn hit_first(
        &mut self,
        topo: &Topology,
        children: &Children,
        domain: DomainId,
    ) -> Result<(), NoMemory> {
        for d in devices_in(topo, &domain) {
            self.hit_below(topo, children, *d)?;
        }
        for link in links_in(topo, &domain) {
            if let Some(child) = children.over(*link) {
                self.hit(child)?;
            }
        }
        Ok(())
    }

    /// The things of a domain fail, and nothing else does.
    pub(crate) fn strike(
        &mut self,
        ground: &Ground<'_>,
        children: &Children,
        draft: &Draft,
        domain: DomainId,
    ) -> Result<(), NoMemory> {
        self.failing.flag(ground, domain, true);
        self.hit_first(ground.topo, children, domain)?;
        for place in 0..ground.topo.devices() as usize {
            let Some(d) = self.hit_at(place) else {
                return Ok(());
            };
            // a way that comes to the backup root ends there
            if d != draft.backup_root {
                self.hit_below(ground.topo, children, d)?;
            }
        }
        Ok(())
    }

    /// The things of the domain fail no more.
    pub(crate) fn mend(&mut self, ground: &Ground<'_>, domain: DomainId) {
        self.failing.flag(ground, domain, false);
        for d in &self.hit {
            set_entry(self.is_hit.as_mut_slice(), *d, false);
        }
        self.hit.clear();
    }
}
