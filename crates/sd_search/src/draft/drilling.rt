//! The bounds of an accepted draft under one domain after another: the numbers of the drill, without its
//! proof. A bound is looked for only of devices that a domain has or hits, since each other device has
//! the same one under every domain that spares it.
use crate::draft::bounds::Bounds;
use crate::draft::draft::Draft;
use crate::draft::failing::devices_in;
use crate::draft::ground::Ground;
use crate::draft::growth::{GrowthTable, aged};
use crate::draft::recovering::{Recovering, half_of};
use crate::draft::tables::{entry_or, set_entry};
use sd_drill::Budget;
use sd_drill::recovery::Recovery;
use sd_num::NoMemory;
use sd_plan::Plan;
use sd_plan::domain::DomainId;
use sd_plan::topo::Topology;
use std::alloc::Global;

/// A draft under drill.
#[derive(Drop)]
pub(crate) struct DraftDrill {
    budget: Budget,
    growths: GrowthTable,
    recovering: Recovering,
    /// The uncertainty of what an acting root sends, and the way between the two roots, in ps.
    sent: u128,
    /// By device, its bound under each domain that spares it.
    calm: Vec<Option<u128>>,
    /// All of these.
    all: Bounds,
    /// A device whose bound is the greatest of these.
    highest: u32,
}

/// The sum of the halves along the walk of a device to the root.
fn halves_to_root(topo: &Topology, draft: &Draft, from: u32) -> u64 {
    let mut sum: u64 = 0;
    let mut here = from;
    for _ in 0..topo.params().depth {
        match draft.primary(here) {
            Some(hop) if here != draft.root => {
                sum = sum.saturating_add(half_of(topo, here, hop));
                here = hop.parent;
            }
            _ => return sum,
        }
    }
    sum
}

/// The greatest sum of halves from the backup root to the root: over its primary, or over its backup.
fn root_halves(topo: &Topology, draft: &Draft) -> u64 {
    let backup_root = draft.backup_root;
    let over_primary = halves_to_root(topo, draft, backup_root);
    match draft.backup(backup_root) {
        Some(hop) => {
            let half = half_of(topo, backup_root, hop);
            over_primary.max(half.saturating_add(halves_to_root(topo, draft, hop.parent)))
        }
        None => over_primary,
    }
}

impl DraftDrill {
    /// Room for drafts of a topology, with the waits of a plan.
    pub(crate) fn new(
        alloc: Global,
        ground: &Ground<'_>,
        waits: &Plan,
        budget: Budget,
    ) -> Result<DraftDrill, NoMemory> {
        let Ok(calm) = vec![in alloc; None; ground.topo.devices() as usize] else {
            return Err(NoMemory);
        };
        Ok(DraftDrill {
            budget,
            growths: GrowthTable::new(alloc, ground.topo, waits)?,
            recovering: Recovering::new(alloc, ground)?,
            sent: 0,
            calm,
            all: Bounds::NONE,
            highest: 0,
        })
    }

    /// The uncertainty of what an acting root of a draft sends, and the way between its two roots.
    fn sent_by(&self, topo: &Topology, draft: &Draft) -> u128 {
        let way = u128::from(root_halves(topo, draft));
        u128::from(self.budget.base)
            .saturating_add(aged(topo, draft.root, self.budget.hold))
            .saturating_add(aged(topo, draft.backup_root, self.budget.hold))
            .saturating_add(way.saturating_mul(2))
    }

    /// The bound of a device that recovers so, if it has one.
    fn bound_by(&mut self, topo: &Topology, d: u32, recovery: Recovery) -> Option<u128> {
        match recovery.reach {
            Some(reach) if recovery.fed => {
                let growth = self.growths.of(topo, d, reach.long);
                let far = u128::from(reach.far);
                Some(self.sent.saturating_add(far).saturating_add(growth))
            }
            _ => None,
        }
    }

    /// Notes the bound of a device under each domain that spares it.
    fn note_calm(&mut self, topo: &Topology, d: u32) {
        let recovery = self.recovering.calm_of(d);
        let bound = self.bound_by(topo, d, recovery);
        set_entry(self.calm.as_mut_slice(), d, bound);
        let before = self.all.greatest;
        self.all.add(bound);
        if self.all.greatest > before {
            self.highest = d;
        }
    }

    /// An accepted draft is drilled next.
    pub(crate) fn set_to(&mut self, topo: &Topology, draft: &Draft) -> Result<(), NoMemory> {
        self.recovering.set_to(topo, draft)?;
        self.sent = self.sent_by(topo, draft);
        self.all = Bounds::NONE;
        self.highest = 0;
        for d in 0..topo.devices() {
            self.note_calm(topo, d);
        }
        Ok(())
    }

    /// The bound of a device under each domain that spares it.
    fn calm_of(&self, d: u32) -> Option<u128> {
        entry_or(self.calm.as_slice(), d, None)
    }

    /// Whether the domain neither has nor hits a device.
    fn spares(&self, d: u32) -> bool {
        !self.recovering.struck.hits(d) && !self.recovering.struck.failing.has_device(d)
    }

    /// The greatest bound of the devices that the domain spares.
    fn greatest_spared(&self, topo: &Topology) -> u128 {
        if self.spares(self.highest) {
            return self.all.greatest;
        }
        let mut spared = Bounds::NONE;
        for d in 0..topo.devices() {
            if self.spares(d) {
                spared.add(self.calm_of(d));
            }
        }
        spared.greatest
    }

    /// A device has another bound than its calm one.
    fn set_bound(&mut self, topo: &Topology, bounds: &mut Bounds, d: u32) {
        let calm = self.calm_of(d);
        bounds.take_away(calm);
        let recovery = self.recovering.of(d);
        let bound = self.bound_by(topo, d, recovery);
        bounds.add(bound);
    }

    /// The bounds while things of a domain fail.
    fn bounds_struck(&mut self, topo: &Topology, domain: DomainId) -> Bounds {
        let mut bounds = self.all;
        bounds.greatest = self.greatest_spared(topo);
        for place in 0..self.recovering.struck.hit.len() {
            if let Some(d) = self.recovering.struck.hit_at(place) {
                self.set_bound(topo, &mut bounds, d);
            }
        }
        for d in devices_in(topo, &domain) {
            if !self.recovering.struck.hits(*d) {
                self.set_bound(topo, &mut bounds, *d);
            }
        }
        bounds
    }

    /// The bounds of the draft that it was set to under a domain.
    pub(crate) fn under(
        &mut self,
        ground: &Ground<'_>,
        draft: &Draft,
        domain: DomainId,
    ) -> Result<Bounds, NoMemory> {
        self.recovering.strike(ground, draft, domain)?;
        let bounds = self.bounds_struck(ground.topo, domain);
        self.recovering.mend(ground, domain);
        Ok(bounds)
    }
}
