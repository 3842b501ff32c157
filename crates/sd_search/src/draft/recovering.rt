//! How the devices of a draft recover from one domain: which come to hear the acting end again, and what
//! their walks reach. A domain changes this of those devices alone that it has or hits.
ghost use Rattle.std.specs.Prelude.{◌<◌};

use crate::draft::children::Children;
use crate::draft::draft::Draft;
use crate::draft::ground::Ground;
use crate::draft::struck::Struck;
use crate::draft::tables::{entry_or, is_set, no_flags, push, set_entry};
use sd_drill::recovery::{Reach, Recovery};
use sd_num::NoMemory;
use sd_plan::Hop;
use sd_plan::domain::DomainId;
use sd_plan::topo::Topology;
use std::alloc::Global;

/// What the walks reach that have no hop.
const NOWHERE: Option<Reach> = Some(Reach { far: 0, long: 0 });

/// Of a device that does not take part.
const UNFED: Recovery = Recovery {
    fed: false,
    reach: NOWHERE,
};

/// Of one at which walks end.
const FED: Recovery = Recovery {
    fed: true,
    reach: NOWHERE,
};

/// The half of a hop of a device, in ps.
pub(crate) fn half_of(topo: &Topology, d: u32, hop: Hop) -> u64 {
    if hop.link >= topo.links() {
        return 0;
    }
    let link = topo.link(hop.link);
    if link.end_a == d || link.end_b == d {
        topo.bounds(hop.link, d).half
    } else {
        0
    }
}

/// What the walks of a device reach that begin with a hop, by what those of its parent reach. None where
/// one has more hops than the depth and one.
fn over(topo: &Topology, d: u32, hop: Hop, behind: Option<Reach>) -> Option<Reach> {
    let behind = behind?;
    if behind.long > topo.params().depth {
        return None;
    }
    Some(Reach {
        far: half_of(topo, d, hop).saturating_add(behind.far),
        long: behind.long.saturating_add(1),
    })
}

/// What walks of two kinds reach together.
fn farther(a: Option<Reach>, b: Option<Reach>) -> Option<Reach> {
    let a = a?;
    let b = b?;
    Some(Reach {
        far: a.far.max(b.far),
        long: a.long.max(b.long),
    })
}

/// Room for how devices recover.
fn no_recoveries(alloc: Global, count: u32) -> Result<Vec<Recovery>, NoMemory> {
    match vec![in alloc; UNFED; count as usize] {
        Ok(recoveries) => Ok(recoveries),
        Err(_) => Err(NoMemory),
    }
}

/// How the devices of one draft recover.
#[derive(Drop)]
pub(crate) struct Recovering {
    children: Children,
    pub struck: Struck,
    /// Of each device, where the domain neither has nor hits it.
    calm: Vec<Recovery>,
    /// The devices of which that is noted.
    order: Vec<u32>,
    /// Of each device that the domain hits, if it is settled.
    under: Vec<Recovery>,
    is_settled: Vec<bool>,
}

impl Recovering {
    /// Room for a topology.
    pub(crate) fn new(alloc: Global, ground: &Ground<'_>) -> Result<Recovering, NoMemory> {
        let devices = ground.topo.devices();
        Ok(Recovering {
            children: Children::new(alloc, ground.topo)?,
            struck: Struck::new(alloc, ground)?,
            calm: no_recoveries(alloc, devices)?,
            order: Vec::new(alloc),
            under: no_recoveries(alloc, devices)?,
            is_settled: no_flags(alloc, devices)?,
        })
    }

    /// How a device recovers where the domain neither has nor hits it.
    pub(crate) fn calm_of(&self, d: u32) -> Recovery {
        entry_or(self.calm.as_slice(), d, UNFED)
    }

    /// Notes that of a device.
    fn note_calm(&mut self, d: u32, recovery: Recovery) -> Result<(), NoMemory> {
        set_entry(self.calm.as_mut_slice(), d, recovery);
        push(&mut self.order, d)
    }

    /// Notes it of the children of a device, but for the backup root.
    fn note_below(&mut self, topo: &Topology, draft: &Draft, d: u32) -> Result<(), NoMemory> {
        let mut child = self.children.first_of(d);
        for _ in 0..topo.devices() {
            let Some(here) = child else {
                return Ok(());
            };
            child = self.children.next_after(here);
            match draft.primary(here) {
                Some(hop) if here != draft.backup_root => {
                    let reach = over(topo, here, hop, self.calm_of(d).reach);
                    self.note_calm(here, Recovery { fed: true, reach })?;
                }
                _ => {}
            }
        }
        Ok(())
    }

    /// An accepted draft is looked at next.
    pub(crate) fn set_to(&mut self, topo: &Topology, draft: &Draft) -> Result<(), NoMemory> {
        self.children.set_to(topo, draft);
        self.calm.fill(UNFED);
        self.order.clear();
        self.note_calm(draft.root, FED)?;
        self.note_calm(draft.backup_root, FED)?;
        for place in 0..topo.devices() as usize {
            match self.order.get(place) {
                Some(d) => {
                    let d = *d;
                    self.note_below(topo, draft, d)?;
                }
                None => return Ok(()),
            }
        }
        Ok(())
    }

    /// How a device recovers under the domain, if that is settled.
    fn settled(&self, d: u32) -> Option<Recovery> {
        if !self.struck.hits(d) {
            return Some(self.calm_of(d));
        }
        if is_set(self.is_settled.as_slice(), d) {
            Some(entry_or(self.under.as_slice(), d, UNFED))
        } else {
            None
        }
    }

    /// How a device recovers over one of its hops alone, if it is settled of the parent.
    fn over_hop(&self, topo: &Topology, d: u32, hop: Hop) -> Option<Recovery> {
        let behind = self.settled(hop.parent)?;
        Some(Recovery {
            fed: behind.fed && !self.struck.failing.has_of(hop),
            reach: over(topo, d, hop, behind.reach),
        })
    }

    /// How a device that is hit recovers, if it is settled of its parents. It turns to its backup, and to
    /// its primary where it has none.
    fn settle(&self, topo: &Topology, draft: &Draft, d: u32) -> Option<Recovery> {
        if draft.is_either_root(d) {
            return Some(FED);
        }
        let Some(row) = draft.row(d) else {
            return Some(UNFED);
        };
        let first = self.over_hop(topo, d, row.primary)?;
        let Some(hop) = row.backup else {
            return Some(first);
        };
        let second = self.over_hop(topo, d, hop)?;
        Some(Recovery {
            fed: second.fed,
            reach: farther(first.reach, second.reach),
        })
    }

    /// Settles the devices that are hit whose parents are settled, and tells whether any is left.
    fn settle_some(&mut self, topo: &Topology, draft: &Draft) -> bool {
        let mut any_left = false;
        for place in 0..self.struck.hit.len() {
            let Some(d) = self.struck.hit_at(place) else {
                return any_left;
            };
            if !is_set(self.is_settled.as_slice(), d) {
                match self.settle(topo, draft, d) {
                    Some(recovery) => {
                        set_entry(self.under.as_mut_slice(), d, recovery);
                        set_entry(self.is_settled.as_mut_slice(), d, true);
                    }
                    None => any_left = true,
                }
            }
        }
        any_left
    }

    /// The things of a domain fail. Hops of the draft lead in no circle.
    pub(crate) fn strike(
        &mut self,
        ground: &Ground<'_>,
        draft: &Draft,
        domain: DomainId,
    ) -> Result<(), NoMemory> {
        self.struck.strike(ground, &self.children, draft, domain)?;
        for d in &self.struck.hit {
            set_entry(self.is_settled.as_mut_slice(), *d, false);
        }
        for _ in 0..ground.topo.devices() {
            if !self.settle_some(ground.topo, draft) {
                break;
            }
        }
        Ok(())
    }

    /// How a device recovers that the domain has or hits.
    pub(crate) fn of(&self, d: u32) -> Recovery {
        if self.struck.failing.has_device(d) {
            return UNFED;
        }
        match self.settled(d) {
            Some(recovery) => recovery,
            None => UNFED,
        }
    }

    /// The things of the domain fail no more.
    pub(crate) fn mend(&mut self, ground: &Ground<'_>, domain: DomainId) {
        self.struck.mend(ground, domain);
    }
}
