//! The breaches of a draft by fault domain. A draft that differs from the one before in one row is
//! counted only under the domains that meet the walk of that device.
use crate::draft::breaches::{Counter, ancestor_breaches, structure_breaches};
use crate::draft::draft::Draft;
use crate::draft::ground::Ground;
use crate::draft::tables::{clear_flags, copy_entries, is_set, no_flags, push, set_entry};
use sd_num::NoMemory;
use sd_plan::domain::DomainId;
use std::alloc::Global;
use std::mem::swap;

/// How much more a breach of structure counts than one under a domain: no domain is looked at while
/// there is one.
const STRUCTURE: u64 = 1_000_000;

/// What differs between a draft and the one before.
#[derive(Clone, Copy)]
pub enum Change {
    /// The row of one device.
    Row(u32),
    /// Several rows, or a root.
    All,
}

/// The breaches of two drafts under each domain: of the one that is gone on from, and of the one that
/// was counted last.
///
/// A row of a device matters under the domains alone that meet its walk, before or after the change.
/// Under any other domain the device is not hit, so its backup does not count, and neither is anything
/// above it: its walk ends at a root whichever way it goes.
#[derive(Drop)]
pub struct Tally {
    counter: Counter,
    /// By the place of a domain: the listed ones first, then each device, then each link.
    kept: Vec<u64>,
    tried: Vec<u64>,
    /// Whether each place has been counted.
    is_kept_whole: bool,
    is_tried_whole: bool,
    /// Under which domains the draft differs from the one before.
    chosen: Vec<DomainId>,
    is_chosen: Vec<bool>,
}

/// A zero for each of this many places.
fn no_counts(alloc: Global, count: u32) -> Result<Vec<u64>, NoMemory> {
    match vec![in alloc; 0; count as usize] {
        Ok(counts) => Ok(counts),
        Err(_) => Err(NoMemory),
    }
}

/// How many places there are.
pub fn places(ground: &Ground<'_>) -> u32 {
    place_of(ground, DomainId::Link(ground.topo.links()))
}

/// The place of a domain.
pub fn place_of(ground: &Ground<'_>, domain: DomainId) -> u32 {
    let listed = ground.topo.domains();
    match domain {
        DomainId::Listed(domain) => domain,
        DomainId::Device(d) => listed.saturating_add(d),
        DomainId::Link(link) => listed
            .saturating_add(ground.topo.devices())
            .saturating_add(link),
    }
}

impl Tally {
    /// Room for a topology. Nothing is counted yet.
    pub fn new(alloc: Global, ground: &Ground<'_>) -> Result<Tally, NoMemory> {
        let places = places(ground);
        Ok(Tally {
            counter: Counter::new(alloc, ground)?,
            kept: no_counts(alloc, places)?,
            tried: no_counts(alloc, places)?,
            is_kept_whole: false,
            is_tried_whole: false,
            chosen: Vec::new(alloc),
            is_chosen: no_flags(alloc, places)?,
        })
    }

    /// Chooses a domain, which counts no more as before.
    fn choose(&mut self, ground: &Ground<'_>, domain: DomainId) -> Result<(), NoMemory> {
        let place = place_of(ground, domain);
        if !is_set(self.is_chosen.as_slice(), place) {
            set_entry(self.is_chosen.as_mut_slice(), place, true);
            set_entry(self.tried.as_mut_slice(), place, 0);
            push(&mut self.chosen, domain)?;
        }
        Ok(())
    }

    /// Chooses the domains that have a device.
    fn choose_device(&mut self, ground: &Ground<'_>, d: u32) -> Result<(), NoMemory> {
        for listed in ground.domains_of_device(d) {
            self.choose(ground, DomainId::Listed(*listed))?;
        }
        self.choose(ground, DomainId::Device(d))
    }

    /// Chooses the domains that have a link.
    fn choose_link(&mut self, ground: &Ground<'_>, link: u32) -> Result<(), NoMemory> {
        for listed in ground.domains_of_link(link) {
            self.choose(ground, DomainId::Listed(*listed))?;
        }
        self.choose(ground, DomainId::Link(link))
    }

    /// Chooses the domains that meet the walk of a device.
    fn choose_walk(
        &mut self,
        ground: &Ground<'_>,
        draft: &Draft,
        from: u32,
    ) -> Result<(), NoMemory> {
        let mut here = from;
        for _ in 0..ground.topo.params().depth {
            match draft.primary(here) {
                Some(hop) => {
                    self.choose_link(ground, hop.link)?;
                    self.choose_device(ground, hop.parent)?;
                    here = hop.parent;
                }
                None => return Ok(()),
            }
        }
        Ok(())
    }

    /// Chooses each listed domain, and each device and each link that some primary hop leads over: any
    /// other thing alone hits nothing.
    fn choose_all(&mut self, ground: &Ground<'_>, draft: &Draft) -> Result<(), NoMemory> {
        for place in 0..self.tried.len() {
            self.tried[place] = 0;
        }
        for listed in 0..ground.topo.domains() {
            self.choose(ground, DomainId::Listed(listed))?;
        }
        self.choose(ground, DomainId::Device(draft.root))?;
        self.choose(ground, DomainId::Device(draft.backup_root))?;
        for d in 0..ground.topo.devices() {
            if let Some(hop) = draft.primary(d) {
                self.choose(ground, DomainId::Device(hop.parent))?;
                self.choose(ground, DomainId::Link(hop.link))?;
            }
        }
        Ok(())
    }

    /// Chooses the domains under which a draft may count otherwise than the one before.
    fn choose_changed(
        &mut self,
        ground: &Ground<'_>,
        before: &Draft,
        draft: &Draft,
        change: Change,
    ) -> Result<(), NoMemory> {
        clear_flags(self.is_chosen.as_mut_slice());
        self.chosen.clear();
        match change {
            Change::Row(d) if self.is_kept_whole => {
                copy_entries(self.tried.as_mut_slice(), self.kept.as_slice());
                self.choose_walk(ground, before, d)?;
                self.choose_walk(ground, draft, d)
            }
            _ => self.choose_all(ground, draft),
        }
    }

    /// How many breaches there are under the domains that count as before.
    fn sum_of_others(&self) -> u64 {
        let mut sum: u64 = 0;
        for count in &self.tried {
            sum = sum.saturating_add(*count);
        }
        sum
    }

    /// How many breaches a draft has, or some number above the limit where there are more. The draft
    /// before is the one that was kept last.
    pub fn count(
        &mut self,
        ground: &Ground<'_>,
        before: &Draft,
        draft: &Draft,
        change: Change,
        limit: u64,
    ) -> Result<u64, NoMemory> {
        self.is_tried_whole = false;
        let structure = structure_breaches(ground, draft);
        if structure > 0 {
            return Ok(structure.saturating_mul(STRUCTURE));
        }
        self.choose_changed(ground, before, draft, change)?;
        self.counter.set_to(ground, draft);
        let mut count = ancestor_breaches(ground, draft).saturating_add(self.sum_of_others());
        for turn in 0..self.chosen.len() {
            if count > limit {
                return Ok(count);
            }
            let domain = self.chosen[turn];
            let under = self.counter.under(ground, draft, domain)?;
            set_entry(self.tried.as_mut_slice(), place_of(ground, domain), under);
            count = count.saturating_add(under);
        }
        self.is_tried_whole = true;
        Ok(count)
    }

    /// Whether a draft may differ under the domain at a place from the one before.
    pub fn is_changed(&self, place: u32) -> bool {
        is_set(self.is_chosen.as_slice(), place)
    }

    /// The draft that was counted last is the one that is gone on from.
    pub fn keep(&mut self) {
        swap(&mut self.kept, &mut self.tried);
        self.is_kept_whole = self.is_tried_whole;
    }
}
