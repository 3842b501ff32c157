//! How many breaches a draft has: of structure, of the ancestor condition, and under one fault domain.
//! The checker stops at the first breach, so a search that goes from draft to draft needs a count of
//! its own. A draft that is without a breach here is still judged by the checker.
use crate::draft::children::Children;
use crate::draft::draft::Draft;
use crate::draft::ground::Ground;
use crate::draft::struck::Struck;
use crate::draft::tables::{clear_flags, is_set, no_flags, push, set_entry};
use sd_num::NoMemory;
use sd_plan::Hop;
use sd_plan::domain::DomainId;
use std::alloc::Global;

/// Room for counting under a domain. It goes over the devices alone that the domain hits: no other one
/// breaks a condition under it.
#[derive(Drop)]
pub(crate) struct Counter {
    children: Children,
    struck: Struck,
    /// Of those that are hit, the members from which each way along hops ends, or that hear the acting
    /// end.
    done: Vec<bool>,
    /// The members that the acting end is joined to.
    joined: Vec<bool>,
    waiting: Vec<u32>,
}

/// One of these, where it holds.
fn one_if(holds: bool) -> u64 {
    if holds { 1 } else { 0 }
}

impl Counter {
    /// Room for a topology.
    pub(crate) fn new(alloc: Global, ground: &Ground<'_>) -> Result<Counter, NoMemory> {
        let devices = ground.topo.devices();
        Ok(Counter {
            children: Children::new(alloc, ground.topo)?,
            struck: Struck::new(alloc, ground)?,
            done: no_flags(alloc, devices)?,
            joined: no_flags(alloc, devices)?,
            waiting: Vec::new(alloc),
        })
    }

    /// A draft is counted next.
    pub(crate) fn set_to(&mut self, ground: &Ground<'_>, draft: &Draft) {
        self.children.set_to(ground.topo, draft);
    }

    /// How many breaches there are under a domain, of the draft that it was set to, which has no breach
    /// of structure.
    pub(crate) fn under(
        &mut self,
        ground: &Ground<'_>,
        draft: &Draft,
        domain: DomainId,
    ) -> Result<u64, NoMemory> {
        self.struck.strike(ground, &self.children, draft, domain)?;
        let roots = self.root_breaches(ground, draft);
        let loops = self.loop_breaches(ground, draft);
        let others = self.hearing_breaches(ground, draft)?;
        self.struck.mend(ground, domain);
        Ok(roots.saturating_add(loops).saturating_add(others))
    }

    /// Whether the walk of a device to the root has something that fails, its beginning and the root
    /// apart.
    fn fails_on_walk(&self, ground: &Ground<'_>, draft: &Draft, from: u32) -> bool {
        let mut here = from;
        for _ in 0..ground.topo.params().depth {
            match draft.primary(here) {
                Some(hop) => {
                    let is_inner = hop.parent != draft.root
                        && self.struck.failing.has_device(hop.parent);
                    if self.struck.failing.has_link(hop.link) || is_inner {
                        return true;
                    }
                    here = hop.parent;
                }
                None => return false,
            }
        }
        false
    }

    /// Whether both ways between the two roots fail, or both roots.
    fn root_breaches(&self, ground: &Ground<'_>, draft: &Draft) -> u64 {
        let root_fails = self.struck.failing.has_device(draft.root);
        let both = root_fails && self.struck.failing.has_device(draft.backup_root);
        let first_fails = root_fails || self.fails_on_walk(ground, draft, draft.backup_root);
        let second_fails = match draft.backup(draft.backup_root) {
            Some(hop) => {
                self.struck.failing.has_link(hop.link)
                    || (hop.parent != draft.root && self.struck.failing.has_device(hop.parent))
                    || self.fails_on_walk(ground, draft, hop.parent)
            }
            None => true,
        };
        one_if(both).saturating_add(one_if(first_fails && second_fails))
    }

    /// Notes that no device that is hit is done.
    fn begin(&mut self) {
        for d in &self.struck.hit {
            set_entry(self.done.as_mut_slice(), *d, false);
        }
    }

    /// Whether a device is a member that is done, or is not hit.
    fn is_done(&self, ground: &Ground<'_>, d: u32) -> bool {
        ground.is_member(d) && (!self.struck.hits(d) || is_set(self.done.as_slice(), d))
    }

    /// Whether each way from a device that is hit along its hops ends at devices that are done.
    fn ends_done(&self, ground: &Ground<'_>, draft: &Draft, d: u32) -> bool {
        let Some(row) = draft.row(d) else {
            return true;
        };
        let first = self.is_done(ground, row.primary.parent);
        match row.backup {
            Some(hop) => first && self.is_done(ground, hop.parent),
            None => first,
        }
    }

    /// Marks the devices that are hit whose ways all end, and answers how many are left.
    fn peel(&mut self, ground: &Ground<'_>, draft: &Draft) -> u64 {
        let mut left = 0;
        for place in 0..self.struck.hit.len() {
            let Some(d) = self.struck.hit_at(place) else {
                return left;
            };
            if !is_set(self.done.as_slice(), d) {
                if draft.is_either_root(d) || self.ends_done(ground, draft, d) {
                    set_entry(self.done.as_mut_slice(), d, true);
                } else {
                    left = u64::saturating_add(left, 1);
                }
            }
        }
        left
    }

    /// One, where hops lead in a circle.
    fn loop_breaches(&mut self, ground: &Ground<'_>, draft: &Draft) -> u64 {
        self.begin();
        let mut left = u64::MAX;
        for _ in 0..ground.topo.devices() {
            let now = self.peel(ground, draft);
            if now == 0 || now == left {
                return one_if(now > 0);
            }
            left = now;
        }
        one_if(left > 0)
    }

    /// The next hop of a device that is hit.
    fn next_hop(&self, draft: &Draft, d: u32) -> Option<Hop> {
        match draft.backup(d) {
            Some(hop) => Some(hop),
            None => draft.primary(d),
        }
    }

    /// Whether a device that is hit hears the acting end, as far as it is known which others do.
    fn hears(&self, ground: &Ground<'_>, draft: &Draft, acting: u32, d: u32) -> bool {
        if d == acting || d == draft.backup_root {
            return true;
        }
        match self.next_hop(draft, d) {
            Some(hop) => !self.struck.failing.has_of(hop) && self.is_done(ground, hop.parent),
            None => false,
        }
    }

    /// Whether a device is a member that does not fail.
    fn is_left(&self, ground: &Ground<'_>, d: u32) -> bool {
        ground.is_member(d) && !self.struck.failing.has_device(d)
    }

    /// Marks the devices that are hit and hear the acting end, and answers how many do not.
    fn listen(&mut self, ground: &Ground<'_>, draft: &Draft, acting: u32) -> u64 {
        let mut deaf = 0;
        for place in 0..self.struck.hit.len() {
            let Some(d) = self.struck.hit_at(place) else {
                return deaf;
            };
            if self.is_left(ground, d) && !is_set(self.done.as_slice(), d) {
                if self.hears(ground, draft, acting, d) {
                    set_entry(self.done.as_mut_slice(), d, true);
                } else {
                    deaf = u64::saturating_add(deaf, 1);
                }
            }
        }
        deaf
    }

    /// Marks all devices that are hit and hear the acting end, and answers how many do not.
    fn note_hearing(&mut self, ground: &Ground<'_>, draft: &Draft, acting: u32) -> u64 {
        self.begin();
        let mut deaf = u64::MAX;
        for _ in 0..ground.topo.devices() {
            let now = self.listen(ground, draft, acting);
            if now == 0 || now == deaf {
                return now;
            }
            deaf = now;
        }
        deaf
    }

    /// Marks what is joined to a device, and is to be gone on from.
    fn join_from(&mut self, ground: &Ground<'_>, d: u32) -> Result<(), NoMemory> {
        for neighbour in ground.neighbours(d) {
            let next = neighbour.device;
            let joins = !self.struck.failing.has_link(neighbour.link)
                && !self.struck.failing.has_device(next);
            if joins && !is_set(self.joined.as_slice(), next) {
                set_entry(self.joined.as_mut_slice(), next, true);
                push(&mut self.waiting, next)?;
            }
        }
        Ok(())
    }

    /// Marks what is joined to the acting end by things that do not fail.
    fn note_joined(&mut self, ground: &Ground<'_>, acting: u32) -> Result<(), NoMemory> {
        clear_flags(self.joined.as_mut_slice());
        self.waiting.clear();
        set_entry(self.joined.as_mut_slice(), acting, true);
        push(&mut self.waiting, acting)?;
        for _ in 0..ground.topo.devices() {
            match self.waiting.pop() {
                Some(d) => self.join_from(ground, d)?,
                None => return Ok(()),
            }
        }
        Ok(())
    }

    /// Whether the backup of a device that is hit fails too.
    fn loses_backup(&self, draft: &Draft, d: u32) -> bool {
        match draft.backup(d) {
            Some(hop) => {
                !draft.is_either_root(d) && self.struck.hits(d) && self.struck.failing.has_of(hop)
            }
            None => false,
        }
    }

    /// Whether a device is left that loses both hops.
    fn is_any_troubled(&self, ground: &Ground<'_>, draft: &Draft) -> bool {
        for d in &self.struck.hit {
            if self.is_left(ground, *d) && self.loses_backup(draft, *d) {
                return true;
            }
        }
        false
    }

    /// How many devices that the acting end is joined to lose their backup, or do not hear it.
    fn hearing_breaches(&mut self, ground: &Ground<'_>, draft: &Draft) -> Result<u64, NoMemory> {
        let acting = if self.struck.failing.has_device(draft.root) {
            draft.backup_root
        } else {
            draft.root
        };
        let deaf = self.note_hearing(ground, draft, acting);
        if self.struck.failing.has_device(acting)
            || (deaf == 0 && !self.is_any_troubled(ground, draft))
        {
            return Ok(0);
        }
        self.note_joined(ground, acting)?;
        let mut count = 0;
        for place in 0..self.struck.hit.len() {
            let Some(d) = self.struck.hit_at(place) else {
                return Ok(count);
            };
            if self.is_left(ground, d) && is_set(self.joined.as_slice(), d) {
                let lost = one_if(self.loses_backup(draft, d));
                let unheard = one_if(!is_set(self.done.as_slice(), d));
                count = u64::saturating_add(count, lost).saturating_add(unheard);
            }
        }
        Ok(count)
    }
}

/// Whether a member has a row, and its walk reaches the root within the depth.
fn is_well_placed(ground: &Ground<'_>, draft: &Draft, d: u32) -> bool {
    d == draft.root || draft.leads_over(d, draft.root, ground.topo.params().depth)
}

/// How many devices break a rule of structure.
pub(crate) fn structure_breaches(ground: &Ground<'_>, draft: &Draft) -> u64 {
    let roots = ground.is_member(draft.root)
        && ground.is_member(draft.backup_root)
        && draft.root != draft.backup_root
        && draft.backup(draft.backup_root).is_some();
    let mut count = one_if(!roots);
    for d in 0..ground.topo.devices() {
        let placed = !ground.is_member(d) || is_well_placed(ground, draft, d);
        count = count.saturating_add(one_if(!placed));
    }
    count
}

/// Whether a device is above its own backup parent, on the walk that counts.
fn is_above_backup(ground: &Ground<'_>, draft: &Draft, d: u32) -> bool {
    let Some(hop) = draft.backup(d) else {
        return false;
    };
    let mut here = hop.parent;
    for _ in 0..ground.topo.params().depth {
        if here == d {
            return true;
        }
        if draft.is_either_root(here) && d != draft.backup_root {
            return false;
        }
        match draft.primary(here) {
            Some(up) => here = up.parent,
            None => return false,
        }
    }
    here == d
}

/// How many devices are above their own backup parents.
pub(crate) fn ancestor_breaches(ground: &Ground<'_>, draft: &Draft) -> u64 {
    let mut count = 0;
    for d in 0..ground.topo.devices() {
        count = u64::saturating_add(count, one_if(is_above_backup(ground, draft, d)));
    }
    count
}
