//! Where the greedy rule places each device below a given pair of roots.
use crate::draft::draft::Draft;
use crate::draft::ground::Ground;
use crate::draft::tables::{clear_flags, entry_or, is_set, no_flags, push, set_entry};
use sd_num::NoMemory;
use sd_plan::{Hop, PlanRow};
use std::alloc::Global;

/// The placed devices in their order, and how deep each lies.
#[derive(Drop)]
pub(crate) struct Places {
    pub order: Vec<u32>,
    depths: Vec<u32>,
    placed: Vec<bool>,
    may_pass: Vec<bool>,
}

impl Places {
    /// Room for the placing of this many devices.
    pub(crate) fn new(alloc: Global, devices: u32) -> Result<Places, NoMemory> {
        let Ok(depths) = vec![in alloc; 0; devices as usize] else {
            return Err(NoMemory);
        };
        Ok(Places {
            order: Vec::new(alloc),
            depths,
            placed: no_flags(alloc, devices)?,
            may_pass: no_flags(alloc, devices)?,
        })
    }

    /// Whether a device has been placed.
    pub(crate) fn has(&self, d: u32) -> bool {
        is_set(self.placed.as_slice(), d)
    }

    /// How deep a placed device lies.
    pub(crate) fn depth(&self, d: u32) -> u32 {
        entry_or(self.depths.as_slice(), d, 0)
    }

    /// Whether a placed device comes before another by depth and then by number.
    pub(crate) fn is_before(&self, d: u32, e: u32) -> bool {
        self.depth(d) < self.depth(e) || (self.depth(d) == self.depth(e) && d < e)
    }

    /// Nothing is placed.
    fn clear(&mut self) {
        self.order.clear();
        clear_flags(self.placed.as_mut_slice());
    }

    /// Places a device so deep.
    fn place(&mut self, d: u32, depth: u32) -> Result<(), NoMemory> {
        push(&mut self.order, d)?;
        set_entry(self.depths.as_mut_slice(), d, depth);
        set_entry(self.placed.as_mut_slice(), d, true);
        Ok(())
    }

    /// Places a device below another.
    fn place_below(&mut self, draft: &mut Draft, d: u32, hop: Hop) -> Result<(), NoMemory> {
        draft.set_row(
            d,
            Some(PlanRow {
                primary: hop,
                backup: None,
            }),
        );
        self.place(d, self.depth(hop.parent).saturating_add(1))
    }

    /// Notes which devices may be passed: the members of a side, but for the roots.
    fn choose_side(&mut self, ground: &Ground<'_>, draft: &Draft, of_backup: bool) {
        for d in 0..ground.topo.devices() {
            let passes = ground.is_member(d)
                && !draft.is_either_root(d)
                && ground.is_on_backup_side(d) == of_backup;
            set_entry(self.may_pass.as_mut_slice(), d, passes);
        }
    }

    /// Places the neighbours of a device that may be passed and are not placed yet.
    fn spread_from(
        &mut self,
        ground: &Ground<'_>,
        draft: &mut Draft,
        d: u32,
    ) -> Result<(), NoMemory> {
        for neighbour in ground.neighbours(d) {
            let next = neighbour.device;
            if is_set(self.may_pass.as_slice(), next) && !self.has(next) {
                self.place_below(
                    draft,
                    next,
                    Hop {
                        parent: d,
                        link: neighbour.link,
                    },
                )?;
            }
        }
        Ok(())
    }

    /// Places all that is reached from the device that was placed last.
    fn spread(&mut self, ground: &Ground<'_>, draft: &mut Draft) -> Result<(), NoMemory> {
        let first = self.order.len().saturating_sub(1);
        for turn in 0..ground.topo.devices() {
            match self.order.get(first.saturating_add(turn as usize)) {
                Some(d) => {
                    let d = *d;
                    self.spread_from(ground, draft, d)?;
                }
                None => return Ok(()),
            }
        }
        Ok(())
    }

    /// The hop to the placed neighbour of a device that comes first by depth and number.
    fn nearest(&self, ground: &Ground<'_>, d: u32) -> Option<Hop> {
        let mut best: Option<Hop> = None;
        for neighbour in ground.neighbours(d) {
            let is_better = match best {
                Some(hop) => self.is_before(neighbour.device, hop.parent),
                None => true,
            };
            if self.has(neighbour.device) && is_better {
                best = Some(Hop {
                    parent: neighbour.device,
                    link: neighbour.link,
                });
            }
        }
        best
    }

    /// Places each member that is left and has a placed neighbour, in the order of their numbers,
    /// and answers whether there was one.
    fn place_some(&mut self, ground: &Ground<'_>, draft: &mut Draft) -> Result<bool, NoMemory> {
        let mut any = false;
        for d in 0..ground.topo.devices() {
            if ground.is_member(d) && !self.has(d) {
                if let Some(hop) = self.nearest(ground, d) {
                    self.place_below(draft, d, hop)?;
                    any = true;
                }
            }
        }
        Ok(any)
    }

    /// Places the members that are left.
    fn place_left(&mut self, ground: &Ground<'_>, draft: &mut Draft) -> Result<(), NoMemory> {
        for _ in 0..ground.topo.devices() {
            if !self.place_some(ground, draft)? {
                return Ok(());
            }
        }
        Ok(())
    }

    /// Places the backup root, and what is reached from it through the members on its side.
    fn place_backup_side(
        &mut self,
        ground: &Ground<'_>,
        draft: &mut Draft,
    ) -> Result<(), NoMemory> {
        let backup_root = draft.backup_root;
        match self.nearest(ground, backup_root) {
            Some(hop) if backup_root != draft.root => {
                self.place_below(draft, backup_root, hop)?;
                self.choose_side(ground, draft, true);
                self.spread(ground, draft)
            }
            _ => Ok(()),
        }
    }

    /// Places the devices of a draft of which the roots are known.
    pub(crate) fn place_all(
        &mut self,
        ground: &Ground<'_>,
        draft: &mut Draft,
    ) -> Result<(), NoMemory> {
        self.clear();
        if !ground.is_member(draft.root) {
            return Ok(());
        }
        self.place(draft.root, 0)?;
        self.choose_side(ground, draft, false);
        self.spread(ground, draft)?;
        self.place_backup_side(ground, draft)?;
        self.place_left(ground, draft)
    }
}
