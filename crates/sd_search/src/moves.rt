//! Moves from draft to draft: another primary or backup of one device, another root or backup root,
//! or another tree.
use crate::candidates::Candidates;
use crate::draft::tables::{clear_flags, is_set, no_flags, push, set_entry};
use crate::draft::{Change, Draft, Ground};
use rand_core::SeedableRng;
use rand_core::utils::NextWord;
use rand_pcg::Pcg32;
use sd_num::NoMemory;
use sd_plan::Hop;
use std::alloc::Global;

/// Draws moves.
#[derive(Drop)]
pub(crate) struct Mover {
    random: Pcg32,
    reached: Vec<bool>,
    edge: Vec<u32>,
}

impl Mover {
    /// Draws by a seed.
    pub(crate) fn new(alloc: Global, ground: &Ground<'_>, seed: u64) -> Result<Mover, NoMemory> {
        Ok(Mover {
            random: Pcg32::seed_from_u64(seed),
            reached: no_flags(alloc, ground.topo.devices())?,
            edge: Vec::new(alloc),
        })
    }

    /// A number below another, or 0.
    pub(crate) fn below(&mut self, bound: usize) -> usize {
        if bound == 0 {
            return 0;
        }
        self.random.next_word() as usize % bound
    }

    /// One of some numbers.
    fn one_of(&mut self, numbers: &[u32]) -> Option<u32> {
        let place = self.below(numbers.len());
        match numbers.get(place) {
            Some(number) => Some(*number),
            None => None,
        }
    }

    /// A device.
    fn device(&mut self, ground: &Ground<'_>) -> u32 {
        let devices = ground.topo.devices();
        if devices == 0 {
            return 0;
        }
        self.random.next_word() % devices
    }

    /// A usable hop of a device.
    fn hop_of(&mut self, ground: &Ground<'_>, d: u32) -> Option<Hop> {
        let neighbours = ground.neighbours(d);
        let place = self.below(neighbours.len());
        match neighbours.get(place) {
            Some(neighbour) => Some(Hop {
                parent: neighbour.device,
                link: neighbour.link,
            }),
            None => None,
        }
    }

    /// Another primary of a device.
    fn move_primary(&mut self, ground: &Ground<'_>, draft: &mut Draft) -> Change {
        let d = self.device(ground);
        if d == draft.root {
            return Change::Row(d);
        }
        if let Some(hop) = self.hop_of(ground, d) {
            if !draft.leads_over(hop.parent, d, ground.topo.params().depth) {
                let old = draft.primary(d);
                draft.set_primary(d, hop);
                // the primary that was is the backup where none is left
                if draft.backup(d).is_none() {
                    draft.set_backup(d, old.filter(|old| old.link != hop.link));
                }
            }
        }
        Change::Row(d)
    }

    /// Another backup of a device, or none.
    fn move_backup(&mut self, ground: &Ground<'_>, draft: &mut Draft) -> Change {
        let d = self.device(ground);
        let Some(row) = draft.row(d) else {
            return Change::Row(d);
        };
        match self.hop_of(ground, d) {
            Some(hop) if hop.link != row.primary.link => draft.set_backup(d, Some(hop)),
            _ => {
                if d != draft.backup_root && self.below(4) == 0 {
                    draft.set_backup(d, None);
                }
            }
        }
        Change::Row(d)
    }

    /// Another backup root.
    fn move_backup_root(&mut self, candidates: &Candidates, draft: &mut Draft) {
        if let Some(backup_root) = self.one_of(candidates.backup_roots.as_slice()) {
            if backup_root == draft.root {
                return;
            }
            draft.backup_root = backup_root;
        }
    }

    /// Another root: the walk from it to the old one is turned round.
    fn move_root(&mut self, ground: &Ground<'_>, candidates: &Candidates, draft: &mut Draft) {
        let Some(root) = self.one_of(candidates.roots.as_slice()) else {
            return;
        };
        let mut here = root;
        let mut up = draft.primary(root);
        for _ in 0..ground.topo.params().depth {
            let Some(hop) = up else {
                break;
            };
            up = draft.primary(hop.parent);
            draft.set_primary(
                hop.parent,
                Hop {
                    parent: here,
                    link: hop.link,
                },
            );
            here = hop.parent;
        }
        draft.set_row(root, None);
        if draft.backup_root == root {
            draft.backup_root = draft.root;
        }
        draft.root = root;
    }

    /// One move, and what it changed at most.
    pub(crate) fn step(
        &mut self,
        ground: &Ground<'_>,
        candidates: &Candidates,
        draft: &mut Draft,
    ) -> Change {
        match self.random.next_word() % 16 {
            0 => self.move_root(ground, candidates, draft),
            1 => self.move_backup_root(candidates, draft),
            2..=8 => return self.move_primary(ground, draft),
            _ => return self.move_backup(ground, draft),
        }
        Change::All
    }

    /// Takes the neighbours of a device that are not reached yet below it.
    fn grow_from(
        &mut self,
        ground: &Ground<'_>,
        draft: &mut Draft,
        d: u32,
    ) -> Result<(), NoMemory> {
        for neighbour in ground.neighbours(d) {
            let next = neighbour.device;
            // some are left for others to take
            if !is_set(self.reached.as_slice(), next) && self.below(4) > 0 {
                set_entry(self.reached.as_mut_slice(), next, true);
                draft.set_primary(
                    next,
                    Hop {
                        parent: d,
                        link: neighbour.link,
                    },
                );
                push(&mut self.edge, next)?;
            }
        }
        Ok(())
    }

    /// A backup for each device, at random.
    fn draw_backups(&mut self, ground: &Ground<'_>, draft: &mut Draft) {
        for d in 0..ground.topo.devices() {
            if let Some(hop) = self.hop_of(ground, d) {
                if let Some(row) = draft.row(d) {
                    if row.primary.link != hop.link {
                        draft.set_backup(d, Some(hop));
                    }
                }
            }
        }
    }

    /// A tree at random, below a pair of roots at random.
    pub(crate) fn scatter(
        &mut self,
        ground: &Ground<'_>,
        candidates: &Candidates,
        draft: &mut Draft,
    ) -> Result<(), NoMemory> {
        let place = self.below(candidates.pairs());
        let Some(pair) = candidates.pair(place) else {
            return Ok(());
        };
        draft.root = pair.root;
        draft.backup_root = pair.backup_root;
        for d in 0..ground.topo.devices() {
            draft.set_row(d, None);
        }
        clear_flags(self.reached.as_mut_slice());
        self.edge.clear();
        set_entry(self.reached.as_mut_slice(), pair.root, true);
        push(&mut self.edge, pair.root)?;
        for turn in 0..(ground.topo.devices() as usize).saturating_mul(8) {
            if self.edge.is_empty() {
                break;
            }
            // the first half goes breadth first, what is left over comes again
            let place = turn % self.edge.len();
            if let Some(d) = self.edge.get(place) {
                let d = *d;
                self.grow_from(ground, draft, d)?;
            }
        }
        self.draw_backups(ground, draft);
        Ok(())
    }
}
