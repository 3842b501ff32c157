//! The backups that the greedy rule chooses for placed devices.
use crate::draft::draft::Draft;
use crate::draft::ground::Ground;
use crate::draft::placing::Places;
use crate::draft::tables::{clear_flags, is_set, no_flags, set_entry};
use sd_num::NoMemory;
use sd_plan::Hop;
use sd_planner::Neighbour;
use std::alloc::Global;

/// Whether a device that finds no other parent may take a second link to its own.
#[derive(Clone, Copy)]
pub enum Parallel {
    Never,
    AsLastChoice,
}

/// Room for choosing backups.
#[derive(Drop)]
pub(crate) struct Chooser {
    /// The listed domains that a device shares with its primary hop and is not in.
    shared: Vec<bool>,
    /// The devices and links that fail in one domain with something of the way between the roots.
    unfit_devices: Vec<bool>,
    unfit_links: Vec<bool>,
}

/// The hop to a neighbour.
fn hop_to(neighbour: &Neighbour) -> Hop {
    Hop {
        parent: neighbour.device,
        link: neighbour.link,
    }
}

impl Chooser {
    /// Room for a topology.
    pub(crate) fn new(alloc: Global, ground: &Ground<'_>) -> Result<Chooser, NoMemory> {
        Ok(Chooser {
            shared: no_flags(alloc, ground.topo.domains())?,
            unfit_devices: no_flags(alloc, ground.topo.devices())?,
            unfit_links: no_flags(alloc, ground.topo.links())?,
        })
    }

    /// Flags these domains.
    fn flag_all(&mut self, domains: &[u32], flag: bool) {
        for domain in domains {
            set_entry(self.shared.as_mut_slice(), *domain, flag);
        }
    }

    /// Notes the listed domains of a device's primary hop that leave the device out.
    fn note_shared(&mut self, ground: &Ground<'_>, d: u32, primary: Hop, of_parent: bool) {
        self.flag_all(ground.domains_of_link(primary.link), true);
        if of_parent {
            self.flag_all(ground.domains_of_device(primary.parent), true);
        } else {
            // what fails with the parent cuts the device off from it anyhow
            self.flag_all(ground.domains_of_device(primary.parent), false);
        }
        self.flag_all(ground.domains_of_device(d), false);
    }

    /// Forgets the domains of a primary hop.
    fn forget_shared(&mut self, ground: &Ground<'_>, primary: Hop) {
        self.flag_all(ground.domains_of_link(primary.link), false);
        self.flag_all(ground.domains_of_device(primary.parent), false);
    }

    /// Whether one of these domains is noted.
    fn is_any_shared(&self, domains: &[u32]) -> bool {
        for domain in domains {
            if is_set(self.shared.as_slice(), *domain) {
                return true;
            }
        }
        false
    }

    /// The first hop of a device to another side or to an earlier device, apart from its primary.
    fn other_parent(
        &self,
        ground: &Ground<'_>,
        draft: &Draft,
        places: &Places,
        d: u32,
        primary: Hop,
    ) -> Option<Hop> {
        let reach = ground.topo.params().depth;
        let own_side = draft.leads_over(d, draft.backup_root, reach);
        for neighbour in ground.neighbours(d) {
            let next = neighbour.device;
            let fits = neighbour.link != primary.link && next != primary.parent && places.has(next);
            if fits
                && (places.is_before(next, d)
                    || draft.leads_over(next, draft.backup_root, reach) != own_side)
                && !self.is_any_shared(ground.domains_of_link(neighbour.link))
                && !self.is_any_shared(ground.domains_of_device(next))
            {
                return Some(hop_to(neighbour));
            }
        }
        None
    }

    /// The first other link of a device to its parent.
    fn other_link(&self, ground: &Ground<'_>, d: u32, primary: Hop) -> Option<Hop> {
        for neighbour in ground.neighbours(d) {
            if neighbour.device == primary.parent
                && neighbour.link != primary.link
                && !self.is_any_shared(ground.domains_of_link(neighbour.link))
            {
                return Some(hop_to(neighbour));
            }
        }
        None
    }

    /// The backup of a device that is no root.
    fn ordinary(
        &mut self,
        ground: &Ground<'_>,
        draft: &Draft,
        places: &Places,
        d: u32,
        parallel: Parallel,
    ) -> Option<Hop> {
        let primary = draft.primary(d)?;
        self.note_shared(ground, d, primary, true);
        let mut backup = self.other_parent(ground, draft, places, d, primary);
        if backup.is_none() && matches!(parallel, Parallel::AsLastChoice) {
            self.note_shared(ground, d, primary, false);
            backup = self.other_link(ground, d, primary);
        }
        self.forget_shared(ground, primary);
        backup
    }

    /// Flags the things of a listed domain.
    fn flag_domain(&mut self, ground: &Ground<'_>, domain: u32) {
        if domain < ground.topo.domains() {
            for d in ground.topo.domain_devices(domain) {
                set_entry(self.unfit_devices.as_mut_slice(), *d, true);
            }
            for link in ground.topo.domain_links(domain) {
                set_entry(self.unfit_links.as_mut_slice(), *link, true);
            }
        }
    }

    /// Flags what fails in one domain with a hop.
    fn flag_hop(&mut self, ground: &Ground<'_>, hop: Hop) {
        set_entry(self.unfit_devices.as_mut_slice(), hop.parent, true);
        set_entry(self.unfit_links.as_mut_slice(), hop.link, true);
        for domain in ground.domains_of_device(hop.parent) {
            self.flag_domain(ground, *domain);
        }
        for domain in ground.domains_of_link(hop.link) {
            self.flag_domain(ground, *domain);
        }
    }

    /// Flags what fails in one domain with something of the way between the roots.
    fn flag_way(&mut self, ground: &Ground<'_>, draft: &Draft) {
        clear_flags(self.unfit_devices.as_mut_slice());
        clear_flags(self.unfit_links.as_mut_slice());
        let mut here = draft.backup_root;
        for _ in 0..ground.topo.params().depth {
            match draft.primary(here) {
                Some(hop) => {
                    self.flag_hop(ground, hop);
                    here = hop.parent;
                }
                None => return,
            }
        }
    }

    /// Whether the walk of a device has nothing that is flagged, nor the backup root.
    fn is_clear_walk(&self, ground: &Ground<'_>, draft: &Draft, from: u32) -> bool {
        let mut here = from;
        for _ in 0..ground.topo.params().depth {
            if here == draft.root {
                return true;
            }
            if here == draft.backup_root || is_set(self.unfit_devices.as_slice(), here) {
                return false;
            }
            match draft.primary(here) {
                Some(hop) if !is_set(self.unfit_links.as_slice(), hop.link) => here = hop.parent,
                _ => return false,
            }
        }
        here == draft.root
    }

    /// The backup of the backup root.
    fn of_backup_root(
        &mut self,
        ground: &Ground<'_>,
        draft: &Draft,
        places: &Places,
    ) -> Option<Hop> {
        let d = draft.backup_root;
        let primary = draft.primary(d)?;
        self.flag_way(ground, draft);
        for neighbour in ground.neighbours(d) {
            if neighbour.link != primary.link
                && places.has(neighbour.device)
                && !is_set(self.unfit_links.as_slice(), neighbour.link)
                && self.is_clear_walk(ground, draft, neighbour.device)
            {
                return Some(hop_to(neighbour));
            }
        }
        None
    }

    /// Chooses the backup of each placed device.
    pub(crate) fn choose_all(
        &mut self,
        ground: &Ground<'_>,
        draft: &mut Draft,
        places: &Places,
        parallel: Parallel,
    ) {
        for d in 0..ground.topo.devices() {
            if places.has(d) && d != draft.root {
                let backup = if d == draft.backup_root {
                    self.of_backup_root(ground, draft, places)
                } else {
                    self.ordinary(ground, draft, places, d, parallel)
                };
                draft.set_backup(d, backup);
            }
        }
    }
}
