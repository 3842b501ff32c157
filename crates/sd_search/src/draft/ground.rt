//! What a search goes over: what is present of a topology, and the listed domains of each thing.
ghost use Rattle.sd_planner.specs.Absences.{IsAbsentOf};
ghost use Rattle.sd_plan.specs.topo.Topologies.{network};

use crate::draft::tables::push;
use sd_num::NoMemory;
use sd_plan::Absent;
use sd_plan::topo::{Side, Topology};
use sd_planner::{Neighbour, Present};
use std::alloc::Global;

/// What is present of a topology, and by device and by link the listed domains that have it.
#[derive(Drop)]
pub struct Ground<'a> {
    pub topo: &'a Topology,
    present: Present<'a>,
    of_device: Vec<Vec<u32>>,
    of_link: Vec<Vec<u32>>,
}

/// This many empty lists.
fn empty_lists(alloc: Global, count: u32) -> Result<Vec<Vec<u32>>, NoMemory> {
    let mut lists = Vec::new(alloc);
    for _ in 0..count {
        push(&mut lists, Vec::new(alloc))?;
    }
    Ok(lists)
}

/// Adds a domain to the list of each of these things.
fn note_domain(lists: &mut Vec<Vec<u32>>, things: &[u32], domain: u32) -> Result<(), NoMemory> {
    for thing in things {
        if let Some(list) = lists.get_mut(*thing as usize) {
            push(list, domain)?;
        }
    }
    Ok(())
}

/// The list of a thing.
fn list_of(lists: &Vec<Vec<u32>>, thing: u32) -> &[u32] {
    match lists.get(thing as usize) {
        Some(list) => list.as_slice(),
        None => &[],
    }
}

impl<'a> Ground<'a> {
    /// What is present of a topology where these devices and links are absent.
    pub fn new(
        alloc: Global,
        topo: &'a Topology,
        absent: &'a Absent,
    ) -> Result<Ground<'a>, NoMemory>
        requires { IsAbsentOf (network topo.now) absent.now }
    {
        let present = Present::new(alloc, topo, absent)?;
        let mut of_device = empty_lists(alloc, topo.devices())?;
        let mut of_link = empty_lists(alloc, topo.links())?;
        for domain in 0..topo.domains() {
            note_domain(&mut of_device, topo.domain_devices(domain), domain)?;
            note_domain(&mut of_link, topo.domain_links(domain), domain)?;
        }
        Ok(Ground {
            topo,
            present,
            of_device,
            of_link,
        })
    }

    /// Whether a device takes part.
    pub fn is_member(&self, d: u32) -> bool {
        d < self.present.topo.devices() && self.present.takes_part(d)
    }

    /// The neighbours of a device over usable links, ascending by device and then by link.
    pub fn neighbours(&self, d: u32) -> &[Neighbour] {
        if d < self.present.topo.devices() {
            self.present.neighbours_of(d)
        } else {
            &[]
        }
    }

    /// Whether a device is hinted to the side of the backup root.
    pub fn is_on_backup_side(&self, d: u32) -> bool {
        d < self.topo.devices() && self.topo.side(d) == Side::Backup
    }

    /// The listed domains that have a device.
    pub fn domains_of_device(&self, d: u32) -> &[u32] {
        list_of(&self.of_device, d)
    }

    /// The listed domains that have a link.
    pub fn domains_of_link(&self, link: u32) -> &[u32] {
        list_of(&self.of_link, link)
    }
}
