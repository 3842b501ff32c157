//! Who follows whom in a draft over primary hops, from the parents on.
use crate::draft::draft::Draft;
use crate::draft::tables::{entry_or, set_entry};
use sd_num::NoMemory;
use sd_plan::topo::Topology;
use std::alloc::Global;

/// The children of each device, as a list that begins at the device.
#[derive(Drop)]
pub(crate) struct Children {
    /// By device, the first of its children.
    first: Vec<Option<u32>>,
    /// By device, the next child of its parent.
    next: Vec<Option<u32>>,
    /// By link, the device that follows another over it.
    over: Vec<Option<u32>>,
}

/// No device for each of this many numbers.
fn no_devices(alloc: Global, count: u32) -> Result<Vec<Option<u32>>, NoMemory> {
    match vec![in alloc; None; count as usize] {
        Ok(devices) => Ok(devices),
        Err(_) => Err(NoMemory),
    }
}

impl Children {
    /// Nobody of a topology follows another.
    pub(crate) fn new(alloc: Global, topo: &Topology) -> Result<Children, NoMemory> {
        Ok(Children {
            first: no_devices(alloc, topo.devices())?,
            next: no_devices(alloc, topo.devices())?,
            over: no_devices(alloc, topo.links())?,
        })
    }

    /// Notes who follows whom in a draft.
    pub(crate) fn set_to(&mut self, topo: &Topology, draft: &Draft) {
        self.first.fill(None);
        self.over.fill(None);
        for d in 0..topo.devices() {
            if let Some(hop) = draft.primary(d) {
                let other = self.first_of(hop.parent);
                set_entry(self.next.as_mut_slice(), d, other);
                set_entry(self.first.as_mut_slice(), hop.parent, Some(d));
                set_entry(self.over.as_mut_slice(), hop.link, Some(d));
            }
        }
    }

    /// The first child of a device.
    pub(crate) fn first_of(&self, d: u32) -> Option<u32> {
        entry_or(self.first.as_slice(), d, None)
    }

    /// The child that comes after another.
    pub(crate) fn next_after(&self, child: u32) -> Option<u32> {
        entry_or(self.next.as_slice(), child, None)
    }

    /// The device that follows another over a link.
    pub(crate) fn over(&self, link: u32) -> Option<u32> {
        entry_or(self.over.as_slice(), link, None)
    }
}
