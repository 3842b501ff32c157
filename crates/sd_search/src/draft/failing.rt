//! The things of one fault domain, as flags.
use crate::draft::ground::Ground;
use crate::draft::tables::{is_set, no_flags, set_entry};
use sd_num::NoMemory;
use sd_plan::Hop;
use sd_plan::domain::DomainId;
use sd_plan::topo::Topology;
use std::alloc::Global;
use std::slice;

/// What fails with one domain.
#[derive(Drop)]
pub(crate) struct Failing {
    devices: Vec<bool>,
    links: Vec<bool>,
}

/// The devices of a domain.
pub(crate) fn devices_in<'a>(topo: &'a Topology, domain: &'a DomainId) -> &'a [u32] {
    match domain {
        DomainId::Listed(listed) if *listed < topo.domains() => topo.domain_devices(*listed),
        DomainId::Device(d) => slice::from_ref(d),
        _ => &[],
    }
}

/// The links of a domain.
pub(crate) fn links_in<'a>(topo: &'a Topology, domain: &'a DomainId) -> &'a [u32] {
    match domain {
        DomainId::Listed(listed) if *listed < topo.domains() => topo.domain_links(*listed),
        DomainId::Link(link) => slice::from_ref(link),
        _ => &[],
    }
}

impl Failing {
    /// Nothing of a topology fails.
    pub(crate) fn new(alloc: Global, ground: &Ground<'_>) -> Result<Failing, NoMemory> {
        Ok(Failing {
            devices: no_flags(alloc, ground.topo.devices())?,
            links: no_flags(alloc, ground.topo.links())?,
        })
    }

    /// Flags the things of a domain, or takes their flags away.
    pub(crate) fn flag(&mut self, ground: &Ground<'_>, domain: DomainId, fails: bool) {
        for d in devices_in(ground.topo, &domain) {
            set_entry(self.devices.as_mut_slice(), *d, fails);
        }
        for link in links_in(ground.topo, &domain) {
            set_entry(self.links.as_mut_slice(), *link, fails);
        }
    }

    /// Whether a device fails.
    pub(crate) fn has_device(&self, d: u32) -> bool {
        is_set(self.devices.as_slice(), d)
    }

    /// Whether a link fails.
    pub(crate) fn has_link(&self, link: u32) -> bool {
        is_set(self.links.as_slice(), link)
    }

    /// Whether the link of a hop fails, or its parent.
    pub(crate) fn has_of(&self, hop: Hop) -> bool {
        self.has_link(hop.link) || self.has_device(hop.parent)
    }
}
