//! Flags on devices and links.
ghost use Rattle.std.specs.Prelude.{◌≡◌, ◌<◌, ℕ, true, false, [], ◌∷◌, length, nat_eq, IfOk};
ghost use Rattle.sd_num.specs.Lists.{has};
ghost use Rattle.sd_plan.specs.topo.Places.{domain_of};
ghost use Rattle.sd_plan.specs.topo.Topologies.{network};
ghost use Rattle.sd_planner.specs.Flags.{AreSet};
ghost use Rattle.sd_planner.specs.Things as words;
ghost use Rattle.sd_planner.specs.Things.{AreNone, AreSized, AddsAll};

use super::flags::{is_any_set, no_flags, set_flags};
use sd_num::NoMemory;
use sd_plan::Hop;
use sd_plan::topo::Topology;
use std::alloc::Global;

/// Flags on devices and links.
#[derive(Drop)]
pub(crate) struct Things {
    pub(crate) devices: Vec<bool>,
    pub(crate) links: Vec<bool>,
}

impl Things {
    /// No flag of a topology's devices and links is set.
    pub(crate) fn none(alloc: Global, topo: &Topology) -> Result<Things, NoMemory>
        ensures { IfOk result (AreNone (network topo.now)) }
    {
        let devices = no_flags(alloc, topo.devices() as usize)?;
        let links = no_flags(alloc, topo.links() as usize)?;
        Ok(Things { devices, links })
    }

    /// Flags the link and the parent of a hop.
    pub(crate) fn add_hop(&mut self, hop: Hop)
        requires parent { hop.parent < length self.old.devices.items }
        requires link { hop.link < length self.old.links.items }
        ensures { AddsAll (λ x. nat_eq x hop.parent) (λ x. nat_eq x hop.link) self.old self.new }
    {
        set_flags(self.devices.as_mut_slice(), &[hop.parent], true);
        set_flags(self.links.as_mut_slice(), &[hop.link], true);
    }

    /// Takes the flag of a device away.
    pub(crate) fn clear_device(&mut self, device: u32)
        requires { device < length self.old.devices.items }
        ensures devices { AreSet (device ∷ []) false self.old.devices.items self.new.devices.items }
        ensures links { self.new.links.items ≡ self.old.links.items }
    {
        set_flags(self.devices.as_mut_slice(), &[device], false);
    }

    /// Whether a listed domain has something flagged.
    fn meets(&self, topo: &Topology, domain: u32) -> bool
        requires { domain < length (network topo.now).domains }
        ensures { result ≡ words.meets (network topo.now) self.now domain }
    {
        is_any_set(self.devices.as_slice(), topo.domain_devices(domain))
            || is_any_set(self.links.as_slice(), topo.domain_links(domain))
    }

    /// Flags all that a listed domain has.
    fn add_domain(&mut self, topo: &Topology, domain: u32)
        requires sized { AreSized (network topo.now) self.old }
        requires range { domain < length (network topo.now).domains }
        ensures { AddsAll (has (domain_of (network topo.now) domain).devices)
            (has (domain_of (network topo.now) domain).links) self.old self.new }
    {
        set_flags(
            self.devices.as_mut_slice(),
            topo.domain_devices(domain),
            true,
        );
        set_flags(self.links.as_mut_slice(), topo.domain_links(domain), true);
    }

    /// Flags all that those listed domains have that have something of other things.
    pub(crate) fn add_met(&mut self, topo: &Topology, others: &Things)
        requires { AreSized (network topo.now) self.old }
        ensures { AddsAll
            (words.met_device (network topo.now) others.now (length (network topo.now).domains))
            (words.met_link (network topo.now) others.now
            (length (network topo.now).domains)) self.old self.new }
    {
        for domain in 0..topo.domains() {
            if others.meets(topo, domain) {
                self.add_domain(topo, domain);
            }
        }
    }
}
