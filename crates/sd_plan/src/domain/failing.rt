//! Failures of a whole domain.
ghost use Rattle.std.specs.Prelude.{◌≡◌, ◌<◌, ◌||◌, ℕ, All, IfOk};
ghost use Rattle.std.specs.FinSet as set;
ghost use Rattle.sd_num.specs.Lists.{has};
ghost use Rattle.sd_plan.specs.topo.Topologies.{network};
ghost use Rattle.sd_plan.specs.domain.Lone.{IsDomain};
ghost use Rattle.sd_plan.specs.domain.Failing.{HasRoomFor, IsFailureOf};

use crate::domain::{DomainId, Failure};
use crate::topo::{Thing, Topology};

impl Failure {
    /// Adds some devices, which may be there already.
    fn add_devices(&mut self, devices: &[u32])
        requires { All (λ d. d < self.old.device_room) devices.now }
        ensures added { (d : ℕ)
            → set.contains self.new.devices d
            ≡ (set.contains self.old.devices d || has devices.now d) }
        ensures links { self.new.links ≡ self.old.links }
        ensures device_room { self.new.device_room ≡ self.old.device_room }
        ensures link_room { self.new.link_room ≡ self.old.link_room }
    {
        for d in devices {
            self.add(Thing::Device(*d));
        }
    }

    /// Adds some links, which may be there already.
    fn add_links(&mut self, links: &[u32])
        requires { All (λ l. l < self.old.link_room) links.now }
        ensures added { (l : ℕ)
            → set.contains self.new.links l ≡ (set.contains self.old.links l || has links.now l) }
        ensures devices { self.new.devices ≡ self.old.devices }
        ensures device_room { self.new.device_room ≡ self.old.device_room }
        ensures link_room { self.new.link_room ≡ self.old.link_room }
    {
        for l in links {
            self.add(Thing::Link(*l));
        }
    }

    /// Puts the things of a domain in the place of what has failed, in the time that both take.
    pub fn set_to(&mut self, topo: &Topology, f: DomainId)
        requires domain { IsDomain (network topo.now) f }
        requires room { HasRoomFor (network topo.now) self.old }
        ensures things { IsFailureOf (network topo.now) f self.new }
        ensures room { HasRoomFor (network topo.now) self.new }
    {
        self.clear();
        match f {
            DomainId::Listed(k) => {
                self.add_devices(topo.domain_devices(k));
                self.add_links(topo.domain_links(k));
            }
            DomainId::Device(d) => self.add(Thing::Device(d)),
            DomainId::Link(l) => self.add(Thing::Link(l)),
        }
    }
}
