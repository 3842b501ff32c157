//! A topology, and what it answers of its devices, links and domains.
ghost use Rattle.sd_plan.specs.topo.Limits.{IsNetwork};

use crate::topo::copy::{copy_numbers, copy_table};
use crate::topo::parts::longest_delay;
use crate::topo::{Delay, LinkEntry, Params, Parts, Side};
use sd_num::{Bounds, NoMemory, Rates};
use std::alloc::Global;
use std::marker::Model;

/// The parts of a topology, and the greatest delay of its links.
#[derive(Drop)]
struct Tables {
    parts: Parts,
    longest_delay: u64,
}

impl Model for Tables {
    ghost use Rattle.sd_plan.specs.topo.Network.{Network};

    ghost Value = { Network };

    ghost use Rattle.sd_plan.specs.topo.TablesView.{tables_seen, AreTables};

    ghost view = { tables_seen };

    ghost invariant = { AreTables };
}

/// A datacenter: devices, links with the delays of both directions, and listed fault domains,
/// each kind numbered from 0 in the order of its text.
#[derive(Drop)]
pub struct Topology {
    tables: Tables,
    pub ghost is_network: { IsNetwork tables },
}

impl Topology {
    ghost use Rattle.std.specs.Prelude.{◌≡◌, ◌<◌, length, IsTrue, IfOk};
    ghost use Rattle.sd_plan.specs.topo.Seen.{network_seen};
    ghost use Rattle.sd_plan.specs.topo.Network.{rates_of, link_of, delay_of, bounds_of, greatest_delay, device_names, link_names, name_at, number_in};
    ghost use Rattle.sd_plan.specs.topo.Places.{is_end_of, side_of, domain_names, domain_of};
    ghost use Rattle.sd_plan.specs.topo.Topologies.{network};

    /// The topology of some parts.
    pub fn new(parts: Parts) -> Topology
        requires { IsNetwork (network_seen parts) }
        ensures { network result ≡ network_seen parts }
    {
        let longest_delay = longest_delay(&parts.links);
        let tables = Tables {
            parts,
            longest_delay,
        };
        Topology { tables }
    }

    /// 1 or 2.
    pub fn version(&self) -> u32
        ensures { result ≡ (network self.now).version }
    {
        let tables = &self.tables;
        tables.parts.version
    }

    /// The numbers of the keys at the top; the rates are those of a device that names none.
    pub fn params(&self) -> Params
        ensures { result ≡ (network self.now).params }
    {
        let tables = &self.tables;
        tables.parts.params
    }

    /// How many devices there are.
    pub fn devices(&self) -> u32
        ensures { result ≡ length (network self.now).devices }
    {
        let tables = &self.tables;
        tables.parts.devices.len() as u32
    }

    /// How many links there are.
    pub fn links(&self) -> u32
        ensures { result ≡ length (network self.now).links }
    {
        let tables = &self.tables;
        tables.parts.links.len() as u32
    }

    /// How many domains are listed.
    pub fn domains(&self) -> u32
        ensures { result ≡ length (network self.now).domains }
    {
        let tables = &self.tables;
        tables.parts.domains.len() as u32
    }

    /// The name of a device.
    pub fn device_name(&self, d: u32) -> &str
        requires { d < length (network self.now).devices }
        ensures { result.now ≡ name_at (device_names (network self.now)) d }
    {
        let tables = &self.tables;
        match tables.parts.devices.get_index(d as usize) {
            Some((name, _)) => name.as_str(),
            None => unreachable!(),
        }
    }

    /// The name of a link.
    pub fn link_name(&self, l: u32) -> &str
        requires { l < length (network self.now).links }
        ensures { result.now ≡ name_at (link_names (network self.now)) l }
    {
        let tables = &self.tables;
        match tables.parts.links.get_index(l as usize) {
            Some((name, _)) => name.as_str(),
            None => unreachable!(),
        }
    }

    /// The name of a listed domain.
    pub fn domain_name(&self, f: u32) -> &str
        requires { f < length (network self.now).domains }
        ensures { result.now ≡ name_at (domain_names (network self.now)) f }
    {
        let tables = &self.tables;
        match tables.parts.domains.get_index(f as usize) {
            Some((name, _)) => name.as_str(),
            None => unreachable!(),
        }
    }

    /// Where the planner may place a device.
    pub fn side(&self, d: u32) -> Side
        requires { d < length (network self.now).devices }
        ensures { result ≡ side_of (network self.now) d }
    {
        let tables = &self.tables;
        tables.parts.devices[d as usize].side
    }

    /// The rates of a device's own oscillator.
    pub fn rates(&self, d: u32) -> Rates
        requires { d < length (network self.now).devices }
        ensures { result ≡ rates_of (network self.now) d }
    {
        let tables = &self.tables;
        tables.parts.devices[d as usize].rates
    }

    /// The ends of a link, and its delays both ways.
    pub fn link(&self, l: u32) -> LinkEntry
        requires { l < length (network self.now).links }
        ensures { result ≡ link_of (network self.now) l }
    {
        let tables = &self.tables;
        tables.parts.links[l as usize]
    }

    /// The delays of a link's direction towards a receiver, which is one of its ends.
    pub fn delay(&self, l: u32, receiver: u32) -> Delay
        requires range { l < length (network self.now).links }
        requires end { IsTrue (is_end_of (link_of (network self.now) l) receiver) }
        ensures { result ≡ delay_of (network self.now) l receiver }
    {
        let link = self.link(l);
        if receiver == link.end_b {
            Delay {
                min: link.min,
                max: link.max,
            }
        } else {
            Delay {
                min: link.back_min,
                max: link.back_max,
            }
        }
    }

    /// How a message that came over a link to a receiver is corrected.
    pub fn bounds(&self, l: u32, receiver: u32) -> Bounds
        requires range { l < length (network self.now).links }
        requires end { IsTrue (is_end_of (link_of (network self.now) l) receiver) }
        ensures { result ≡ bounds_of (network self.now) l receiver }
    {
        let delay = self.delay(l, receiver);
        sd_num::bounds_of(delay.min, delay.max)
    }

    /// The devices of a listed domain, ascending.
    pub fn domain_devices(&self, f: u32) -> &[u32]
        requires { f < length (network self.now).domains }
        ensures { result.now ≡ (domain_of (network self.now) f).devices }
    {
        let tables = &self.tables;
        let group = &tables.parts.domains[f as usize];
        group.devices.as_slice()
    }

    /// The links of a listed domain, ascending.
    pub fn domain_links(&self, f: u32) -> &[u32]
        requires { f < length (network self.now).domains }
        ensures { result.now ≡ (domain_of (network self.now) f).links }
    {
        let tables = &self.tables;
        let group = &tables.parts.domains[f as usize];
        group.links.as_slice()
    }

    /// The candidates for root and backup root, in order.
    pub fn roots(&self) -> &[u32]
        ensures { result.now ≡ (network self.now).roots }
    {
        let tables = &self.tables;
        tables.parts.roots.as_slice()
    }

    /// The number of the device with a name.
    pub fn number_of(&self, name: &str) -> Option<u32>
        ensures { result ≡ number_in (device_names (network self.now)) name.now }
    {
        let tables = &self.tables;
        match tables.parts.devices.get_index_of(name) {
            Some(number) => Some(number as u32),
            None => None,
        }
    }

    /// The number of the link with a name.
    pub fn link_number(&self, name: &str) -> Option<u32>
        ensures { result ≡ number_in (link_names (network self.now)) name.now }
    {
        let tables = &self.tables;
        match tables.parts.links.get_index_of(name) {
            Some(number) => Some(number as u32),
            None => None,
        }
    }

    /// A topology that answers the same, in the given memory.
    pub fn copy(&self, alloc: Global) -> Result<Topology, NoMemory>
        ensures { IfOk result (λ topo. network topo ≡ network self.now) }
    {
        let tables = &self.tables;
        let devices = copy_table(alloc, &tables.parts.devices)?;
        let links = copy_table(alloc, &tables.parts.links)?;
        let domains = copy_table(alloc, &tables.parts.domains)?;
        let roots = copy_numbers(alloc, tables.parts.roots.as_slice())?;
        Ok(Topology::new(Parts {
            version: tables.parts.version,
            params: tables.parts.params,
            devices,
            links,
            domains,
            roots,
        }))
    }

    /// The greatest delay of a link in either direction, in picoseconds; 0 where there is no link.
    pub fn greatest_delay(&self) -> u64
        ensures { result ≡ greatest_delay (network self.now) }
    {
        let tables = &self.tables;
        tables.longest_delay
    }
}
