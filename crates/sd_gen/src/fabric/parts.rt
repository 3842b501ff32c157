//! The parts of a fabric's topology: its tables, and lists of numbers.
ghost use Rattle.std.specs.Prelude.{◌≡◌, ◌+◌, ◌<◌, ◌≤◌, ◌^◌, map, IfOk};
ghost use Rattle.sd_num.specs.Lists.{below};
ghost use Rattle.sd_plan.specs.topo.Seen.{devices_seen, domains_seen, links_seen};
ghost use Rattle.sd_gen.specs.fabric.Fabrics as fabrics;

use crate::fabric::arrays::{MAX, MIN};
use crate::fabric::names::{device_name, link_name, rack_name};
use sd_num::{NoMemory, Rates};
use sd_plan::topo::{Group, LinkEntry, Names, Side, Station, TextSeed, add_named};
use std::alloc::Global;

/// What each device has beside its name.
const STATION: Station = Station {
    side: Side::Root,
    rates: Rates {
        ppm: 200,
        grain: 1000,
    },
};

/// All devices.
pub(crate) fn devices(alloc: Global, leaves: u32, spines: u32) -> Result<Names<Station>, NoMemory>
    requires some { 1 ≤ spines }
    requires few_leaves { leaves ≤ 256 }
    requires few_spines { spines ≤ 32 }
    ensures { IfOk result
        (λ devices. devices_seen devices ≡ (fabrics.fabric leaves spines).devices) }
{
    let mut devices = Names::with_hasher(alloc, TextSeed::of(&[]));
    'devices: for d in 0..spines + leaves {
        let name = device_name(alloc, spines, d)?;
        add_named(alloc, &mut devices, name.as_str(), STATION)?;
    }
    Ok(devices)
}

/// The link between a leaf and a spine, with the same bounds in both directions.
fn link_between(spines: u32, leaf: u32, spine: u32) -> LinkEntry
    requires { spines + leaf < 2 ^ 32 }
    ensures { result ≡ (fabrics.link_between spines leaf spine).entry }
{
    let (min, max) = (u64::from(MIN), u64::from(MAX));
    LinkEntry {
        end_a: spine,
        end_b: spines + leaf,
        min,
        max,
        back_min: min,
        back_max: max,
    }
}

/// All links: those of the first leaf, then those of the second, and so on.
pub(crate) fn links(alloc: Global, leaves: u32, spines: u32) -> Result<Names<LinkEntry>, NoMemory>
    requires some { 1 ≤ spines }
    requires few_leaves { leaves ≤ 256 }
    requires few_spines { spines ≤ 32 }
    ensures { IfOk result (λ links. links_seen links ≡ (fabrics.fabric leaves spines).links) }
{
    let mut links = Names::with_hasher(alloc, TextSeed::of(&[]));
    'links: for number in 0..leaves * spines {
        let leaf = number / spines;
        let spine = number % spines;
        let name = link_name(alloc, leaf, spine)?;
        let link = link_between(spines, leaf, spine);
        add_named(alloc, &mut links, name.as_str(), link)?;
    }
    Ok(links)
}

/// This many numbers, from the first on.
pub(crate) fn numbers_from(alloc: Global, first: u32, count: u32) -> Result<Vec<u32>, NoMemory>
    requires { first + count < 2 ^ 32 }
    ensures { IfOk result (λ numbers. numbers.items ≡ map (λ k. first + k) (below count)) }
{
    let mut numbers = Vec::new(alloc);
    'numbers: for k in 0..count {
        let Ok(()) = numbers.push(first + k) else {
            return Err(NoMemory);
        };
    }
    Ok(numbers)
}

/// A leaf's rack: the leaf and its links.
fn rack(alloc: Global, spines: u32, leaf: u32) -> Result<Group, NoMemory>
    requires few_leaves { leaf < 256 }
    requires few_spines { spines ≤ 32 }
    ensures devices { IfOk result (λ rack. rack.devices.items ≡ (fabrics.rack spines leaf).devices) }
    ensures links { IfOk result (λ rack. rack.links.items ≡ (fabrics.rack spines leaf).links) }
{
    let devices = numbers_from(alloc, spines + leaf, 1)?;
    let links = numbers_from(alloc, spines * leaf, spines)?;
    Ok(Group { devices, links })
}

/// The racks of all leaves.
pub(crate) fn racks(alloc: Global, leaves: u32, spines: u32) -> Result<Names<Group>, NoMemory>
    requires some { 1 ≤ spines }
    requires few_leaves { leaves ≤ 256 }
    requires few_spines { spines ≤ 32 }
    ensures { IfOk result
        (λ racks. domains_seen racks ≡ (fabrics.fabric leaves spines).domains) }
{
    let mut racks = Names::with_hasher(alloc, TextSeed::of(&[]));
    'racks: for leaf in 0..leaves {
        let name = rack_name(alloc, leaf)?;
        let group = rack(alloc, spines, leaf)?;
        add_named(alloc, &mut racks, name.as_str(), group)?;
    }
    Ok(racks)
}
