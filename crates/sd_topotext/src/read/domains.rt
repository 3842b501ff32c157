//! The listed domains of a text, and its roots.
ghost use Rattle.std.specs.Prelude.{◌≡◌, ◌≤◌, ◌<◌, ◌+◌, ◌^◌, ℕ, nat_eq, length, OnOk, IfOk, IfErr, All, [], false};
ghost use Rattle.std.specs.List.{list_any, IsDistinct};
ghost use Rattle.std.specs.Str.{bytes_eq};
ghost use Rattle.indexmap.specs.IndexMap.{index_map_len, hasher_of};
ghost use Rattle.toml.specs.View.{view, table_view, items_view};
ghost use Rattle.sd_num.specs.Lists.{ascending};
ghost use Rattle.sd_topotext.specs.Gives.{Gives, Fails};
ghost use Rattle.sd_plan.specs.topo.Seen.{domains_seen, names_seen};
ghost use Rattle.sd_topotext.specs.Meaning.{place, value, things_listed, members_in, domain_in, one_more_domain, each_from, domains_in, roots_in};

use super::names::{Listed, add, listed, own_name};
use super::values::{array_at, array_or_none, table_of};
use crate::fault::{Key, Kind, Place, TopoFault};
use sd_plan::topo::{Group, LinkEntry, Names, Station, TextSeed};
use std::alloc::Global;
use toml::{Table, Value};

/// How many domains there may be.
const DOMAINS: usize = 4096;

/// How many devices and links all domains together may list.
const THINGS: usize = 262_144;

/// Listed numbers in ascending order.
fn sorted(alloc: Global, listed: &Listed) -> Result<Vec<u32>, TopoFault>
    ensures ok { IfOk result (λ v. (count : ℕ) → All (λ n. n < count) listed.now.keys → v.items
        ≡ ascending count listed.now.keys) }
    ensures err { IfErr result (λ e. e ≡ TopoFault.Memory) }
{
    let mut numbers = match Vec::from_slice(alloc, listed.as_slice()) {
        Ok(numbers) => numbers,
        Err(_) => return Err(TopoFault::Memory),
    };
    match numbers.sort() {
        Ok(()) => return Ok(numbers),
        Err(_) => return Err(TopoFault::Memory),
    }
}

/// The things that a domain lists at a key, ascending.
#[tactic(auto, unfolding(crate::specs::Meaning::members_in))]
fn members_at<V>(
    alloc: Global,
    names: &Names<V>,
    table: &Table,
    key: Key,
    entry: u32,
) -> Result<Vec<u32>, TopoFault>
    requires { index_map_len names.now < 2 ^ 32 }
    ensures { Gives (λ v. v.items) result (members_in key entry (names_seen names.now)
        (table_view table.now)) }
{
    let items = array_or_none(table, key, entry)?;
    let listed = listed(alloc, names, items, Place { key, entry })?;
    match sorted(alloc, &listed) {
        Ok(numbers) => return Ok(numbers),
        Err(_) => return Err(TopoFault::Memory),
    }
}

/// The domain of an entry: its name, which is new, and the rest.
#[tactic(auto, unfolding(crate::specs::Meaning::domain_in))]
fn domain_at<'a>(
    alloc: Global,
    devices: &Names<Station>,
    links: &Names<LinkEntry>,
    domains: &Names<Group>,
    item: &'a Value,
    entry: u32,
) -> Result<(&'a str, Group), TopoFault>
    requires devices { index_map_len devices.now ≤ 4096 }
    requires links { index_map_len links.now ≤ 32768 }
    ensures given { Gives
        (λ p. record { name = p.0.now; devices = p.1.devices.items; links = p.1.links.items })
        result (domain_in (names_seen devices.now) (names_seen links.now) (names_seen domains.now)
        entry (view item.now)) }
    ensures new { IfOk result (λ p. list_any (bytes_eq p.0.now) (names_seen domains.now) ≡ false) }
{
    let key = Key::Domain;
    let table = table_of(item, Place { key, entry })?;
    let name = own_name(domains, table, Key::DomainName, entry)?;
    let device_members = members_at(alloc, devices, table, Key::DomainDevices, entry)?;
    let link_members = members_at(alloc, links, table, Key::DomainLinks, entry)?;
    let group = Group {
        devices: device_members,
        links: link_members,
    };
    Ok((name, group))
}

/// Adds the domain of an entry, where all listed things together are few enough; says how many
/// there are then.
#[tactic(auto, using(crate::proofs::Entries::one_more_domain_seen, crate::proofs::Entries::domains_added, crate::proofs::Entries::things_listed_more))]
fn add_domain(
    alloc: Global,
    devices: &Names<Station>,
    links: &Names<LinkEntry>,
    domains: &mut Names<Group>,
    item: &Value,
    things: usize,
) -> Result<usize, TopoFault>
    requires devices { index_map_len devices.now ≤ 4096 }
    requires links { index_map_len links.now ≤ 32768 }
    requires few { index_map_len domains.old < 4096 }
    requires things { things ≡ things_listed (domains_seen domains.old) }
    requires room { things ≤ 262144 }
    ensures ok { OnOk result (one_more_domain (names_seen devices.now) (names_seen links.now)
        (domains_seen domains.old) (view item.now) ≡ Ok (domains_seen domains.new)) }
    ensures len { OnOk result (index_map_len domains.new ≡ index_map_len domains.old + 1) }
    ensures hasher { OnOk result (hasher_of domains.new ≡ hasher_of domains.old) }
    ensures things { IfOk result (λ n. (n ≡ things_listed (domains_seen domains.new)) ×
        (n ≤ 262144)) }
    ensures err { IfErr result (λ e. Fails e (one_more_domain (names_seen devices.now)
        (names_seen links.now) (domains_seen domains.old) (view item.now))) }
{
    let entry = domains.len() as u32 + 1;
    let (name, group) = domain_at(alloc, devices, links, domains, item, entry)?;
    let room = THINGS - things;
    let more_devices = group.devices.len();
    let more_links = group.links.len();
    if more_devices > room || more_links > room - more_devices {
        return Err(TopoFault::Limit(Kind::Item));
    }
    match add(alloc, domains, name, group) {
        Ok(()) => return Ok(things + more_devices + more_links),
        Err(_) => return Err(TopoFault::Memory),
    }
}

/// The domains of all entries.
fn all_domains(
    alloc: Global,
    seed: TextSeed,
    devices: &Names<Station>,
    links: &Names<LinkEntry>,
    items: &[Value],
) -> Result<Names<Group>, TopoFault>
    requires devices { index_map_len devices.now ≤ 4096 }
    requires links { index_map_len links.now ≤ 32768 }
    requires few { length items.now ≤ 4096 }
    ensures given { Gives (λ m. domains_seen m) result (each_from (one_more_domain
        (names_seen devices.now) (names_seen links.now)) [] (items_view items.now)) }
    ensures len { IfOk result (λ m. index_map_len m ≡ length items.now) }
    ensures hasher { IfOk result (λ m. hasher_of m ≡ seed) }
{
    let mut domains = Names::with_hasher(alloc, seed);
    let mut things = 0;
    for item in items {
        match add_domain(alloc, devices, links, &mut domains, item, things) {
            Ok(more) => things = more,
            Err(fault) => return Err(fault),
        }
    }
    Ok(domains)
}

/// The listed domains of a text.
#[tactic(auto, unfolding(crate::specs::Meaning::domains_in), using(crate::proofs::Entries::count_of_items))]
pub(super) fn domains_at(
    alloc: Global,
    seed: TextSeed,
    devices: &Names<Station>,
    links: &Names<LinkEntry>,
    table: &Table,
) -> Result<Names<Group>, TopoFault>
    requires devices { index_map_len devices.now ≤ 4096 }
    requires links { index_map_len links.now ≤ 32768 }
    ensures given { Gives (λ m. domains_seen m) result (domains_in (names_seen devices.now)
        (names_seen links.now) (table_view table.now)) }
    ensures hasher { IfOk result (λ m. hasher_of m ≡ seed) }
{
    let items = array_or_none(table, Key::Domain, 0)?;
    if items.len() > DOMAINS {
        return Err(TopoFault::Limit(Kind::Domain));
    }
    all_domains(alloc, seed, devices, links, items)
}

/// The candidates for root and backup root, at least one, in order.
#[tactic(auto, unfolding(crate::specs::Meaning::roots_in), using(crate::proofs::Entries::count_of_items))]
pub(super) fn roots_at(
    alloc: Global,
    devices: &Names<Station>,
    table: &Table,
) -> Result<Vec<u32>, TopoFault>
    requires { index_map_len devices.now ≤ 4096 }
    ensures { Gives (λ v. v.items) result (roots_in (names_seen devices.now)
        (table_view table.now)) }
{
    let key = Key::Roots;
    let items = array_at(table, key, 0)?;
    if items.is_empty() {
        return Err(TopoFault::Range(Place { key, entry: 0 }));
    }
    let listed = listed(alloc, devices, items, Place { key, entry: 0 })?;
    match Vec::from_slice(alloc, listed.as_slice()) {
        Ok(roots) => return Ok(roots),
        Err(_) => return Err(TopoFault::Memory),
    }
}
