//! The links of a text.
ghost use Rattle.std.specs.Prelude.{◌≡◌, ◌≤◌, ◌<◌, ◌+◌, ◌^◌, length, map, flat_map, OnOk, IfOk, IfErr, [], ◌∷◌, false};
ghost use Rattle.std.specs.List.{list_any};
ghost use Rattle.std.specs.Str.{bytes_eq};
ghost use Rattle.indexmap.specs.IndexMap.{index_map_len, hasher_of};
ghost use Rattle.toml.specs.View.{view, table_view, items_view};
ghost use Rattle.sd_topotext.specs.Gives.{Gives, Fails};
ghost use Rattle.sd_plan.specs.topo.Seen.{links_seen, names_seen};
ghost use Rattle.sd_topotext.specs.Meaning.{place, two, ends_in, delay_in, back_in, value, link_in, one_more_link, each_from, links_in};

use super::names::{add, own_name, referred};
use super::values::{SECOND, array_at, array_or_none, member, number_at, table_of};
use crate::fault::{Key, Kind, Place, TopoFault};
use sd_plan::topo::{Delay, LinkEntry, Names, Station, TextSeed};
use std::alloc::Global;
use toml::{Table, Value};

/// How many links there may be.
const LINKS: usize = 32768;

/// The two elements of an array that has no others.
#[tactic(auto, using(crate::proofs::Entries::two_wrong, crate::proofs::Entries::two_right))]
fn two(items: &[Value], place: Place) -> Result<(&Value, &Value), TopoFault>
    ensures { Gives (λ p. (view p.0.now, view p.1.now)) result (two place (items_view items.now)) }
{
    if items.len() != 2 {
        return Err(TopoFault::Range(place));
    }
    Ok((&items[0], &items[1]))
}

/// The numbers of a link's two ends, which differ.
#[tactic(auto, unfolding(crate::specs::Meaning::ends_in))]
fn ends_at(devices: &Names<Station>, table: &Table, entry: u32) -> Result<(u32, u32), TopoFault>
    requires { index_map_len devices.now ≤ 4096 }
    ensures { Gives (λ p. p) result (ends_in (names_seen devices.now) entry
        (table_view table.now)) }
{
    let key = Key::LinkEnds;
    let items = array_at(table, key, entry)?;
    let (first, second) = two(items, Place { key, entry })?;
    let end_a = referred(devices, first, Place { key, entry })?;
    let end_b = referred(devices, second, Place { key, entry })?;
    if end_a == end_b {
        return Err(TopoFault::SelfLink(Place { key, entry }));
    }
    Ok((end_a, end_b))
}

/// The delay bounds at two keys, in order.
#[tactic(auto, unfolding(crate::specs::Meaning::delay_in))]
fn delay_at(table: &Table, least: Key, most: Key, entry: u32) -> Result<Delay, TopoFault>
    ensures { Gives (λ delay. delay) result (delay_in least most entry (table_view table.now)) }
{
    let min = number_at(table, least, entry, 0, SECOND)?;
    let max = number_at(table, most, entry, min, SECOND)?;
    Ok(Delay { min, max })
}

/// The delay bounds of the way back, those of the way there where they are missing.
#[tactic(auto, unfolding(crate::specs::Meaning::back_in))]
fn back_at(table: &Table, version: u32, forth: Delay, entry: u32) -> Result<Delay, TopoFault>
    ensures { Gives (λ delay. delay) result (back_in version forth entry (table_view table.now)) }
{
    let has_min = member(table, Key::LinkBackMin).is_some();
    let has_max = member(table, Key::LinkBackMax).is_some();
    if version == 1 || !(has_min || has_max) {
        return Ok(forth);
    }
    delay_at(table, Key::LinkBackMin, Key::LinkBackMax, entry)
}

/// The link of an entry: its name, which is new, and the rest.
#[tactic(auto, unfolding(crate::specs::Meaning::link_in))]
fn link_at<'a>(
    devices: &Names<Station>,
    links: &Names<LinkEntry>,
    item: &'a Value,
    version: u32,
    entry: u32,
) -> Result<(&'a str, LinkEntry), TopoFault>
    requires { index_map_len devices.now ≤ 4096 }
    ensures given { Gives (λ p. record { name = p.0.now; entry = p.1 }) result (link_in version
        (names_seen devices.now) (names_seen links.now) entry (view item.now)) }
    ensures new { IfOk result (λ p. list_any (bytes_eq p.0.now) (names_seen links.now) ≡ false) }
{
    let key = Key::Link;
    let table = table_of(item, Place { key, entry })?;
    let name = own_name(links, table, Key::LinkName, entry)?;
    let (end_a, end_b) = ends_at(devices, table, entry)?;
    let forth = delay_at(table, Key::LinkMin, Key::LinkMax, entry)?;
    let back = back_at(table, version, forth, entry)?;
    let link = LinkEntry {
        end_a,
        end_b,
        min: forth.min,
        max: forth.max,
        back_min: back.min,
        back_max: back.max,
    };
    Ok((name, link))
}

/// Adds the link of an entry.
#[tactic(auto, using(crate::proofs::Entries::one_more_link_seen, crate::proofs::Entries::links_added))]
fn add_link(
    alloc: Global,
    devices: &Names<Station>,
    links: &mut Names<LinkEntry>,
    item: &Value,
    version: u32,
) -> Result<(), TopoFault>
    requires devices { index_map_len devices.now ≤ 4096 }
    requires few { index_map_len links.old < 32768 }
    ensures ok { OnOk result (one_more_link version (names_seen devices.now)
        (links_seen links.old) (view item.now) ≡ Ok (links_seen links.new)) }
    ensures len { OnOk result (index_map_len links.new ≡ index_map_len links.old + 1) }
    ensures hasher { OnOk result (hasher_of links.new ≡ hasher_of links.old) }
    ensures err { IfErr result (λ e. Fails e (one_more_link version (names_seen devices.now)
        (links_seen links.old) (view item.now))) }
{
    let entry = links.len() as u32 + 1;
    let (name, link) = link_at(devices, links, item, version, entry)?;
    add(alloc, links, name, link)
}

/// The links of all entries.
fn all_links(
    alloc: Global,
    seed: TextSeed,
    devices: &Names<Station>,
    items: &[Value],
    version: u32,
) -> Result<Names<LinkEntry>, TopoFault>
    requires devices { index_map_len devices.now ≤ 4096 }
    requires few { length items.now ≤ 32768 }
    ensures given { Gives (λ m. links_seen m) result (each_from (one_more_link version
        (names_seen devices.now)) [] (items_view items.now)) }
    ensures len { IfOk result (λ m. index_map_len m ≡ length items.now) }
    ensures hasher { IfOk result (λ m. hasher_of m ≡ seed) }
{
    let mut links = Names::with_hasher(alloc, seed);
    for item in items {
        match add_link(alloc, devices, &mut links, item, version) {
            Ok(()) => {}
            Err(fault) => return Err(fault),
        }
    }
    Ok(links)
}

/// The links of a text.
#[tactic(auto, unfolding(crate::specs::Meaning::links_in), using(crate::proofs::Entries::count_of_items))]
pub(super) fn links_at(
    alloc: Global,
    seed: TextSeed,
    devices: &Names<Station>,
    table: &Table,
    version: u32,
) -> Result<Names<LinkEntry>, TopoFault>
    requires { index_map_len devices.now ≤ 4096 }
    ensures given { Gives (λ m. links_seen m) result (links_in version (names_seen devices.now)
        (table_view table.now)) }
    ensures len { IfOk result (λ m. index_map_len m ≤ 32768) }
    ensures hasher { IfOk result (λ m. hasher_of m ≡ seed) }
{
    let items = array_or_none(table, Key::Link, 0)?;
    if items.len() > LINKS {
        return Err(TopoFault::Limit(Kind::Link));
    }
    all_links(alloc, seed, devices, items, version)
}
