//! The devices of a text.
ghost use Rattle.std.specs.Prelude.{◌≡◌, ◌≤◌, ◌<◌, ◌+◌, length, OnOk, IfOk, IfErr, [], false};
ghost use Rattle.std.specs.List.{list_any};
ghost use Rattle.std.specs.Str.{bytes_eq};
ghost use Rattle.indexmap.specs.IndexMap.{index_map_len, hasher_of};
ghost use Rattle.toml.specs.View.{view, table_view, items_view};
ghost use Rattle.sd_topotext.specs.Gives.{Gives, Fails};
ghost use Rattle.sd_plan.specs.topo.Limits.{IsRates};
ghost use Rattle.sd_plan.specs.topo.Seen.{devices_seen, names_seen};
ghost use Rattle.sd_topotext.specs.Meaning.{side_in, rates_in, device_in, one_more_device, each_from, devices_in};

use super::names::{add, own_name};
use super::values::{SECOND, array_at, member, number_or, table_of, text_at};
use crate::fault::{Key, Kind, Place, TopoFault};
use sd_num::Rates;
use sd_plan::topo::{Names, Side, Station, TextSeed};
use std::alloc::Global;
use toml::{Table, Value};

/// How many devices there may be.
const DEVICES: usize = 4096;

/// A device's side.
#[tactic(auto, unfolding(crate::specs::Meaning::side_in))]
fn side_at(table: &Table, entry: u32) -> Result<Side, TopoFault>
    ensures { Gives (λ s. s) result (side_in entry (table_view table.now)) }
{
    if member(table, Key::DeviceSide).is_none() {
        return Ok(Side::Root);
    }
    let key = Key::DeviceSide;
    match text_at(table, key, entry)? {
        "root" => Ok(Side::Root),
        "backup" => Ok(Side::Backup),
        _ => Err(TopoFault::Range(Place { key, entry })),
    }
}

/// A device's own rates, those at the top where they are missing.
#[tactic(auto, unfolding(crate::specs::Meaning::rates_in))]
fn rates_at(table: &Table, version: u32, top: Rates, entry: u32) -> Result<Rates, TopoFault>
    requires { IsRates top }
    ensures { Gives (λ r. r) result (rates_in version top entry (table_view table.now)) }
{
    if version == 1 {
        return Ok(top);
    }
    let ppm = number_or(table, Key::DevicePpm, entry, 100_000, u64::from(top.ppm))?;
    let grain = number_or(table, Key::DeviceGrain, entry, SECOND, top.grain)?;
    Ok(Rates {
        ppm: ppm as u32,
        grain,
    })
}

/// The device of an entry: its name, which is new, and the rest.
#[tactic(auto, unfolding(crate::specs::Meaning::device_in))]
fn device_at<'a>(
    devices: &Names<Station>,
    item: &'a Value,
    version: u32,
    top: Rates,
    entry: u32,
) -> Result<(&'a str, Station), TopoFault>
    requires { IsRates top }
    ensures given { Gives (λ p. record { name = p.0.now; side = p.1.side; rates = p.1.rates })
        result (device_in version top (names_seen devices.now) entry (view item.now)) }
    ensures new { IfOk result (λ p. list_any (bytes_eq p.0.now) (names_seen devices.now) ≡ false) }
{
    let key = Key::Device;
    let table = table_of(item, Place { key, entry })?;
    let name = own_name(devices, table, Key::DeviceName, entry)?;
    let side = side_at(table, entry)?;
    let rates = rates_at(table, version, top, entry)?;
    Ok((name, Station { side, rates }))
}

/// Adds the device of an entry.
#[tactic(auto, using(crate::proofs::Entries::one_more_device_seen, crate::proofs::Entries::devices_added))]
fn add_device(
    alloc: Global,
    devices: &mut Names<Station>,
    item: &Value,
    version: u32,
    top: Rates,
) -> Result<(), TopoFault>
    requires few { index_map_len devices.old < 4096 }
    requires rates { IsRates top }
    ensures ok { OnOk result (one_more_device version top (devices_seen devices.old)
        (view item.now) ≡ Ok (devices_seen devices.new)) }
    ensures len { OnOk result (index_map_len devices.new ≡ index_map_len devices.old + 1) }
    ensures hasher { OnOk result (hasher_of devices.new ≡ hasher_of devices.old) }
    ensures err { IfErr result (λ e. Fails e (one_more_device version top
        (devices_seen devices.old) (view item.now))) }
{
    let entry = devices.len() as u32 + 1;
    let (name, station) = device_at(devices, item, version, top, entry)?;
    add(alloc, devices, name, station)
}

/// The devices of all entries.
fn all_devices(
    alloc: Global,
    seed: TextSeed,
    items: &[Value],
    version: u32,
    top: Rates,
) -> Result<Names<Station>, TopoFault>
    requires few { length items.now ≤ 4096 }
    requires rates { IsRates top }
    ensures given { Gives (λ m. devices_seen m) result (each_from (one_more_device version top) []
        (items_view items.now)) }
    ensures len { IfOk result (λ m. index_map_len m ≡ length items.now) }
    ensures hasher { IfOk result (λ m. hasher_of m ≡ seed) }
{
    let mut devices = Names::with_hasher(alloc, seed);
    for item in items {
        match add_device(alloc, &mut devices, item, version, top) {
            Ok(()) => {}
            Err(fault) => return Err(fault),
        }
    }
    Ok(devices)
}

/// The devices of a text, at least one.
#[tactic(auto, unfolding(crate::specs::Meaning::devices_in), using(crate::proofs::Entries::count_of_items))]
pub(super) fn devices_at(
    alloc: Global,
    seed: TextSeed,
    table: &Table,
    version: u32,
    top: Rates,
) -> Result<Names<Station>, TopoFault>
    requires { IsRates top }
    ensures given { Gives (λ m. devices_seen m) result (devices_in version top
        (table_view table.now)) }
    ensures len { IfOk result (λ m. index_map_len m ≤ 4096) }
    ensures hasher { IfOk result (λ m. hasher_of m ≡ seed) }
{
    let key = Key::Device;
    let items = array_at(table, key, 0)?;
    if items.is_empty() {
        return Err(TopoFault::Range(Place { key, entry: 0 }));
    }
    if items.len() > DEVICES {
        return Err(TopoFault::Limit(Kind::Device));
    }
    all_devices(alloc, seed, items, version, top)
}
