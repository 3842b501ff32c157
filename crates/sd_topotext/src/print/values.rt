//! The values of a printed tree.
ghost use Rattle.std.specs.Prelude.{◌≡◌, pos, ◌≤◌, ◌<◌, ◌^◌, IfOk, OnOk, All, length, ◌++◌, ◌∷◌, []};
ghost use Rattle.toml.specs.Data.{string, integer, array, table};
ghost use Rattle.toml.specs.View.{view, table_view, array_view};
ghost use Rattle.sd_plan.specs.topo.Network.{device_names, link_names};
ghost use Rattle.sd_plan.specs.topo.Topologies.{network};
ghost use Rattle.sd_topotext.specs.Printed.{put, whole, side_word, names_data};

use crate::fault::Key;
use sd_num::NoMemory;
use sd_plan::topo::{Side, Topology};
use std::alloc::Global;
use toml::Value;
use toml::value::{Array, Table};

/// A table as a value.
pub(super) fn of_table(members: Table) -> Value
    ensures { view result ≡ table (table_view members) }
{
    Value::Table(members)
}

/// An array as a value.
pub(super) fn of_array(items: Array) -> Value
    ensures { view result ≡ array (array_view items) }
{
    Value::Array(items)
}

/// A number as TOML has it.
fn signed(number: u64) -> i64
    requires { number < 2 ^ 63 }
    ensures { result ≡ pos number }
{
    number as i64
}

/// A number as a value.
pub(super) fn of_number(number: u64) -> Value
    requires { number < 2 ^ 63 }
    ensures { view result ≡ whole number }
{
    Value::from(signed(number))
}

/// A text as a value.
pub(super) fn of_text(alloc: Global, text: &str) -> Result<Value, NoMemory>
    ensures { IfOk result (λ v. view v ≡ string text.now) }
{
    match Value::string(alloc, text) {
        Ok(value) => return Ok(value),
        Err(_) => return Err(NoMemory),
    }
}

/// A side as a value.
pub(super) fn of_side(alloc: Global, side: Side) -> Result<Value, NoMemory>
    ensures { IfOk result (λ v. view v ≡ string (side_word side)) }
{
    match side {
        Side::Root => of_text(alloc, "root"),
        Side::Backup => of_text(alloc, "backup"),
    }
}

/// Puts a value at a key.
pub(super) fn put(alloc: Global, table: &mut Table, key: Key, value: Value) -> Result<(), NoMemory>
    ensures { OnOk result (table_view table.new ≡ put key (view value) (table_view table.old)) }
{
    let word = match String::from_str(alloc, key.in_table()) {
        Ok(word) => word,
        Err(_) => return Err(NoMemory),
    };
    match table.insert(word, value) {
        Ok(_) => return Ok(()),
        Err(_) => return Err(NoMemory),
    }
}

/// Puts a number at a key.
pub(super) fn put_number(
    alloc: Global,
    table: &mut Table,
    key: Key,
    number: u64,
) -> Result<(), NoMemory>
    requires { number < 2 ^ 63 }
    ensures { OnOk result (table_view table.new ≡ put key (whole number) (table_view table.old)) }
{
    put(alloc, table, key, of_number(number))
}

/// Puts a text at a key.
pub(super) fn put_text(
    alloc: Global,
    table: &mut Table,
    key: Key,
    text: &str,
) -> Result<(), NoMemory>
    ensures { OnOk result (table_view table.new ≡ put key (string text.now)
        (table_view table.old)) }
{
    let value = of_text(alloc, text)?;
    put(alloc, table, key, value)
}

/// Adds a value at the end of an array.
pub(super) fn push(items: &mut Array, value: Value) -> Result<(), NoMemory>
    ensures { OnOk result (items.new.items ≡ items.old.items ++ value ∷ []) }
{
    match items.push(value) {
        Ok(()) => return Ok(()),
        Err(_) => return Err(NoMemory),
    }
}

/// Devices by their names.
pub(super) fn of_devices(alloc: Global, topo: &Topology, devices: &[u32]) -> Result<Value, NoMemory>
    requires { All (λ d. d < length (network topo.now).devices) devices.now }
    ensures { IfOk result (λ v. view v ≡ names_data (device_names (network topo.now)) devices.now) }
{
    let mut items = Array::new(alloc);
    for d in devices {
        let name = of_text(alloc, topo.device_name(*d))?;
        push(&mut items, name)?;
    }
    Ok(of_array(items))
}

/// Links by their names.
pub(super) fn of_links(alloc: Global, topo: &Topology, links: &[u32]) -> Result<Value, NoMemory>
    requires { All (λ l. l < length (network topo.now).links) links.now }
    ensures { IfOk result (λ v. view v ≡ names_data (link_names (network topo.now)) links.now) }
{
    let mut items = Array::new(alloc);
    for l in links {
        let name = of_text(alloc, topo.link_name(*l))?;
        push(&mut items, name)?;
    }
    Ok(of_array(items))
}
