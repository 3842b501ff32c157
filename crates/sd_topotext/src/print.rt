//! Printing a topology: a tree of tables, and its text.
ghost use Rattle.std.specs.Prelude.{◌≡◌, ◌<◌, length, map, slice_index_or, IfOk, OnOk, Ok, ◌∷◌, []};
ghost use Rattle.toml.specs.Data.{array, table, string};
ghost use Rattle.toml.specs.View.{view, table_view, items_of};
ghost use Rattle.sd_plan.specs.topo.Network.{device_names, link_names, name_at};
ghost use Rattle.sd_plan.specs.topo.Places.{no_device, no_named_link, no_domain};
ghost use Rattle.sd_plan.specs.topo.Topologies.{network};
ghost use Rattle.sd_topotext.specs.Printed.{put, names_data, device_tree, link_tree, domain_tree, params_tree, network_tree};
ghost use Rattle.sd_topotext.specs.Versions.{with_version_two};
ghost use Rattle.sd_topotext.specs.Meaning.{network_of};
ghost use Rattle.sd_topotext.specs.Reading.{tree_of};

mod values;

use crate::fault::Key;
use sd_num::NoMemory;
use sd_plan::topo::Topology;
use std::alloc::Global;
use toml::Value;
use toml::value::{Array, Table};
use values::{
    of_array, of_devices, of_links, of_side, of_table, of_text, push, put, put_number, put_text,
};

/// A device: its name, side and rates.
fn device_value(alloc: Global, topo: &Topology, d: u32) -> Result<Value, NoMemory>
    requires { d < length (network topo.now).devices }
    ensures { IfOk result (λ v. view v ≡ table (device_tree (slice_index_or
        (network topo.now).devices d no_device))) }
{
    let mut members = Table::new(alloc);
    let rates = topo.rates(d);
    put_number(alloc, &mut members, Key::DeviceGrain, rates.grain)?;
    put_number(alloc, &mut members, Key::DevicePpm, u64::from(rates.ppm))?;
    let side = of_side(alloc, topo.side(d))?;
    put(alloc, &mut members, Key::DeviceSide, side)?;
    put_text(alloc, &mut members, Key::DeviceName, topo.device_name(d))?;
    Ok(of_table(members))
}

/// The two ends of a link, by their names.
fn ends_value(alloc: Global, topo: &Topology, end_a: u32, end_b: u32) -> Result<Value, NoMemory>
    requires first { end_a < length (network topo.now).devices }
    requires second { end_b < length (network topo.now).devices }
    ensures { IfOk result (λ v. view v ≡ array (items_of (string (name_at (device_names
        (network topo.now)) end_a) ∷ string (name_at (device_names (network topo.now))
        end_b) ∷ []))) }
{
    let first = of_text(alloc, topo.device_name(end_a))?;
    let second = of_text(alloc, topo.device_name(end_b))?;
    let mut ends = Array::new(alloc);
    push(&mut ends, first)?;
    push(&mut ends, second)?;
    Ok(of_array(ends))
}

/// A link: its name, ends and the bounds of both directions.
fn link_value(alloc: Global, topo: &Topology, l: u32) -> Result<Value, NoMemory>
    requires { l < length (network topo.now).links }
    ensures { IfOk result (λ v. view v ≡ table (link_tree (device_names (network topo.now))
        (slice_index_or (network topo.now).links l no_named_link))) }
{
    let mut members = Table::new(alloc);
    let link = topo.link(l);
    put_number(alloc, &mut members, Key::LinkBackMax, link.back_max)?;
    put_number(alloc, &mut members, Key::LinkBackMin, link.back_min)?;
    put_number(alloc, &mut members, Key::LinkMax, link.max)?;
    put_number(alloc, &mut members, Key::LinkMin, link.min)?;
    let ends = ends_value(alloc, topo, link.end_a, link.end_b)?;
    put(alloc, &mut members, Key::LinkEnds, ends)?;
    put_text(alloc, &mut members, Key::LinkName, topo.link_name(l))?;
    Ok(of_table(members))
}

/// A listed domain: its name, devices and links.
fn domain_value(alloc: Global, topo: &Topology, f: u32) -> Result<Value, NoMemory>
    requires { f < length (network topo.now).domains }
    ensures { IfOk result (λ v. view v ≡ table (domain_tree (device_names (network topo.now))
        (link_names (network topo.now)) (slice_index_or (network topo.now).domains f no_domain))) }
{
    let mut members = Table::new(alloc);
    let links = of_links(alloc, topo, topo.domain_links(f))?;
    put(alloc, &mut members, Key::DomainLinks, links)?;
    let devices = of_devices(alloc, topo, topo.domain_devices(f))?;
    put(alloc, &mut members, Key::DomainDevices, devices)?;
    put_text(alloc, &mut members, Key::DomainName, topo.domain_name(f))?;
    Ok(of_table(members))
}

/// All devices.
fn devices_value(alloc: Global, topo: &Topology) -> Result<Value, NoMemory>
    ensures { IfOk result (λ v. view v ≡ array (items_of (map (λ device. table
        (device_tree device)) (network topo.now).devices))) }
{
    let mut items = Array::new(alloc);
    for d in 0..topo.devices() {
        let device = device_value(alloc, topo, d)?;
        push(&mut items, device)?;
    }
    Ok(of_array(items))
}

/// All links.
fn links_value(alloc: Global, topo: &Topology) -> Result<Value, NoMemory>
    ensures { IfOk result (λ v. view v ≡ array (items_of (map (λ link. table (link_tree
        (device_names (network topo.now)) link)) (network topo.now).links))) }
{
    let mut items = Array::new(alloc);
    for l in 0..topo.links() {
        let link = link_value(alloc, topo, l)?;
        push(&mut items, link)?;
    }
    Ok(of_array(items))
}

/// All listed domains.
fn domains_value(alloc: Global, topo: &Topology) -> Result<Value, NoMemory>
    ensures { IfOk result (λ v. view v ≡ array (items_of (map (λ domain. table (domain_tree
        (device_names (network topo.now)) (link_names (network topo.now)) domain))
        (network topo.now).domains))) }
{
    let mut items = Array::new(alloc);
    for f in 0..topo.domains() {
        let domain = domain_value(alloc, topo, f)?;
        push(&mut items, domain)?;
    }
    Ok(of_array(items))
}

/// A table with the numbers at the top.
fn params_table(alloc: Global, topo: &Topology) -> Result<Table, NoMemory>
    ensures { IfOk result (λ t. table_view t ≡ params_tree (network topo.now)) }
{
    let mut members = Table::new(alloc);
    let params = topo.params();
    put_number(alloc, &mut members, Key::Depth, u64::from(params.depth))?;
    put_number(alloc, &mut members, Key::Loss, u64::from(params.loss))?;
    put_number(alloc, &mut members, Key::Tick, params.tick)?;
    put_number(alloc, &mut members, Key::Period, params.period)?;
    put_number(alloc, &mut members, Key::Grain, params.grain)?;
    put_number(alloc, &mut members, Key::Ppm, u64::from(params.ppm))?;
    put_number(alloc, &mut members, Key::Version, 2)?;
    Ok(members)
}

/// The tree of a topology.
fn network_table(alloc: Global, topo: &Topology) -> Result<Table, NoMemory>
    ensures { IfOk result (λ t. table_view t ≡ network_tree (network topo.now)) }
{
    let mut members = params_table(alloc, topo)?;
    let roots = of_devices(alloc, topo, topo.roots())?;
    put(alloc, &mut members, Key::Roots, roots)?;
    let domains = domains_value(alloc, topo)?;
    put(alloc, &mut members, Key::Domain, domains)?;
    let links = links_value(alloc, topo)?;
    put(alloc, &mut members, Key::Link, links)?;
    let devices = devices_value(alloc, topo)?;
    put(alloc, &mut members, Key::Device, devices)?;
    Ok(members)
}

/// The text of a topology, printed with `toml`: a table of version 2 that names the rates of each
/// device and all four bounds of each link.
///
/// It is read as the same topology with version 2.
pub fn topology_text(alloc: Global, topo: &Topology) -> Result<Vec<u8>, NoMemory>
    ensures { IfOk result (λ v. network_of (tree_of v.items) ≡ Ok (with_version_two
        (network topo.now))) }
{
    let table = network_table(alloc, topo)?;
    match toml::table_to_string(alloc, &table) {
        Ok(text) => return Ok(text.into_bytes()),
        Err(_) => return Err(NoMemory),
    }
}
