//! The arrays of a fabric's tree.
ghost use Rattle.std.specs.Prelude.{◌≡◌, ◌+◌, ◌<◌, ◌^◌, ◌++◌, ◌∷◌, [], List, ℕ, map, IfOk, string_bytes};
ghost use Rattle.toml.specs.Data.{string, table};
ghost use Rattle.toml.specs.View.{view};
ghost use Rattle.sd_num.specs.Lists.{below};
ghost use Rattle.sd_gen.specs.fabric.Fabrics.{spine_name, leaf_name, link_name as link_named};
ghost use Rattle.sd_gen.specs.fabric.Numbered.{numbered_device_name as device_named};
ghost use Rattle.sd_gen.specs.fabric.Trees.{tables, strings, device_tree, link_tree, rack_tree};

use crate::fabric::names::{device_name, link_name, rack_name};
use crate::fabric::values::{of_array, of_table, of_text, push, put, put_number};
use sd_num::NoMemory;
use std::alloc::Global;
use toml::Value;
use toml::value::{Array, Table};

/// The least delay of a link, in ps.
pub(crate) const MIN: u32 = 400_000;

/// The greatest delay of a link, in ps.
pub(crate) const MAX: u32 = 1_000_000;

/// A device, by its name alone.
fn device_value(alloc: Global, name: String) -> Result<Value, NoMemory>
    ensures { IfOk result (λ v. view v ≡ table (device_tree (string_bytes name))) }
{
    let mut members = Table::new(alloc);
    put(alloc, &mut members, "name", of_text(name))?;
    Ok(of_table(members))
}

/// All devices.
pub(crate) fn devices_value(alloc: Global, leaves: u32, spines: u32) -> Result<Value, NoMemory>
    requires { spines + leaves < 2 ^ 32 }
    ensures { IfOk result (λ v. view v
        ≡ tables (map device_tree (map spine_name (below spines)
        ++ map leaf_name (below leaves)))) }
{
    let mut items = Array::new(alloc);
    'devices: for d in 0..spines + leaves {
        let name = device_name(alloc, spines, d)?;
        let device = device_value(alloc, name)?;
        push(&mut items, device)?;
    }
    Ok(of_array(items))
}

/// The two ends of a link: the spine, then the leaf.
fn ends_value(alloc: Global, spines: u32, leaf: u32, spine: u32) -> Result<Value, NoMemory>
    requires few { spines + leaf < 2 ^ 32 }
    requires is_spine { spine < spines }
    ensures { IfOk result (λ v. view v ≡ strings (spine_name spine ∷ leaf_name leaf ∷ [])) }
{
    let first = device_name(alloc, spines, spine)?;
    let second = device_name(alloc, spines, spines + leaf)?;
    let mut ends = Array::new(alloc);
    push(&mut ends, of_text(first))?;
    push(&mut ends, of_text(second))?;
    Ok(of_array(ends))
}

/// The link between a leaf and a spine.
fn link_value(alloc: Global, spines: u32, leaf: u32, spine: u32) -> Result<Value, NoMemory>
    requires few { spines + leaf < 2 ^ 32 }
    requires is_spine { spine < spines }
    ensures { IfOk result (λ v. view v ≡ table (link_tree leaf spine)) }
{
    let mut members = Table::new(alloc);
    put_number(alloc, &mut members, "max", MAX)?;
    put_number(alloc, &mut members, "min", MIN)?;
    let ends = ends_value(alloc, spines, leaf, spine)?;
    put(alloc, &mut members, "ends", ends)?;
    let name = link_name(alloc, leaf, spine)?;
    put(alloc, &mut members, "name", of_text(name))?;
    Ok(of_table(members))
}

/// The links of a leaf, one to each spine.
pub(crate) fn links_value(alloc: Global, spines: u32, leaf: u32) -> Result<Value, NoMemory>
    requires { spines + leaf < 2 ^ 32 }
    ensures { IfOk result (λ v. view v ≡ tables (map (link_tree leaf) (below spines))) }
{
    let mut items = Array::new(alloc);
    'links: for spine in 0..spines {
        let link = link_value(alloc, spines, leaf, spine)?;
        push(&mut items, link)?;
    }
    Ok(of_array(items))
}

/// The names of a leaf's links.
fn leaf_links(alloc: Global, spines: u32, leaf: u32) -> Result<Value, NoMemory>
    ensures { IfOk result (λ v. view v ≡ strings (map (link_named leaf) (below spines))) }
{
    let mut items = Array::new(alloc);
    'spines: for spine in 0..spines {
        let name = link_name(alloc, leaf, spine)?;
        push(&mut items, of_text(name))?;
    }
    Ok(of_array(items))
}

/// A leaf's rack: the leaf and its links.
fn rack_value(alloc: Global, spines: u32, leaf: u32) -> Result<Value, NoMemory>
    requires { spines + leaf < 2 ^ 32 }
    ensures { IfOk result (λ v. view v ≡ table (rack_tree spines leaf)) }
{
    let mut members = Table::new(alloc);
    let links = leaf_links(alloc, spines, leaf)?;
    put(alloc, &mut members, "links", links)?;
    let device = device_name(alloc, spines, spines + leaf)?;
    let mut devices = Array::new(alloc);
    push(&mut devices, of_text(device))?;
    put(alloc, &mut members, "devices", of_array(devices))?;
    let name = rack_name(alloc, leaf)?;
    put(alloc, &mut members, "name", of_text(name))?;
    Ok(of_table(members))
}

/// An array of a leaf's rack alone.
pub(crate) fn racks_value(alloc: Global, spines: u32, leaf: u32) -> Result<Value, NoMemory>
    requires { spines + leaf < 2 ^ 32 }
    ensures { IfOk result (λ v. view v ≡ tables (rack_tree spines leaf ∷ [])) }
{
    let mut items = Array::new(alloc);
    let rack = rack_value(alloc, spines, leaf)?;
    push(&mut items, rack)?;
    Ok(of_array(items))
}

/// The names of the spines.
pub(crate) fn roots_value(alloc: Global, spines: u32) -> Result<Value, NoMemory>
    ensures { IfOk result (λ v. view v ≡ strings (map spine_name (below spines))) }
{
    let mut items = Array::new(alloc);
    'roots: for spine in 0..spines {
        let name = device_name(alloc, spines, spine)?;
        push(&mut items, of_text(name))?;
    }
    Ok(of_array(items))
}
