//! Printing a plan: a value, and its text.
ghost use Rattle.std.specs.Prelude.{◌≡◌, ◌<◌, ◌++◌, [], ◌∷◌, map, None, Some, Ok, IfOk, OnOk, length};
ghost use Rattle.serde_json.specs.View.{view};
ghost use Rattle.sd_plan.specs.topo.Network.{device_numbers};
ghost use Rattle.sd_plan.specs.topo.Topologies.{network};
ghost use Rattle.sd_plan.specs.Plans.{Fits, IsHop, IsRow};
ghost use Rattle.sd_plantext.specs.Meaning.{plan_of};
ghost use Rattle.sd_plantext.specs.Reading.{tree_of};
ghost use Rattle.sd_plantext.specs.Printed.{plan_text as text_of_plan};
ghost use Rattle.sd_plantext.specs.PrintedTree.{device_data, link_data, list_data, row_data, row_listed, rows_data, plan_data};

mod values;

use sd_num::NoMemory;
use sd_plan::topo::Topology;
use sd_plan::{Hop, Plan, PlanRow};
use serde_json::{Value, json};
use std::alloc::{AllocError, Global};
use values::{devices_value, line_of, links_value};

/// A row with no backup.
#[tactic(auto, unfolding(crate::specs::PrintedTree::row_members))]
fn lone_row(alloc: Global, topo: &Topology, d: u32, primary: Hop) -> Result<Value, AllocError>
    requires device { d < length (network topo.now).devices }
    requires primary { IsHop (network topo.now) primary }
    ensures { IfOk result (λ v. view v ≡ row_data (network topo.now) d
        (record { primary = primary; backup = None })) }
{
    let device = topo.device_name(d);
    let link = topo.link_name(primary.link);
    let parent = topo.device_name(primary.parent);
    json!(in alloc; {"device": device, "link": link, "parent": parent})
}

/// A row with its backup.
#[tactic(auto, unfolding(crate::specs::PrintedTree::row_members))]
fn full_row(
    alloc: Global,
    topo: &Topology,
    d: u32,
    primary: Hop,
    backup: Hop,
) -> Result<Value, AllocError>
    requires device { d < length (network topo.now).devices }
    requires primary { IsHop (network topo.now) primary }
    requires backup { IsHop (network topo.now) backup }
    ensures { IfOk result (λ v. view v ≡ row_data (network topo.now) d
        (record { primary = primary; backup = Some backup })) }
{
    let backup_parent = topo.device_name(backup.parent);
    let backup_link = topo.link_name(backup.link);
    let device = topo.device_name(d);
    let link = topo.link_name(primary.link);
    let parent = topo.device_name(primary.parent);
    json!(in alloc; {
        "backup": backup_parent,
        "backup_link": backup_link,
        "device": device,
        "link": link,
        "parent": parent
    })
}

/// What a plan says of one device. A row with no backup has no keys of one.
fn row_value(alloc: Global, topo: &Topology, d: u32, row: PlanRow) -> Result<Value, AllocError>
    requires device { d < length (network topo.now).devices }
    requires row { IsRow (network topo.now) (Some row) }
    ensures { IfOk result (λ v. view v ≡ row_data (network topo.now) d row) }
{
    match row.backup {
        Some(backup) => full_row(alloc, topo, d, row.primary, backup),
        None => lone_row(alloc, topo, d, row.primary),
    }
}

/// Adds the row of a device that has one.
fn push_row(
    alloc: Global,
    topo: &Topology,
    d: u32,
    row: Option<PlanRow>,
    items: &mut Vec<Value>,
) -> Result<(), AllocError>
    requires device { d < length (network topo.now).devices }
    requires row { IsRow (network topo.now) row }
    ensures { OnOk result (map view items.new.items ≡ map view items.old.items
        ++ row_listed (network topo.now) d row) }
{
    match row {
        Some(row) => {
            let value = row_value(alloc, topo, d, row)?;
            items.push(value)?;
        }
        None => {}
    }
    Ok(())
}

/// The rows by ascending device.
fn rows_value(alloc: Global, topo: &Topology, plan: &Plan) -> Result<Value, AllocError>
    requires fits { Fits (network topo.now) plan.now }
    ensures { IfOk result (λ v. view v ≡ rows_data (network topo.now) plan.now
        (device_numbers (network topo.now))) }
{
    let mut items = Vec::new(alloc);
    let rows = plan.rows.as_slice();
    for d in 0..topo.devices() {
        push_row(alloc, topo, d, rows[d as usize], &mut items)?;
    }
    Ok(Value::Array(items))
}

/// The object of a plan, whose arrays are there.
#[tactic(auto, unfolding(crate::specs::PrintedTree::plan_members))]
fn plan_object(
    alloc: Global,
    topo: &Topology,
    plan: &Plan,
    absent_devices: Value,
    absent_links: Value,
    rows: Value,
) -> Result<Value, AllocError>
    requires fits { Fits (network topo.now) plan.now }
    requires devices { view absent_devices ≡ list_data (device_data (network topo.now))
        plan.now.absent.devices }
    requires links { view absent_links ≡ list_data (link_data (network topo.now))
        plan.now.absent.links }
    requires rows { view rows ≡ rows_data (network topo.now) plan.now
        (device_numbers (network topo.now)) }
    ensures { IfOk result (λ v. view v ≡ plan_data (network topo.now) plan.now) }
{
    let backup_root = topo.device_name(plan.backup_root);
    let root = topo.device_name(plan.root);
    json!(in alloc; {
        "absent_devices": absent_devices,
        "absent_links": absent_links,
        "backup_root": backup_root,
        "root": root,
        "rows": rows,
        "version": 1u64,
        "wait": plan.wait,
        "wait_first": plan.wait_first,
        "wait_second": plan.wait_second
    })
}

/// The value of a plan.
fn plan_value(alloc: Global, topo: &Topology, plan: &Plan) -> Result<Value, AllocError>
    requires fits { Fits (network topo.now) plan.now }
    ensures { IfOk result (λ v. view v ≡ plan_data (network topo.now) plan.now) }
{
    let absent_devices = devices_value(alloc, topo, plan.absent.devices.as_slice())?;
    let absent_links = links_value(alloc, topo, plan.absent.links.as_slice())?;
    let rows = rows_value(alloc, topo, plan)?;
    plan_object(alloc, topo, plan, absent_devices, absent_links, rows)
}

/// The line of a plan.
fn plan_line(alloc: Global, topo: &Topology, plan: &Plan) -> Result<Vec<u8>, AllocError>
    requires fits { Fits (network topo.now) plan.now }
    ensures text { IfOk result (λ text. text.items ≡ text_of_plan (network topo.now) plan.now) }
    ensures reads_back { IfOk result (λ text. plan_of (network topo.now) (tree_of text.items)
        ≡ Ok plan.now) }
{
    let value = plan_value(alloc, topo, plan)?;
    line_of(alloc, &value)
}

/// The text of a plan: compact JSON with the keys in byte order, and a newline.
///
/// It is read as the same plan.
pub fn plan_text(alloc: Global, topo: &Topology, plan: &Plan) -> Result<Vec<u8>, NoMemory>
    requires fits { Fits (network topo.now) plan.now }
    ensures text { IfOk result (λ text. text.items ≡ text_of_plan (network topo.now) plan.now) }
    ensures reads_back { IfOk result (λ text. plan_of (network topo.now) (tree_of text.items)
        ≡ Ok plan.now) }
{
    match plan_line(alloc, topo, plan) {
        Ok(text) => Ok(text),
        Err(_) => Err(NoMemory),
    }
}
