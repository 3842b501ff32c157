//! The values that a plan is printed from, and the line of a value.
ghost use Rattle.std.specs.Prelude.{◌≡◌, ◌≤◌, ◌<◌, ◌++◌, [], ◌∷◌, All, Some, IfOk, OnOk, length};
ghost use Rattle.serde_json.specs.Data.{depth};
ghost use Rattle.serde_json.specs.Read.{max_depth};
ghost use Rattle.serde_json.specs.View.{view};
ghost use Rattle.serde_json.specs.Written.{compact_text};
ghost use Rattle.sd_plan.specs.topo.Topologies.{network};
ghost use Rattle.sd_plantext.specs.Reading.{tree_of};
ghost use Rattle.sd_plantext.specs.PrintedTree.{device_data, link_data, list_data, IsPlain};

use sd_plan::topo::Topology;
use serde_json::Value;
use std::alloc::{AllocError, Global};

/// Devices by their names.
pub(super) fn devices_value(
    alloc: Global,
    topo: &Topology,
    devices: &[u32],
) -> Result<Value, AllocError>
    requires { All (λ d. d < length (network topo.now).devices) devices.now }
    ensures { IfOk result (λ v. view v ≡ list_data (device_data (network topo.now)) devices.now) }
{
    let mut items = Vec::new(alloc);
    for d in devices {
        let name = Value::try_from_str(alloc, topo.device_name(*d))?;
        items.push(name)?;
    }
    Ok(Value::Array(items))
}

/// Links by their names.
pub(super) fn links_value(
    alloc: Global,
    topo: &Topology,
    links: &[u32],
) -> Result<Value, AllocError>
    requires { All (λ l. l < length (network topo.now).links) links.now }
    ensures { IfOk result (λ v. view v ≡ list_data (link_data (network topo.now)) links.now) }
{
    let mut items = Vec::new(alloc);
    for l in links {
        let name = Value::try_from_str(alloc, topo.link_name(*l))?;
        items.push(name)?;
    }
    Ok(Value::Array(items))
}

/// The text of a value, with a newline.
pub(super) fn line_of(alloc: Global, value: &Value) -> Result<Vec<u8>, AllocError>
    requires plain { IsPlain (view value.now) }
    requires depth { depth (view value.now) ≤ max_depth }
    ensures text { IfOk result (λ text. text.items ≡ compact_text (view value.now) ++ 10 ∷ []) }
    ensures reads_back { IfOk result (λ text. tree_of text.items ≡ Some (view value.now)) }
{
    let mut text = value.to_string(alloc)?;
    text.push_str("\n")?;
    Ok(text.into_bytes())
}
