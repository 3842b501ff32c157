//! Reading a plan text: a small function for each line of its meaning.
ghost use Rattle.std.specs.Prelude.{◌≡◌, ◌≢◌, Some, None, ◌&&◌, IsTrue, length, IfOk, IfErr};
ghost use Rattle.serde_json.specs.View.{view};
ghost use Rattle.sd_num.specs.Lists.{ascends, all_below};
ghost use Rattle.sd_plan.specs.topo.Topologies.{network};
ghost use Rattle.sd_plan.specs.Plans.{Fits};
ghost use Rattle.sd_plantext.specs.Gives.{Gives};
ghost use Rattle.sd_plantext.specs.Meaning.{absent_in, plan_in, plan_of, absent_of};
ghost use Rattle.sd_plantext.specs.Reading.{tree_of};

mod names;
mod rows;
mod values;

use crate::fault::{PlanFault, PlanKey, PlanPlace};
use names::{Kind, named_at, names_at};
use rows::rows_at;
use sd_plan::topo::Topology;
use sd_plan::{Absent, Plan};
use serde_json::Value;
use std::alloc::Global;
use values::{object_of, version_at, wait_at};

/// What is left out.
#[tactic(auto, unfolding(crate::specs::Meaning::absent_in))]
fn absent_at(alloc: Global, topo: &Topology, object: &Value) -> Result<Absent, PlanFault>
    ensures { Gives (λ a. a) result (absent_in (network topo.now) (view object.now)) }
{
    let devices = names_at(alloc, topo, Kind::Device, object, PlanKey::AbsentDevices)?;
    let links = names_at(alloc, topo, Kind::Link, object, PlanKey::AbsentLinks)?;
    Ok(Absent { devices, links })
}

/// The plan of the tree of a text.
#[tactic(auto, unfolding(crate::specs::Meaning::plan_in))]
fn plan_at(alloc: Global, topo: &Topology, tree: &Value) -> Result<Plan, PlanFault>
    ensures { Gives (λ p. p) result (plan_in (network topo.now) (view tree.now)) }
{
    let key = PlanKey::Plan;
    let object = object_of(tree, PlanPlace { key, entry: 0 })?;
    version_at(object)?;
    let root = named_at(topo, Kind::Device, object, PlanKey::Root, 0)?;
    let backup_root = named_at(topo, Kind::Device, object, PlanKey::BackupRoot, 0)?;
    let wait_first = wait_at(object, PlanKey::WaitFirst)?;
    let wait_second = wait_at(object, PlanKey::WaitSecond)?;
    let wait = wait_at(object, PlanKey::Wait)?;
    let absent = absent_at(alloc, topo, object)?;
    let rows = rows_at(alloc, topo, object)?;
    Ok(Plan {
        root,
        backup_root,
        wait_first,
        wait_second,
        wait,
        absent,
        rows,
    })
}

/// The tree of a text.
fn tree_in(alloc: Global, bytes: &[u8]) -> Result<Value, PlanFault>
    ensures ok { IfOk result (λ v. tree_of bytes.now ≡ Some (view v)) }
    ensures err { IfErr result (λ e. e ≢ PlanFault.Memory → (e ≡ PlanFault.NotJson) ×
        (tree_of bytes.now ≡ None)) }
{
    let text = match std::str::from_utf8(bytes) {
        Ok(text) => text,
        Err(_) => return Err(PlanFault::NotJson),
    };
    match Value::from_str(alloc, text) {
        Ok(tree) => Ok(tree),
        Err(error) => {
            if error.is_memory() {
                return Err(PlanFault::Memory);
            }
            Err(PlanFault::NotJson)
        }
    }
}

/// The plan that a text means over a topology, or the text's first fault.
///
/// A text is JSON; unknown keys are ignored, and a key whose value is null counts as missing.
/// Devices and links are named as in the topology, and found by hashing: time is linear in the
/// text, but for the sorting of what is left out.
#[tactic(auto, unfolding(crate::specs::Meaning::plan_of))]
pub fn read_plan(alloc: Global, topo: &Topology, bytes: &[u8]) -> Result<Plan, PlanFault>
    ensures given { Gives (λ p. p) result (plan_of (network topo.now) (tree_of bytes.now)) }
    ensures fits { IfOk result (λ plan. Fits (network topo.now) plan) }
{
    let tree = match tree_in(alloc, bytes) {
        Ok(tree) => tree,
        Err(PlanFault::Memory) => return Err(PlanFault::Memory),
        Err(_) => return Err(PlanFault::NotJson),
    };
    match plan_at(alloc, topo, &tree) {
        Ok(plan) => return Ok(plan),
        Err(fault) => return Err(fault),
    }
}

/// The devices and links that a text leaves out of a topology, or the text's first fault.
///
/// The text is JSON with the two keys of a plan that tell what is left out; any others are
/// ignored.
#[tactic(auto, unfolding(crate::specs::Meaning::absent_of))]
pub fn read_absent(alloc: Global, topo: &Topology, bytes: &[u8]) -> Result<Absent, PlanFault>
    ensures given { Gives (λ a. a) result (absent_of (network topo.now) (tree_of bytes.now)) }
    ensures fits { IfOk result (λ absent.
        IsTrue (ascends absent.devices && all_below (length (network topo.now).devices)
        absent.devices) × IsTrue (ascends absent.links && all_below (length
        (network topo.now).links) absent.links)) }
{
    let key = PlanKey::Absent;
    let tree = match tree_in(alloc, bytes) {
        Ok(tree) => tree,
        Err(PlanFault::Memory) => return Err(PlanFault::Memory),
        Err(_) => return Err(PlanFault::NotJson),
    };
    let object = match object_of(&tree, PlanPlace { key, entry: 0 }) {
        Ok(object) => object,
        Err(fault) => return Err(fault),
    };
    match absent_at(alloc, topo, object) {
        Ok(absent) => return Ok(absent),
        Err(fault) => return Err(fault),
    }
}
