//! What each device is told.
ghost use Rattle.std.specs.Prelude.{◌≡◌, ◌<◌, length, map, None, IfSome, IfOk, option_map};
ghost use Rattle.sd_plan.specs.topo.Network.{device_numbers};
ghost use Rattle.sd_plan.specs.topo.Topologies.{network};
ghost use Rattle.sd_plan.specs.Plans as plans;
ghost use Rattle.sd_plan.specs.Plans.{Fits};
ghost use Rattle.sd_plan.specs.Duties as duties;
ghost use Rattle.sd_plan.specs.Structure.{structure_breach};
ghost use Rattle.sd_plan.specs.Tables.{told_of, EndsAt};

use crate::hops::{backup_of, primary_of};
use crate::topo::Topology;
use crate::{Duty, Edge, Hop, Plan, Role};
use sd_num::NoMemory;
use std::alloc::Global;

/// Whether the plan says something of a device.
fn has_row(plan: &Plan, d: u32) -> bool
    requires { d < length plan.now.rows }
    ensures { result ≡ plans.has_row plan.now d }
{
    let rows = plan.rows.as_slice();
    rows[d as usize].is_some()
}

/// Whether a device takes part: of the members just the root has no row.
pub(crate) fn is_member(topo: &Topology, plan: &Plan, d: u32) -> bool
    requires fits { Fits (network topo.now) plan.now }
    requires structured { structure_breach (network topo.now) plan.now ≡ None }
    requires device { d < length (network topo.now).devices }
    ensures { result ≡ plans.is_member plan.now d }
{
    plan.root == d || has_row(plan, d)
}

/// What a device is.
fn role_of(plan: &Plan, d: u32) -> Role
    ensures { result ≡ duties.role_of plan.now d }
{
    if plan.root == d {
        Role::Root
    } else if plan.backup_root == d {
        Role::BackupRoot
    } else {
        Role::Ordinary
    }
}

/// A hop of a device, with the correction of what comes over it.
fn edge_of(topo: &Topology, d: u32, hop: Option<Hop>) -> Option<Edge>
    requires { IfSome hop (EndsAt (network topo.now) d) }
    ensures { result ≡ option_map (duties.edge_of (network topo.now) d) hop }
{
    match hop {
        Some(hop) => Some(Edge {
            parent: hop.parent,
            link: hop.link,
            bounds: topo.bounds(hop.link, d),
        }),
        None => None,
    }
}

/// What a device is told.
fn duty_of(topo: &Topology, plan: &Plan, epoch: u32, d: u32) -> Duty
    requires fits { Fits (network topo.now) plan.now }
    requires structured { structure_breach (network topo.now) plan.now ≡ None }
    requires device { d < length (network topo.now).devices }
    ensures { result ≡ duties.duty_of (network topo.now) plan.now epoch d }
{
    let primary = edge_of(topo, d, primary_of(plan, d));
    let backup = edge_of(topo, d, backup_of(plan, d));
    let role = role_of(plan, d);
    let rates = topo.rates(d);
    Duty {
        epoch,
        role,
        primary,
        backup,
        period: topo.params().period,
        wait_first: plan.wait_first,
        wait_second: plan.wait_second,
        wait: plan.wait,
        rates,
    }
}

/// What each device is told, if it is a member.
pub(super) fn all_duties(
    alloc: Global,
    topo: &Topology,
    plan: &Plan,
    epoch: u32,
) -> Result<Vec<Option<Duty>>, NoMemory>
    requires fits { Fits (network topo.now) plan.now }
    requires structured { structure_breach (network topo.now) plan.now ≡ None }
    ensures { IfOk result (λ told. told.items
        ≡ map (told_of (network topo.now) plan.now epoch) (device_numbers (network topo.now))) }
{
    let mut told = Vec::new(alloc);
    for d in 0..topo.devices() {
        let duty = if is_member(topo, plan, d) {
            Some(duty_of(topo, plan, epoch, d))
        } else {
            None
        };
        let Ok(()) = told.push(duty) else {
            return Err(NoMemory);
        };
    }
    Ok(told)
}
