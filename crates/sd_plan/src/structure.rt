//! The six rules of structure: the roots, the rows and their hops.
ghost use Rattle.std.specs.Prelude.{◌≡◌, ◌<◌, length, find, not, IsTrue, IfSome, option_map};
ghost use Rattle.sd_num.specs.Lists.{ascends};
ghost use Rattle.sd_plan.specs.Plans as plans;
ghost use Rattle.sd_plan.specs.Plans.{Fits, IsHop};
ghost use Rattle.sd_plan.specs.Rules as rules;
ghost use Rattle.sd_plan.specs.Structure as structure;
ghost use Rattle.sd_plan.specs.Walks as walks;
ghost use Rattle.sd_plan.specs.topo.Network as networks;
ghost use Rattle.sd_plan.specs.topo.Network.{device_numbers};
ghost use Rattle.sd_plan.specs.topo.Topologies.{network};

use crate::hops::{backup_of, primary_of};
use crate::topo::Topology;
use crate::{Hop, Plan};
use sd_num::contains;

/// A rule of structure, in the order in which they are asked.
#[derive(Clone, Copy, Debug, PartialEq, Eq)]
pub enum Rule {
    /// Root and backup root are members and differ.
    Roots,
    /// Each member other than the root has a row, and nobody else.
    Rows,
    /// A hop leads to a member, over a link that is not left out and joins the two.
    Hops,
    /// Primary and backup go over different links.
    Links,
    /// The walk of a member reaches the root within the depth.
    Walks,
    /// The backup root has a backup.
    Fallback,
}

/// Whether a device takes part.
fn is_member(plan: &Plan, d: u32) -> bool
    requires { IsTrue (ascends plan.now.absent.devices) }
    ensures { result ≡ plans.is_member plan.now d }
{
    !contains(plan.absent.devices.as_slice(), d)
}

/// Whether a link is not left out.
fn is_present(plan: &Plan, link: u32) -> bool
    requires { IsTrue (ascends plan.now.absent.links) }
    ensures { result ≡ plans.is_present plan.now link }
{
    !contains(plan.absent.links.as_slice(), link)
}

/// Whether a device has a row exactly where it is a member other than the root.
fn row_is_right(plan: &Plan, d: u32) -> bool
    requires absent { IsTrue (ascends plan.now.absent.devices) }
    requires device { d < length plan.now.rows }
    ensures { result ≡ structure.row_is_right plan.now d }
{
    let wanted = is_member(plan, d) && d != plan.root;
    plan.rows.as_slice()[d as usize].is_some() == wanted
}

/// Whether a link joins two devices.
fn joins(topo: &Topology, link: u32, d: u32, e: u32) -> bool
    requires { link < length (network topo.now).links }
    ensures { result ≡ networks.joins (network topo.now) link d e }
{
    let ends = topo.link(link);
    (ends.end_a == d && ends.end_b == e) || (ends.end_a == e && ends.end_b == d)
}

/// Whether a hop, if there is one, leads to a member over a link that is there and joins the two.
fn hop_is_right(topo: &Topology, plan: &Plan, d: u32, hop: Option<Hop>) -> bool
    requires fits { Fits (network topo.now) plan.now }
    requires hop { IfSome hop (IsHop (network topo.now)) }
    ensures { result ≡ structure.hop_is_right (network topo.now) plan.now d hop }
{
    match hop {
        Some(hop) => {
            is_member(plan, hop.parent)
                && is_present(plan, hop.link)
                && joins(topo, hop.link, d, hop.parent)
        }
        None => true,
    }
}

/// Whether both hops of a device are right.
fn hops_are_right(topo: &Topology, plan: &Plan, d: u32) -> bool
    requires fits { Fits (network topo.now) plan.now }
    requires device { d < length (network topo.now).devices }
    ensures { result ≡ structure.hops_are_right (network topo.now) plan.now d }
{
    hop_is_right(topo, plan, d, primary_of(plan, d))
        && hop_is_right(topo, plan, d, backup_of(plan, d))
}

/// Whether a device's two hops, if it has both, go over different links.
fn links_differ(plan: &Plan, d: u32) -> bool
    requires { d < length plan.now.rows }
    ensures { result ≡ structure.links_differ plan.now d }
{
    match (primary_of(plan, d), backup_of(plan, d)) {
        (Some(primary), Some(backup)) => primary.link != backup.link,
        _ => true,
    }
}

/// Where the walk of a device ends: at the root, at a device without a row, or after as many hops
/// as the topology's depth.
fn end_of_walk(topo: &Topology, plan: &Plan, d: u32) -> u32
    requires fits { Fits (network topo.now) plan.now }
    requires device { d < length (network topo.now).devices }
    ensures { result ≡ walks.end_of d (walks.walk (network topo.now) plan.now d) }
{
    let mut here = d;
    let mut left = topo.params().depth;
    while left > 0 && here != plan.root {
        match primary_of(plan, here) {
            Some(hop) => here = hop.parent,
            None => return here,
        }
        left -= 1;
    }
    here
}

/// Whether the walk of a device, if it is a member, reaches the root.
fn reaches_root(topo: &Topology, plan: &Plan, d: u32) -> bool
    requires fits { Fits (network topo.now) plan.now }
    requires device { d < length (network topo.now).devices }
    ensures { result ≡ structure.reaches_root (network topo.now) plan.now d }
{
    !is_member(plan, d) || end_of_walk(topo, plan, d) == plan.root
}

impl Rule {
    /// The rule's number as it is printed, from 1.
    pub fn number(self) -> u8
        ensures { result ≡ rules.number_of self }
    {
        match self {
            Rule::Roots => 1,
            Rule::Rows => 2,
            Rule::Hops => 3,
            Rule::Links => 4,
            Rule::Walks => 5,
            Rule::Fallback => 6,
        }
    }

    /// Whether a device keeps the rule by itself. The rule on the two roots is none of one device.
    fn is_kept_at(self, topo: &Topology, plan: &Plan, d: u32) -> bool
        requires fits { Fits (network topo.now) plan.now }
        requires device { d < length (network topo.now).devices }
        ensures { result ≡ rules.keeps self (network topo.now) plan.now d }
    {
        match self {
            Rule::Roots => true,
            Rule::Rows => row_is_right(plan, d),
            Rule::Hops => hops_are_right(topo, plan, d),
            Rule::Links => links_differ(plan, d),
            Rule::Walks => reaches_root(topo, plan, d),
            Rule::Fallback => d != plan.backup_root || backup_of(plan, d).is_some(),
        }
    }

    /// The rule, with the lowest device that breaks it by itself.
    fn first_failing(self, topo: &Topology, plan: &Plan) -> Option<(Rule, u32)>
        requires fits { Fits (network topo.now) plan.now }
        ensures { option_map rules.numbered result
            ≡ structure.first_failing (network topo.now) (rules.number_of self)
            (rules.keeps self (network topo.now) plan.now) }
    {
        for d in 0..topo.devices() {
            if !self.is_kept_at(topo, plan, d) {
                return Some((self, d));
            }
        }
        None
    }
}

/// The root, where it is no member; else the backup root, where it is none or is the root.
fn roots_breach(plan: &Plan) -> Option<u32>
    requires { IsTrue (ascends plan.now.absent.devices) }
    ensures { result ≡ structure.roots_breach plan.now }
{
    if !is_member(plan, plan.root) {
        return Some(plan.root);
    }
    if !is_member(plan, plan.backup_root) || plan.root == plan.backup_root {
        return Some(plan.backup_root);
    }
    None
}

/// The first rule of structure that a plan breaks, and the lowest device that breaks it.
pub fn structure_breach(topo: &Topology, plan: &Plan) -> Option<(Rule, u32)>
    requires fits { Fits (network topo.now) plan.now }
    ensures { option_map rules.numbered result
        ≡ structure.structure_breach (network topo.now) plan.now }
{
    if let Some(device) = roots_breach(plan) {
        return Some((Rule::Roots, device));
    }
    Rule::Rows
        .first_failing(topo, plan)
        .or_else(|| Rule::Hops.first_failing(topo, plan))
        .or_else(|| Rule::Links.first_failing(topo, plan))
        .or_else(|| Rule::Walks.first_failing(topo, plan))
        .or_else(|| Rule::Fallback.first_failing(topo, plan))
}
