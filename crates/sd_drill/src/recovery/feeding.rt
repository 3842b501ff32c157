//! Which devices come to hear the acting end again.
ghost use Rattle.std.specs.Prelude.{◌≡◌, ◌<◌, length, IfSome, Decides};
ghost use Rattle.sd_checker.specs.check_reach.Reach as feeding;
ghost use Rattle.sd_checker.specs.check_reach.Reach.{Fed};
ghost use Rattle.sd_checker.specs.check_hit.Outages.{net_of, plan_of};
ghost use Rattle.sd_plan.specs.Plans as plans;
ghost use Rattle.sd_drill.specs.recovery.Feeding.{IsFedOver};
ghost use Rattle.sd_drill.specs.recovery.Hops as words;
ghost use Rattle.sd_drill.specs.recovery.Hops.{BothAre, IsRightHop};
ghost use Rattle.sd_drill.specs.recovery.Searches.{IsSettled, mark_at};

use crate::recovery::hops::{Hops, is_end};
use crate::recovery::marks::{Mark, settled_at};
use sd_checker::check_hit::Outage;
use sd_plan::{Hop, Plan};

/// Whether a device has a row.
fn has_row(plan: &Plan, d: u32) -> bool
    requires { d < length plan.now.rows }
    ensures { result ≡ plans.has_row plan.now d }
{
    plan.rows.as_slice()[d as usize].is_some()
}

/// Whether a device takes part: the root does, and those with a row.
fn is_member(outage: &Outage<'_>, d: u32) -> bool
    requires { d < length (net_of outage.now).devices }
    ensures { result ≡ plans.is_member (plan_of outage.now) d }
{
    let plan = outage.planned.plan;
    plan.root == d || has_row(plan, d)
}

/// Whether a device is a member that the domain does not have.
fn is_sound(outage: &Outage<'_>, d: u32) -> bool
    requires { d < length (net_of outage.now).devices }
    ensures { result ≡ feeding.is_sound (net_of outage.now)
        (plan_of outage.now) outage.now.domain d }
{
    is_member(outage, d) && !outage.holds_device(d)
}

/// Whether the domain leaves a hop, and it leads to a device that is fed.
fn is_fed_over(outage: &Outage<'_>, marks: &[Mark], next: Option<Hop>) -> bool
    requires place { IfSome next (λ hop. hop.parent < length marks.now) }
    requires settled { IfSome next
        (λ hop. IsSettled (net_of outage.now) (plan_of outage.now) outage.now.domain hop.parent
        (mark_at marks.now hop.parent)) }
    ensures { Decides result
        (IsFedOver (net_of outage.now) (plan_of outage.now) outage.now.domain next) }
{
    let Some(hop) = next else {
        return false;
    };
    if outage.holds_link(hop.link) || outage.holds_device(hop.parent) {
        return false;
    }
    settled_at(outage, marks, hop.parent).fed
}

/// Whether a device comes to hear the acting end: a sound one that is an end itself, or is not hit,
/// or turns to one that does.
pub(crate) fn is_fed(outage: &Outage<'_>, marks: &[Mark], d: u32, hops: Hops) -> bool
    requires device { d < length (net_of outage.now).devices }
    requires marks { length marks.now ≡ length (net_of outage.now).devices }
    requires hops { hops
        ≡ words.hops_at (net_of outage.now) (plan_of outage.now) outage.now.domain d }
    requires right { BothAre (IsRightHop (net_of outage.now) d) hops }
    requires settled { BothAre (λ hop. IsSettled (net_of outage.now)
        (plan_of outage.now) outage.now.domain hop.parent (mark_at marks.now hop.parent)) hops }
    ensures { Decides result (Fed (net_of outage.now) (plan_of outage.now) outage.now.domain d) }
{
    if !is_sound(outage, d) {
        return false;
    }
    if is_end(outage.planned.plan, d) || !outage.hits(d) {
        return true;
    }
    is_fed_over(outage, marks, hops.next())
}
