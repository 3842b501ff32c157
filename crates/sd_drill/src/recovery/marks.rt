//! What a search knows of devices.
ghost use Rattle.std.specs.Prelude.{◌≡◌, ◌<◌, length, IfSome};
ghost use Rattle.sd_checker.specs.check_hit.Outages.{net_of, plan_of};
ghost use Rattle.sd_drill.specs.recovery.Recoveries.{IsRecovery};
ghost use Rattle.sd_drill.specs.recovery.Searches as searches;
ghost use Rattle.sd_drill.specs.recovery.Searches.{IsSettled, mark_at};

use crate::recovery::Recovery;
use crate::recovery::hops::Hops;
use sd_checker::check_hit::Outage;
use sd_plan::Hop;

/// What is known of a device.
#[derive(Clone, Copy)]
pub(crate) enum Mark {
    New,
    /// It is on the stack: what its hops lead to is being settled.
    Entered,
    Settled(Recovery),
}

/// How a settled device recovers.
pub(crate) fn settled_at(outage: &Outage<'_>, marks: &[Mark], d: u32) -> Recovery
    requires place { d < length marks.now }
    requires settled { IsSettled (net_of outage.now) (plan_of outage.now) outage.now.domain d
        (mark_at marks.now d) }
    ensures { IsRecovery (net_of outage.now) (plan_of outage.now) outage.now.domain d result }
{
    match marks[d as usize] {
        Mark::Settled(recovery) => recovery,
        Mark::New | Mark::Entered => unreachable!(),
    }
}

/// The parent of a hop, if it is new.
fn new_parent(marks: &[Mark], hop: Option<Hop>) -> Option<u32>
    requires { IfSome hop (λ hop. hop.parent < length marks.now) }
    ensures { result ≡ searches.new_parent marks.now hop }
{
    let hop = hop?;
    match marks[hop.parent as usize] {
        Mark::New => Some(hop.parent),
        Mark::Entered | Mark::Settled(_) => None,
    }
}

/// The first parent that is new, of those to which the hops lead.
pub(crate) fn first_new(marks: &[Mark], hops: Hops) -> Option<u32>
    requires primary { IfSome hops.primary (λ hop. hop.parent < length marks.now) }
    requires backup { IfSome hops.backup (λ hop. hop.parent < length marks.now) }
    ensures { result ≡ searches.first_new marks.now hops }
{
    match new_parent(marks, hops.primary) {
        Some(parent) => Some(parent),
        None => new_parent(marks, hops.backup),
    }
}
