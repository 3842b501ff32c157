//! How devices recover from a fault domain: which come to hear the acting end again, and what the
//! walks reach on which they may be meanwhile.
ghost use Rattle.std.specs.Prelude.{◌≡◌, ◌<◌, length, IfSome};
ghost use Rattle.sd_checker.specs.check_hit.Outages.{net_of, plan_of};
ghost use Rattle.sd_drill.specs.recovery.Hops as words;
ghost use Rattle.sd_drill.specs.recovery.Hops.{BothAre, IsRightHop};
ghost use Rattle.sd_drill.specs.recovery.Reaches.{BeginsWith, ReachesOf};
ghost use Rattle.sd_drill.specs.recovery.Recoveries.{IsRecovery};
ghost use Rattle.sd_drill.specs.recovery.Searches.{IsSettled, mark_at};

mod feeding;
mod hops;
mod marks;
mod reach;
mod search;

use crate::recovery::feeding::is_fed;
use crate::recovery::hops::Hops;
use crate::recovery::marks::{Mark, settled_at};
use crate::recovery::reach::{farther, over};
pub use reach::Reach;
use sd_checker::check_hit::Outage;
use sd_plan::Hop;
pub use search::Recoveries;

/// What becomes of a device while things of a domain fail.
#[derive(Clone, Copy, Debug, PartialEq, Eq)]
pub struct Recovery {
    /// Whether it comes to hear the acting end.
    pub fed: bool,
    /// What its walks reach. None where one has more hops than the depth and one.
    pub reach: Option<Reach>,
}

/// What the walks reach that begin with this hop, or have none.
fn reach_over(outage: &Outage<'_>, marks: &[Mark], d: u32, first: Option<Hop>) -> Option<Reach>
    requires marks { length marks.now ≡ length (net_of outage.now).devices }
    requires right { IfSome first (IsRightHop (net_of outage.now) d) }
    requires settled { IfSome first
        (λ hop. IsSettled (net_of outage.now) (plan_of outage.now) outage.now.domain hop.parent
        (mark_at marks.now hop.parent)) }
    ensures { ReachesOf (net_of outage.now)
        (BeginsWith (net_of outage.now) (plan_of outage.now) outage.now.domain first) d result }
{
    match first {
        Some(hop) => over(outage, d, hop, settled_at(outage, marks, hop.parent).reach),
        None => Some(Reach { far: 0, long: 0 }),
    }
}

/// How a device recovers.
pub(crate) fn settle(outage: &Outage<'_>, marks: &[Mark], d: u32, hops: Hops) -> Recovery
    requires device { d < length (net_of outage.now).devices }
    requires marks { length marks.now ≡ length (net_of outage.now).devices }
    requires hops { hops
        ≡ words.hops_at (net_of outage.now) (plan_of outage.now) outage.now.domain d }
    requires right { BothAre (IsRightHop (net_of outage.now) d) hops }
    requires settled { BothAre (λ hop. IsSettled (net_of outage.now)
        (plan_of outage.now) outage.now.domain hop.parent (mark_at marks.now hop.parent)) hops }
    ensures { IsRecovery (net_of outage.now) (plan_of outage.now) outage.now.domain d result }
{
    let fed = is_fed(outage, marks, d, hops);
    let primary = reach_over(outage, marks, d, hops.primary);
    let backup = reach_over(outage, marks, d, hops.backup);
    Recovery {
        fed,
        reach: farther(primary, backup),
    }
}
