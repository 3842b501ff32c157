//! The hops that a device may be on while things of a domain fail.
ghost use Rattle.std.specs.Prelude.{◌≡◌, ◌<◌, length};
ghost use Rattle.sd_checker.specs.check_hit.Outages.{net_of, plan_of};
ghost use Rattle.sd_plan.specs.Walks as walks;
ghost use Rattle.sd_drill.specs.recovery.Hops as words;
ghost use Rattle.sd_drill.specs.recovery.Hops.{BothAre, IsRightHop};

use sd_checker::check_hit::Outage;
use sd_plan::{Hop, Plan, backup_of, primary_of};

/// The hops of a device to its parents.
#[derive(Clone, Copy, Debug, PartialEq, Eq)]
pub(crate) struct Hops {
    pub(crate) primary: Option<Hop>,
    pub(crate) backup: Option<Hop>,
}

impl Hops {
    /// The backup, or the primary where there is none: where a device turns that is hit.
    pub(crate) fn next(self) -> Option<Hop>
        ensures { result ≡ words.next_of self }
    {
        match self.backup {
            Some(hop) => Some(hop),
            None => self.primary,
        }
    }
}

/// Whether a device is the root or the backup root, at which walks end.
pub(crate) fn is_end(plan: &Plan, d: u32) -> bool
    ensures { result ≡ walks.ends_walks plan.now d }
{
    plan.root == d || plan.backup_root == d
}

/// The backup of a device, where the domain hits it.
fn backup_under(outage: &Outage<'_>, d: u32) -> Option<Hop>
    requires { d < length (net_of outage.now).devices }
    ensures { result ≡ words.backup_under (net_of outage.now)
        (plan_of outage.now) outage.now.domain d }
{
    if outage.hits(d) {
        backup_of(outage.planned.plan, d)
    } else {
        None
    }
}

/// The hops that a device may be on: none where walks end, else its primary, and where the domain
/// hits it its backup too.
pub(crate) fn hops_of(outage: &Outage<'_>, d: u32) -> Hops
    requires { d < length (net_of outage.now).devices }
    ensures is { result ≡ words.hops_at (net_of outage.now)
        (plan_of outage.now) outage.now.domain d }
    ensures right { BothAre (IsRightHop (net_of outage.now) d) result }
{
    let plan = outage.planned.plan;
    if is_end(plan, d) {
        return Hops {
            primary: None,
            backup: None,
        };
    }
    Hops {
        primary: primary_of(plan, d),
        backup: backup_under(outage, d),
    }
}
