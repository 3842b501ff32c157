//! What the walks of a device reach.
ghost use Rattle.std.specs.Prelude.{◌≡◌, Some};
ghost use Rattle.sd_checker.specs.check_hit.Outages.{net_of, plan_of};
ghost use Rattle.sd_drill.specs.recovery.Hops.{IsRightHop};
ghost use Rattle.sd_drill.specs.recovery.Reaches as reaches;
ghost use Rattle.sd_drill.specs.recovery.Reaches.{BeginsWith, ReachesFrom, ReachesOf};

use sd_checker::check_hit::Outage;
use sd_plan::Hop;

/// What walks reach.
#[derive(Clone, Copy, Debug, PartialEq, Eq)]
pub struct Reach {
    /// The greatest sum of halves in ps.
    pub far: u64,
    /// The greatest number of hops.
    pub long: u32,
}

/// What the walks reach that begin with a hop, by what those of its parent reach. None where one
/// has more hops than the depth and one.
pub(crate) fn over(outage: &Outage<'_>, d: u32, hop: Hop, behind: Option<Reach>) -> Option<Reach>
    requires right { IsRightHop (net_of outage.now) d hop }
    requires behind { ReachesFrom (net_of outage.now) (plan_of outage.now) outage.now.domain
        hop.parent behind }
    ensures { ReachesOf (net_of outage.now)
        (BeginsWith (net_of outage.now) (plan_of outage.now) outage.now.domain (Some hop)) d
        result }
{
    let topo = outage.planned.topo;
    let Some(behind) = behind else {
        return None;
    };
    if behind.long > topo.params().depth {
        return None;
    }
    Some(Reach {
        far: topo.bounds(hop.link, d).half + behind.far,
        long: behind.long + 1,
    })
}

/// What walks of two kinds reach together.
pub(crate) fn farther(a: Option<Reach>, b: Option<Reach>) -> Option<Reach>
    ensures { result ≡ reaches.farther a b }
{
    let a = a?;
    let b = b?;
    Some(Reach {
        far: a.far.max(b.far),
        long: a.long.max(b.long),
    })
}
