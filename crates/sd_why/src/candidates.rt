//! Fewer than two candidates.
ghost use Rattle.std.specs.Prelude.{IfSome};
ghost use Rattle.sd_plan.specs.topo.Topologies.{network};
ghost use Rattle.sd_why.specs.Kinds as kind;
ghost use Rattle.sd_why.specs.Reasons.{Judges};
ghost use Rattle.sd_why.specs.Plans.{HasNoPlanOfCandidates};

use crate::Reason;
use sd_plan::topo::Topology;

/// That there are fewer than two candidates, where it is so: root and backup root differ.
pub fn few_candidates(topo: &Topology) -> Option<Reason>
    ensures judges { Judges (network topo.now) kind.candidates result }
    ensures law { IfSome result (λ reason. HasNoPlanOfCandidates (network topo.now)) }
{
    let count = topo.roots().len();
    if count < 2 {
        Some(Reason::Candidates(count as u32))
    } else {
        None
    }
}
