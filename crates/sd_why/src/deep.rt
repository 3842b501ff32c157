//! Devices that are farther than the depth from each candidate.
ghost use Rattle.std.specs.Prelude.{◌≡◌, ◌<◌, ◌^◌, IfOk, IfSome, length};
ghost use Rattle.sd_plan.specs.Plans.{nothing_absent};
ghost use Rattle.sd_planner.specs.Views.{net_of, left_out};
ghost use Rattle.sd_why.specs.Kinds as kind;
ghost use Rattle.sd_why.specs.Kinds.{IsConnected};
ghost use Rattle.sd_why.specs.Reasons.{FindsBeyond, Judges};
ghost use Rattle.sd_why.specs.Plans.{HasNoPlanOfCandidates};
ghost use Rattle.sd_why.specs.Rings.{IsFarthest};

use crate::ways::distances;
use crate::{Far, Reason};
use sd_num::NoMemory;
use sd_planner::Present;
use std::alloc::Global;

/// The first of the farthest devices, by the distances from a candidate.
fn farthest(known: &[Option<u32>], candidate: u32) -> Far
    requires { (length known.now < 2 ^ 32) }
    ensures is { IsFarthest known.now result.device result.hops }
    ensures from { result.candidate ≡ candidate }
{
    let mut far = Far {
        candidate,
        device: 0,
        hops: 0,
    };
    for d in 0..known.len() {
        if let Some(hops) = known[d] {
            if far.hops < hops {
                far = Far {
                    candidate,
                    device: d as u32,
                    hops,
                };
            }
        }
    }
    far
}

/// The first of the farthest devices from a candidate, if it is farther than the depth.
fn beyond(alloc: Global, present: &Present, candidate: u32) -> Result<Option<Far>, NoMemory>
    requires whole { left_out present.now ≡ nothing_absent }
    requires connected { IsConnected (net_of present.now) }
    requires device { candidate < length (net_of present.now).devices }
    ensures { IfOk result (FindsBeyond (net_of present.now) candidate) }
{
    let known = distances(alloc, present, candidate)?;
    let far = farthest(&known, candidate);
    if present.topo.params().depth < far.hops {
        Ok(Some(far))
    } else {
        Ok(None)
    }
}

/// That from each candidate some device is farther than the depth, where it is so, with the first
/// of those farthest from the first candidate: a walk to the root goes over no more links. It
/// searches from each candidate until one reaches all.
pub fn deep_from_all(alloc: Global, present: &Present) -> Result<Option<Reason>, NoMemory>
    requires whole { left_out present.now ≡ nothing_absent }
    requires connected { IsConnected (net_of present.now) }
    ensures judges { IfOk result (Judges (net_of present.now) kind.deep) }
    ensures law { IfOk result
        (λ found. IfSome found (λ reason. HasNoPlanOfCandidates (net_of present.now))) }
{
    let roots = present.topo.roots();
    let Some(far) = beyond(alloc, present, roots[0])? else {
        return Ok(None);
    };
    for root in roots {
        match beyond(alloc, present, *root)? {
            Some(_) => {}
            None => return Ok(None),
        }
    }
    Ok(Some(Reason::Deep(far)))
}
