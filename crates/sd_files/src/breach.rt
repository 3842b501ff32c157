//! The answer of a command one of whose plans is refused.
ghost use Rattle.std.specs.Prelude.{◌≡◌, IfOk};
ghost use Rattle.sd_plan.specs.topo.Topologies.{network};
ghost use Rattle.sd_checker.specs.Text as texts;

use crate::Status;
use crate::command_error::Answer;
use sd_checker::{Breach, refused_line};
use sd_plan::topo::Topology;
use std::alloc::{AllocError, Global};

/// The line of the breach of the plan at a place among the plans of the command, from 1, and the
/// status of a plan that is refused.
pub fn refused_plan(
    alloc: Global,
    topo: &Topology,
    place: u32,
    breach: &Breach,
) -> Result<Answer, AllocError>
    ensures text { IfOk result (λ answer.
        answer.text.items ≡ texts.refused_line (network topo.now) place breach.now) }
    ensures status { IfOk result (λ answer. answer.status ≡ Status.PlanRefused) }
{
    let line = refused_line(alloc, topo, place, breach)?;
    Ok(Answer {
        text: line.into_bytes(),
        status: Status::PlanRefused,
    })
}
