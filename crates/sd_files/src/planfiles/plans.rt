//! The files of the plans of a command, one after the other.
ghost use Rattle.std.specs.Prelude.{◌≡◌, ◌≤◌, ◌<◌, ◌-◌, ◌^◌, All, Ok, Err, IsTrue, IfErr, IfOk, IfSome, length, map, string_bytes};
ghost use Rattle.sd_io.specs.outside.Shelves.{KeepsShelf};
ghost use Rattle.sd_plan.specs.Plans.{Fits};
ghost use Rattle.sd_plan.specs.topo.Network.{Each};
ghost use Rattle.sd_plan.specs.topo.Topologies.{network};
ghost use Rattle.sd_checker.specs.Conditions.{IsAccepted};
ghost use Rattle.sd_files.specs.Inputs.{plan_in_file};
ghost use Rattle.sd_files.specs.Texts.{texts_of};
ghost use Rattle.sd_files.specs.Writes.{IsAllowed};
ghost use Rattle.sd_files.specs.planfiles.SetupError.{IsPlanRefused, made_of};
ghost use Rattle.sd_files.specs.planfiles.PlanFiles.{AfterAllPlans, AfterJudged, AfterPlan, AreRead};
ghost use Rattle.sd_files.specs.planfiles.Refusing.{Nothing};

use crate::planfiles::SetupError;
use crate::{CommandError, load_plan, refused_plan};
use sd_checker::{Verdict, check};
use sd_io::outside::Shelf;
use sd_plan::Plan;
use sd_plan::topo::Topology;
use std::alloc::Global;

/// The plans of the files, each read and judged before the next is begun, where all of them are
/// accepted.
pub fn load_plans<S: Shelf>(
    alloc: Global,
    shelf: &mut S,
    topo: &Topology,
    names: &[String],
) -> Result<Vec<Plan>, SetupError>
    requires serves { All (λ name. IsTrue (S.serves shelf.old name)) (map string_bytes names.now) }
    requires few { length names.now < 2 ^ 32 - 1 }
    ensures read { IfOk result
        (λ plans. IfSome (S.held shelf.old)
        (λ held. AreRead (network topo.now) 1
        (map (λ name. texts_of held name) (map string_bytes names.now)) plans.items)) }
    ensures count { IfOk result (λ plans. length plans.items ≡ length names.now) }
    ensures fit { IfOk result (λ plans. Each (Fits (network topo.now)) plans.items) }
    ensures accepted { IfOk result (λ plans. Each (IsAccepted (network topo.now)) plans.items) }
    ensures makes { IfErr result (λ early. IfSome (S.held shelf.old) (λ held.
        IsAllowed (AfterAllPlans (network topo.now)
        (map (λ name. texts_of held name) (map string_bytes names.now)) Nothing) (made_of early))) }
    ensures answered { IfErr result IsPlanRefused }
    ensures shelf { KeepsShelf S.Shelf (result ≡ Err (SetupError.Stopped CommandError.Shelf))
        shelf.old shelf.new }
{
    let mut plans = Vec::new(alloc);
    let mut place = 0;
    'plans: while (place as usize) < names.len() {
        let name = names[place as usize].as_str();
        place += 1;
        let plan = load_accepted(alloc, shelf, topo, name, place)?;
        if plans.push(plan).is_err() {
            return Err(SetupError::Stopped(CommandError::Memory));
        }
    }
    Ok(plans)
}

/// The plan of a file, which is the one at this place of the command, if it is accepted.
fn load_accepted<S: Shelf>(
    alloc: Global,
    shelf: &mut S,
    topo: &Topology,
    name: &str,
    place: u32,
) -> Result<Plan, SetupError>
    requires { IsTrue (S.serves shelf.old name.now) }
    ensures read { IfOk result
        (λ plan. IfSome (S.held shelf.old)
        (λ held. plan_in_file (network topo.now) place (texts_of held name.now) ≡ Ok plan)) }
    ensures fits { IfOk result (Fits (network topo.now)) }
    ensures accepted { IfOk result (IsAccepted (network topo.now)) }
    ensures makes { IfErr result
        (λ early. IfSome (S.held shelf.old)
        (λ held. IsAllowed (AfterPlan (network topo.now) place (texts_of held name.now) Nothing)
        (made_of early))) }
    ensures answered { IfErr result IsPlanRefused }
    ensures shelf { KeepsShelf S.Shelf (result ≡ Err (SetupError.Stopped CommandError.Shelf))
        shelf.old shelf.new }
{
    let plan = load_plan(alloc, shelf, name, topo, place)?;
    judge(alloc, topo, &plan, place)?;
    Ok(plan)
}

/// Judges a plan.
fn judge(alloc: Global, topo: &Topology, plan: &Plan, place: u32) -> Result<(), SetupError>
    requires { Fits (network topo.now) plan.now }
    ensures accepted { IfOk result (λ done. IsAccepted (network topo.now) plan.now) }
    ensures makes { IfErr result
        (λ early. IsAllowed (AfterJudged (network topo.now) place plan.now (Nothing plan.now))
        (made_of early)) }
    ensures answered { IfErr result IsPlanRefused }
    ensures never { IfErr result (λ early. early ≡ SetupError.Stopped CommandError.Shelf → ⊥) }
{
    match check(alloc, topo, plan)? {
        Verdict::Accepted => Ok(()),
        Verdict::Refused(breach) => Err(SetupError::Answered(refused_plan(
            alloc, topo, place, &breach,
        )?)),
    }
}
