//! The comparison of two replays that have played their texts.
ghost use Rattle.std.specs.Prelude.{◌≡◌, ◌∷◌, [], List, length, string_bytes, IsTrue, IfErr, IfOk};
ghost use Rattle.sd_plan.specs.topo.Network.{Network};
ghost use Rattle.sd_plan.specs.declared.Plan.{Plan};
ghost use Rattle.sd_sched.specs.declared.Event.{Event};
ghost use Rattle.sd_history.specs.World.{setting_over};
ghost use Rattle.sd_resume.specs.law.Law.{whole};
ghost use Rattle.sd_files.specs.Statuses.{is_among};
ghost use Rattle.sd_files.specs.Writes.{IsAllowed};
ghost use Rattle.sd_resume.specs.law.Shifts.{Shift};
ghost use Rattle.sd_resume.specs.command.Compared.{IsCompared};
ghost use Rattle.sd_resume.specs.command.Opened.{OpensFor};
ghost use Rattle.sd_resume.specs.command.Played.{HasPlayed};
ghost use Rattle.sd_resume.specs.command.Printed as words;

use crate::command::lines::{agree_line, differ_line, dishonest_line};
use crate::command::playing::DeviceReplay;
use crate::command::proposal::propose;
use crate::command::taking::count;
use crate::{Difference, Dishonesty, agrees, is_honest};
use sd_files::{Answer, CommandError, Status};
use std::alloc::Global;

/// The opening stands for the schedule.
fn agree_answer(alloc: Global, one: u64, other: u64) -> Result<Answer, CommandError>
    ensures text { IfOk result (λ answer. answer.text.items ≡ words.agree_line one other) }
    ensures status { IfOk result (λ answer. answer.status ≡ Status.Done) }
    ensures only { IfErr result (λ why. why ≡ CommandError.Memory) }
{
    let line = agree_line(alloc, one, other)?;
    Ok(Answer {
        text: line.into_bytes(),
        status: Status::Done,
    })
}

/// The opening does not stand for the schedule, or is not honest.
fn broken_answer(line: String) -> Answer
    ensures text { result.text.items ≡ string_bytes line }
    ensures status { result.status ≡ Status.Broken }
{
    Answer {
        text: line.into_bytes(),
        status: Status::Broken,
    }
}

/// They differ in this.
fn differ_answer(alloc: Global, difference: Difference) -> Result<Answer, CommandError>
    ensures text { IfOk result (λ answer. answer.text.items ≡ words.differ_line difference) }
    ensures status { IfOk result (λ answer. answer.status ≡ Status.Broken) }
    ensures only { IfErr result (λ why. why ≡ CommandError.Memory) }
{
    let line = differ_line(alloc, difference)?;
    Ok(broken_answer(line))
}

/// The opening is not honest in this.
fn dishonest_answer(alloc: Global, dishonesty: Dishonesty) -> Result<Answer, CommandError>
    ensures text { IfOk result (λ answer. answer.text.items ≡ words.dishonest_line dishonesty) }
    ensures status { IfOk result (λ answer. answer.status ≡ Status.Broken) }
    ensures only { IfErr result (λ why. why ≡ CommandError.Memory) }
{
    let line = dishonest_line(alloc, dishonesty)?;
    Ok(broken_answer(line))
}

/// What is said of two of which the second is an opening: whether it is honest.
fn compare_premises(
    alloc: Global,
    one: &DeviceReplay,
    other: &DeviceReplay,
) -> Result<Answer, CommandError>
    ensures makes { (shift : Shift) (net : Network) (front plans : List Plan)
        (events others : List Event) → OpensFor shift net front plans one.now other.now events others
        → IsAllowed (IsCompared net front plans events others) result }
    ensures gives { IfOk result (λ answer. IsTrue
        (is_among (Status.Done ∷ Status.PlanRefused ∷ Status.InputRefused ∷ Status.Broken ∷ [])
        answer.status)) }
    ensures only { IfErr result (λ why. why ≡ CommandError.Memory) }
{
    match is_honest(one.premises(), other.premises()) {
        Ok(()) => agree_answer(alloc, count(one), count(other)),
        Err(dishonesty) => dishonest_answer(alloc, dishonesty),
    }
}

/// What is said of the two, of which the second leaves out this many plans.
pub(crate) fn compare(
    alloc: Global,
    one: &DeviceReplay,
    other: &DeviceReplay,
    left: u32,
) -> Result<Answer, CommandError>
    ensures makes { (net : Network) (front plans : List Plan) (events others : List Event)
        → length front ≡ left
        → HasPlayed one.now (whole net front plans) events
        → HasPlayed other.now (setting_over net plans) others
        → IsAllowed (IsCompared net front plans events others) result }
    ensures gives { IfOk result (λ answer. IsTrue
        (is_among (Status.Done ∷ Status.PlanRefused ∷ Status.InputRefused ∷ Status.Broken ∷ [])
        answer.status)) }
    ensures only { IfErr result (λ why. why ≡ CommandError.Memory) }
{
    let first = one.fleet();
    let second = other.fleet();
    let shift = propose(first, second, left);
    match agrees(first, second, &shift) {
        Ok(()) => compare_premises(alloc, one, other),
        Err(difference) => differ_answer(alloc, difference),
    }
}
