//! The line of a case.
ghost use Rattle.std.specs.Prelude.{◌≡◌, ◌∷◌, [], IsTrue, IfErr, IfOk, string_bytes};
ghost use Rattle.sd_files.specs.Statuses.{is_among};
ghost use Rattle.sd_files.specs.Writes.{IsAllowed};
ghost use Rattle.sd_gen.specs.command.Cases as words;

use sd_files::{Answer, CommandError, Status};
use sd_replay::Tally;
use std::alloc::{AllocError, Global};

/// The line of a tally: events, reports, the greatest uncertainty, broken lines and alarms.
fn tally_line(alloc: Global, tally: Tally) -> Result<String, AllocError>
    ensures { IfOk result (λ line. string_bytes line ≡ words.tally_line tally) }
{
    let Tally {
        events,
        reports,
        broken,
        alarms,
        greatest_eps,
    } = tally;
    let line = format!(in alloc; "case {events} {reports} {greatest_eps} {broken} {alarms}\n")?;
    Ok(line)
}

/// The status of a replay that has ended.
fn tally_status(tally: Tally) -> Status
    ensures is { result ≡ words.tally_status tally }
    ensures gives { IsTrue (is_among (Status.Done ∷ Status.Broken ∷ []) result) }
{
    if tally.broken > 0 || tally.alarms > 0 {
        Status::Broken
    } else {
        Status::Done
    }
}

/// The line of a tally, with its status.
pub(crate) fn tally_answer(alloc: Global, tally: Tally) -> Result<Answer, CommandError>
    ensures makes { IsAllowed (words.IsTallied tally) result }
    ensures only { IfErr result (λ why. why ≡ CommandError.Memory) }
    ensures gives { IfOk result
        (λ answer. IsTrue (is_among (Status.Done ∷ Status.Broken ∷ []) answer.status)) }
{
    let line = tally_line(alloc, tally)?;
    Ok(Answer {
        text: line.into_bytes(),
        status: tally_status(tally),
    })
}
