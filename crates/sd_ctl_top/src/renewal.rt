//! `renew`: a plan that goes on from an old one, without what is absent.
ghost use Rattle.std.specs.Prelude.{◌≡◌, [], ◌∷◌, Some, Err, IsTrue, IfErr, IfOk, IfSome};
ghost use Rattle.sd_num.specs.Lists.{ascends};
ghost use Rattle.sd_io.specs.outside.Shelves.{KeepsShelf};
ghost use Rattle.sd_files.specs.Answering.{After};
ghost use Rattle.sd_files.specs.Inputs.{absent_in_file, plan_in_file};
ghost use Rattle.sd_files.specs.Statuses.{is_among};
ghost use Rattle.sd_files.specs.Texts.{texts_of};
ghost use Rattle.sd_files.specs.Writes.{IsAllowed};
ghost use Rattle.sd_drill.specs.Budgets.{IsBudget};
ghost use Rattle.sd_ctl_top.specs.Findings as findings;
ghost use Rattle.sd_ctl_top.specs.Findings.{IsFinding, IsRenewing};
ghost use Rattle.sd_plan.specs.topo.Topologies.{network};

use crate::finding::finding;
use sd_files::{Answer, CommandError, Status, load_absent, load_plan, load_topology};
use sd_io::outside::Shelf;
use sd_num::contains;
use sd_plan::topo::Topology;
use sd_plan::{Absent, Plan};
use sd_search::Settings;
use std::alloc::Global;

/// The files of a renewal, by their names.
#[derive(Clone, Copy)]
pub(crate) struct RenewalFiles<'w> {
    pub topology: &'w str,
    pub plan: &'w str,
    pub absent: &'w str,
}

/// Makes the text of a plan that goes on from the plan of a file.
pub(crate) fn renewal_answer<S: Shelf>(
    alloc: Global,
    shelf: &mut S,
    files: RenewalFiles<'_>,
    settings: Settings,
) -> Result<Answer, CommandError>
    requires topology { IsTrue (S.serves shelf.old files.topology.now) }
    requires plan { IsTrue (S.serves shelf.old files.plan.now) }
    requires absent { IsTrue (S.serves shelf.old files.absent.now) }
    requires budget { IsBudget settings.budget }
    ensures makes { IfSome (S.held shelf.old)
        (λ held. IsAllowed
        (IsRenewing settings.budget (texts_of held files.entry.topology.now)
        (texts_of held files.entry.plan.now) (texts_of held files.entry.absent.now)) result) }
    ensures gives { IfOk result (λ answer. IsTrue
        (is_among (Status.Done ∷ Status.PlanRefused ∷ Status.InputRefused ∷ []) answer.status)) }
    ensures shelf { KeepsShelf S.Shelf (result ≡ Err CommandError.Shelf) shelf.old shelf.new }
{
    let topo = load_topology(alloc, shelf, files.topology)?;
    renew_over(alloc, shelf, &topo, files, settings)
}

/// The same over a topology that is lent, and so dropped in one place.
fn renew_over<S: Shelf>(
    alloc: Global,
    shelf: &mut S,
    topo: &Topology,
    files: RenewalFiles<'_>,
    settings: Settings,
) -> Result<Answer, CommandError>
    requires plan { IsTrue (S.serves shelf.old files.plan.now) }
    requires absent { IsTrue (S.serves shelf.old files.absent.now) }
    requires budget { IsBudget settings.budget }
    ensures makes { IfSome (S.held shelf.old)
        (λ held. IsAllowed
        (After (plan_in_file (network topo.now) 1 (texts_of held files.entry.plan.now))
        (λ old. After (absent_in_file (network topo.now) (texts_of held files.entry.absent.now))
        (λ left. IsFinding (network topo.now) left (Some (findings.root_after old left))
        settings.budget))) result) }
    ensures gives { IfOk result (λ answer. IsTrue
        (is_among (Status.Done ∷ Status.PlanRefused ∷ Status.InputRefused ∷ []) answer.status)) }
    ensures shelf { KeepsShelf S.Shelf (result ≡ Err CommandError.Shelf) shelf.old shelf.new }
{
    let old = load_plan(alloc, shelf, files.plan, topo, 1)?;
    let absent = load_absent(alloc, shelf, files.absent, topo)?;
    finding(
        alloc,
        topo,
        &absent,
        Some(root_after(&old, &absent)),
        settings,
    )
}

/// The root that goes on: the old one unless it is absent, and then the backup root.
fn root_after(plan: &Plan, absent: &Absent) -> u32
    requires { IsTrue (ascends absent.now.devices) }
    ensures { result ≡ findings.root_after plan.now absent.now }
{
    if !contains(absent.devices.as_slice(), plan.root) {
        plan.root
    } else {
        plan.backup_root
    }
}
