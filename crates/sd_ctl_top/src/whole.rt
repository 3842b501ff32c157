//! `search`: a plan of a topology with all that there is.
ghost use Rattle.std.specs.Prelude.{◌≡◌, [], ◌∷◌, None, Err, IsTrue, IfErr, IfOk, IfSome};
ghost use Rattle.sd_io.specs.outside.Shelves.{KeepsShelf};
ghost use Rattle.sd_files.specs.Statuses.{is_among};
ghost use Rattle.sd_files.specs.Texts.{texts_of};
ghost use Rattle.sd_files.specs.Writes.{IsAllowed};
ghost use Rattle.sd_drill.specs.Budgets.{IsBudget};
ghost use Rattle.sd_ctl_top.specs.Findings.{IsFinding, IsSearch};
ghost use Rattle.sd_plan.specs.topo.Topologies.{network};

use crate::finding::finding;
use sd_files::{Answer, CommandError, Status, load_topology};
use sd_io::outside::Shelf;
use sd_plan::topo::Topology;
use sd_plan::{Absent, DeviceList};
use sd_search::Settings;
use std::alloc::Global;

/// Makes the text of a plan that is searched for over a topology.
pub(crate) fn whole_answer<S: Shelf>(
    alloc: Global,
    shelf: &mut S,
    topology: &str,
    settings: Settings,
) -> Result<Answer, CommandError>
    requires topology { IsTrue (S.serves shelf.old topology.now) }
    requires budget { IsBudget settings.budget }
    ensures makes { IfSome (S.held shelf.old)
        (λ held. IsAllowed (IsSearch settings.budget (texts_of held topology.now)) result) }
    ensures gives { IfOk result (λ answer. IsTrue
        (is_among (Status.Done ∷ Status.PlanRefused ∷ Status.InputRefused ∷ []) answer.status)) }
    ensures shelf { KeepsShelf S.Shelf (result ≡ Err CommandError.Shelf) shelf.old shelf.new }
{
    let topo = load_topology(alloc, shelf, topology)?;
    search_whole(alloc, &topo, settings)
}

/// The same over a topology that is lent, and so dropped in one place.
fn search_whole(alloc: Global, topo: &Topology, settings: Settings) -> Result<Answer, CommandError>
    requires budget { IsBudget settings.budget }
    ensures makes { IsAllowed (IsFinding (network topo.now) (record { devices = []; links = [] })
        None settings.budget) result }
    ensures gives { IfOk result (λ answer. IsTrue
        (is_among (Status.Done ∷ Status.PlanRefused ∷ Status.InputRefused ∷ []) answer.status)) }
    ensures only { IfErr result (λ why. why ≡ CommandError.Memory) }
{
    let absent = Absent {
        devices: DeviceList::new(alloc),
        links: DeviceList::new(alloc),
    };
    finding(alloc, topo, &absent, None, settings)
}
