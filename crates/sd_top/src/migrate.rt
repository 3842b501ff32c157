//! `migrate`: the same topology with version 2.
ghost use Rattle.std.specs.Prelude.{◌≡◌, [], ◌∷◌, Err, IsTrue, IfErr, IfSome};
ghost use Rattle.sd_io.specs.outside.Shelves.{KeepsShelf};
ghost use Rattle.sd_plan.specs.topo.Topologies.{network};
ghost use Rattle.sd_files.specs.Texts.{texts_of};
ghost use Rattle.sd_files.specs.Writes.{IsAllowed};
ghost use Rattle.sd_top.specs.Gives.{GivesAmong};
ghost use Rattle.sd_top.specs.Migration.{IsMigrated, IsMigration};

use sd_files::{Answer, CommandError, Status, load_topology};
use sd_io::outside::Shelf;
use sd_plan::topo::Topology;
use sd_topotext::topology_text;
use std::alloc::Global;

/// Makes the text of the same topology with version 2.
pub fn migrate<S: Shelf>(
    alloc: Global,
    shelf: &mut S,
    topology: &str,
) -> Result<Answer, CommandError>
    requires { IsTrue (S.serves shelf.old topology.now) }
    ensures makes { IfSome (S.held shelf.old)
        (λ held. IsAllowed (IsMigration (texts_of held topology.now)) result) }
    ensures gives { GivesAmong (Status.Done ∷ Status.InputRefused ∷ []) result }
    ensures shelf { KeepsShelf S.Shelf (result ≡ Err CommandError.Shelf) shelf.old shelf.new }
{
    let topo = load_topology(alloc, shelf, topology)?;
    migrated(alloc, &topo)
}

/// The text of a topology with version 2, which is lent and so dropped in one place, as in `check`.
fn migrated(alloc: Global, topo: &Topology) -> Result<Answer, CommandError>
    ensures makes { IsAllowed (IsMigrated (network topo.now)) result }
    ensures gives { GivesAmong (Status.Done ∷ Status.InputRefused ∷ []) result }
    ensures only { IfErr result (λ why. why ≡ CommandError.Memory) }
{
    let text = topology_text(alloc, topo)?;
    Ok(Answer {
        text,
        status: Status::Done,
    })
}
