//! `twoway`: bounds on the delays of links, from recorded exchanges.
ghost use Rattle.std.specs.Prelude.{◌≡◌, ◌≤◌, [], ◌∷◌, true, Err, Ok, IsTrue, IfOk, IfSome, Some};
ghost use Rattle.sd_io.specs.outside.Causes.{RisesFor};
ghost use Rattle.sd_io.specs.outside.Shelves.{KeepsShelf};
ghost use Rattle.sd_io.specs.stream.Reader.{IsNear};
ghost use Rattle.sd_plan.specs.topo.Topologies.{network};
ghost use Rattle.sd_files.specs.Answering.{InWrites};
ghost use Rattle.sd_files.specs.Inputs.{topology_of};
ghost use Rattle.sd_files.specs.Statuses.{is_among};
ghost use Rattle.sd_files.specs.Texts.{texts_of};
ghost use Rattle.sd_files.specs.work.Ending.{LeavesAt};
ghost use Rattle.sd_files.specs.work.Works.{InSteps, IsOutcome, refused_part};
ghost use Rattle.sd_commands.specs.twoway.Twoways.{twoway_work};
ghost use Rattle.sd_top.specs.Twoways.{refused_over};
ghost use Rattle.sd_top.specs.TwowayWrites.{TwowayIn};

use sd_commands::twoway::Exchanges;
use sd_files::work::work_through;
use sd_files::{IoError, Status, load_topology, write_answer};
use sd_io::outside::{Shelf, Sink};
use sd_plan::topo::Topology;
use std::alloc::Global;

/// Reads a topology and then a text of exchanges line by line, and writes the bounds of the links.
pub fn twoway<S: Shelf, O: Sink>(
    alloc: Global,
    shelf: &mut S,
    topology: &str,
    exchanges: &str,
    out: &mut O,
) -> Result<Status, IoError>
    requires topology { IsTrue (S.serves shelf.old topology.now) }
    requires exchanges { IsTrue (S.serves shelf.old exchanges.now) }
    ensures outcome { IfSome (S.held shelf.old)
        (λ held. LeavesAt true (TwowayIn (texts_of held topology.now) (texts_of held exchanges.now))
        (O.written out.old) (O.written out.new) result) }
    ensures gives { IfOk result
        (λ status. IsTrue (is_among (Status.Done ∷ Status.InputRefused ∷ []) status)) }
    ensures near { result ≡ Ok Status.InputRefused → IfSome (S.held shelf.old) (λ held.
        IfSome (refused_over (topology_of (texts_of held topology.now))
        (texts_of held exchanges.now)) (λ part. IsNear (Some part) (S.rest shelf.new))) }
    ensures shelf { KeepsShelf S.Shelf (result ≡ Err IoError.Shelf) shelf.old shelf.new }
    ensures sink { RisesFor (result ≡ Err IoError.Sink) (O.faults out.old) (O.faults out.new) }
{
    match load_topology(alloc, shelf, topology) {
        Ok(topo) => twoway_over(alloc, shelf, &topo, exchanges, out),
        Err(ended) => write_answer(alloc, &Err(ended), out),
    }
}

/// The same over a topology that is lent, and so dropped in one place, as in `check`.
fn twoway_over<S: Shelf, O: Sink>(
    alloc: Global,
    shelf: &mut S,
    topo: &Topology,
    exchanges: &str,
    out: &mut O,
) -> Result<Status, IoError>
    requires { IsTrue (S.serves shelf.old exchanges.now) }
    ensures outcome { IfSome (S.held shelf.old)
        (λ held. LeavesAt true
        (InWrites (InSteps (twoway_work (network topo.now)) (texts_of held exchanges.now))
        (IsOutcome (twoway_work (network topo.now)) (texts_of held exchanges.now)))
        (O.written out.old) (O.written out.new) result) }
    ensures gives { IfOk result
        (λ status. IsTrue (is_among (Status.Done ∷ Status.InputRefused ∷ []) status)) }
    ensures near { result ≡ Ok Status.InputRefused
        → IfSome (S.held shelf.old)
        (λ held. IsNear
        (Some (refused_part (twoway_work (network topo.now)) (texts_of held exchanges.now)))
        (S.rest shelf.new)) }
    ensures shelf { KeepsShelf S.Shelf (result ≡ Err IoError.Shelf) shelf.old shelf.new }
    ensures sink { RisesFor (result ≡ Err IoError.Sink) (O.faults out.old) (O.faults out.new) }
{
    match shelf.begin(exchanges) {
        Ok(()) => bound_links(alloc, shelf, topo, out),
        Err(_) => Err(IoError::Shelf),
    }
}

/// Reads the begun exchanges over a topology line by line, and writes the bounds of its links. All
/// its memory is taken at the start.
fn bound_links<S: Shelf, O: Sink>(
    alloc: Global,
    shelf: &mut S,
    topo: &Topology,
    out: &mut O,
) -> Result<Status, IoError>
    requires { IsTrue (S.begun shelf.old) }
    ensures outcome { IfSome (S.rest shelf.old)
        (λ text. LeavesAt true (InWrites (InSteps (twoway_work (network topo.now)) text)
        (IsOutcome (twoway_work (network topo.now)) text)) (O.written out.old)
        (O.written out.new) result) }
    ensures gives { IfOk result
        (λ status. IsTrue (is_among (Status.Done ∷ Status.InputRefused ∷ []) status)) }
    ensures near { result ≡ Ok Status.InputRefused
        → IfSome (S.rest shelf.old)
        (λ text. IsNear (Some (refused_part (twoway_work (network topo.now)) text))
        (S.rest shelf.new)) }
    ensures shelf { KeepsShelf S.Shelf (result ≡ Err IoError.Shelf) shelf.old shelf.new }
    ensures sink { RisesFor (result ≡ Err IoError.Sink) (O.faults out.old) (O.faults out.new) }
{
    let work = match Exchanges::new(alloc, topo) {
        Ok(work) => work,
        Err(_) => return Err(IoError::Memory),
    };
    work_through(alloc, shelf, work, out)
}
