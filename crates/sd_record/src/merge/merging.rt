//! A feed of logs that is merged line by line.
ghost use Rattle.std.specs.Prelude.{◌≡◌, [], ◌∷◌, ℕ, List, true, Err, IsTrue, IfOk, IfSome};
ghost use Rattle.sd_io.specs.outside.Causes.{RisesFor};
ghost use Rattle.sd_io.specs.outside.Shelves.{KeepsShelf};
ghost use Rattle.sd_files.specs.Answering.{InWrites};
ghost use Rattle.sd_files.specs.Statuses.{is_among};
ghost use Rattle.sd_files.specs.Texts.{texts_of};
ghost use Rattle.sd_files.specs.work.Ending.{LeavesAt};
ghost use Rattle.sd_files.specs.work.WholeLines.{WritesWhole};
ghost use Rattle.sd_files.specs.work.Works.{InSteps, IsOutcome, Work};
ghost use Rattle.sd_record.specs.merge.Doing.{DoesMerge};
ghost use Rattle.sd_record.specs.merge.Growing.{Said};
ghost use Rattle.sd_record.specs.merge.Laws.{FeedIsMerged};
ghost use Rattle.sd_record.specs.merge.Works.{IsMerging};

use crate::merge::merger::Merger;
use sd_files::work::work_through;
use sd_files::{IoError, Status};
use sd_io::outside::{Shelf, Sink};
use std::alloc::Global;

/// Begins a feed, and has a merger take it line by line.
fn go_through<S: Shelf, O: Sink>(
    alloc: Global,
    shelf: &mut S,
    feed: &str,
    work: Merger,
    out: &mut O,
) -> Result<Status, IoError>
    requires { IsTrue (S.serves shelf.old feed.now) }
    ensures outcome { (w : Work Said) → DoesMerge work w [] → WritesWhole w
        → IfSome (S.held shelf.old)
        (λ held. LeavesAt true
        (InWrites (InSteps w (texts_of held feed.now)) (IsOutcome w (texts_of held feed.now)))
        (O.written out.old) (O.written out.new) result) }
    ensures gives { IfOk result
        (λ status. IsTrue (is_among (Status.InputRefused ∷ Status.Done ∷ []) status)) }
    ensures shelf { KeepsShelf S.Shelf (result ≡ Err IoError.Shelf) shelf.old shelf.new }
    ensures sink { RisesFor (result ≡ Err IoError.Sink) (O.faults out.old) (O.faults out.new) }
{
    match shelf.begin(feed) {
        Ok(()) => work_through(alloc, shelf, work, out),
        Err(_) => Err(IoError::Shelf),
    }
}

/// Merges logs by a feed that tells how they grow: the lines of logs that each of its lines settles
/// are written before the next one is read, and at its end those that wait.
pub fn merge_feed<S: Shelf, O: Sink>(
    alloc: Global,
    shelf: &mut S,
    count: usize,
    feed: &str,
    out: &mut O,
) -> Result<Status, IoError>
    requires feed { IsTrue (S.serves shelf.old feed.now) }
    ensures outcome { IfSome (S.held shelf.old)
        (λ held. LeavesAt true (IsMerging count (texts_of held feed.now))
        (O.written out.old) (O.written out.new) result) }
    // What is written for its lines leads the merge of the logs, however they go on, and all that
    // is written of a feed that is not refused is that merge.
    ensures merged { FeedIsMerged count }
    ensures gives { IfOk result
        (λ status. IsTrue (is_among (Status.InputRefused ∷ Status.Done ∷ []) status)) }
    ensures shelf { KeepsShelf S.Shelf (result ≡ Err IoError.Shelf) shelf.old shelf.new }
    ensures sink { RisesFor (result ≡ Err IoError.Sink) (O.faults out.old) (O.faults out.new) }
{
    let work = Merger::new(alloc, count)?;
    go_through(alloc, shelf, feed, work, out)
}
