//! A work on its way, and what is written for it.
ghost use Rattle.std.specs.Prelude.{◌≡◌, ◌≢◌, ◌≤◌, ◌<◌, ◌+◌, ◌∷◌, ◌^◌, [], ℕ, List, None, Ok, Err, IfOk, IfSome, codes, decimal, length, IsTrue};
ghost use Rattle.sd_num.specs.Texts.{text_of};
ghost use Rattle.sd_io.specs.outside.Causes.{RisesFor};
ghost use Rattle.sd_io.specs.outside.Pieces.{Pieces, piece_of};
ghost use Rattle.sd_files.specs.Statuses.{is_among};
ghost use Rattle.sd_files.specs.Writes.{Adds};
ghost use Rattle.sd_files.specs.work.Works.{Work, refused_line};
ghost use Rattle.sd_files.specs.work.Steps.{Last, end_step, step_for, step_pieces};
ghost use Rattle.sd_files.specs.work.Comes.{HasMadeStep};
ghost use Rattle.sd_files.specs.work.Progresses.{HasAccepted};

use crate::work::{LineWork, Taken};
use crate::{IoError, Status, send};
use sd_io::outside::{LineBuffer, Sink};
use std::alloc::Global;

/// Why a text is refused at one of its lines.
#[derive(Clone, Copy)]
struct Refusal<'r> {
    /// What the text is called.
    name: &'r str,
    /// The number of the line, from 1.
    number: u64,
    why: &'r [u8],
}

/// Writes that a text is refused at a line.
fn write_refusal<O: Sink>(
    line: &mut LineBuffer,
    refusal: Refusal<'_>,
    out: &mut O,
) -> Result<Status, IoError>
    requires name { length refusal.name.now ≤ 64 }
    requires why { length refusal.why.now ≤ 64 }
    ensures writes { Adds (piece_of (text_of
        (codes "input" ∷ refusal.entry.name.now ∷ decimal
        refusal.entry.number ∷ refusal.entry.why.now ∷ []))) (O.written out.old)
        (O.written out.new) result }
    ensures status { IfOk result (λ status. status ≡ Status.InputRefused) }
    ensures sink { RisesFor (result ≡ Err IoError.Sink) (O.faults out.old) (O.faults out.new) }
    ensures never_shelf { result ≢ Err IoError.Shelf }
{
    line.clear();
    line.push(b"input ");
    line.push(refusal.name.as_bytes());
    line.push(b" ");
    line.push_number(u128::from(refusal.number));
    line.push(b" ");
    line.push(refusal.why);
    line.push(b"\n");
    send(out, line.printed())?;
    Ok(Status::InputRefused)
}

/// A work, and how many lines it has accepted.
#[derive(Drop)]
pub struct Progress<W> {
    pub work: W,
    pub taken: u64,
    /// Where a refusal is printed.
    pub line: LineBuffer,
}

impl<W: LineWork> Progress<W> {
    /// Has the work take a line, and writes what is due for it. It answers the status where the
    /// line is refused.
    pub fn take_line<O: Sink>(
        &mut self,
        alloc: Global,
        line: &[u8],
        out: &mut O,
    ) -> Result<Option<Status>, IoError>
        requires more { self.old.taken < 2 ^ 63 }
        ensures makes { (w : Work W.Item) (xs : List W.Item) → HasAccepted W.LineWork self.old w xs
            → HasMadeStep (step_for w xs (w.says xs line.now)) xs
            (HasAccepted W.LineWork self.new w) result }
        ensures writes { (w : Work W.Item) (xs : List W.Item) → HasAccepted W.LineWork self.old w xs
            → Adds (step_pieces w xs (step_for w xs (w.says xs line.now))) (O.written out.old)
            (O.written out.new) result }
        ensures counts { result ≡ Ok None → self.new.taken ≡ self.old.taken + 1 }
        ensures gives { IfOk result
            (λ last. IfSome last (λ status. status ≡ Status.InputRefused)) }
        ensures sink { RisesFor (result ≡ Err IoError.Sink) (O.faults out.old) (O.faults out.new) }
        ensures never_shelf { result ≢ Err IoError.Shelf }
    {
        match self.work.take(alloc, line) {
            Ok(Taken::Accepted) => {
                self.write_accepted(out)?;
                Ok(None)
            }
            Ok(Taken::Refused) => Ok(Some(self.refuse(out)?)),
            Err(_) => Err(IoError::Memory),
        }
    }

    /// Writes what is due for a line that was accepted, by one write, if it is anything.
    pub fn write_accepted<O: Sink>(&mut self, out: &mut O) -> Result<(), IoError>
        requires more { self.old.taken < 2 ^ 63 }
        ensures writes { Adds (piece_of (W.printing self.old.work)) (O.written out.old)
            (O.written out.new)
            result }
        ensures same { self.new.work ≡ self.old.work }
        ensures counts { self.new.taken ≡ self.old.taken + 1 }
        ensures sink { RisesFor (result ≡ Err IoError.Sink) (O.faults out.old) (O.faults out.new) }
        ensures never_shelf { result ≢ Err IoError.Shelf }
    {
        self.taken += 1;
        let printed = self.work.printed();
        if printed.is_empty() {
            return Ok(());
        }
        send(out, printed)
    }

    /// Writes that the text is refused at its next line, for the reason that the work has printed.
    fn refuse<O: Sink>(&mut self, out: &mut O) -> Result<Status, IoError>
        requires more { self.old.taken < 2 ^ 63 }
        requires short { length (W.printing self.old.work) ≤ 64 }
        ensures writes { (w : Work W.Item) (xs : List W.Item) → HasAccepted W.LineWork self.old w xs
            → Adds (piece_of (refused_line w (length xs + 1) (W.printing self.old.work)))
            (O.written out.old) (O.written out.new) result }
        ensures status { IfOk result (λ status. status ≡ Status.InputRefused) }
        ensures same { self.new.work ≡ self.old.work }
        ensures sink { RisesFor (result ≡ Err IoError.Sink) (O.faults out.old) (O.faults out.new) }
        ensures never_shelf { result ≢ Err IoError.Shelf }
    {
        let refusal = Refusal {
            name: self.work.name(),
            number: self.taken + 1,
            why: self.work.printed(),
        };
        write_refusal(&mut self.line, refusal, out)
    }

    /// Writes that the text is refused at its next line, for this reason.
    pub fn refuse_for<O: Sink>(&mut self, why: &[u8], out: &mut O) -> Result<Status, IoError>
        requires more { self.old.taken < 2 ^ 63 }
        requires short { length why.now ≤ 64 }
        ensures writes { (w : Work W.Item) (xs : List W.Item) → HasAccepted W.LineWork self.old w xs
            → Adds (piece_of (refused_line w (length xs + 1) why.now)) (O.written out.old)
            (O.written out.new) result }
        ensures status { IfOk result (λ status. status ≡ Status.InputRefused) }
        ensures same { self.new.work ≡ self.old.work }
        ensures sink { RisesFor (result ≡ Err IoError.Sink) (O.faults out.old) (O.faults out.new) }
        ensures never_shelf { result ≢ Err IoError.Shelf }
    {
        let refusal = Refusal {
            name: self.work.name(),
            number: self.taken + 1,
            why,
        };
        write_refusal(&mut self.line, refusal, out)
    }

    /// Writes what is due at the end of the text.
    pub fn finish<O: Sink>(&mut self, alloc: Global, out: &mut O) -> Result<Status, IoError>
        requires more { self.old.taken < 2 ^ 63 }
        ensures writes { (w : Work W.Item) (xs : List W.Item) → HasAccepted W.LineWork self.old w xs
            → Adds (step_pieces w xs (end_step w xs)) (O.written out.old)
            (O.written out.new) result }
        ensures makes { (w : Work W.Item) (xs : List W.Item) → HasAccepted W.LineWork self.old w xs
            → IfOk result (λ status. (pieces : Pieces) × (end_step w xs ≡ Last pieces status)) }
        ensures gives { IfOk result
            (λ status. IsTrue (is_among (Status.InputRefused ∷ W.gives) status)) }
        ensures sink { RisesFor (result ≡ Err IoError.Sink) (O.faults out.old) (O.faults out.new) }
        ensures never_shelf { result ≢ Err IoError.Shelf }
    {
        if !self.work.ended() {
            return self.refuse_for(b"NoEnd", out);
        }
        self.work.finish(alloc, out)
    }
}
