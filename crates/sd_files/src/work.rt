//! Texts that are read line by line: each line is accepted or refused after those before it, and
//! what is due for it is written before the next one is read.
ghost use Rattle.std.specs.Prelude.{◌≡◌, ◌≢◌, ◌≤◌, ℕ, List, [], length, Err, Ok, IfOk, IfSome, IsTrue};
ghost use Rattle.std.specs.List.{list_any};
ghost use Rattle.sd_io.specs.outside.Causes.{RisesFor};
ghost use Rattle.sd_files.specs.Statuses.{is_among};
ghost use Rattle.sd_files.specs.Writes.{Adds};
ghost use Rattle.sd_files.specs.declared.Status.{Status as AnyStatus};
ghost use Rattle.sd_files.specs.work.Works.{Work};
ghost use Rattle.sd_io.specs.stream.Windows.{EndsAt};
ghost use Rattle.sd_files.specs.work.Taking.{Takes, TakesFront};

mod drive;
mod progress;

use crate::{IoError, Status};
pub use drive::work_through;
use sd_io::outside::Sink;
use sd_num::NoMemory;
use std::alloc::Global;

/// What a line did.
#[derive(Clone, Copy, Debug, PartialEq, Eq)]
pub enum Taken {
    /// It was accepted, and what is written for it was printed.
    Accepted,
    /// It is refused, and the words that say why were printed.
    Refused,
}

/// Work that a text asks for, line by line: each line is accepted or refused after those before
/// it, and something is written for each that is accepted.
pub trait LineWork: Drop {
    /// What an accepted line gives.
    type Item;

    /// It does this work, and has taken lines that gave these, the newest first.
    ghost does: { Self → Work Self.Item → List Self.Item → Type 0 };

    /// What it printed last.
    ghost printing: { Self → List ℕ };

    /// The statuses at the end of a text that is not refused.
    ghost gives: { List AnyStatus };

    /// What the text is called where it is refused, in at most 64 bytes.
    fn name(&self) -> &str
        ensures name { (work : Work Self.Item) (xs : List Self.Item) → does self.now work xs
            → result.now ≡ work.name }
        ensures short { length result.now ≤ 64 };

    /// Takes the next line.
    fn take(&mut self, alloc: Global, line: &[u8]) -> Result<Taken, NoMemory>
        ensures takes { IfOk result (λ what. (work : Work Self.Item) (xs : List Self.Item)
            → does self.old work xs
            → Takes work xs line.now (does self.new work) (printing self.new) what) }
        ensures short { result ≡ Ok Taken.Refused → length (printing self.new) ≤ 64 };

    /// Takes the next line where it stands at the front of a text, if it can at once: a line that
    /// ends with a newline there and is accepted. It answers how many bytes the line has, or none
    /// where it took none. Then `take` is to take the line.
    fn take_front(&mut self, _alloc: Global, _text: &[u8]) -> Result<Option<usize>, NoMemory>
        ensures ends { IfOk result (λ found. IfSome found (λ len. EndsAt _text.now len)) }
        ensures takes { IfOk result (λ found. (work : Work Self.Item) (xs : List Self.Item)
            → does self.old work xs
            → TakesFront work xs _text.now (does self.new work) (printing self.new) found) }
    {
        Ok(None)
    }

    /// Whether a line that was accepted ends the text.
    fn ended(&self) -> bool
        ensures { (work : Work Self.Item) (xs : List Self.Item) → does self.now work xs
            → result ≡ list_any work.ends xs };

    /// Writes what is due at the end of the text, each step by one write, and answers the status.
    fn finish<O: Sink>(&mut self, alloc: Global, out: &mut O) -> Result<Status, IoError>
        ensures writes { (work : Work Self.Item) (xs : List Self.Item) → does self.old work xs
            → Adds (work.last_pieces xs) (O.written out.old) (O.written out.new) result }
        ensures status { IfOk result (λ status. (work : Work Self.Item) (xs : List Self.Item)
            → does self.old work xs → status ≡ work.last_status xs) }
        ensures gives { IfOk result (λ status. IsTrue (is_among gives status)) }
        ensures sink { RisesFor (result ≡ Err IoError.Sink) (O.faults out.old) (O.faults out.new) }
        ensures never_shelf { result ≢ Err IoError.Shelf };

    /// Lends what it printed last.
    fn printed(&self) -> &[u8]
        ensures { result.now ≡ printing self.now };
}
