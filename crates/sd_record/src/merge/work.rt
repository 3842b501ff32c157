//! The lines of a feed, as a work over a text: what each has settled is written before the next one
//! is read.
ghost use Rattle.std.specs.Prelude.{◌≡◌, Err, IfErr};
ghost use Rattle.sd_io.specs.outside.Causes.{RisesFor};
ghost use Rattle.sd_io.specs.outside.Pieces.{piece_of};
ghost use Rattle.sd_files.specs.Writes.{Adds};

use crate::merge::feed::print_fault;
use crate::merge::merger::{Merger, add_bytes, grow, settle};
use sd_files::work::{LineWork, Taken};
use sd_files::{IoError, Status, send};
use sd_io::outside::Sink;
use sd_num::NoMemory;
use std::alloc::Global;
use std::marker::Model;

/// What a line of a feed says. It is there for what is said of a work: none is ever made.
#[derive(Drop)]
pub struct FeedLine {
    log: usize,
    reference: u64,
    entry: Option<Vec<u8>>,
}

impl Model for FeedLine {
    ghost use Rattle.std.specs.Option.{option_map};
    ghost use Rattle.sd_record.specs.merge.Growing.{Said};

    ghost Value = { Said };

    ghost view = { λ l. record {
      log = l.log;
      reference = l.reference;
      entry = option_map (λ bytes. bytes.items) l.entry;
    } };
}

/// Writes bytes by one write, if there are any.
fn send_all<O: Sink>(out: &mut O, bytes: &[u8]) -> Result<(), IoError>
    ensures writes { Adds (piece_of bytes.now) (O.written out.old) (O.written out.new) result }
    ensures sink { RisesFor (result ≡ Err IoError.Sink) (O.faults out.old) (O.faults out.new) }
    ensures only { IfErr result (λ why. why ≡ IoError.Sink) }
{
    if bytes.is_empty() {
        return Ok(());
    }
    send(out, bytes)
}

impl LineWork for Merger {
    ghost use Rattle.std.specs.Prelude.{[], ◌∷◌};
    ghost use Rattle.sd_files.specs.declared.Status.TheVariants.{Done};
    ghost use Rattle.sd_record.specs.merge.Doing.{DoesMerge};

    type Item = FeedLine;

    ghost does = { DoesMerge };

    ghost printing = { λ m. m.text.items };

    ghost gives = { Done ∷ [] };

    fn name(&self) -> &str {
        "feed"
    }

    fn take(&mut self, alloc: Global, line: &[u8]) -> Result<Taken, NoMemory> {
        self.text.clear();
        match grow(alloc, &mut self.logs, line)? {
            Some(fault) => {
                print_fault(&mut self.line, fault);
                add_bytes(&mut self.text, self.line.printed())?;
                Ok(Taken::Refused)
            }
            None => {
                settle(&mut self.logs, &mut self.text)?;
                self.begun = true;
                Ok(Taken::Accepted)
            }
        }
    }

    fn ended(&self) -> bool {
        self.begun
    }

    fn finish<O: Sink>(&mut self, _alloc: Global, out: &mut O) -> Result<Status, IoError> {
        self.text.clear();
        self.logs.end_all()?;
        settle(&mut self.logs, &mut self.text)?;
        match send_all(out, self.text.as_slice()) {
            Ok(()) => Ok(Status::Done),
            Err(_) => Err(IoError::Sink),
        }
    }

    fn printed(&self) -> &[u8] {
        self.text.as_slice()
    }
}
