//! The work that a text of exchanges asks for, line by line.
ghost use Rattle.std.specs.Prelude.{◌≡◌, [], IfOk};
ghost use Rattle.sd_plan.specs.topo.Topologies.{network};
ghost use Rattle.sd_commands.specs.twoway.Doing.{IsExchanges};
ghost use Rattle.sd_commands.specs.twoway.Twoways.{twoway_work};

use crate::exchanges::ExchangeLine;
use crate::twoway::reasons::print_reason;
use crate::twoway::state::Exchanges;
use crate::twoway::tally::Tally;
use crate::twoway::writing::write_bounds;
use sd_files::work::{LineWork, Taken};
use sd_files::{IoError, Status};
use sd_io::outside::{LineBuffer, Sink};
use sd_num::NoMemory;
use sd_plan::topo::Topology;
use std::alloc::Global;

impl Exchanges<'_> {
    /// No line was taken. All memory is taken here: a place for each link, and one for a line.
    pub fn new(alloc: Global, topo: &Topology) -> Result<Exchanges<'_>, NoMemory>
        ensures { IfOk result
            (λ exchanges. IsExchanges exchanges (twoway_work (network topo.now)) []) }
    {
        let tally = Tally::new(alloc, topo)?;
        let line = LineBuffer::new(alloc)?;
        Ok(Exchanges { topo, tally, line })
    }
}

impl LineWork for Exchanges<'_> {
    ghost use Rattle.std.specs.Prelude.{[], ◌∷◌};
    ghost use Rattle.sd_io.specs.outside.Printed.{printed as bytes_in};
    ghost use Rattle.sd_files.specs.declared.Status.TheVariants.{Done};
    ghost use Rattle.sd_commands.specs.twoway.Doing.{IsExchanges};

    type Item = ExchangeLine;

    ghost does = { IsExchanges };

    ghost printing = { λ exchanges. bytes_in exchanges.line };

    ghost gives = { Done ∷ [] };

    fn name(&self) -> &str {
        "exchanges"
    }

    /// Where the count of lines is full there is no room for one more; that is never reached.
    fn take(&mut self, _alloc: Global, line: &[u8]) -> Result<Taken, NoMemory> {
        if self.tally.lines == u64::MAX {
            return Err(NoMemory);
        }
        match self.tally.take(self.topo, line) {
            Ok(()) => {
                self.line.clear();
                Ok(Taken::Accepted)
            }
            Err(fault) => {
                print_reason(&mut self.line, fault);
                Ok(Taken::Refused)
            }
        }
    }

    fn ended(&self) -> bool {
        self.tally.ended
    }

    fn finish<O: Sink>(&mut self, _alloc: Global, out: &mut O) -> Result<Status, IoError> {
        write_bounds(&mut self.line, self.topo, &self.tally, out)?;
        Ok(Status::Done)
    }

    fn printed(&self) -> &[u8] {
        self.line.printed()
    }
}
