//! What is kept of the lines of an exchanges text.
ghost use Rattle.std.specs.Prelude.{◌≡◌, ◌+◌, ◌-◌, ◌<◌, ◌≤◌, ◌^◌, List, [], IfOk};
ghost use Rattle.sd_plan.specs.topo.Topologies.{network};
ghost use Rattle.sd_commands.specs.declared.exchanges.ExchangeLine.{ExchangeLine as Line};
ghost use Rattle.sd_commands.specs.declared.exchanges.ExchangeLine.TheVariants.{Exchange as Exchanged};
ghost use Rattle.sd_commands.specs.twoway.Judged.{exchange_said, over_network};
ghost use Rattle.sd_commands.specs.twoway.Tallies.{Fits, StandsFor, Takes};

use crate::exchanges::bounds::span_over;
use crate::exchanges::{Exchange, ExchangeLine, Spans, read_exchange};
use crate::twoway::TwowayFault;
use sd_num::NoMemory;
use sd_plan::topo::Topology;
use std::alloc::Global;

/// The joined spans of the lines that were taken, and how many lines these are.
#[derive(Drop)]
pub struct Tally {
    pub spans: Spans,
    pub lines: u64,
    /// Whether an `end` was among them.
    pub ended: bool,
}

impl Tally {
    /// No line was taken.
    pub fn new(alloc: Global, topo: &Topology) -> Result<Tally, NoMemory>
        ensures fits { IfOk result (Fits (network topo.now)) }
        ensures stands { IfOk result (λ tally. StandsFor (network topo.now) tally []) }
        ensures lines { IfOk result (λ tally. tally.lines ≡ 0) }
    {
        let spans = Spans::new(alloc, topo.links())?;
        Ok(Tally {
            spans,
            lines: 0,
            ended: false,
        })
    }

    /// Takes a line, unless it is refused.
    pub fn take(&mut self, topo: &Topology, line: &[u8]) -> Result<(), TwowayFault>
        requires fits { Fits (network topo.now) self.old }
        requires lines { self.old.lines < 2 ^ 64 - 1 }
        ensures fits { Fits (network topo.now) self.new }
        ensures lines { self.new.lines ≤ self.old.lines + 1 }
        ensures takes { (taken : List Line) → StandsFor (network topo.now) self.old taken
            → Takes (exchange_said (network topo.now) taken line.now)
            (network topo.now) taken self.new result }
    {
        let said = match read_exchange(line) {
            Ok(said) => said,
            Err(fault) => return Err(TwowayFault::Line(fault)),
        };
        if self.ended {
            return Err(TwowayFault::AfterEnd);
        }
        match said {
            ExchangeLine::Exchange {
                link,
                side,
                exchange,
            } => self.take_exchange(topo, link, side, exchange),
            ExchangeLine::End => {
                self.lines += 1;
                self.ended = true;
                Ok(())
            }
        }
    }

    /// Takes an exchange over a link, where no `end` was taken.
    fn take_exchange(
        &mut self,
        topo: &Topology,
        link: u32,
        side: u8,
        exchange: Exchange,
    ) -> Result<(), TwowayFault>
        requires fits { Fits (network topo.now) self.old }
        requires lines { self.old.lines < 2 ^ 64 - 1 }
        requires side { side ≤ 1 }
        ensures fits { Fits (network topo.now) self.new }
        ensures lines { self.new.lines ≤ self.old.lines + 1 }
        ensures takes { (taken : List Line) → StandsFor (network topo.now) self.old taken
            → Takes (over_network (network topo.now) (Exchanged link side exchange))
            (network topo.now) taken self.new result }
    {
        if link >= topo.links() {
            return Err(TwowayFault::UnknownLink);
        }
        match span_over(topo, link, side, exchange) {
            Ok(span) => {
                self.lines += 1;
                self.spans.add(link, span);
                Ok(())
            }
            Err(fault) => Err(TwowayFault::Spanless(fault)),
        }
    }
}
