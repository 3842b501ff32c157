//! What is kept of a text of exchanges on its way.
ghost use Rattle.sd_plan.specs.topo.Topologies.{network};
ghost use Rattle.sd_commands.specs.twoway.Tallies.{Fits};

use crate::twoway::tally::Tally;
use sd_io::outside::LineBuffer;
use sd_plan::topo::Topology;

/// What is kept of the exchanges over the links of a topology. A line is taken in constant time and
/// without memory; at the end the bounds of the links are written, a line each.
#[derive(Drop)]
pub struct Exchanges<'t> {
    pub topo: &'t Topology,
    pub tally: Tally,
    /// The line that was printed last, or why one is refused.
    pub line: LineBuffer,
    ghost fits: { Fits (network topo.now) tally },
}
