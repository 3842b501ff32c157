//! What is written for a text of exchanges that has ended well.
ghost use Rattle.std.specs.Prelude.{◌≡◌, ◌≤◌, length, Err, IfErr, IfOk};
ghost use Rattle.sd_io.specs.outside.Causes.{RisesFor};
ghost use Rattle.sd_plan.specs.topo.Topologies.{network};
ghost use Rattle.sd_files.specs.Writes.{Adds};
ghost use Rattle.sd_commands.specs.twoway.Tallies.{Fits, bounds_of, count_of, lines_of};

use crate::twoway::lines::{print_done, print_link};
use crate::twoway::tally::Tally;
use sd_files::{IoError, send};
use sd_io::outside::{LineBuffer, Sink};
use sd_plan::topo::Topology;

/// Writes the bounds of the links that have an exchange, and how many lines and links there are: each
/// line by one write.
pub fn write_bounds<O: Sink>(
    line: &mut LineBuffer,
    topo: &Topology,
    tally: &Tally,
    out: &mut O,
) -> Result<(), IoError>
    requires { Fits (network topo.now) tally.now }
    ensures writes { Adds (bounds_of (network topo.now) tally.now) (O.written out.old)
        (O.written out.new) result }
    ensures sink { RisesFor (result ≡ Err IoError.Sink) (O.faults out.old) (O.faults out.new) }
    ensures only { IfErr result (λ why. why ≡ IoError.Sink) }
{
    let links = write_links(line, topo, tally, out)?;
    print_done(line, tally.lines, links);
    send(out, line.printed())
}

/// Writes a line for each link that has an exchange, and answers how many have.
fn write_links<O: Sink>(
    line: &mut LineBuffer,
    topo: &Topology,
    tally: &Tally,
    out: &mut O,
) -> Result<u32, IoError>
    requires { Fits (network topo.now) tally.now }
    ensures writes { Adds
        (lines_of (network topo.now) tally.now.spans (length (network topo.now).links))
        (O.written out.old) (O.written out.new) result }
    ensures count { IfOk result
        (λ links. links ≡ count_of tally.now.spans (length (network topo.now).links)) }
    ensures sink { RisesFor (result ≡ Err IoError.Sink) (O.faults out.old) (O.faults out.new) }
    ensures only { IfErr result (λ why. why ≡ IoError.Sink) }
{
    let mut links = 0;
    for link in 0..topo.links() {
        if let Some((span, count)) = tally.spans.get(link) {
            print_link(line, topo, link, span, count);
            send(out, line.printed())?;
            links += 1;
        }
    }
    Ok(links)
}
