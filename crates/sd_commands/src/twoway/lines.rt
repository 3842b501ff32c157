//! The lines that are printed for a text of exchanges.
ghost use Rattle.std.specs.Prelude.{◌≡◌, ◌+◌, ◌<◌, ◌≤◌, [], ◌∷◌, ◌++◌, length, codes, decimal, if◌then◌else◌};
ghost use Rattle.sd_num.specs.Texts.{text_of};
ghost use Rattle.sd_io.specs.outside.Printed.{printed};
ghost use Rattle.sd_plan.specs.topo.Network.{link_names, name_at};
ghost use Rattle.sd_plan.specs.topo.Topologies.{network};
ghost use Rattle.sd_commands.specs.exchanges.Printed.{link_line};

use crate::exchanges::Span;
use crate::exchanges::bounds::is_inside;
use sd_io::outside::LineBuffer;
use sd_plan::topo::Topology;

/// Prints the line of a link whose exchanges give a span and are this many.
pub fn print_link(out: &mut LineBuffer, topo: &Topology, link: u32, span: Span, count: u64)
    requires { link < length (network topo.now).links }
    ensures { printed out.new ≡ link_line (network topo.now) link (span, count) }
{
    let inside = is_inside(topo.link(link), span);
    out.clear();
    out.push(b"link ");
    out.push(name_of(topo, link).as_bytes());
    push_field(out, span.min);
    push_field(out, span.max);
    push_field(out, count);
    out.push(where_it_lies(inside));
}

/// Prints the last line of a text that has ended: how many lines it has, and how many links have an
/// exchange.
pub fn print_done(out: &mut LineBuffer, lines: u64, links: u32)
    ensures { printed out.new ≡ text_of (codes "done" ∷ decimal lines ∷ decimal links ∷ []) }
{
    out.clear();
    out.push(b"done ");
    out.push_number(u128::from(lines));
    out.push(b" ");
    out.push_number(u128::from(links));
    out.push(b"\n");
}

/// The name of a link, which is short.
fn name_of(topo: &Topology, link: u32) -> &str
    requires { link < length (network topo.now).links }
    ensures name { result.now ≡ name_at (link_names (network topo.now)) link }
    ensures short { length result.now ≤ 64 }
{
    topo.link_name(link)
}

/// Prints a space and a number.
fn push_field(out: &mut LineBuffer, number: u64)
    requires { length (printed out.old) + 41 ≤ 256 }
    ensures text { printed out.new ≡ printed out.old ++ 32 ∷ decimal number }
    ensures short { length (printed out.new) ≤ length (printed out.old) + 41 }
{
    out.push(b" ");
    out.push_number(u128::from(number));
}

/// The end of a link's line.
fn where_it_lies(inside: bool) -> &'static [u8]
    ensures word { result.now
        ≡ 32 ∷ ((if inside then codes "inside" else codes "outside") ++ 10 ∷ []) }
    ensures short { length result.now ≤ 9 }
{
    if inside { b" inside\n" } else { b" outside\n" }
}
