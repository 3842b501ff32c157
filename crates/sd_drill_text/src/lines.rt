//! The lines of bounds.
ghost use Rattle.std.specs.Prelude.{◌≡◌, ◌<◌, ◌≤◌, [], ◌∷◌, length, codes, decimal};
ghost use Rattle.sd_checker.specs.Text as text;
ghost use Rattle.sd_plan.specs.domain.Lone.{IsDomain};
ghost use Rattle.sd_drill_text.specs.Printing.{IsShort};
ghost use Rattle.sd_num.specs.Texts.{text_of};
ghost use Rattle.sd_io.specs.outside.Printed.{printed};
ghost use Rattle.sd_plan.specs.topo.Network as names;
ghost use Rattle.sd_plan.specs.topo.Topologies.{network};

use sd_io::outside::LineBuffer;
use sd_plan::domain::DomainId;
use sd_plan::topo::Topology;

/// What a domain is, and its name.
#[derive(Clone, Copy)]
pub struct Named<'a> {
    pub kind: &'static str,
    pub name: &'a str,
}

/// The name of a device, of at most 64 bytes.
pub fn device_name(topo: &Topology, d: u32) -> &str
    requires { d < length (network topo.now).devices }
    ensures is { result.now ≡ names.device_name (network topo.now) d }
    ensures short { length result.now ≤ 64 }
{
    topo.device_name(d)
}

/// The name of a link, of at most 64 bytes.
fn link_name(topo: &Topology, l: u32) -> &str
    requires { l < length (network topo.now).links }
    ensures is { result.now ≡ names.link_name (network topo.now) l }
    ensures short { length result.now ≤ 64 }
{
    topo.link_name(l)
}

/// The name of a listed domain, of at most 64 bytes.
fn listed_name(topo: &Topology, k: u32) -> &str
    requires { k < length (network topo.now).domains }
    ensures is { result.now ≡ names.domain_name (network topo.now) k }
    ensures short { length result.now ≤ 64 }
{
    topo.domain_name(k)
}

/// How a domain is named.
pub fn domain_named(topo: &Topology, domain: DomainId) -> Named<'_>
    requires { IsDomain (network topo.now) domain }
    ensures is { text.domain_words (network topo.now) domain
        ≡ result.kind.now ∷ result.name.now ∷ [] }
    ensures short { IsShort result }
{
    match domain {
        DomainId::Listed(k) => Named {
            kind: "listed",
            name: listed_name(topo, k),
        },
        DomainId::Device(d) => Named {
            kind: "device",
            name: device_name(topo, d),
        },
        DomainId::Link(l) => Named {
            kind: "link",
            name: link_name(topo, l),
        },
    }
}

/// Prints the last line: how many domains and how many members there are.
pub(crate) fn print_done(out: &mut LineBuffer, domains: u32, members: usize)
    ensures { printed out.new ≡ text_of (codes "done" ∷ decimal domains ∷ decimal members ∷ []) }
{
    out.clear();
    out.push(b"done ");
    out.push_number(u128::from(domains));
    out.push(b" ");
    out.push_number(members as u128);
    out.push(b"\n");
}
