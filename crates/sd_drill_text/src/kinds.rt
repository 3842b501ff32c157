//! The kinds of fault domains, in the order in which they are drilled.
ghost use Rattle.std.specs.Prelude.{◌≡◌, ◌<◌};
ghost use Rattle.sd_plan.specs.domain.Lone.{IsDomain};
ghost use Rattle.sd_drill_text.specs.Kinds as words;
ghost use Rattle.sd_plan.specs.topo.Network.{Network};
ghost use Rattle.sd_plan.specs.topo.Topologies.{network};

use sd_plan::domain::DomainId;
use sd_plan::topo::Topology;

/// The listed domains come first, then each device alone, then each link alone.
#[derive(Clone, Copy)]
pub enum Kind {
    Listed,
    Device,
    Link,
}

impl Kind {
    /// How many domains are of this kind.
    pub fn count(self, topo: &Topology) -> u32
        ensures { result ≡ words.count_of (network topo.now) self }
    {
        match self {
            Kind::Listed => topo.domains(),
            Kind::Device => topo.devices(),
            Kind::Link => topo.links(),
        }
    }

    /// The domain of this kind with a number.
    pub fn domain(self, number: u32) -> DomainId
        ensures is { result ≡ words.domain_at self number }
        ensures domain { (net : Network) → number < words.count_of net self → IsDomain net result }
    {
        match self {
            Kind::Listed => DomainId::Listed(number),
            Kind::Device => DomainId::Device(number),
            Kind::Link => DomainId::Link(number),
        }
    }
}
