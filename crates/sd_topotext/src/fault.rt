//! Why a topology text is refused, and where.
ghost use Rattle.std.specs.Prelude.{◌≡◌};
ghost use Rattle.sd_topotext.specs.Keys.{printed, printed_kind, word_of};

use std::fmt;
use thiserror::Error;

/// A key of a topology text, in the order in which keys are judged but for the last four.
#[derive(Clone, Copy, Debug, PartialEq, Eq)]
pub enum Key {
    Version,
    Ppm,
    Grain,
    Period,
    Tick,
    Loss,
    Depth,
    Device,
    DeviceName,
    DeviceSide,
    Link,
    LinkName,
    LinkEnds,
    LinkMin,
    LinkMax,
    Domain,
    DomainName,
    DomainDevices,
    DomainLinks,
    Roots,
    DevicePpm,
    DeviceGrain,
    LinkBackMin,
    LinkBackMax,
}

impl Key {
    /// The key as it is printed, after the array that it belongs to.
    pub fn word(self) -> &'static str
        ensures { result.now ≡ printed self }
    {
        match self {
            Key::DeviceName => "device.name",
            Key::DeviceSide => "device.side",
            Key::DevicePpm => "device.ppm",
            Key::DeviceGrain => "device.grain",
            Key::LinkName => "link.name",
            Key::LinkEnds => "link.ends",
            Key::LinkMin => "link.min",
            Key::LinkMax => "link.max",
            Key::LinkBackMin => "link.back_min",
            Key::LinkBackMax => "link.back_max",
            Key::DomainName => "domain.name",
            Key::DomainDevices => "domain.devices",
            Key::DomainLinks => "domain.links",
            other => other.in_table(),
        }
    }

    /// The key as it stands in its table.
    pub(crate) fn in_table(self) -> &'static str
        ensures { result.now ≡ word_of self }
    {
        match self {
            Key::Version => "version",
            Key::Ppm | Key::DevicePpm => "ppm",
            Key::Grain | Key::DeviceGrain => "grain",
            Key::Period => "period",
            Key::Tick => "tick",
            Key::Loss => "loss",
            Key::Depth => "depth",
            Key::Device => "device",
            Key::DeviceName | Key::LinkName | Key::DomainName => "name",
            Key::DeviceSide => "side",
            Key::Link => "link",
            Key::LinkEnds => "ends",
            Key::LinkMin => "min",
            Key::LinkMax => "max",
            Key::LinkBackMin => "back_min",
            Key::LinkBackMax => "back_max",
            Key::Domain => "domain",
            Key::DomainDevices => "devices",
            Key::DomainLinks => "links",
            Key::Roots => "roots",
        }
    }
}

impl fmt::Display for Key {
    fn fmt<W: fmt::Write>(&self, f: &mut fmt::Formatter<W>) -> fmt::Result {
        f.write_str(self.word())
    }
}

/// Where a fault is: the key, and the entry of its array of tables, from 1; 0 for a key at the top.
#[derive(Clone, Copy, Debug, PartialEq, Eq)]
pub struct Place {
    pub key: Key,
    pub entry: u32,
}

impl fmt::Display for Place {
    fn fmt<W: fmt::Write>(&self, f: &mut fmt::Formatter<W>) -> fmt::Result {
        write!(f, "{} {}", self.key, self.entry)
    }
}

/// What there may be only so many of.
#[derive(Clone, Copy, Debug, PartialEq, Eq)]
pub enum Kind {
    Device,
    Link,
    Domain,
    /// The devices and links of all listed domains together.
    Item,
}

impl Kind {
    /// The kind as it is printed.
    pub fn word(self) -> &'static str
        ensures { result.now ≡ printed_kind self }
    {
        match self {
            Kind::Device => "device",
            Kind::Link => "link",
            Kind::Domain => "domain",
            Kind::Item => "item",
        }
    }
}

impl fmt::Display for Kind {
    fn fmt<W: fmt::Write>(&self, f: &mut fmt::Formatter<W>) -> fmt::Result {
        f.write_str(self.word())
    }
}

/// Why a topology text is refused: the first fault in the order of its keys. Only out of memory
/// may come in place of another fault, or where there is none.
#[derive(Debug, Drop, PartialEq, Eq, Error)]
pub enum TopoFault {
    /// The bytes are no TOML.
    #[error("the text is no TOML")]
    NotToml,
    /// A key is not there that has to be.
    #[error("missing: {0}")]
    Missing(Place),
    /// The value has another type.
    #[error("of the wrong kind: {0}")]
    WrongKind(Place),
    /// A number, a name or an array lies outside what is allowed.
    #[error("out of range: {0}")]
    Range(Place),
    /// A name was used before among its own kind, or twice in one array.
    #[error("named twice: {0}")]
    TwiceNamed(Place),
    /// No device or link has the name.
    #[error("unknown name: {0}")]
    UnknownName(Place),
    /// Both ends of a link are one device.
    #[error("a link to itself: {0}")]
    SelfLink(Place),
    /// There are too many.
    #[error("too many: {0}")]
    Limit(Kind),
    /// Memory could not be had.
    #[error("out of memory")]
    Memory,
}
