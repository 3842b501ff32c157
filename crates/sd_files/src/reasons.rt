//! Why a file is refused, as it is printed.
ghost use Rattle.std.specs.Prelude.{◌≡◌, Some};
ghost use Rattle.sd_files.specs.Reasons.{fault_name, plan_reason, printed_input, reason, topology_reason};

use crate::command_error::{FileFault, Input};
use sd_plantext::{PlanFault, PlanPlace};
use sd_topotext::TopoFault;
use std::fmt;

impl fmt::Display for Input {
    ghost output = { λ input. Some (printed_input input) };

    fn fmt<W: fmt::Write>(&self, f: &mut fmt::Formatter<W>) -> fmt::Result {
        match self {
            Input::Topology => write!(f, "topology"),
            Input::Plan(place) => write!(f, "plan {place}"),
            Input::Absent => write!(f, "absent"),
        }
    }
}

impl fmt::Display for FileFault {
    ghost output = { λ fault. Some (reason fault) };

    fn fmt<W: fmt::Write>(&self, f: &mut fmt::Formatter<W>) -> fmt::Result {
        match self {
            FileFault::TooLong => write!(f, "TooLong"),
            FileFault::Topology(fault) => {
                let reason = TopologyReason(fault);
                write!(f, "{reason}")
            }
            FileFault::Plan(fault) => {
                let reason = PlanReason(fault);
                write!(f, "{reason}")
            }
        }
    }
}

/// The name of a fault.
fn name_of(fault: &TopoFault) -> &'static str
    ensures { result.now ≡ fault_name fault.now }
{
    match fault {
        TopoFault::NotToml => "NotToml",
        TopoFault::Missing(_) => "Missing",
        TopoFault::WrongKind(_) => "WrongKind",
        TopoFault::Range(_) => "Range",
        TopoFault::TwiceNamed(_) => "TwiceNamed",
        TopoFault::UnknownName(_) => "UnknownName",
        TopoFault::SelfLink(_) => "SelfLink",
        TopoFault::Limit(_) => "Limit",
        TopoFault::Memory => "Memory",
    }
}

/// Why a topology's text is refused.
#[derive(Drop)]
struct TopologyReason<'a>(&'a TopoFault);

impl fmt::Display for TopologyReason<'_> {
    ghost output = { λ reason. Some (topology_reason reason.0.now) };

    fn fmt<W: fmt::Write>(&self, f: &mut fmt::Formatter<W>) -> fmt::Result {
        let fault = self.0;
        let name = name_of(fault);
        match fault {
            TopoFault::Missing(place)
            | TopoFault::WrongKind(place)
            | TopoFault::Range(place)
            | TopoFault::TwiceNamed(place)
            | TopoFault::UnknownName(place)
            | TopoFault::SelfLink(place) => {
                let key = place.key.word();
                let entry = place.entry;
                write!(f, "{name} {key} {entry}")
            }
            TopoFault::Limit(kind) => {
                let kind = kind.word();
                write!(f, "{name} {kind}")
            }
            TopoFault::NotToml | TopoFault::Memory => write!(f, "{name}"),
        }
    }
}

/// Why the text of a plan, or of what is absent, is refused.
#[derive(Drop)]
struct PlanReason<'a>(&'a PlanFault);

impl fmt::Display for PlanReason<'_> {
    ghost output = { λ reason. Some (plan_reason reason.0.now) };

    fn fmt<W: fmt::Write>(&self, f: &mut fmt::Formatter<W>) -> fmt::Result {
        let (name, place) = match self.0 {
            PlanFault::Missing(place) => ("Missing", place),
            PlanFault::WrongKind(place) => ("WrongKind", place),
            PlanFault::Range(place) => ("Range", place),
            PlanFault::UnknownName(place) => ("UnknownName", place),
            PlanFault::TwiceNamed(place) => ("TwiceNamed", place),
            PlanFault::Version(number) => return write!(f, "Version {number}"),
            PlanFault::NotJson => return write!(f, "NotJson"),
            PlanFault::Memory => return write!(f, "Memory"),
        };
        let PlanPlace { key, entry } = *place;
        let word = key.word();
        write!(f, "{name} {word} {entry}")
    }
}
