//! Lines that a fleet is driven by, each with what comes of it.

use crate::same::assert_same_at;
use sd_device::Node;
use sd_fleet::{ApplyFault, Fleet, Outcome};
use sd_sched::read_line;
use std::process::Abort;
use std::test::Fail;

/// What a fleet says of a device.
#[derive(Clone, Copy, Debug, PartialEq)]
pub(super) struct Standing {
    pub(super) up: bool,
    /// Whether it counts as live.
    pub(super) counted: bool,
    pub(super) parent: Option<u32>,
    /// Whether it acts as root.
    pub(super) acts: bool,
}

/// The lines happen in their order, and what stands beside each comes of it.
pub(super) fn play<N: Node>(
    rt: &(impl AllocGlobal + Abort),
    fleet: &mut Fleet<N>,
    lines: &[(&str, Outcome)],
) -> Result<(), Fail> {
    for (line, outcome) in lines {
        happen(rt, fleet, line, *outcome)?;
    }
    Ok(())
}

/// A line happens, and this comes of it.
pub(super) fn happen<N: Node>(
    rt: &(impl AllocGlobal + Abort),
    fleet: &mut Fleet<N>,
    line: &str,
    outcome: Outcome,
) -> Result<(), Fail> {
    let event = read_line(line.as_bytes())?;
    let most = fleet.most_sent(&event);
    assert_same_at(rt, line, fleet.refusal(&event), None);
    assert_same_at(rt, line, fleet.apply(rt.alloc(), &event), Ok(outcome));
    assert_same_at(rt, line, outcome.sent as usize <= most, true);
    Ok(())
}

/// A line is refused.
pub(super) fn refuse<N: Node>(
    rt: &(impl AllocGlobal + Abort),
    fleet: &mut Fleet<N>,
    line: &str,
    fault: ApplyFault,
) -> Result<(), Fail> {
    let event = read_line(line.as_bytes())?;
    assert_same_at(rt, line, fleet.refusal(&event), Some(fault));
    assert_same_at(rt, line, fleet.apply(rt.alloc(), &event), Err(fault));
    Ok(())
}

/// How a device stands, where the fleet has one with that number.
pub(super) fn standing_of<N: Node>(fleet: &Fleet<N>, d: u32) -> Option<Standing> {
    if d >= fleet.devices() {
        return None;
    }
    Some(Standing {
        up: fleet.is_up(d),
        counted: fleet.is_counted(d),
        parent: fleet.parent(d),
        acts: fleet.acts(d),
    })
}

/// A member of the plan in force that is up and follows another.
pub(super) fn follower(parent: u32) -> Option<Standing> {
    Some(Standing {
        up: true,
        counted: true,
        parent: Some(parent),
        acts: false,
    })
}

/// A member of the plan in force that is up and acts as root.
pub(super) fn root() -> Option<Standing> {
    Some(Standing {
        up: true,
        counted: true,
        parent: None,
        acts: true,
    })
}

/// A device that failed, or was never made.
pub(super) fn down() -> Option<Standing> {
    Some(Standing {
        up: false,
        counted: false,
        parent: None,
        acts: false,
    })
}
