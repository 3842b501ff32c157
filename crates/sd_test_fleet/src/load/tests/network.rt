//! A network of two layers at the limits, with its plan, as texts.

use std::alloc::{AllocError, Global};

const SPINES: u32 = 8;

const LEAVES: u32 = 4088;

/// How many devices there are: the spines, and then the leaves.
pub(super) const DEVICES: u32 = SPINES + LEAVES;

/// How long an acting device waits between two rounds, in ps.
pub(super) const PERIOD: u64 = 100_000_000;

/// How long a message takes, in ps.
pub(super) const DELAY: u64 = 700_000;

/// What a topology says before its devices.
const PARAMS: &str = r#"version = 1
ppm = 200
grain = 1000
period = 100000000
tick = 60000000
loss = 1
depth = 3
roots = ["s0", "s1"]
"#;

/// What the plan says before its rows, with the first of these. The first spine is the root, and
/// the second one the backup root.
const PLAN: &str =
    r#"{"version":1,"root":"s0","backup_root":"s1","wait_first":1000000000,"wait_second":1000000000,"wait":5000000000,"absent_devices":[],"absent_links":[],"rows":[{"device":"s1","parent":"l0","link":"l0-s1","backup":"l1","backup_link":"l1-s1"}"#;

/// Adds an entry for each device of a layer.
fn add_devices(
    alloc: Global,
    text: &mut String,
    layer: &str,
    count: u32,
) -> Result<(), AllocError> {
    for d in 0..count {
        text.push_str(format!(in alloc; "[[device]]\nname = \"{layer}{d}\"\n")?.as_str())?;
    }
    Ok(())
}

/// Adds the links of a leaf, one to each spine.
fn add_links(alloc: Global, text: &mut String, leaf: u32) -> Result<(), AllocError> {
    for spine in 0..SPINES {
        text.push_str(format!(in alloc;
            "[[link]]\nname = \"l{leaf}-s{spine}\"\nends = [\"s{spine}\", \"l{leaf}\"]\nmin = 400000\nmax = 1000000\n"
        )?.as_str())?;
    }
    Ok(())
}

/// The topology.
pub(super) fn topology_text(alloc: Global) -> Result<String, AllocError> {
    let mut text = String::from_str(alloc, PARAMS)?;
    add_devices(alloc, &mut text, "s", SPINES)?;
    add_devices(alloc, &mut text, "l", LEAVES)?;
    for leaf in 0..LEAVES {
        add_links(alloc, &mut text, leaf)?;
    }
    Ok(text)
}

/// Adds the rows of the other spines: they follow the first leaf, and may move to the second.
fn add_spines(alloc: Global, text: &mut String) -> Result<(), AllocError> {
    for d in 2..SPINES {
        text.push_str(format!(in alloc;
            ",{{\"device\":\"s{d}\",\"parent\":\"l0\",\"link\":\"l0-s{d}\",\"backup\":\"l1\",\"backup_link\":\"l1-s{d}\"}}"
        )?.as_str())?;
    }
    Ok(())
}

/// The plan: each leaf follows the first spine, and may move to the second.
pub(super) fn plan_text(alloc: Global) -> Result<String, AllocError> {
    let mut text = String::from_str(alloc, PLAN)?;
    add_spines(alloc, &mut text)?;
    for d in 0..LEAVES {
        text.push_str(format!(in alloc;
            ",{{\"device\":\"l{d}\",\"parent\":\"s0\",\"link\":\"l{d}-s0\",\"backup\":\"s1\",\"backup_link\":\"l{d}-s1\"}}"
        )?.as_str())?;
    }
    text.push_str("]}")?;
    Ok(text)
}
