//! The plans of the networks.
ghost use Rattle.std.specs.Prelude.{◌≡◌, [], Some, IfOk};
ghost use Rattle.sd_plan.specs.Examples as examples;

use sd_num::NoMemory;
use sd_plan::{Absent, DeviceList, Hop, Plan, PlanRow, RowList};
use std::alloc::Global;

/// A row with a primary and a backup.
pub fn row(parent: u32, link: u32, backup: u32, backup_link: u32) -> Option<PlanRow>
    ensures { result ≡ examples.row (examples.hop parent link)
        (Some (examples.hop backup backup_link)) }
{
    let primary = Hop { parent, link };
    let backup = Hop {
        parent: backup,
        link: backup_link,
    };
    Some(PlanRow {
        primary,
        backup: Some(backup),
    })
}

/// Nothing is left out.
fn nothing(alloc: Global) -> Absent
    ensures { result ≡ record { devices = []; links = [] } }
{
    Absent {
        devices: DeviceList::new(alloc),
        links: DeviceList::new(alloc),
    }
}

/// The fabric's plan: s1 is the root, and s2 follows l1.
pub fn fabric_plan(alloc: Global) -> Result<Plan, NoMemory>
    ensures { IfOk result (λ plan. plan ≡ examples.fabric_plan) }
{
    let mut rows = RowList::new(alloc);
    rows.push(alloc, None)?;
    rows.push(alloc, row(2, 3, 3, 4))?;
    rows.push(alloc, row(0, 0, 1, 3))?;
    rows.push(alloc, row(0, 1, 1, 4))?;
    rows.push(alloc, row(0, 2, 1, 5))?;
    Ok(Plan {
        root: 0,
        backup_root: 1,
        wait_first: 720_000_000,
        wait_second: 720_000_000,
        wait: 3_600_000_000,
        absent: nothing(alloc),
        rows,
    })
}

/// The square's plan: x and y are each other's backup.
pub fn square_plan(alloc: Global) -> Result<Plan, NoMemory>
    ensures { IfOk result (λ plan. plan ≡ examples.square_plan) }
{
    let mut rows = RowList::new(alloc);
    rows.push(alloc, None)?;
    rows.push(alloc, row(0, 0, 2, 2))?;
    rows.push(alloc, row(0, 1, 3, 4))?;
    rows.push(alloc, row(1, 3, 2, 4))?;
    Ok(Plan {
        root: 0,
        backup_root: 1,
        wait_first: 720_000_000,
        wait_second: 720_000_000,
        wait: 3_600_000_000,
        absent: nothing(alloc),
        rows,
    })
}
