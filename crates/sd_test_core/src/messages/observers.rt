//! Observers, through their trait.

use crate::same::assert_same;
use sd_device::msg::{KeptReports, NoObserver, Observer, SeenReport};
use sd_num::NoMemory;
use sd_num::clock::Report;
use std::alloc::Global;

const REPORT: Report = Report { clock: 90, eps: 8 };

fn tell<V: Observer>(alloc: Global, observer: &mut V, line: u64) -> Result<(), NoMemory> {
    observer.ready(alloc)?;
    observer.seen(line, 3, 70, REPORT);
    Ok(())
}

#[test]
fn reports_are_kept_in_order(rt: HostRuntime) -> Result<(), NoMemory> {
    let mut kept = KeptReports::new(rt.alloc());
    tell(rt.alloc(), &mut kept, 1)?;
    tell(rt.alloc(), &mut kept, 6)?;
    let seen = SeenReport {
        line: 1,
        device: 3,
        reference: 70,
        report: REPORT,
    };
    assert_same(
        &rt,
        kept.reports(),
        [seen, SeenReport { line: 6, ..seen }].as_slice(),
    );
    Ok(())
}

#[test]
fn nobody_can_be_told_too(rt: HostRuntime) -> Result<(), NoMemory> {
    tell(rt.alloc(), &mut NoObserver, 1)
}
