//! Paths, tables and indexes of the fabric's plan.
ghost use Rattle.std.specs.Prelude.{◌≡◌, length, IfOk};

use super::*;
use sd_plan::topo::Thing;
use sd_plan::{DeviceList, End, PlanTable, Role, Span, WalkIndex, epath, path};
use std::alloc::Global;
use std::test::Fail;

#[test]
#[tactic(auto, using(sd_plan::proofs::Fitting::fabric_fits))]
fn paths_of_a_fabric(rt: HostRuntime) -> Result<(), Fail> {
    let alloc = rt.alloc();
    let topo = fabric(alloc)?;
    let plan = fabric_plan(alloc)?;
    let over_l1 = [
        Thing::Link(3),
        Thing::Device(2),
        Thing::Link(0),
        Thing::Device(0),
    ];
    let walked = path(alloc, &topo, &plan, 1)?;
    assert_eq!(rt; walked.as_slice(), over_l1.as_slice());
    let cut = epath(alloc, &topo, &plan, 1)?;
    assert_eq!(rt; cut.as_slice(), over_l1.as_slice());
    let of_the_root = path(alloc, &topo, &plan, 0)?;
    assert!(rt; of_the_root.as_slice().is_empty());
    Ok(())
}

/// The table of the fabric's plan with the number 7.
#[tactic(auto, using(sd_plan::proofs::Fitting::fabric_fits, sd_plan::proofs::Fitting::fabric_structured, sd_plan::proofs::Fitting::fabric_rows))]
fn fabric_table(alloc: Global) -> Result<PlanTable, Fail>
    ensures { IfOk result (λ table. length table ≡ 5) }
{
    let topo = fabric(alloc)?;
    let plan = fabric_plan(alloc)?;
    Ok(PlanTable::new(alloc, &topo, &plan, 7)?)
}

#[test]
fn table_of_a_fabric(rt: HostRuntime) -> Result<(), Fail> {
    let table = fabric_table(rt.alloc())?;
    assert!(rt; table.is_member(1));
    let row = table.row(1);
    assert_eq!(rt; row.duty.epoch, 7);
    assert_eq!(rt; row.duty.role, Role::BackupRoot);
    assert_eq!(rt; row.duty.wait_first, 720_000_000);
    assert_eq!(rt; row.duty.primary.map(|edge| edge.parent), Some(2));
    assert_eq!(rt; row.duty.backup.map(|edge| edge.link), Some(4));
    let followers = [
        End { link: 3, device: 2 },
        End { link: 4, device: 3 },
        End { link: 5, device: 4 },
    ];
    assert_eq!(rt; row.downstream, followers.as_slice());
    Ok(())
}

/// The index of the fabric's plan.
#[tactic(auto, using(sd_plan::proofs::Fitting::fabric_fits, sd_plan::proofs::Fitting::fabric_structured, sd_plan::proofs::Fitting::fabric_spans, sd_plan::proofs::Fitting::fabric_carried))]
fn fabric_index(alloc: Global) -> Result<WalkIndex, Fail>
    ensures spans { IfOk result (λ index. length index.spans ≡ 5) }
    ensures carried { IfOk result (λ index. length index.carried ≡ 6) }
{
    let topo = fabric(alloc)?;
    let plan = fabric_plan(alloc)?;
    Ok(WalkIndex::new(alloc, &topo, &plan)?)
}

#[test]
fn index_of_a_fabric(rt: HostRuntime) -> Result<(), Fail> {
    let index = fabric_index(rt.alloc())?;
    assert_eq!(rt; index.order(), [0, 2, 1, 3, 4].as_slice());
    assert_eq!(rt; index.span(2), Span { from: 1, to: 3 });
    assert!(rt; index.on_walk(1, 1) && index.on_walk(1, 2) && index.on_walk(1, 0));
    assert!(rt; !index.on_walk(1, 3) && !index.on_walk(2, 1));
    assert!(rt; index.epath_has_link(3, 1) && !index.epath_has_link(3, 0));
    assert!(rt; index.epath_has_device(3, 0) && !index.epath_has_device(3, 3));
    assert!(rt;
        index.walk_has_link(1, 3) && index.walk_has_link(1, 0) && !index.walk_has_link(1, 1)
    );
    assert_eq!(rt; index.carried_over(3), Some(1));
    assert_eq!(rt; index.carried_over(4), None);
    let of_l2 = [End { link: 1, device: 0 }, End { link: 4, device: 1 }];
    assert_eq!(rt; index.links_at(3), of_l2.as_slice());
    Ok(())
}

#[test]
fn lists_give_their_elements_back(rt: HostRuntime) -> Result<(), Fail> {
    let plan = fabric_plan(rt.alloc())?;
    let rows = plan.rows.into_vec();
    assert_eq!(rt; rows.len(), 5);
    assert_eq!(rt; rows[1], row(2, 3, 3, 4));
    let mut listed = DeviceList::new(rt.alloc());
    listed.push(rt.alloc(), 7)?;
    let numbers = listed.into_vec();
    assert_eq!(rt; numbers.as_slice(), [7].as_slice());
    Ok(())
}
