//! Faults in words, and good texts with what they say.
use crate::same::assert_same;
use sd_plan::topo::Topology;
use sd_plan::{Absent, Hop, Plan, PlanRow};
use sd_plantext::{PlanFault, PlanKey, PlanPlace, read_absent, read_plan};
use sd_test_examples::{TRIANGLE, topology_of};
use std::alloc::{AllocError, Global};
use std::process::Abort;
use std::test::Fail;

/// A plan of the triangle.
const PLAN: &str =
    "{\"version\":1,\"root\":\"r\",\"backup_root\":\"b\",\"wait_first\":1345000000,\"wait_second\":1345000001,\"wait\":6730000000,\"absent_devices\":[],\"absent_links\":[],\"rows\":[{\"device\":\"b\",\"parent\":\"r\",\"link\":\"rb\",\"backup\":\"x\",\"backup_link\":\"bx\"},{\"device\":\"x\",\"parent\":\"r\",\"link\":\"rx\",\"backup\":\"b\",\"backup_link\":\"bx\"}]}";

/// A fault in words. It promises nothing, so that no proof looks into the text.
fn said(alloc: Global, fault: &PlanFault) -> Result<String, AllocError> {
    format!(in alloc; "{fault}")
}

/// A fault is said so.
fn assert_said(rt: &(impl Abort + AllocGlobal), fault: &PlanFault, want: &str) -> Result<(), Fail> {
    let said = said(rt.alloc(), fault)?;
    assert_same(rt, said.as_str(), want);
    Ok(())
}

#[test]
fn faults(rt: HostRuntime) -> Result<(), Fail> {
    let wait = PlanPlace {
        key: PlanKey::Wait,
        entry: 0,
    };
    assert_said(&rt, &PlanFault::NotJson, "the text is no JSON")?;
    assert_said(&rt, &PlanFault::Missing(wait), "missing: wait 0")?;
    assert_said(
        &rt,
        &PlanFault::WrongKind(wait),
        "of the wrong kind: wait 0",
    )?;
    assert_said(&rt, &PlanFault::Range(wait), "out of range: wait 0")?;
    let parent = PlanPlace {
        key: PlanKey::RowsParent,
        entry: 2,
    };
    assert_said(
        &rt,
        &PlanFault::UnknownName(parent),
        "unknown name: rows.parent 2",
    )?;
    assert_said(
        &rt,
        &PlanFault::TwiceNamed(parent),
        "named twice: rows.parent 2",
    )?;
    assert_said(&rt, &PlanFault::Version(3), "unknown version: 3")
}

/// A plan of the triangle, without x and the link bx.
const SMALLER: &str =
    "{\"version\":1,\"root\":\"r\",\"backup_root\":\"b\",\"wait_first\":1,\"wait_second\":2,\"wait\":3,\"absent_devices\":[\"x\",\"b\"],\"absent_links\":[\"bx\",\"rx\",\"rb\"],\"rows\":[{\"device\":\"b\",\"parent\":\"r\",\"link\":\"rb\"}]}";

/// The plan of a text of the triangle. It promises nothing, so that no proof looks into the text.
fn plan_of(alloc: Global, text: &str) -> Result<Plan, Fail> {
    let topo = topology_of(alloc, TRIANGLE)?;
    let plan = read_plan(alloc, &topo, text.as_bytes());
    drop(topo);
    Ok(plan?)
}

fn assert_plan(rt: &impl Abort, plan: &Plan) {
    assert_same(rt, (plan.root, plan.backup_root), (0, 1));
    assert_same(
        rt,
        (plan.wait_first, plan.wait_second, plan.wait),
        (1_345_000_000, 1_345_000_001, 6_730_000_000),
    );
}

fn assert_rows(rt: &impl Abort, rows: &[Option<PlanRow>]) {
    let primary = Hop { parent: 0, link: 1 };
    let backup = Some(Hop { parent: 1, link: 2 });
    let row = Some(PlanRow { primary, backup });
    assert_same(rt, rows.len(), 3);
    assert_same(rt, rows.first(), Some(&None));
    assert_same(rt, rows.last(), Some(&row));
}

#[test]
fn plans(rt: HostRuntime) -> Result<(), Fail> {
    let plan = plan_of(rt.alloc(), PLAN)?;
    assert_plan(&rt, &plan);
    assert_rows(&rt, plan.rows.as_slice());
    Ok(())
}

fn assert_lists(rt: &impl Abort, plan: &Plan) {
    assert_same(rt, plan.absent.devices.as_slice(), [1, 2].as_slice());
    assert_same(rt, plan.absent.links.as_slice(), [0, 1, 2].as_slice());
    assert_same(rt, plan.rows.as_slice().get(2), Some(&None));
}

#[test]
fn lists_in_order(rt: HostRuntime) -> Result<(), Fail> {
    let plan = plan_of(rt.alloc(), SMALLER)?;
    assert_lists(&rt, &plan);
    Ok(())
}

/// What is left out by a text. It promises nothing, so that no proof looks into the text.
fn absent_of(alloc: Global, topo: &Topology, text: &str) -> Result<Absent, PlanFault> {
    read_absent(alloc, topo, text.as_bytes())
}

fn assert_absent_faults(rt: &(impl Abort + AllocGlobal), topo: &Topology) {
    let place = |key| PlanPlace { key, entry: 0 };
    let refused = absent_of(rt.alloc(), topo, "0").err();
    assert_same(
        rt,
        refused,
        Some(PlanFault::WrongKind(place(PlanKey::Absent))),
    );
    let refused = absent_of(rt.alloc(), topo, "{}").err();
    assert_same(
        rt,
        refused,
        Some(PlanFault::Missing(place(PlanKey::AbsentDevices))),
    );
}

fn assert_absent(rt: &(impl Abort + AllocGlobal), topo: &Topology) -> Result<(), Fail> {
    let text = "{\"absent_links\":[\"bx\",\"rb\"],\"absent_devices\":[\"x\"]}";
    let absent = absent_of(rt.alloc(), topo, text)?;
    assert_same(rt, absent.devices.as_slice(), [2].as_slice());
    assert_same(rt, absent.links.as_slice(), [0, 2].as_slice());
    Ok(())
}

#[test]
fn what_is_left_out(rt: HostRuntime) -> Result<(), Fail> {
    let topo = topology_of(rt.alloc(), TRIANGLE)?;
    assert_absent_faults(&rt, &topo);
    let asserted = assert_absent(&rt, &topo);
    drop(topo);
    asserted
}

#[test]
fn words(rt: HostRuntime) {
    assert_same(&rt, PlanKey::RowsBackupLink.word(), "rows.backup_link");
    assert_same(&rt, PlanKey::WaitSecond.word(), "wait_second");
    assert_same(&rt, PlanKey::Absent.word(), "absent");
}
