//! Plans that are read and printed again, over two spines and three leaves.
ghost use Rattle.std.specs.Prelude.{IfOk};
ghost use Rattle.sd_plan.specs.topo.Topologies.{network};
ghost use Rattle.sd_plan.specs.Plans.{Fits};

use crate::same::assert_same;
use sd_num::NoMemory;
use sd_plan::Plan;
use sd_plan::topo::Topology;
use sd_plantext::{PlanFault, plan_text, read_plan};
use sd_test_examples::{FABRIC, topology_of};
use std::alloc::Global;
use std::process::Abort;
use std::test::Fail;

/// The text of a plan. It promises nothing, so that no proof looks into the text.
fn printed(alloc: Global, topo: &Topology, plan: &Plan) -> Result<Vec<u8>, NoMemory>
    requires { Fits (network topo.now) plan.now }
{
    plan_text(alloc, topo, plan)
}

/// The plan of a text, of which is promised alone that it can be printed.
fn read(alloc: Global, topo: &Topology, text: &[u8]) -> Result<Plan, PlanFault>
    ensures { IfOk result (Fits (network topo.now)) }
{
    read_plan(alloc, topo, text)
}

/// A plan that leaves out a leaf and its links, with a row that has no backup, in another order.
const SHUFFLED: &str =
    "{\"version\": 1, \"wait\": 3, \"wait_second\": 2, \"wait_first\": 0, \"rows\": [{\"device\": \"l2\", \"parent\": \"s1\", \"link\": \"a2\"}, {\"device\": \"l1\", \"parent\": \"s1\", \"link\": \"a1\", \"backup\": \"s2\", \"backup_link\": \"b1\"}, {\"device\": \"s2\", \"parent\": \"l1\", \"link\": \"b1\", \"backup\": \"l2\", \"backup_link\": \"b2\"}], \"root\": \"s1\", \"backup_root\": \"s2\", \"absent_links\": [\"b3\", \"a3\"], \"absent_devices\": [\"l3\"]}";

/// The same as it is printed.
const IN_ORDER: &str =
    "{\"absent_devices\":[\"l3\"],\"absent_links\":[\"a3\",\"b3\"],\"backup_root\":\"s2\",\"root\":\"s1\",\"rows\":[{\"backup\":\"l2\",\"backup_link\":\"b2\",\"device\":\"s2\",\"link\":\"b1\",\"parent\":\"l1\"},{\"backup\":\"s2\",\"backup_link\":\"b1\",\"device\":\"l1\",\"link\":\"a1\",\"parent\":\"s1\"},{\"device\":\"l2\",\"link\":\"a2\",\"parent\":\"s1\"}],\"version\":1,\"wait\":3,\"wait_first\":0,\"wait_second\":2}\n";

/// The plan of a text is printed in its order.
fn assert_in_order(
    rt: &(impl Abort + AllocGlobal),
    topo: &Topology,
    source: &str,
) -> Result<(), Fail> {
    let plan = read(rt.alloc(), topo, source.as_bytes())?;
    let text = printed(rt.alloc(), topo, &plan);
    drop(plan);
    assert_same(rt, text?.as_slice(), IN_ORDER.as_bytes());
    Ok(())
}

/// The plan is printed in its order, whether or not its text was in it.
fn assert_orders(rt: &(impl Abort + AllocGlobal), topo: &Topology) -> Result<(), Fail> {
    assert_in_order(rt, topo, SHUFFLED)?;
    assert_in_order(rt, topo, IN_ORDER)
}

#[test]
fn absent_names_and_a_lone_row_are_printed(rt: HostRuntime) -> Result<(), Fail> {
    let topo = topology_of(rt.alloc(), FABRIC)?;
    let asserted = assert_orders(&rt, &topo);
    drop(topo);
    asserted
}
