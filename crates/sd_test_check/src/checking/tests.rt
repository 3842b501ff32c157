//! The four conditions on domains, each asked by itself over a square with one diagonal, which is read.
ghost use Rattle.std.specs.Prelude.{◌≡◌};
ghost use Rattle.sd_plan.specs.domain.Lone.{IsDomain};
ghost use Rattle.sd_plan.specs.Examples as examples;
ghost use Rattle.sd_plan.specs.Examples.{IsSquare};
ghost use Rattle.sd_plan.specs.topo.Topologies.{network};

use sd_checker::check_loop::loop_breach;
use sd_checker::check_reach::{domain_breach, reach_breach};
use sd_checker::check_root::root_breach;
use sd_num::NoMemory;
use sd_plan::domain::DomainId::{self, Link, Listed};
use sd_plan::topo::{Thing, Topology};
use sd_plan::{DeviceList, Plan};
use sd_test_examples::{square, square_plan};
use std::alloc::Global;
use std::process::Abort;
use std::test::Fail;

/// The thing at which a domain of the square breaks the root condition.
#[tactic(auto, using(crate::proofs::checking::Samples::square_fits, crate::proofs::checking::Samples::square_structured))]
fn at_root(
    alloc: Global,
    topo: &Topology,
    plan: &Plan,
    domain: DomainId,
) -> Result<Option<Thing>, NoMemory>
    requires square { IsSquare (network topo.now) }
    requires plan { plan.now ≡ examples.square_plan }
    requires domain { IsDomain (network topo.now) domain }
{
    root_breach(alloc, topo, plan, domain)
}

/// The cycle that it may bring about.
#[tactic(auto, using(crate::proofs::checking::Samples::square_fits, crate::proofs::checking::Samples::square_structured))]
fn cycle(
    alloc: Global,
    topo: &Topology,
    plan: &Plan,
    domain: DomainId,
) -> Result<Option<DeviceList>, NoMemory>
    requires square { IsSquare (network topo.now) }
    requires plan { plan.now ≡ examples.square_plan }
    requires domain { IsDomain (network topo.now) domain }
{
    loop_breach(alloc, topo, plan, domain)
}

/// The device that it deserts.
#[tactic(auto, using(crate::proofs::checking::Samples::square_fits, crate::proofs::checking::Samples::square_structured))]
fn deserted(
    alloc: Global,
    topo: &Topology,
    plan: &Plan,
    domain: DomainId,
) -> Result<Option<u32>, NoMemory>
    requires square { IsSquare (network topo.now) }
    requires plan { plan.now ≡ examples.square_plan }
    requires domain { IsDomain (network topo.now) domain }
{
    domain_breach(alloc, topo, plan, domain)
}

/// The chain of a device that it starves.
#[tactic(auto, using(crate::proofs::checking::Samples::square_fits, crate::proofs::checking::Samples::square_structured))]
fn chain(
    alloc: Global,
    topo: &Topology,
    plan: &Plan,
    domain: DomainId,
) -> Result<Option<DeviceList>, NoMemory>
    requires square { IsSquare (network topo.now) }
    requires plan { plan.now ≡ examples.square_plan }
    requires domain { IsDomain (network topo.now) domain }
{
    reach_breach(alloc, topo, plan, domain)
}

/// Both links of the tray bring about a cycle, and starve its devices.
fn assert_tray(rt: &(impl Abort + AllocGlobal), topo: &Topology, plan: &Plan) -> Result<(), Fail>
    requires square { IsSquare (network topo.now) }
    requires plan { plan.now ≡ examples.square_plan }
{
    let alloc = rt.alloc();
    assert!(rt; topo.domains() == 1);
    assert!(rt; at_root(alloc, topo, plan, Listed(0))?.is_none());
    let Some(round) = cycle(alloc, topo, plan, Listed(0))? else {
        panic!(rt; "both links may fail, and no cycle is shown");
    };
    assert_eq!(rt; round.as_slice(), [2, 3].as_slice());
    assert!(rt; deserted(alloc, topo, plan, Listed(0))?.is_none());
    let Some(starved) = chain(alloc, topo, plan, Listed(0))? else {
        panic!(rt; "both links may fail, and no chain is shown");
    };
    assert_eq!(rt; starved.as_slice(), [2, 3].as_slice());
    Ok(())
}

/// One of them alone breaks no condition.
fn assert_link(rt: &(impl Abort + AllocGlobal), topo: &Topology, plan: &Plan) -> Result<(), Fail>
    requires square { IsSquare (network topo.now) }
    requires plan { plan.now ≡ examples.square_plan }
{
    let alloc = rt.alloc();
    assert!(rt; at_root(alloc, topo, plan, Link(1))?.is_none());
    assert!(rt; cycle(alloc, topo, plan, Link(1))?.is_none());
    assert!(rt; cycle(alloc, topo, plan, Link(3))?.is_none());
    assert!(rt; deserted(alloc, topo, plan, Link(1))?.is_none());
    assert!(rt; chain(alloc, topo, plan, Link(1))?.is_none());
    Ok(())
}

fn assert_square(rt: &(impl Abort + AllocGlobal), topo: &Topology, plan: &Plan) -> Result<(), Fail>
    requires square { IsSquare (network topo.now) }
    requires plan { plan.now ≡ examples.square_plan }
{
    assert_tray(rt, topo, plan)?;
    assert_link(rt, topo, plan)
}

#[test]
fn conditions_of_a_square(rt: HostRuntime) -> Result<(), Fail> {
    let plan = square_plan(rt.alloc())?;
    let topo = square(rt.alloc())?;
    let asserted = assert_square(&rt, &topo, &plan);
    drop(topo);
    drop(plan);
    asserted
}
