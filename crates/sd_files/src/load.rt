//! The files of a command, each read whole and then as what it says.
ghost use Rattle.std.specs.Prelude.{◌≡◌, ◌≤◌, ◌&&◌, length, Err, IsTrue, IfOk, IfSome};
ghost use Rattle.sd_num.specs.Lists.{all_below, ascends};
ghost use Rattle.sd_io.specs.outside.Shelves.{KeepsShelf};
ghost use Rattle.sd_plan.specs.Plans.{Fits};
ghost use Rattle.sd_plan.specs.topo.Topologies.{network};
ghost use Rattle.sd_files.specs.Inputs.{topology_of, plan_in_file, absent_in_file};
ghost use Rattle.sd_files.specs.Loads.{Loads};
ghost use Rattle.sd_files.specs.Texts.{texts_of};

use crate::command_error::{CommandError, Input};
use crate::whole::read_file;
use sd_io::outside::Shelf;
use sd_plan::topo::Topology;
use sd_plan::{Absent, Plan};
use sd_plantext::{read_absent, read_plan};
use sd_topotext::read_topology;
use std::alloc::Global;

/// The topology of a file.
pub fn load_topology<S: Shelf>(
    alloc: Global,
    shelf: &mut S,
    name: &str,
) -> Result<Topology, CommandError>
    requires { IsTrue (S.serves shelf.old name.now) }
    ensures says { IfSome (S.held shelf.old)
        (λ held. Loads network (topology_of (texts_of held name.now)) result) }
    ensures shelf { KeepsShelf S.Shelf (result ≡ Err CommandError.Shelf) shelf.old shelf.new }
{
    let text = match read_file(alloc, shelf, name) {
        Ok(text) => text,
        Err(fault) => return Err(CommandError::unread(Input::Topology, fault)),
    };
    match read_topology(alloc, text.as_slice()) {
        Ok(topology) => Ok(topology),
        Err(fault) => Err(CommandError::by_topology(fault)),
    }
}

/// The plan of a file, which is the one at this place among the plans of the command.
pub fn load_plan<S: Shelf>(
    alloc: Global,
    shelf: &mut S,
    name: &str,
    topo: &Topology,
    place: u32,
) -> Result<Plan, CommandError>
    requires { IsTrue (S.serves shelf.old name.now) }
    ensures says { IfSome (S.held shelf.old)
        (λ held. Loads (λ plan. plan)
        (plan_in_file (network topo.now) place (texts_of held name.now)) result) }
    ensures fits { IfOk result (Fits (network topo.now)) }
    ensures shelf { KeepsShelf S.Shelf (result ≡ Err CommandError.Shelf) shelf.old shelf.new }
{
    let text = match read_file(alloc, shelf, name) {
        Ok(text) => text,
        Err(fault) => return Err(CommandError::unread(Input::Plan(place), fault)),
    };
    match read_plan(alloc, topo, text.as_slice()) {
        Ok(plan) => Ok(plan),
        Err(fault) => Err(CommandError::by_plan(Input::Plan(place), fault)),
    }
}

/// What a file says is absent.
pub fn load_absent<S: Shelf>(
    alloc: Global,
    shelf: &mut S,
    name: &str,
    topo: &Topology,
) -> Result<Absent, CommandError>
    requires { IsTrue (S.serves shelf.old name.now) }
    ensures says { IfSome (S.held shelf.old)
        (λ held. Loads (λ absent. absent)
        (absent_in_file (network topo.now) (texts_of held name.now)) result) }
    ensures devices { IfOk result
        (λ absent. IsTrue (ascends absent.devices
        && all_below (length (network topo.now).devices) absent.devices)) }
    ensures links { IfOk result
        (λ absent. IsTrue (ascends absent.links
        && all_below (length (network topo.now).links) absent.links)) }
    ensures shelf { KeepsShelf S.Shelf (result ≡ Err CommandError.Shelf) shelf.old shelf.new }
{
    let text = match read_file(alloc, shelf, name) {
        Ok(text) => text,
        Err(fault) => return Err(CommandError::unread(Input::Absent, fault)),
    };
    match read_absent(alloc, topo, text.as_slice()) {
        Ok(absent) => Ok(absent),
        Err(fault) => Err(CommandError::by_plan(Input::Absent, fault)),
    }
}
