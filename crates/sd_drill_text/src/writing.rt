//! Writing what is printed of a plan, domain by domain.
ghost use Rattle.std.specs.Prelude.{◌≡◌, ◌∷◌, [], Err, IfErr, IfOk};
ghost use Rattle.sd_drill_text.specs.Adding.{AddsAll, AddsLines};
ghost use Rattle.sd_drill_text.specs.Kinds.{all_of};
ghost use Rattle.sd_drill_text.specs.Rooms.{IsRoomFor, KeepsRoom};
ghost use Rattle.sd_files.specs.Writes.{Adds};
ghost use Rattle.sd_plan.specs.domain.Domains.{domains};
ghost use Rattle.sd_plan.specs.domain.Lone.{IsDomain};
ghost use Rattle.sd_drill.specs.Budgets.{IsBudget};
ghost use Rattle.sd_checker.specs.Conditions.{IsAccepted};
ghost use Rattle.sd_drill.specs.Printed.{done_line};
ghost use Rattle.sd_io.specs.outside.Causes.{RisesFor};
ghost use Rattle.sd_io.specs.outside.Pieces.{piece_of};
ghost use Rattle.sd_plan.specs.Plans.{Fits};
ghost use Rattle.sd_plan.specs.topo.Topologies.{network};

use crate::domain_lines::DomainLines;
use crate::kinds::Kind;
use crate::lines::print_done;
use crate::members::members_of;
use sd_drill::Budget;
use sd_files::{IoError, Status, send};
use sd_io::outside::{LineBuffer, Sink};
use sd_num::NoMemory;
use sd_plan::domain::DomainId;
use sd_plan::topo::Topology;
use sd_plan::{DeviceList, IndexedPlan, Plan, WalkIndex};
use std::alloc::Global;

/// What prints one domain after another, and the members of the plan.
#[derive(Drop)]
struct Room<D: DomainLines> {
    lines: D,
    members: DeviceList,
    /// Room for the last line.
    last: LineBuffer,
}

impl<D: DomainLines> Room<D> {
    /// Room for a plan.
    fn new(alloc: Global, planned: IndexedPlan<'_>, budget: Budget) -> Result<Room<D>, NoMemory>
        requires { IsBudget budget }
        ensures room { IfOk result (IsRoomFor D.DomainLines
            (network planned.entry.topo.now) planned.entry.plan.now) }
        ensures budget { IfOk result (λ room. D.granted room.lines ≡ budget) }
    {
        let lines = D::new(alloc, planned, budget)?;
        let members = members_of(alloc, planned)?;
        let last = LineBuffer::new(alloc)?;
        Ok(Room {
            lines,
            members,
            last,
        })
    }
}

/// Prints a domain and writes its lines by one write.
fn write_domain<D: DomainLines, O: Sink>(
    alloc: Global,
    planned: IndexedPlan<'_>,
    room: &mut Room<D>,
    domain: DomainId,
    out: &mut O,
) -> Result<(), IoError>
    requires accepted { IsAccepted (network planned.topo.now) planned.plan.now }
    requires domain { IsDomain (network planned.topo.now) domain }
    requires room { IsRoomFor D.DomainLines (network planned.topo.now) planned.plan.now room.old }
    ensures adds { AddsLines
        (D.lines (network planned.entry.topo.now) planned.entry.plan.now (D.granted room.old.lines))
        (domain ∷ []) (O.written out.old) (O.written out.new) result }
    ensures room { KeepsRoom D.DomainLines (network planned.entry.topo.now)
        planned.entry.plan.now room.old room.new }
    ensures sink { RisesFor (result ≡ Err IoError.Sink) (O.faults out.old) (O.faults out.new) }
{
    match room
        .lines
        .print(alloc, planned, room.members.as_slice(), domain)
    {
        Ok(()) => send(out, room.lines.printed()),
        Err(NoMemory) => Err(IoError::Memory),
    }
}

/// Writes the domains of a kind.
fn write_kind<D: DomainLines, O: Sink>(
    alloc: Global,
    planned: IndexedPlan<'_>,
    room: &mut Room<D>,
    kind: Kind,
    out: &mut O,
) -> Result<(), IoError>
    requires accepted { IsAccepted (network planned.topo.now) planned.plan.now }
    requires room { IsRoomFor D.DomainLines (network planned.topo.now) planned.plan.now room.old }
    ensures adds { AddsLines
        (D.lines (network planned.entry.topo.now) planned.entry.plan.now (D.granted room.old.lines))
        (all_of (network planned.entry.topo.now) kind) (O.written out.old) (O.written out.new)
        result }
    ensures room { KeepsRoom D.DomainLines (network planned.entry.topo.now)
        planned.entry.plan.now room.old room.new }
    ensures sink { RisesFor (result ≡ Err IoError.Sink) (O.faults out.old) (O.faults out.new) }
{
    for number in 0..kind.count(planned.topo) {
        write_domain(alloc, planned, room, kind.domain(number), out)?;
    }
    Ok(())
}

/// Writes all domains.
fn write_domains<D: DomainLines, O: Sink>(
    alloc: Global,
    planned: IndexedPlan<'_>,
    room: &mut Room<D>,
    out: &mut O,
) -> Result<(), IoError>
    requires accepted { IsAccepted (network planned.topo.now) planned.plan.now }
    requires room { IsRoomFor D.DomainLines (network planned.topo.now) planned.plan.now room.old }
    ensures adds { AddsLines
        (D.lines (network planned.entry.topo.now) planned.entry.plan.now (D.granted room.old.lines))
        (domains (network planned.entry.topo.now)) (O.written out.old) (O.written out.new) result }
    ensures room { KeepsRoom D.DomainLines (network planned.entry.topo.now)
        planned.entry.plan.now room.old room.new }
    ensures sink { RisesFor (result ≡ Err IoError.Sink) (O.faults out.old) (O.faults out.new) }
{
    write_kind(alloc, planned, room, Kind::Listed, out)?;
    write_kind(alloc, planned, room, Kind::Device, out)?;
    write_kind(alloc, planned, room, Kind::Link, out)
}

/// Writes the last line.
fn write_done<D: DomainLines, O: Sink>(
    room: &mut Room<D>,
    planned: IndexedPlan<'_>,
    out: &mut O,
) -> Result<Status, IoError>
    requires { IsRoomFor D.DomainLines (network planned.topo.now) planned.plan.now room.old }
    ensures writes { Adds
        (piece_of (done_line (network planned.entry.topo.now) planned.entry.plan.now))
        (O.written out.old) (O.written out.new) result }
    ensures status { IfOk result (λ status. status ≡ Status.Done) }
    ensures only { IfErr result (λ why. why ≡ IoError.Sink) }
    ensures sink { RisesFor (result ≡ Err IoError.Sink) (O.faults out.old) (O.faults out.new) }
{
    let topo = planned.topo;
    let domains = topo.domains() + topo.devices() + topo.links();
    let members = room.members.as_slice().len();
    print_done(&mut room.last, domains, members);
    match send(out, room.last.printed()) {
        Ok(()) => Ok(Status::Done),
        Err(stop) => Err(stop),
    }
}

/// Writes all domains and the last line.
fn write_whole<D: DomainLines, O: Sink>(
    alloc: Global,
    planned: IndexedPlan<'_>,
    room: &mut Room<D>,
    out: &mut O,
) -> Result<Status, IoError>
    requires accepted { IsAccepted (network planned.topo.now) planned.plan.now }
    requires room { IsRoomFor D.DomainLines (network planned.topo.now) planned.plan.now room.old }
    ensures adds { AddsAll
        (D.lines (network planned.entry.topo.now) planned.entry.plan.now (D.granted room.old.lines))
        (network planned.entry.topo.now) planned.entry.plan.now (O.written out.old)
        (O.written out.new) result }
    ensures sink { RisesFor (result ≡ Err IoError.Sink) (O.faults out.old) (O.faults out.new) }
{
    write_domains(alloc, planned, room, out)?;
    write_done(room, planned, out)
}

/// Writes an accepted plan that is indexed.
fn write_indexed<D: DomainLines, O: Sink>(
    alloc: Global,
    planned: IndexedPlan<'_>,
    budget: Budget,
    out: &mut O,
) -> Result<Status, IoError>
    requires accepted { IsAccepted (network planned.topo.now) planned.plan.now }
    requires budget { IsBudget budget }
    ensures adds { AddsAll
        (D.lines (network planned.entry.topo.now) planned.entry.plan.now budget)
        (network planned.entry.topo.now) planned.entry.plan.now
        (O.written out.old) (O.written out.new) result }
    ensures sink { RisesFor (result ≡ Err IoError.Sink) (O.faults out.old) (O.faults out.new) }
{
    match Room::<D>::new(alloc, planned, budget) {
        Ok(mut room) => write_whole(alloc, planned, &mut room, out),
        Err(NoMemory) => Err(IoError::Memory),
    }
}

/// Writes an accepted plan: for each domain in order, by one write, what is printed of it, and then
/// how many domains and members there are. Both numbers of the budget are at most 2^60.
pub(crate) fn write_plan<D: DomainLines, O: Sink>(
    alloc: Global,
    topo: &Topology,
    plan: &Plan,
    budget: Budget,
    out: &mut O,
) -> Result<Status, IoError>
    requires fits { Fits (network topo.now) plan.now }
    requires accepted { IsAccepted (network topo.now) plan.now }
    requires budget { IsBudget budget }
    ensures adds { AddsAll (D.lines (network topo.now) plan.now budget) (network topo.now)
        plan.now (O.written out.old)
        (O.written out.new) result }
    ensures sink { RisesFor (result ≡ Err IoError.Sink) (O.faults out.old) (O.faults out.new) }
{
    match WalkIndex::new(alloc, topo, plan) {
        Ok(index) => {
            let planned = IndexedPlan {
                topo,
                plan,
                index: &index,
            };
            write_indexed::<D, O>(alloc, planned, budget, out)
        }
        Err(NoMemory) => Err(IoError::Memory),
    }
}
