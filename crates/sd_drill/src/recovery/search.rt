//! How devices recover: a search that settles each after those to which its hops lead.
ghost use Rattle.std.specs.Prelude.{◌≡◌, length, IfOk};

use crate::recovery::hops::hops_of;
use crate::recovery::marks::{Mark, first_new, settled_at};
use crate::recovery::{Recovery, settle};
use sd_checker::check_hit::Outage;
use sd_num::NoMemory;
use sd_plan::topo::Topology;
use std::alloc::Global;

/// How devices recover, as far as it was asked, in room that serves one domain after another.
#[derive(Drop)]
pub struct Recoveries {
    /// By device.
    marks: Vec<Mark>,
    /// The devices that were entered and are not settled: hops lead from each to the next.
    stack: Vec<u32>,
}

/// A mark for each device.
fn new_marks(alloc: Global, count: u32) -> Result<Vec<Mark>, NoMemory>
    ensures { IfOk result (λ marks. length marks.items ≡ count) }
{
    match vec![in alloc; Mark::New; count as usize] {
        Ok(marks) => Ok(marks),
        Err(_) => Err(NoMemory),
    }
}

impl Recoveries {
    ghost use Rattle.std.specs.Prelude.{◌≢◌, ℕ, ◌+◌, ◌<◌, [], OnOk};
    ghost use Rattle.sd_checker.specs.check_loop.Loops.{HasNoCycle};
    ghost use Rattle.sd_checker.specs.check_hit.Outages.{net_of, plan_of};
    ghost use Rattle.sd_plan.specs.topo.Topologies.{network};
    ghost use Rattle.sd_drill.specs.recovery.Recoveries.{IsRecovery};
    ghost use Rattle.sd_drill.specs.recovery.Searches as searches;
    ghost use Rattle.sd_drill.specs.recovery.Searches.{HasRoom, HasStepped, IsReadyFor, IsSearch, Leads, NoneNewer, mark_at, stacked_at};
    ghost use Rattle.sd_drill.specs.declared.recovery.marks.Mark.TheVariants as mark;

    /// Room for the devices of a topology.
    pub fn new(alloc: Global, topo: &Topology) -> Result<Recoveries, NoMemory>
        ensures { IfOk result (HasRoom (network topo.now)) }
    {
        let marks = new_marks(alloc, topo.devices())?;
        Ok(Recoveries {
            marks,
            stack: Vec::new(alloc),
        })
    }

    /// Forgets what was found out, so that another domain can be asked about.
    pub(crate) fn clear(&mut self)
        ensures marks { length self.new.marks.items ≡ length self.old.marks.items }
        ensures new { (d : ℕ) → mark_at self.new.marks.items d ≡ mark.New }
        ensures stack { self.new.stack.items ≡ [] }
    {
        self.stack.clear();
        self.marks.fill(Mark::New);
    }

    /// Enters a new device, to which the one on top of the stack leads.
    fn enter(&mut self, outage: &Outage<'_>, next: u32) -> Result<(), NoMemory>
        requires searched { IsSearch (net_of outage.now) (plan_of outage.now) outage.now.domain
            self.old.marks.items self.old.stack.items }
        requires device { next < length (net_of outage.now).devices }
        requires new { mark_at self.old.marks.items next ≡ mark.New }
        requires led { (k : ℕ) → k + 1 ≡ length self.old.stack.items
            → Leads (net_of outage.now) (plan_of outage.now) outage.now.domain
            (stacked_at self.old.stack.items k) next }
        ensures stepped { OnOk result
            (HasStepped (net_of outage.now) (plan_of outage.now) outage.now.domain self.old
            self.new) }
        ensures entered { OnOk result (mark_at self.new.marks.items next ≡ mark.Entered) }
        ensures size { length self.new.marks.items ≡ length self.old.marks.items }
    {
        let Ok(()) = self.stack.push(next) else {
            return Err(NoMemory);
        };
        self.marks[next as usize] = Mark::Entered;
        Ok(())
    }

    /// Takes the device off the stack that is on top, since it is settled.
    fn finish(&mut self, outage: &Outage<'_>, top: u32, recovery: Recovery)
        requires searched { IsSearch (net_of outage.now) (plan_of outage.now) outage.now.domain
            self.old.marks.items self.old.stack.items }
        requires top { (k : ℕ) → k + 1 ≡ length self.old.stack.items
            → stacked_at self.old.stack.items k ≡ top }
        requires some { 0 < length self.old.stack.items }
        requires recovery { IsRecovery (net_of outage.now) (plan_of outage.now) outage.now.domain
            top recovery }
        ensures stepped { HasStepped (net_of outage.now) (plan_of outage.now) outage.now.domain
            self.old self.new }
        ensures size { length self.new.marks.items ≡ length self.old.marks.items }
    {
        self.marks[top as usize] = Mark::Settled(recovery);
        let _ = self.stack.pop();
    }

    /// One step of the search, at the top of the stack.
    fn turn(&mut self, outage: &Outage<'_>, top: u32) -> Result<(), NoMemory>
        requires acyclic { HasNoCycle (net_of outage.now) (plan_of outage.now) outage.now.domain }
        requires searched { IsSearch (net_of outage.now) (plan_of outage.now) outage.now.domain
            self.old.marks.items self.old.stack.items }
        requires top { (k : ℕ) → k + 1 ≡ length self.old.stack.items
            → stacked_at self.old.stack.items k ≡ top }
        requires some { 0 < length self.old.stack.items }
        ensures stepped { OnOk result
            (HasStepped (net_of outage.now) (plan_of outage.now) outage.now.domain self.old
            self.new) }
        ensures size { length self.new.marks.items ≡ length self.old.marks.items }
    {
        let hops = hops_of(outage, top);
        match first_new(&self.marks, hops) {
            Some(next) => self.enter(outage, next),
            None => {
                let recovery = settle(outage, &self.marks, top, hops);
                self.finish(outage, top, recovery);
                Ok(())
            }
        }
    }

    /// Settles a new device, and before it all to which hops lead from it.
    fn settle_from(&mut self, outage: &Outage<'_>, start: u32) -> Result<(), NoMemory>
        requires acyclic { HasNoCycle (net_of outage.now) (plan_of outage.now) outage.now.domain }
        requires searched { IsSearch (net_of outage.now) (plan_of outage.now) outage.now.domain
            self.old.marks.items self.old.stack.items }
        requires alone { self.old.stack.items ≡ [] }
        requires device { start < length (net_of outage.now).devices }
        requires new { mark_at self.old.marks.items start ≡ mark.New }
        ensures searched { OnOk result
            (IsSearch (net_of outage.now) (plan_of outage.now) outage.now.domain
            self.new.marks.items []) }
        ensures alone { OnOk result (self.new.stack.items ≡ []) }
        ensures newer { OnOk result (NoneNewer self.old.marks.items self.new.marks.items) }
        ensures started { OnOk result (mark_at self.new.marks.items start ≢ mark.New) }
        ensures size { length self.new.marks.items ≡ length self.old.marks.items }
    {
        self.enter(outage, start)?;
        while let Some(top) = self.stack.last().copied() {
            self.turn(outage, top)?;
        }
        Ok(())
    }

    /// Whether nothing is known of a device.
    fn is_new(&self, d: u32) -> bool
        requires { d < length self.now.marks.items }
        ensures { result ≡ searches.is_new (mark_at self.now.marks.items d) }
    {
        matches!(self.marks[d as usize], Mark::New)
    }

    /// Sees to it that a device is settled.
    fn visit(&mut self, outage: &Outage<'_>, d: u32) -> Result<(), NoMemory>
        requires acyclic { HasNoCycle (net_of outage.now) (plan_of outage.now) outage.now.domain }
        requires ready { IsReadyFor (net_of outage.now) (plan_of outage.now) outage.now.domain
            self.old }
        requires device { d < length (net_of outage.now).devices }
        ensures ready { OnOk result
            (IsReadyFor (net_of outage.now) (plan_of outage.now) outage.now.domain self.new) }
        ensures old { OnOk result (mark_at self.new.marks.items d ≢ mark.New) }
        ensures room { HasRoom (net_of outage.now) self.new }
    {
        if self.is_new(d) {
            self.settle_from(outage, d)?;
        }
        Ok(())
    }

    /// How a device recovers from the domain that is asked about, under which hops lead in no circle.
    /// What is found out on the way serves those that are asked about later: no device is looked at
    /// more often than it has hops, and once more.
    pub fn of(&mut self, outage: &Outage<'_>, d: u32) -> Result<Recovery, NoMemory>
        requires acyclic { HasNoCycle (net_of outage.now) (plan_of outage.now) outage.now.domain }
        requires ready { IsReadyFor (net_of outage.now) (plan_of outage.now) outage.now.domain
            self.old }
        requires device { d < length (net_of outage.now).devices }
        ensures recovery { IfOk result
            (IsRecovery (net_of outage.now) (plan_of outage.now) outage.now.domain d) }
        ensures ready { OnOk result
            (IsReadyFor (net_of outage.now) (plan_of outage.now) outage.now.domain self.new) }
        ensures room { HasRoom (net_of outage.now) self.new }
    {
        self.visit(outage, d)?;
        Ok(settled_at(outage, &self.marks, d))
    }
}
