//! The page of a domain: the lines of its members, one after another.
ghost use Rattle.std.specs.Prelude.{◌≡◌, ◌++◌, ◌≤◌, ◌<◌, [], length, Some, None, IfOk, OnOk, codes};
ghost use Rattle.sd_drill_text.specs.Endings.{AreEndings};
ghost use Rattle.sd_drill_text.specs.Pages.{HasLine};
ghost use Rattle.sd_drill_text.specs.Printing.{IsShort, front_of, line_behind};
ghost use Rattle.sd_io.specs.outside.Printed.{printed};
ghost use Rattle.sd_plan.specs.topo.Topologies.{network};

use crate::endings::{CachedSuffix, no_endings, show_ending};
use crate::lines::{Named, device_name};
use sd_io::outside::LineBuffer;
use sd_num::NoMemory;
use sd_plan::topo::Topology;
use std::alloc::Global;

/// Room for what is printed of a domain. What stands before the name of a device is printed once for
/// all its lines, and what stands after serves until the bound is another.
#[derive(Drop)]
pub(crate) struct Page {
    /// What begins the line of a device with a bound. Once all domains are written the last line is
    /// printed here.
    pub(crate) bound_front: LineBuffer,
    /// What begins the line of a device with none.
    pub(crate) nobound_front: LineBuffer,
    /// By device, how its line ends.
    pub(crate) endings: Vec<CachedSuffix>,
    /// All lines so far.
    pub(crate) text: Vec<u8>,
}

/// Adds bytes to a text.
fn append(text: &mut Vec<u8>, bytes: &[u8]) -> Result<(), NoMemory>
    ensures { OnOk result (text.new.items ≡ text.old.items ++ bytes.now) }
{
    match text.extend_from_slice(bytes) {
        Ok(()) => Ok(()),
        Err(_) => Err(NoMemory),
    }
}

/// Prints what begins the lines of a domain, from their first word on.
fn print_front(front: &mut LineBuffer, word: &str, named: Named<'_>)
    requires word { length word.now ≤ 7 }
    requires short { IsShort named }
    ensures { printed front.new ≡ front_of word.now named.entry.kind.now named.entry.name.now }
{
    front.clear();
    front.push(word.as_bytes());
    front.push(b" ");
    front.push(named.kind.as_bytes());
    front.push(b" ");
    front.push(named.name.as_bytes());
    front.push(b" ");
}

impl Page {
    /// A page with no lines, for the devices of a topology.
    pub(crate) fn new(alloc: Global, topo: &Topology) -> Result<Page, NoMemory>
        ensures text { IfOk result (λ page. page.text.items ≡ []) }
        ensures endings { IfOk result (λ page. AreEndings (network topo.now) page.endings.items) }
    {
        let bound_front = LineBuffer::new(alloc)?;
        let nobound_front = LineBuffer::new(alloc)?;
        let endings = no_endings(alloc, topo)?;
        Ok(Page {
            bound_front,
            nobound_front,
            endings,
            text: Vec::new(alloc),
        })
    }

    /// Begins the page of a domain.
    pub(crate) fn begin(&mut self, named: Named<'_>)
        requires { IsShort named }
        ensures bound_front { printed self.new.bound_front
            ≡ front_of (codes "bound") named.entry.kind.now named.entry.name.now }
        ensures nobound_front { printed self.new.nobound_front
            ≡ front_of (codes "nobound") named.entry.kind.now named.entry.name.now }
        ensures text { self.new.text.items ≡ [] }
        ensures endings { self.new.endings.items ≡ self.old.endings.items }
    {
        self.text.clear();
        print_front(&mut self.bound_front, "bound", named);
        print_front(&mut self.nobound_front, "nobound", named);
    }

    /// Adds the line of a device's bound in ps.
    fn add_bound(&mut self, topo: &Topology, d: u32, bound: u128) -> Result<(), NoMemory>
        requires device { d < length (network topo.now).devices }
        requires endings { AreEndings (network topo.now) self.old.endings.items }
        ensures { HasLine (network topo.now) self.old self.new d (Some bound) result }
    {
        show_ending(&mut self.endings, topo, d, bound);
        append(&mut self.text, self.bound_front.printed())?;
        append(&mut self.text, self.endings[d as usize].as_bytes())
    }

    /// Adds the line of a device that has no bound.
    fn add_none(&mut self, device: &str) -> Result<(), NoMemory>
        ensures text { OnOk result (self.new.text.items ≡ self.old.text.items
            ++ line_behind (printed self.old.bound_front) (printed self.old.nobound_front)
            device.now None) }
        ensures bound_front { printed self.new.bound_front ≡ printed self.old.bound_front }
        ensures nobound_front { printed self.new.nobound_front ≡ printed self.old.nobound_front }
        ensures endings { self.new.endings.items ≡ self.old.endings.items }
    {
        append(&mut self.text, self.nobound_front.printed())?;
        append(&mut self.text, device.as_bytes())?;
        append(&mut self.text, b"\n")
    }

    /// Adds the line of a device's bound in ps, or that it has none.
    pub(crate) fn add(
        &mut self,
        topo: &Topology,
        d: u32,
        bound: Option<u128>,
    ) -> Result<(), NoMemory>
        requires device { d < length (network topo.now).devices }
        requires endings { AreEndings (network topo.now) self.old.endings.items }
        ensures { HasLine (network topo.now) self.old self.new d bound result }
    {
        match bound {
            Some(bound) => self.add_bound(topo, d, bound),
            None => self.add_none(device_name(topo, d)),
        }
    }
}
