//! How the lines of devices end that have a bound. One that is printed serves until the device has
//! another bound, and most domains change the bounds of few devices.
ghost use Rattle.std.specs.Prelude.{◌≡◌, ◌≤◌, ◌<◌, ◌++◌, ◌∷◌, [], length, decimal, slice_index_or, None, Some, IfOk};
ghost use Rattle.sd_drill_text.specs.Endings.{AreEndings, IsEndingOf, ending_of};
ghost use Rattle.sd_drill_text.specs.declared.endings.CachedSuffix.{CachedSuffix as CachedSuffixSeen};
ghost use Rattle.sd_io.specs.outside.Printed.{printed};
ghost use Rattle.sd_plan.specs.topo.Network as names;
ghost use Rattle.sd_plan.specs.topo.Topologies.{network};

use crate::lines::device_name;
use itoa::write_digits;
use sd_io::outside::LineBuffer;
use sd_num::NoMemory;
use sd_plan::topo::Topology;
use std::alloc::Global;

/// How the line of a device ends.
#[derive(Drop)]
pub(crate) struct CachedSuffix {
    /// The bound that is printed, if one is.
    bound: Option<u128>,
    /// The name of the device, its bound and the end of the line.
    text: LineBuffer,
}

/// Adds a space, the digits of a number and the end of the line, all at once.
fn push_number(text: &mut LineBuffer, number: u64)
    requires { length (printed text.old) ≤ 64 }
    ensures { printed text.new ≡ printed text.old ++ 32 ∷ decimal number ++ 10 ∷ [] }
{
    let mut bytes = [b'\n'; 22];
    let start = write_digits(number, &mut bytes, 21);
    bytes[start - 1] = b' ';
    text.push(&bytes[start - 1..]);
}

/// Adds the same of a number that may have more digits.
fn push_wide_number(text: &mut LineBuffer, number: u128)
    requires { length (printed text.old) ≤ 64 }
    ensures { printed text.new ≡ printed text.old ++ 32 ∷ decimal number ++ 10 ∷ [] }
{
    text.push(b" ");
    text.push_number(number);
    text.push(b"\n");
}

/// Adds a bound after the name of a device, and the end of the line.
fn push_bound(text: &mut LineBuffer, bound: u128)
    requires { length (printed text.old) ≤ 64 }
    ensures { printed text.new ≡ printed text.old ++ 32 ∷ decimal bound ++ 10 ∷ [] }
{
    match u64::try_from(bound) {
        Ok(number) => push_number(text, number),
        Err(_) => push_wide_number(text, bound),
    }
}

impl CachedSuffix {
    /// Room for an ending; none is printed.
    fn new(alloc: Global) -> Result<CachedSuffix, NoMemory>
        ensures { IfOk result (λ ending. ending.bound ≡ None) }
    {
        let text = LineBuffer::new(alloc)?;
        Ok(CachedSuffix { bound: None, text })
    }

    /// What was printed last.
    pub(crate) fn as_bytes(&self) -> &[u8]
        ensures { result.now ≡ printed self.now.text }
    {
        self.text.printed()
    }

    /// Prints the ending of a device with this name and this bound.
    fn print(&mut self, device: &str, bound: u128)
        requires { length device.now ≤ 64 }
        ensures text { printed self.new.text ≡ ending_of device.now bound }
        ensures bound { self.new.bound ≡ Some bound }
    {
        self.text.clear();
        self.text.push(device.as_bytes());
        push_bound(&mut self.text, bound);
        self.bound = Some(bound);
    }

    /// Sees to it that the ending of the device with this bound is printed.
    fn show(&mut self, topo: &Topology, d: u32, bound: u128)
        requires device { d < length (network topo.now).devices }
        requires ending { IsEndingOf (names.device_name (network topo.now) d) self.old }
        ensures text { printed self.new.text
            ≡ ending_of (names.device_name (network topo.now) d) bound }
        ensures bound { self.new.bound ≡ Some bound }
    {
        match self.bound {
            Some(known) if known == bound => {}
            _ => self.print(device_name(topo, d), bound),
        }
    }
}

/// Sees to it that the ending of a device with this bound is printed.
pub(crate) fn show_ending(endings: &mut [CachedSuffix], topo: &Topology, d: u32, bound: u128)
    requires device { d < length (network topo.now).devices }
    requires endings { AreEndings (network topo.now) endings.old }
    ensures shown { (other : CachedSuffixSeen) → printed (slice_index_or endings.new d other).text
        ≡ ending_of (names.device_name (network topo.now) d) bound }
    ensures endings { AreEndings (network topo.now) endings.new }
{
    endings[d as usize].show(topo, d, bound);
}

/// Room for an ending of each device.
pub(crate) fn no_endings(alloc: Global, topo: &Topology) -> Result<Vec<CachedSuffix>, NoMemory>
    ensures { IfOk result (λ endings. AreEndings (network topo.now) endings.items) }
{
    let devices = topo.devices();
    let Ok(mut endings) = Vec::with_capacity(alloc, devices as usize) else {
        return Err(NoMemory);
    };
    for _ in 0..devices {
        let ending = CachedSuffix::new(alloc)?;
        endings.push_reserved(ending);
    }
    Ok(endings)
}
