//! What is kept while a schedule is driven.
ghost use Rattle.std.specs.Prelude.{◌≡◌, ◌≤◌, ◌<◌, ◌^◌, ◌%◌, [], map, length, slice_index, IfOk, OnOk};
ghost use Rattle.rand_core.specs.Steps.{first_words};
ghost use Rattle.rand_pcg.specs.Lcg.{advance};
ghost use Rattle.rand_pcg.specs.Pcg.{multiplier_64, pcg32};
ghost use Rattle.sd_plan.specs.topo.Limits.{IsNetwork};
ghost use Rattle.sd_history.specs.World.{Setting, is_up as is_up_seen};
ghost use Rattle.sd_history.specs.Steps.{seen_of};
ghost use Rattle.sd_gen.specs.Drafts.{Draft, counter_by, unstarted};

use crate::arrivals::Arrivals;
use crate::driven::Driven;
use rand_core::SeedableRng;
use rand_core::utils::NextWord;
use rand_pcg::Pcg32;
use sd_num::NoMemory;
use std::alloc::Global;

/// Drives a fleet of devices through a schedule, which is made as it goes on. It draws a word for
/// each message, and knows by it when the message comes.
#[derive(Drop)]
pub(crate) struct Driver<D: Driven> {
    pub driven: D,
    pub random: Pcg32,
    /// By how much each device's counter is faster than the slowest that there may be, in ppm.
    pub leads: Vec<u16>,
    pub arrivals: Arrivals,
}

/// Draws the lead of each device.
fn draw_leads(alloc: Global, random: &mut Pcg32, devices: u32) -> Result<Vec<u16>, NoMemory>
    ensures leads { IfOk result (λ leads. leads.items
        ≡ map (λ w. w % 301) (first_words pcg32 devices random.old)) }
    ensures random { OnOk result (random.new ≡ advance 64 multiplier_64 devices random.old) }
{
    let mut leads = Vec::new(alloc);
    'draws: for _ in 0..devices {
        let lead = (random.next_word() % 301) as u16;
        let Ok(()) = leads.push(lead) else {
            return Err(NoMemory);
        };
    }
    Ok(leads)
}

impl<D: Driven> Driver<D> {
    ghost use Rattle.sd_gen.specs.Standing.{HasDevices, StandsFor};

    /// A driver before any event, with the lead of each device drawn.
    pub fn new(alloc: Global, driven: D, number: u64) -> Result<Driver<D>, NoMemory>
        ensures { IfOk result (λ driver. (setting : Setting) → IsNetwork setting.net
            → D.stands driven setting []
            → StandsFor D.Driven driver setting (unstarted setting number)) }
    {
        let mut random = Pcg32::seed_from_u64(number);
        let devices = driven.fleet().devices();
        let leads = draw_leads(alloc, &mut random, devices)?;
        Ok(Driver {
            driven,
            random,
            leads,
            arrivals: Arrivals::new(alloc),
        })
    }

    /// How many devices there are.
    pub fn devices(&self) -> u32
        ensures { HasDevices D.Driven self.now result }
    {
        self.driven.fleet().devices()
    }

    /// What the counter of a device shows at a reference, in ps. A device that there is not has the
    /// slowest counter.
    pub fn counter(&self, d: u32, reference: u64) -> u64
        requires { reference ≤ 2 ^ 40 }
        ensures counter { result ≡ counter_by (slice_index self.now.leads.items d) reference }
        ensures within { result ≤ 2 ^ 60 }
    {
        let lead = match self.leads.get(d as usize) {
            Some(lead) => u64::from(*lead),
            None => 0,
        };
        reference - 150 * reference / 1_000_000 + lead * reference / 1_000_000
    }

    /// Whether there is such a device and it is up.
    pub fn is_up(&self, d: u32) -> bool
        ensures { (setting : Setting) (x : Draft) → StandsFor D.Driven self.now setting x
            → d < length setting.net.devices
            → result ≡ is_up_seen (seen_of x.steps) d }
    {
        let fleet = self.driven.fleet();
        d < fleet.devices() && fleet.is_up(d)
    }

    /// What was driven.
    pub fn into_driven(self) -> D
        ensures { result ≡ self.driven }
    {
        self.driven
    }
}
