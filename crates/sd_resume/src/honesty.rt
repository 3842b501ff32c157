//! Whether an opening is honest: then what breaks after it is broken after the first history too.
ghost use Rattle.std.specs.Prelude.{◌≡◌, ◌<◌, ◌^◌, true, false, List, length, OnOk, IfErr};
ghost use Rattle.sd_history.specs.World.{Setting, Seen, is_untouched as is_untouched_seen};
ghost use Rattle.sd_history.specs.Premises.{all_hold, broken_in};
ghost use Rattle.sd_world.specs.world.Registers.{reading_at};
ghost use Rattle.sd_premise.specs.Standing.{StandsFor, net_of};
ghost use Rattle.sd_resume.specs.Honesty.{OfHistories, failed_since, IsHonest, AreDishonest, HaveOffsets, HaveTicked, HaveTouched, AreHonestOf, AreHonestLives, AreHonestAt, AreHonestDevices, AreHonestLinks, devices_of_both, links_of_both};

use crate::differences::Dishonesty;
use sd_plan::topo::Thing;
use sd_premise::{BrokenSet, Premises};

/// Whether the second, an opening, is honest for the first: what breaks after it is broken after
/// the first too. Or a fact in which it is not. Both are over one network, and look alike.
///
/// It costs a look at each device and each link.
pub fn is_honest(first: &Premises, second: &Premises) -> Result<(), Dishonesty>
    ensures honest { OnOk result (OfHistories first.now second.now IsHonest) }
    ensures differs { IfErr result (AreDishonest first.now second.now) }
{
    if !none_is_broken(&second.broken()) {
        return Err(Dishonesty::Broken);
    }
    compare_devices(first, second)?;
    compare_links(first, second)?;
    Ok(())
}

/// Whether no premise is broken.
fn none_is_broken(broken: &BrokenSet) -> bool
    ensures { (setting : Setting) (seen : List Seen) → broken.now ≡ broken_in setting seen
        → result ≡ all_hold setting seen }
{
    !broken.start
        && !broken.drift
        && !broken.delay
        && !broken.tick
        && !broken.loss
        && !broken.domain
        && !broken.renew
}

/// The first device of which the opening is not honest, and in what.
fn compare_devices(first: &Premises, second: &Premises) -> Result<(), Dishonesty>
    ensures honest { OnOk result
        (AreHonestDevices first.now second.now (devices_of_both first.now second.now)) }
    ensures differs { IfErr result (AreDishonest first.now second.now) }
{
    for d in 0..devices_of_both(first, second) {
        compare_device(first, second, d)?;
    }
    Ok(())
}

/// How many devices both have: over one network all.
fn devices_of_both(first: &Premises, second: &Premises) -> u32
    ensures { result ≡ devices_of_both first.now second.now }
{
    let devices = first.topology().devices();
    devices.min(second.topology().devices())
}

/// In what the opening is not honest of a device.
fn compare_device(first: &Premises, second: &Premises, d: u32) -> Result<(), Dishonesty>
    requires first { d < length (net_of first.now).devices }
    requires second { d < length (net_of second.now).devices }
    ensures honest { OnOk result (AreHonestAt first.now second.now d) }
    ensures differs { IfErr result (AreDishonest first.now second.now) }
{
    compare_lives(first, second, d)?;
    if second.ticks().is_awaited(d) {
        return Err(Dishonesty::Awaited { device: d });
    }
    if !knows_as_much(first, second, d) {
        return Err(Dishonesty::Untouched { device: d });
    }
    let thing = Thing::Device(d);
    if !failed_in_both(first, second, thing) {
        return Err(Dishonesty::FailedSince { thing });
    }
    Ok(())
}

/// In what the opening is not honest of the present life of a device, where it is up.
fn compare_lives(first: &Premises, second: &Premises, d: u32) -> Result<(), Dishonesty>
    requires first { d < length (net_of first.now).devices }
    requires second { d < length (net_of second.now).devices }
    ensures honest { OnOk result (AreHonestLives first.now second.now d) }
    ensures differs { IfErr result (AreDishonest first.now second.now) }
{
    if !second.world().is_up(d) {
        return Ok(());
    }
    if !allows_as_much(first, second, d) {
        return Err(Dishonesty::Drift { device: d });
    }
    if !ticked_as_late(first, second, d) {
        return Err(Dishonesty::Tick { device: d });
    }
    Ok(())
}

/// Whether no offset of a device's present life in the first is greater than in the opening.
fn allows_as_much(first: &Premises, second: &Premises, d: u32) -> bool
    requires first { d < length (net_of first.now).devices }
    requires second { d < length (net_of second.now).devices }
    ensures offsets { HaveOffsets first.now second.now d result }
    ensures reference { second.now.world.reference < 2 ^ 64 }
    ensures reading { reading_at second.now.world d < 2 ^ 64 }
{
    // the proof learns from these that what was read fits its words
    let _: (u64, u64) = (second.world().reference(), second.world().reading(d));
    first
        .drift()
        .offsets(d)
        .are_at_most(second.drift().offsets(d))
}

/// Whether the latest tick of a device is no earlier in the opening.
fn ticked_as_late(first: &Premises, second: &Premises, d: u32) -> bool
    requires first { d < length (net_of first.now).devices }
    requires second { d < length (net_of second.now).devices }
    ensures { HaveTicked first.now second.now d result }
{
    first.ticks().latest(d) <= second.ticks().latest(d)
}

/// Whether the opening has made or failed a device, or the first has not.
fn knows_as_much(first: &Premises, second: &Premises, d: u32) -> bool
    requires first { d < length (net_of first.now).devices }
    requires second { d < length (net_of second.now).devices }
    ensures { HaveTouched first.now second.now d result }
{
    let one = is_untouched(first, d);
    let other = is_untouched(second, d);
    one || !other
}

/// Whether a device was neither made nor failed.
fn is_untouched(premises: &Premises, d: u32) -> bool
    requires { d < length (net_of premises.now).devices }
    ensures { (setting : Setting) (seen : List Seen) → StandsFor premises.now setting seen
        → result ≡ is_untouched_seen seen d }
{
    let world = premises.world();
    !world.was_made(d) && !world.has_ever_failed(d)
}

/// The first link that failed since the latest closing in one of the two alone.
fn compare_links(first: &Premises, second: &Premises) -> Result<(), Dishonesty>
    ensures honest { OnOk result
        (AreHonestLinks first.now second.now (links_of_both first.now second.now)) }
    ensures differs { IfErr result (AreDishonest first.now second.now) }
{
    for l in 0..links_of_both(first, second) {
        let thing = Thing::Link(l);
        if !failed_in_both(first, second, thing) {
            return Err(Dishonesty::FailedSince { thing });
        }
    }
    Ok(())
}

/// How many links both have: over one network all.
fn links_of_both(first: &Premises, second: &Premises) -> u32
    ensures { result ≡ links_of_both first.now second.now }
{
    let links = first.topology().links();
    links.min(second.topology().links())
}

/// Whether the thing failed since the latest closing in both, or in none.
fn failed_in_both(first: &Premises, second: &Premises, thing: Thing) -> bool
    ensures same { result ≡ true → AreHonestOf first.now second.now thing }
    ensures differs { result ≡ false
        → AreDishonest first.now second.now (Dishonesty.FailedSince thing) }
{
    has_failed(first, thing) == has_failed(second, thing)
}

/// Whether the thing failed since the latest closing.
fn has_failed(premises: &Premises, thing: Thing) -> bool
    ensures { (setting : Setting) (seen : List Seen) → StandsFor premises.now setting seen
        → result ≡ failed_since seen thing }
{
    let failed = premises.failures().failed();
    match thing {
        Thing::Device(d) => failed.contains_device(d),
        Thing::Link(l) => failed.contains_link(l),
    }
}
