//! Which premises are broken, and which of them with the latest event.
ghost use Rattle.std.specs.Prelude.{◌≡◌, IsTrue};
ghost use Rattle.sd_history.specs.Premises.{newly};
ghost use Rattle.sd_premise.specs.Breaking.{with_held};

use sd_history::BrokenSet;

/// No premise is broken.
pub const NONE_BROKEN: BrokenSet = BrokenSet {
    start: false,
    drift: false,
    delay: false,
    tick: false,
    loss: false,
    domain: false,
    renew: false,
};

/// Which premises hold still, of those that a tick or a receipt can break.
#[derive(Clone, Copy)]
pub(crate) struct Held {
    pub(crate) drift: bool,
    pub(crate) delay: bool,
    pub(crate) tick: bool,
    pub(crate) loss: bool,
}

/// Those that are broken now and were not before.
pub(crate) fn newly_broken(before: BrokenSet, now: BrokenSet) -> BrokenSet
    ensures { result ≡ newly before now }
{
    BrokenSet {
        start: now.start && !before.start,
        drift: now.drift && !before.drift,
        delay: now.delay && !before.delay,
        tick: now.tick && !before.tick,
        loss: now.loss && !before.loss,
        domain: now.domain && !before.domain,
        renew: now.renew && !before.renew,
    }
}

/// Keeps which premises are broken now, and answers those that were not before.
#[inline(always)]
pub(crate) fn break_now(broken: &mut BrokenSet, now: BrokenSet) -> BrokenSet
    ensures breaks { result ≡ newly broken.old now }
    ensures kept { broken.new ≡ now }
{
    let breaks = newly_broken(*broken, now);
    *broken = now;
    breaks
}

/// Keeps which of the four hold now, and answers what breaks. Mostly nothing does, and nothing is
/// written.
#[inline(always)]
pub(crate) fn note_held(broken: &mut BrokenSet, held: Held) -> BrokenSet
    ensures breaks { result ≡ newly broken.old (with_held broken.old held) }
    ensures kept { broken.new ≡ with_held broken.old held }
{
    if is_as_before(broken, held) {
        return NONE_BROKEN;
    }
    break_held(broken, held)
}

/// Whether each of the four holds where it is not broken, and nowhere else.
#[inline(always)]
fn is_as_before(broken: &BrokenSet, held: Held) -> bool
    ensures { IsTrue result → with_held broken.now held ≡ broken.now }
{
    held.drift != broken.drift
        && held.delay != broken.delay
        && held.tick != broken.tick
        && held.loss != broken.loss
}

/// The same where one of them breaks.
#[cold]
#[inline(never)]
fn break_held(broken: &mut BrokenSet, held: Held) -> BrokenSet
    ensures breaks { result ≡ newly broken.old (with_held broken.old held) }
    ensures kept { broken.new ≡ with_held broken.old held }
{
    let now = BrokenSet {
        drift: !held.drift,
        delay: !held.delay,
        tick: !held.tick,
        loss: !held.loss,
        ..*broken
    };
    break_now(broken, now)
}
