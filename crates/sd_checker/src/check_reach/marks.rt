//! Which hit devices come to hear the acting end again, found by following each next hop once.
ghost use Rattle.std.specs.Prelude.{◌≡◌, ◌<◌, ℕ, true, length, slice_get, Some, IfOk};
ghost use Rattle.sd_num.specs.Lists.{has};
ghost use Rattle.sd_checker.specs.check_reach.Turns.{is_unfed, IsMarkedFed};

use crate::check_reach::aftermath::Aftermath;
use crate::check_reach::turn::Turn;
use sd_num::NoMemory;
use std::alloc::Global;

/// What is known of a hit device.
#[derive(Clone, Copy)]
pub(crate) enum Mark {
    Unseen,
    Fed,
    Unfed,
}

impl Mark {
    /// Whether the device does not come to hear the acting end.
    pub(crate) fn is_unfed(self) -> bool
        ensures { result ≡ is_unfed self }
    {
        match self {
            Mark::Unfed => true,
            Mark::Unseen | Mark::Fed => false,
        }
    }
}

/// Marks for this many devices.
fn unseen(alloc: Global, count: usize) -> Result<Vec<Mark>, NoMemory>
    ensures { IfOk result (λ marks. (length marks.items ≡ count)
        × ((i : ℕ) → i < count → slice_get marks.items i ≡ Some Mark.Unseen)) }
{
    let mut marks = Vec::new(alloc);
    for _ in 0..count {
        match marks.push(Mark::Unseen) {
            Ok(()) => {}
            Err(_) => return Err(NoMemory),
        }
    }
    Ok(marks)
}

/// Marks all of a trail as fed.
fn mark_fed(marks: &mut [Mark], trail: &[usize])
    requires { (i : ℕ) → has trail.now i ≡ true → i < length marks.old }
    ensures { IsMarkedFed trail.now marks.old marks.new }
{
    for place in trail {
        marks[*place] = Mark::Fed;
    }
}

impl Aftermath<'_> {
    ghost use Rattle.std.specs.Prelude.{[], OnOk};
    ghost use Rattle.sd_checker.specs.check_reach.Aftermaths.{net_of, plan_of, domain_of, hit_of};
    ghost use Rattle.sd_checker.specs.check_reach.Turns.{AreMarks, AreSettled, IsFollowed};

    /// Follows next hops from a place to what is marked or needs no mark, and whether this is fed.
    /// All on the trail is marked as not fed meanwhile, so that a trail which comes back to itself
    /// ends there.
    fn follow(
        &self,
        trail: &mut Vec<usize>,
        marks: &mut [Mark],
        start: usize,
    ) -> Result<bool, NoMemory>
        requires marks { AreMarks (net_of self.now) (plan_of self.now) (domain_of self.now)
            (hit_of self.now)
            (λ _. ⊥) marks.old }
        requires place { start < length (hit_of self.now) }
        requires none { trail.old.items ≡ [] }
        ensures { IfOk result
            (λ fed. IsFollowed (net_of self.now) (plan_of self.now) (domain_of self.now)
            (hit_of self.now) start marks.old marks.new trail.new.items fed) }
    {
        let mut place = start;
        while let Mark::Unseen = marks[place] {
            marks[place] = Mark::Unfed;
            match trail.push(place) {
                Ok(()) => {}
                Err(_) => return Err(NoMemory),
            }
            match self.turn(self.outage.hit[place]) {
                Turn::Fed => return Ok(true),
                Turn::Lost => return Ok(false),
                Turn::To(next) => place = next,
            }
        }
        Ok(!marks[place].is_unfed())
    }

    /// Marks the device at a place, and all that its next hops lead to.
    fn mark_from(
        &self,
        trail: &mut Vec<usize>,
        marks: &mut [Mark],
        start: usize,
    ) -> Result<(), NoMemory>
        requires marks { AreMarks (net_of self.now) (plan_of self.now) (domain_of self.now)
            (hit_of self.now)
            (λ _. ⊥) marks.old }
        requires place { start < length (hit_of self.now) }
        ensures marks { OnOk result
            (AreMarks (net_of self.now) (plan_of self.now) (domain_of self.now) (hit_of self.now)
            (λ _. ⊥) marks.new) }
        ensures settled { OnOk result (AreSettled start marks.old marks.new) }
    {
        trail.clear();
        if self.follow(trail, marks, start)? {
            mark_fed(marks, trail.as_slice());
        }
        Ok(())
    }

    /// The marks of all hit devices.
    pub(crate) fn marks(&self, alloc: Global) -> Result<Vec<Mark>, NoMemory>
        ensures right { IfOk result
            (λ marks. AreMarks (net_of self.now) (plan_of self.now) (domain_of self.now)
            (hit_of self.now) (λ _. ⊥) marks.items) }
        ensures all { IfOk result (λ marks. (i : ℕ) → i < length (hit_of self.now)
            → slice_get marks.items i ≡ Some Mark.Unseen → ⊥) }
    {
        let mut marks = unseen(alloc, self.outage.hit.len())?;
        let mut trail = Vec::new(alloc);
        for place in 0..self.outage.hit.len() {
            self.mark_from(&mut trail, &mut marks, place)?;
        }
        Ok(marks)
    }
}
