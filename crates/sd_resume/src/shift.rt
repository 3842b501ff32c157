//! How the numbers of two fleets correspond.
ghost use Rattle.std.specs.Prelude.{◌≡◌, ◌≢◌, true, false};
ghost use Rattle.sd_resume.specs.law.Shifts.{raised_epoch, raised_stamp};
ghost use Rattle.sd_resume.specs.Numbers.{shift_of};

use sd_device::msg::Stamp;

/// By how much the numbers of the first of two fleets are greater.
#[derive(Clone, Copy, Debug, PartialEq, Eq)]
pub struct Shift {
    /// How many plans of the first the second leaves out.
    pub plans: u32,
    /// How many messages the first has sent.
    pub messages: u64,
    /// The term of the first for which term 0 of the second stands.
    pub term: u32,
    /// The round of that term for which round 0 stands.
    pub round: u64,
}

impl Shift {
    /// Whether the first plan number is the second, raised.
    pub(crate) fn raises_epoch(&self, one: u32, other: u32) -> bool
        ensures same { result ≡ true → one ≡ raised_epoch (shift_of self.now) other }
        ensures differs { result ≡ false → one ≢ raised_epoch (shift_of self.now) other }
    {
        u64::from(one) == self.raised_epoch(other)
    }

    /// The number that a plan of the second has in the first.
    #[tactic(auto, using(crate::proofs::Raising::epoch_none, crate::proofs::Raising::epoch_some))]
    fn raised_epoch(&self, epoch: u32) -> u64
        ensures { result ≡ raised_epoch (shift_of self.now) epoch }
    {
        if epoch == 0 {
            0
        } else {
            u64::from(epoch) + u64::from(self.plans)
        }
    }

    /// Whether the first stamp is the second, raised.
    #[tactic(auto, using(crate::proofs::Raising::stamp_is, crate::proofs::Raising::stamp_parts))]
    pub(crate) fn raises_stamp(&self, one: Stamp, other: Stamp) -> bool
        ensures same { result ≡ true → one ≡ raised_stamp (shift_of self.now) other }
        ensures differs { result ≡ false → one ≢ raised_stamp (shift_of self.now) other }
    {
        u64::from(one.term) == u64::from(other.term) + u64::from(self.term)
            && u128::from(one.round) == self.raised_round(other)
    }

    /// The round that a stamp of the second has in the first.
    #[tactic(auto, using(crate::proofs::Raising::first_round, crate::proofs::Raising::later_round))]
    fn raised_round(&self, stamp: Stamp) -> u128
        ensures { result ≡ (raised_stamp (shift_of self.now) stamp).round }
    {
        let round = u128::from(stamp.round);
        if stamp.term == 0 {
            round + u128::from(self.round)
        } else {
            round
        }
    }
}
