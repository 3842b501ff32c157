//! What every kind of device states of itself: its steps as relations, what it owes and is owed, and its laws.
ghost use Rattle.std.specs.Prelude.{◌≡◌, ◌≤◌, ◌<◌, ◌+◌, ◌^◌, ◌⊎◌, ℕ, Bool, true, false, IsTrue, Option, Some, None, is_some, max, option_map};
ghost use Rattle.sd_plan.specs.topo.Limits.{IsRates};
ghost use Rattle.sd_num.specs.declared.clock.Report.{Report};
ghost use Rattle.sd_plan.specs.declared.Duty.{Duty};
ghost use Rattle.sd_plan.specs.declared.Role.TheVariants as role;
ghost use Rattle.sd_device.specs.declared.Effect.{Effect};
ghost use Rattle.sd_device.specs.declared.msg.Message.{Message};
ghost use Rattle.sd_device.specs.Calls.{Making, Started, Joined, Call, Tick, Receive, Fix, Give, Commit, Seal};
ghost use Rattle.sd_device.specs.Steps.{Keeps};
ghost use Rattle.sd_device.specs.Limits.{IsDuty, IfSent, IsUpTo, IsAsHighAs};

use crate::Effect;
use crate::msg::Message;
use sd_num::Rates;
use sd_num::clock::Report;
use sd_plan::Duty;

/// A device of any kind, by the steps that it states. Counters, clocks and uncertainties are in
/// ps. No call takes memory.
///
/// Three numbers bound what a node keeps: no counter that it is given lies below its floor, its
/// ceiling bounds the clocks that it sends, and its height the stamps.
pub trait Node: Drop {
    /// What a start or a join makes.
    ghost makes: { Making → Self → Type 0 };

    /// A step: the node before, the call, what it sends, the node after. A call that answers
    /// nothing sends nothing.
    ghost steps: { Self → Call → Effect → Self → Type 0 };

    /// A report: the node, the counter, the report.
    ghost reports: { Self → ℕ → Report → Type 0 };

    /// The duty that was given to it and is not taken up yet.
    ghost given: { Self → Option Duty };

    ghost parent: { Self → Option ℕ };

    ghost acts: { Self → Bool };

    ghost epoch: { Self → ℕ };

    ghost sealed: { Self → Bool };

    ghost floor: { Self → ℕ };

    ghost ceiling: { Self → ℕ };

    ghost height: { Self → ℕ };

    /// A device of a plan that was never part of one before.
    fn start(duty: Duty, counter: u64, clock: u64, eps: u64) -> Self
        requires duty { IsDuty duty }
        requires counter { counter ≤ 2 ^ 60 }
        requires clock { clock ≤ 2 ^ 60 }
        requires eps { eps ≤ 2 ^ 60 }
        ensures made { makes (Started duty counter clock eps) result }
        ensures given { given result ≡ None }
        ensures floor { floor result ≤ counter }
        ensures ceiling { ceiling result ≤ 2 ^ 60 }
        ensures height { height result ≡ 0 };

    /// A device that joins while a new plan is brought in: it has no duty yet.
    fn join(rates: Rates, counter: u64, clock: u64, eps: u64) -> Self
        requires rates { IsRates rates }
        requires counter { counter ≤ 2 ^ 60 }
        requires clock { clock ≤ 2 ^ 60 }
        requires eps { eps ≤ 2 ^ 60 }
        ensures made { makes (Joined rates counter clock eps) result }
        ensures given { given result ≡ None }
        ensures floor { floor result ≤ counter }
        ensures ceiling { ceiling result ≤ 2 ^ 60 }
        ensures height { height result ≡ 0 };

    /// Its own timer, at this counter.
    fn on_tick(&mut self, counter: u64) -> Effect
        requires floor { floor self.old ≤ counter }
        requires counter { counter ≤ 2 ^ 60 }
        requires ceiling { ceiling self.old < 2 ^ 100 }
        requires height { height self.old < 2 ^ 31 }
        ensures step { steps self.old (Tick counter) result self.new }
        ensures given { given self.new ≡ given self.old }
        ensures floor { floor self.new ≤ counter }
        ensures ceiling { ceiling self.new ≤ ceiling self.old }
        ensures height { height self.new ≤ height self.old + 1 }
        ensures clock { IfSent result (IsUpTo (ceiling self.old + 2 ^ 61)) }
        ensures stamp { IfSent result (IsAsHighAs (height self.new)) };

    /// Whether a tick at this counter sends nothing and leaves the node as it is. A node may answer
    /// `false` where one does, and then is called.
    fn rests(&self, counter: u64) -> bool
        requires floor { floor self.now ≤ counter }
        ensures step { IsTrue result → steps self.now (Tick counter) Effect.Quiet self.now }
    {
        false
    }

    /// Whether it answers as before after any tick. A node may answer `false` where it does, and then
    /// is asked anew after each.
    fn keeps_at_ticks(&self) -> bool
        ensures given { IsTrue result → (counter : ℕ) → Keeps steps self.now (Tick counter) given }
        ensures parent { IsTrue result → (counter : ℕ) → Keeps steps self.now (Tick counter) parent }
        ensures acts { IsTrue result → (counter : ℕ) → Keeps steps self.now (Tick counter) acts }
        ensures epoch { IsTrue result → (counter : ℕ) → Keeps steps self.now (Tick counter) epoch }
        ensures sealed { IsTrue result → (counter : ℕ) → Keeps steps self.now (Tick counter) sealed }
    {
        false
    }

    /// A message that came over this link while the counter showed this.
    fn on_message(&mut self, link: u32, message: Message, counter: u64) -> Effect
        requires floor { floor self.old ≤ counter }
        requires counter { counter ≤ 2 ^ 60 }
        requires ceiling { ceiling self.old < 2 ^ 100 }
        requires clock { message.clock < 2 ^ 100 }
        requires eps { message.eps < 2 ^ 100 }
        requires height { height self.old < 2 ^ 31 }
        requires term { message.stamp.term < 2 ^ 31 }
        requires round { message.stamp.round < 2 ^ 31 }
        ensures step { steps self.old (Receive link message counter) result self.new }
        ensures given { (given self.new ≡ given self.old) ⊎ (given self.new ≡ None) }
        ensures floor { floor self.new ≤ counter }
        ensures ceiling { ceiling self.new
            ≤ max (max (ceiling self.old) message.clock) message.eps + 2 ^ 41 }
        ensures height { height self.new
            ≤ max (max (height self.old) message.stamp.term) message.stamp.round }
        ensures clock { IfSent result (IsUpTo (ceiling self.new)) }
        ensures stamp { IfSent result (IsAsHighAs (height self.new)) };

    /// Whether it answers as before after any message. A node may answer `false` where it does, and
    /// then is asked anew after each.
    fn keeps_at_messages(&self) -> bool
        ensures given { IsTrue result → (link : ℕ) (message : Message) (counter : ℕ)
            → Keeps steps self.now (Receive link message counter) given }
        ensures parent { IsTrue result → (link : ℕ) (message : Message) (counter : ℕ)
            → Keeps steps self.now (Receive link message counter) parent }
        ensures acts { IsTrue result → (link : ℕ) (message : Message) (counter : ℕ)
            → Keeps steps self.now (Receive link message counter) acts }
        ensures epoch { IsTrue result → (link : ℕ) (message : Message) (counter : ℕ)
            → Keeps steps self.now (Receive link message counter) epoch }
        ensures sealed { IsTrue result → (link : ℕ) (message : Message) (counter : ℕ)
            → Keeps steps self.now (Receive link message counter) sealed }
    {
        false
    }

    /// The clock is set from outside, with this uncertainty.
    fn on_fix(&mut self, counter: u64, clock: u64, eps: u64)
        requires floor { floor self.old ≤ counter }
        requires counter { counter ≤ 2 ^ 60 }
        requires clock { clock ≤ 2 ^ 60 }
        requires eps { eps ≤ 2 ^ 60 }
        ensures step { steps self.old (Fix counter clock eps) Effect.Quiet self.new }
        ensures given { given self.new ≡ given self.old }
        ensures floor { floor self.new ≤ counter }
        ensures ceiling { ceiling self.new ≤ max (ceiling self.old) (2 ^ 60) }
        ensures height { height self.new ≤ height self.old };

    /// A duty of the next plan, to be taken up by a commit or a message of that plan.
    fn on_give(&mut self, duty: Duty)
        requires { IsDuty duty }
        ensures step { steps self.old (Give duty) Effect.Quiet self.new }
        ensures given { given self.new ≡ Some duty }
        ensures floor { floor self.new ≡ floor self.old }
        ensures ceiling { ceiling self.new ≤ ceiling self.old }
        ensures height { height self.new ≤ height self.old };

    /// It takes up the duty that was given to it, as the root of the next plan.
    fn on_commit(&mut self, counter: u64)
        requires floor { floor self.old ≤ counter }
        requires counter { counter ≤ 2 ^ 60 }
        requires height { height self.old < 2 ^ 31 }
        requires root { option_map (λ duty. duty.role) (given self.old) ≡ Some role.Root }
        ensures step { steps self.old (Commit counter) Effect.Quiet self.new }
        ensures given { (given self.new ≡ given self.old) ⊎ (given self.new ≡ None) }
        ensures floor { floor self.new ≤ counter }
        ensures ceiling { ceiling self.new ≤ ceiling self.old }
        ensures height { height self.new ≤ height self.old + 1 };

    /// From now on it may move.
    fn on_seal(&mut self)
        ensures step { steps self.old Seal Effect.Quiet self.new }
        ensures given { given self.new ≡ given self.old }
        ensures floor { floor self.new ≡ floor self.old }
        ensures ceiling { ceiling self.new ≤ ceiling self.old }
        ensures height { height self.new ≤ height self.old };

    /// What it takes the reference time for at this counter.
    fn report(&self, counter: u64) -> Report
        requires floor { floor self.now ≤ counter }
        requires counter { counter ≤ 2 ^ 60 }
        requires ceiling { ceiling self.now < 2 ^ 100 }
        ensures report { reports self.now counter result }
        ensures clock { result.clock ≤ ceiling self.now + 2 ^ 61 }
        ensures eps { result.eps ≤ ceiling self.now + 2 ^ 61 };

    /// The device that it follows.
    fn parent(&self) -> Option<u32>
        ensures parent { result ≡ parent self.now };

    fn acts_as_root(&self) -> bool
        ensures acts { result ≡ acts self.now };

    /// The number of the plan that it follows, from 1; 0 where it follows none yet.
    fn epoch(&self) -> u32
        ensures epoch { result ≡ epoch self.now };

    /// Whether a duty was given to it that it has not taken up.
    fn is_given(&self) -> bool
        ensures given { result ≡ is_some (given self.now) };

    fn is_sealed(&self) -> bool
        ensures sealed { result ≡ sealed self.now };

    /// A node that acts as root has no parent.
    ghost acting_has_no_parent: { (node : Self) → acts node ≡ true → parent node ≡ None };

    /// Nor has one that follows no plan.
    ghost planless_has_no_parent: { (node : Self) → epoch node ≡ 0 → parent node ≡ None };

    /// One that follows no plan does not act.
    ghost planless_does_not_act: { (node : Self) → epoch node ≡ 0 → acts node ≡ false };
}
