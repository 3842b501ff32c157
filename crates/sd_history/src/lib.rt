//! Histories: what a fleet of devices, its premises and its printed lines mean. No function here
//! has a body: this crate has the definitions that contracts above it cite (specs/), and the laws
//! of every history (proofs/).
//!
//! # Reading order
//!
//! `Things`, `World`, `Steps`, `Refusals`, `Chronicle`, `Nodes`, `Admitted`, `Premises`, `Lines`, `Text`.
//!
//! # Three levels
//!
//! A history is a list of events with the newest at its head, and so are a device's calls and what
//! is seen. So the events before are the tail, and the line number of the head is the length of
//! the list. Lists of reports alone have the oldest first, since they are compared by place.
//!
//! - `Seen` is what an onlooker sees of an event. `World` and `Premises` speak of lists of `Seen`
//!   alone, so the premises can be judged with no device in sight.
//! - `Step` is a `Seen` with what the event did to its device (`Act`), what that device told
//!   (`Told`), and all flights that it sent. Refusals, lines, printed bytes and reports speak of
//!   lists of `Step`. From what is told `step_of` makes the whole step, so a list of steps holds
//!   every answer, and `parent_in`, `acts_in`, `epoch_in` are look-ups in it.
//! - Below them are the devices, and these two ways to know what was told:
//!   - `chronicle` computes it: at each step the device tells what the words on devices say of its
//!     past (`told_by`). `IsHistory` says that each event is accepted after those before it.
//!   - `IsRun` is a relation, for each type that implements `Node`: each step tells what the
//!     node's own steps allow. It is how a fleet promises its outcomes for any kind of node.
//!
//! Where each node tells what the words say (`TellsByWords`) the two are the same.
//!
//! A history has at most 2^26 events. `Admitted` has histories and runs of any length: of the causes
//! of a refusal it leaves out `TooManyEvents`. Lemmas named `admitted_..` speak of these, and the
//! lemmas of the same name without it follow.
//!
//! # Laws, for every topology, list of plans and history
//!
//! - While clocks, oscillators and links are honest each report contains its reference
//!   (`Contained`, from `Owned`, `Given` and `Among`).
//! - What a device has is its own, whatever its clock does (`Owning`).
//! - The past of a device in a list of steps is that of its calls there, and in a chronicle each
//!   device answers what the words say of it (`Bridges`).
//! - A run whose steps tell by the words is the chronicle of its events, which are a history
//!   (`Tellings`). Every run of an `ExactNode` is one (`Readings`, `Exactness`), so each run of
//!   `Device` is (`Devices`), and every history has such a run (`Happening`).
//! - Worked examples that compute: `Rows`, `Windows`, and `OtherNodes` for nodes that are no
//!   devices, over the schedules of `Base`.
//!
//! # Shown above
//!
//! - That `is_on_loop`, which takes as many steps as there are devices, is the loop of parents as a
//!   relation: in `sd_replay`.
//! - Which flights are on their way, by number, and what an event leaves of them: in
//!   `crate::flights`.
//! - That what an onlooker takes for entered is the device's own epoch, over histories: in
//!   `sd_bound` (`entered_is_own`).
#![tactic(auto)]

/// Why an event is refused, the first cause in this order.
#[derive(Clone, Copy, Debug, PartialEq, Eq)]
pub enum ApplyFault {
    UnknownDevice,
    UnknownLink,
    DeadDevice,
    DeadLink,
    UnknownMessage,
    SpentMessage,
    WrongDevice,
    TimeFalls,
    CounterFalls,
    NotStarted,
    StartedTwice,
    NoPlanLeft,
    WindowOrder,
    AfterEnd,
    NotFailed,
    NotMember,
    TooManyEvents,
    Memory,
}

/// A truth value for each premise: that it breaks with an event, or that it broke so far.
#[derive(Clone, Copy, Debug, PartialEq, Eq)]
pub struct BrokenSet {
    pub start: bool,
    pub drift: bool,
    pub delay: bool,
    pub tick: bool,
    pub loss: bool,
    pub domain: bool,
    pub renew: bool,
}
