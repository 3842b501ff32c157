//! Beginning in the middle: when a second history, an opening, stands for a longer first one, so
//! that all later events are the same after both. No function here has a body: this crate has
//! definitions and proofs alone.
//!
//! # The results
//!
//! An opening has lower numbers of plans, messages, terms and rounds. `Shift` says by how much, and
//! `raised_..` gives what bears a number of the opening the number that it has in the first
//! (specs/Shifts). `IsOpening` (specs/Cuts) says when a run of devices is an opening for another.
//! Its proofs/Resume has the results:
//!
//! | Theorem | In words |
//! |---|---|
//! | `admits_the_same` | the rules admit the same later events after both |
//! | `says_the_same` | each of them has the same alarms and the same report |
//! | `breaks_no_more` | each premise that is broken after the opening is broken after the first |
//! | `leaves_broken` | what an event breaks after the opening is broken after the first too |
//! | `nothing_else_comes` | what is accepted after the first is a raised event |
//!
//! The two on premises ask for an honest opening (`IsHonestOpening`). The last asks that no message
//! is on its way (`NoneOnItsWay`).
//!
//! Its proofs/Calm has `stays_calm`: while no premise is broken after the opening, the first has no
//! alarm. Its proofs/Composed has `openings_compose`: one of an opening stands for the whole.
//!
//! They speak of later events that are no start, and of commits by devices that act as root
//! (`AllMayFollow`): a fresh device that becomes root would begin with term 1 in both.
//!
//! # What an opening needs
//!
//! - It has sent no message.
//! - What is seen is alike (`LooksAlike`): which devices are up, what is failed, the latest
//!   reference, the latest reading of each device that is up, the open window, the end.
//! - Each device that is up has like registers (`IsAlike`): the counter since which it waits where
//!   it can move or take over, the counter at which it sent where it acts, the stamp where it
//!   follows a plan, and of the estimate only the reports from its latest reading on.
//!
//! So these are no openings: one that leaves out a failed device or link of before, or a device
//! that is up; one in which a device has an older stamp than the root; one that tells a round
//! again. And where something failed before the latest closing and is failed still, an opening has
//! to say so, and is not honest.
//!
//! # The route
//!
//! 1. `Stamps`, `Calls`: a device whose numbers are raised does at each call what the other does.
//! 2. `Words`, `Views`, `Plans`: what is seen stays alike as an event comes, and its raised one.
//! 3. `Steps`, `Acts`, `Stepping`: so do answers, flights and the whole step. `Accepted`: the rules
//!    admit both events or none. `Lines`: both have the same alarms and reports.
//! 4. `Running`: for each admitted event both runs go on, and agree.
//! 5. `Judging`, `Losing`: the premises. `Laws`: any later events, by induction. They hold of any
//!    two histories that agree, of which the second may have sent messages too.
//! 6. `Openings`: an opening agrees. `Spent`: a message that is spent stays so. `Calm`, `Standing`:
//!    a history that stands for a longer one goes on so. `Resume`.
//! 7. `Joining`: two shifts are one. `Same`: runs with the same steps have the same nodes.
//!    `Composing`, `Composed`: so what stands for what stands for the whole does too.
