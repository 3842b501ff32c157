//! A fleet: the devices of a fabric, of any kind, as a recorded history drives them.
//!
//! `Fabric` is what a fleet has apart from its devices: which events are refused and why, what an
//! event does to the device that it names, where messages go, and when a window closes. It is told
//! of each event what the device answered ([`Reply`]), and never asks what kind of device that is.
#![tactic(auto)]

ghost use Rattle.std.specs.Prelude.{◌≡◌, Some, None, false};
ghost use Rattle.sd_device.specs.declared.Effect.TheVariants as effects;

mod causes;
mod deliveries;
mod events;
mod exact;
mod fabric;
mod fleet;
mod messages;
mod nodes;
mod quick_calls;
mod refusals;
mod rests;
mod steps;
mod ticks;

pub use exact::keeps_chronicle;
use fabric::Fabric;
pub use fleet::{Fleet, Heard};
pub use messages::Sent;
use sd_device::Effect;
use sd_device::msg::{Flight, Message};
pub use sd_history::ApplyFault;
use sd_num::clock::Report;
use sd_plan::Duty;
pub use sd_world::membership::AnswerSummary;

/// A call of a device that is made. What is large is lent.
#[derive(Clone, Copy, Debug)]
pub enum Call<'a> {
    Tick {
        counter: u64,
    },
    Receive {
        link: u32,
        message: &'a Message,
        counter: u64,
    },
    Fix {
        counter: u64,
        clock: u64,
        eps: u64,
    },
    Give {
        duty: &'a Duty,
    },
    Commit {
        counter: u64,
    },
    Seal,
}

/// What a device tells at an event.
#[derive(Clone, Copy, Debug, PartialEq, Eq)]
pub struct Reply {
    pub effect: Effect,
    /// Where it was made or called, what it answers from then on.
    pub answers: Option<AnswerSummary>,
    /// Where it was asked, its report.
    pub report: Option<Report>,
}

impl Reply {
    /// Nothing at all.
    pub fn nothing() -> Reply
        ensures { result ≡ record { effect = effects.Quiet; answers = None; report = None } }
    {
        Reply {
            effect: Effect::Quiet,
            answers: None,
            report: None,
        }
    }

    /// Of a device that was made or called.
    pub fn called(effect: Effect, answers: AnswerSummary) -> Reply
        ensures { result ≡ record { effect = effect; answers = Some answers; report = None } }
    {
        Reply {
            effect,
            answers: Some(answers),
            report: None,
        }
    }

    /// Of a device that was asked.
    pub fn reported(report: Report) -> Reply
        ensures { result ≡ record { effect = effects.Quiet; answers = None; report = Some report } }
    {
        Reply {
            effect: Effect::Quiet,
            answers: None,
            report: Some(report),
        }
    }
}

/// What came of an accepted event.
#[derive(Clone, Copy, Debug, PartialEq, Eq)]
pub struct Outcome {
    /// The device that an `ask` asked, with its report.
    pub report: Option<(u32, Report)>,
    /// The flight that a `recv` received.
    pub taken: Option<Flight>,
    /// The number of the first message sent, 0 where none was.
    pub first_sent: u64,
    /// How many messages were sent, those that cannot reach among them.
    pub sent: u32,
    /// The device that went over to the staged plan with the event.
    pub activated: Option<u32>,
    /// Whether the named device acted as root before the event.
    pub acted: bool,
    /// Whether the window closed with the event.
    pub closed: bool,
    /// Whether the event is `end`.
    pub ended: bool,
}

impl Outcome {
    /// Of no event.
    pub fn nothing() -> Outcome
        ensures { result ≡ record {
          report = None;
          taken = None;
          first_sent = 0;
          sent = 0;
          activated = None;
          acted = false;
          closed = false;
          ended = false;
        } }
    {
        Outcome {
            report: None,
            taken: None,
            first_sent: 0,
            sent: 0,
            activated: None,
            acted: false,
            closed: false,
            ended: false,
        }
    }
}
