//! The recovery bound: no report of a live device is above what the drill lists for it, on every
//! history without a renewal in which nothing fails or one domain does so at once. No function here
//! has a body: this crate has definitions and proofs alone, a folder for each chapter.
//!
//! # The result
//!
//! `bound_holds` (proofs/Bounded) is `BoundHolds net plan budget f` for every topology, plan, budget
//! and domain, with nothing assumed. `BoundHolds` stands in specs/Holding, and the premises on the
//! history in specs/Bound. Plans that come after this one change nothing of a history without a
//! stage: it is one of this plan alone (`history_alone`, proofs/histories/Unstaged). `sd_top` stands
//! on `bound_holds`: it is the clause `bounds` of `run`.
//!
//! `hears_again` (proofs/Hearing) says how soon all hear again, by one time for all devices and all
//! domains (`recovery`). `hears_by_age` and `hears_by_bound` say it by the age of the drill, and by
//! its number. Their statements stand in specs/Hearing. Nothing else rests on them.
//!
//! These four are cases of `always_bounded`, `always_hears_again`, `always_hears_by_age` and
//! `always_hears_by_bound` (specs/Steady), which ask for five conditions and all premises but start,
//! and speak of histories of any length. The proofs are of those.
//!
//! More results of histories of any length, on which nothing rests. `tight_holds` (specs/Tight) is a
//! smaller number of each device. `calm_holds` (specs/Calm) is the number of each device while nothing
//! has failed. The others are on histories with any number of renewals. `enter_in_time` and
//! `seals_close` (specs/Closing): when all members have entered a staged plan, and which seal closes
//! its window. `entered_is_own` (specs/Entered): who has entered, as an onlooker sees it, has the
//! staged plan as its own. `stays_settled` (specs/Renewed): how devices stand and hear after a renewal, while
//! nothing has failed since. `hears_again_renewed`, `ages_hold_renewed` and `bound_holds_renewed`
//! (specs/RenewedBound): the same once things of a domain fail. `drill_holds_renewed`
//! (specs/RenewedBases): no report is above the number of the drill then.
//!
//! # The route
//!
//! A report's eps is the uncertainty with which the estimate was set, and what the device's oscillator
//! may have added since. An acting root is bounded by the budget's hold alone.
//!
//! 1. `Composing` composes the two: `BasesHold net plan → AgesHold net plan → AlwaysBounded net plan budget f`.
//! 2. `histories` says what such a history is like, and `bases` with which uncertainty an estimate is
//!    set (`BasesHold`): the invariant of `sd_safety` says where devices are.
//! 3. `timeouts`, `traces` and `chains` say when devices hear, under one plan since the latest closing
//!    or from the start (`IsUnderWay`), and `ages` how old their estimates are (`AgesHold`).
//! 4. `Bounded` puts both together. `Hearing` goes from a chain to the round that comes down it.
//!    `RenewedBound` shows that the run since a closing is one under one plan.
//! 5. `rebased` says with which uncertainty an estimate is set after a renewal, along traces.
//!
//! # The words, in reading order
//!
//! `Bound` what is promised; `Recovering` what is given of a history, as one record; `Halves` the two
//! statements, of the state after some events of it; `Hearing` how soon all hear again.
#![tactic(auto)]

pub mod slack;
