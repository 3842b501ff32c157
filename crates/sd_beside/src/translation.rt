//! Where clocks begin: other times and counters at the beginning change the times that a history
//! tells, and nothing else of it. No function here has a body: this crate has definitions and
//! proofs alone.
//!
//! # The results
//!
//! They hold of every topology, list of plans and list of events (specs/Laws, proofs/Laws).
//!
//! | Theorem | In words |
//! |---|---|
//! | `times_moved_change_times` | all references, and all clocks that are set, greater by one number: each clock that is sent or reported is too |
//! | `counters_moved_change_nothing` | all counters of each life of a device greater by a number of that life: nothing changes |
//! | `counters_of_lives_change_nothing` | so counters may count from the latest start or join, if none is below its counter |
//! | `admitted_never_below` | in a history that the rules admit none is |
//! | `moves_change_times` | times and counters at once |
//! | `refused_alike` | a refusal has the same cause, where each device has one number for all of its lives |
//!
//! `SaysTheSame` and `SaysTheSameLater` say what stays: which events the rules accept, what each
//! device sends, answers and reports, the lines of each event, and the broken premises.
//!
//! A life of a device goes from a start or join to the next. No premise is needed: a rule or a
//! premise reads differences of times, and of counters of one life. A look-up that finds no
//! reference or reading gives 0, and that is compared only with numbers that are no less.
//!
//! # The route
//!
//! 1. `Pasts`: a device whose clocks and counters are moved does at each call what it did before.
//! 2. `Words`, `Views`: what is seen of a moved history. `Lives`: in each life the past is moved.
//! 3. `Steps`: a moved history has the moved chronicle. `Readings`, `Refused`: the rules.
//!    `Judged`: the premises. `Told`: lines and reports. `Laws`, and `Counted` for counters from
//!    a start or join on.
//!
//! A list of `Marked` steps stands for both histories: each step has the number by which its
//! counter is moved. So what is the same of both is one equation over one list.
