//! The headline on bytes: what is promised of the lines that `replay`, `order` and `case` write.
//! No function here has a body: this crate has the sentences (`Headlines`) and their proofs.
//!
//! # The sentences
//!
//! `no_early_interval`: no `alarm N interval` line stands before the first `broken` line of start,
//! drift or delay. `no_early_disorder`: nor does a `disorder` line. `no_early_alarm`: no `alarm`
//! line stands before the first `broken` line. `no_case_alarm`: the line of a case that has no
//! broken line has no alarm. Each speaks of whole lines alone, so it holds of every prefix of a
//! text of which it holds (`Prefixes`), and of what a run leaves where it is stopped (`Left`).
//!
//! # How they are carried from histories to bytes
//!
//! `AreLines` (`Texts`) says that a text is just these lines; what is printed of an event is
//! (`Printed`), and so is what is printed of commit wait (`Waiting`). The words of a printed line
//! are its fields, since numbers (`Numbers`) and names (`Names`) have neither space nor newline,
//! and so its first and third word tell its kind. `Goes` (`Behind`) is the promise of a list of
//! lines, with what holds while none of them names a premise: from event to event this is that the
//! premises hold (`Premises`). `Sentences` has it for every work that prints what is due of each
//! event (`Works`), and `Runs` for all that may be written over the texts of a topology, of plans
//! and of a schedule, the lines of refusals among it (`Refused`).
//!
//! That reports contain their references and that commit wait keeps order is proved of every
//! history (`sd_replay`), and so is that there is no loop and one root at most (`sd_safety`).
#![tactic(auto)]
