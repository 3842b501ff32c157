//! Witnesses: a worked network with worked histories that meet all that safety and the recovery
//! bound ask for, so neither theorem speaks of nothing. The prover computes them. No function here
//! has a body: this crate has texts, what is said of them, and proofs.
//!
//! # The texts
//!
//! `Texts` has the topology, the two plans and the schedule of examples/triangle, line by line.
//! `.ci/witness` sees that they are the files. `Read` shows what they mean, by the definitions that
//! the program is proved against: so the program reads and replays what the theorems speak of.
//!
//! # The theorems
//!
//! - `renewal` (proofs/Renewed): the plans are accepted, the schedule is a history, and each of the
//!   seven premises holds to its end. The root fails at line 20, and the backup root acts after
//!   line 85. A plan is staged, given, committed and sealed from line 90 on. The window closes at
//!   line 101, and the two devices of the new plan report at lines 108 and 109 (`IsRenewal`). There
//!   is no loop and one root at most, by `stays_safe`.
//! - `recovery` (proofs/Recovered): the first 88 and the first 89 lines are histories to which the
//!   bound of the drill applies. The root fails and the backup root takes over. Each ends in a
//!   report, which stands beside its bound (`IsRecovery`) and is below it by `bound_holds`.
//!
//! - `mended` (proofs/mended/Mended): a second history, of four devices. A link fails at line 17, and
//!   rounds are lost. The ordinary device below the link moves at line 293. It reports at line 330,
//!   later than the time of `hears_again`, by which it has heard of the root (`HearsAgain`). Then the
//!   root is fixed, and a renewal mends the link, lets a device join and closes at line 357
//!   (`IsMended`). Its texts are no files of an example: specs/mended/Texts has them.
//!
//! - `after_renewal` (proofs/after_renewal/Hit): a fourth history, over the network and plans of
//!   `mended`. The renewal closes at line 38, and a device reports. The root fails at line 40, the
//!   backup root acts after line 128, and the device moves and reports at line 324. Each lemma on
//!   renewed plans applies: those without a failure at line 39, the others at line 324
//!   (`IsAfterRenewal`).
//!
//! - `fifth_is_needed` (proofs/straggler/Looped): a plan that breaks the fifth rule of timing and no
//!   other condition, with a history of 489 events that breaks no premise and ends with a loop
//!   (`FifthIsNeeded`). The plans are those of examples/needed/straggler.
//!
//! # How
//!
//! `Values` has what the texts say. `Accepting` is a test of a plan that computes, and that only an
//! accepted plan passes: it is for plans whose walks have three hops at most.
//! `Histories` does the same for histories. All other facts compute.
