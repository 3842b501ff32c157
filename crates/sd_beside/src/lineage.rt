//! The lineage of a report: few clocks have to be honest for its interval to be right. No function
//! here has a body: this crate has definitions and proofs alone.
//!
//! # The results
//!
//! They hold for every topology, list of plans and history of any length, also where premises are
//! broken (specs/Laws).
//!
//! - `lineage_contains` (proofs/Contains): a report whose lineage is honest contains its reference.
//! - `lineage_orders` (proofs/Orders): a transaction has a greater stamp than each that ended before
//!   it began, where the lineages of two reports are honest: of the one that ended the earlier, and of
//!   the one that begins the later.
//! - `has_lineage` (proofs/Contains): each report has a lineage. `honest_lineage` (proofs/Honest): it is
//!   honest while the premises of starts, drifts and delays hold. So `admitted_reports_contain` of
//!   `sd_history` is a case of `lineage_contains`.
//!
//! # The words
//!
//! A lineage (specs/Lineage) goes back from a report to the clock that was set: the readings between
//! which a device held the estimate and then sent or reported it, and the flights that it came over. A
//! relay sends its estimate as it was set, so its oscillator is no part of a lineage.
