//! Tests of texts: topologies, plans, schedules and their words, spans of exchanges, and listed
//! domains.
#![tactic(auto)]

mod domain;
mod plantext;
#[cfg(test)]
mod same;
mod sched;
mod topotext;
