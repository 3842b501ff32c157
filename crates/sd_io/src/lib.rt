//! The outside: where bytes come from and go to (`outside`), and the lines of a text, each lent from
//! one buffer (`stream`).
#![tactic(auto)]

pub mod outside;
pub mod stream;
