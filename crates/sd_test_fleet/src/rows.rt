//! Worked histories, and what they share.

mod bases;
mod kinds;
mod networks;
mod nodes;
mod outcomes;
mod playing;
mod receipts;
mod renewals;
mod takeovers;
mod windows;
