//! The commands `replay` and `order` after their words: a schedule over a topology and plans is
//! replayed line by line, and each step's lines are written before the next line is read.
//!
//! `order` is `replay` with commit wait: it adds what each report begins, ends and disorders.
mod files;
mod observer;
mod order_work;
mod reasons;
mod replay_work;
mod schedule;

pub use files::Files;
pub use reasons::print_line_fault;
pub use schedule::{order, replay};
