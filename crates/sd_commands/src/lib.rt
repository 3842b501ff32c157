//! Commands that go through a text line by line: `replay` and `order` (`replay`), `twoway` (`twoway`,
//! with the bounds of `exchanges`), and one device alone (`solo`).
#![tactic(auto)]

pub mod exchanges;
pub mod replay;
pub mod solo;
pub mod twoway;
