//! Nodes of other kinds than a device, which the plain fleet knows too.
mod falling;
mod sealing;
mod wrapped;

pub use falling::FallingBack;
pub use sealing::SelfSealing;
pub use wrapped::Wrapped;
