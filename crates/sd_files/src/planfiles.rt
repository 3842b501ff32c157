//! The plans of a command: each is read and judged before the next.
mod plans;
mod setup_error;

pub use plans::load_plans;
pub use setup_error::SetupError;
