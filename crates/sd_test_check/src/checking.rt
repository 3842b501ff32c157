//! The conditions that the checker asks of a plan.
#[cfg(test)]
mod tests;
