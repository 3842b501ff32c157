//! The monitors of the premises on worked events.
#[cfg(test)]
mod tests;
