//! The ages of the drill.
#[cfg(test)]
mod tests;
