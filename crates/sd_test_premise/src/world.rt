//! What is seen of a fleet, the watch over it, and the lines that tell of it.
#[cfg(test)]
mod tests;
