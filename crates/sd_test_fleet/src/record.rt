//! The worked triangle, recorded from the lines of its logs.
#[cfg(test)]
mod tests;
