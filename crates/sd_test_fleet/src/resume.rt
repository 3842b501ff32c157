//! Openings of a worked history: one that is right, and one for each difference.
#[cfg(test)]
mod tests;
