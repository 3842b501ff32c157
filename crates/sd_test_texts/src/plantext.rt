//! Plans as texts: read, refused and printed.
#[cfg(test)]
mod tests;
