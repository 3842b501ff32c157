//! What has failed, the fault domains that hold it, and sets of numbers.
#[cfg(test)]
mod tests;
