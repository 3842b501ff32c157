//! How devices are placed for greedy plans, and drafts of plans that are searched for.
#[cfg(test)]
mod tests;
