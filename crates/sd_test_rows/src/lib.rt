//! Runs of both programs over a shelf and a sink in memory, which give texts in pieces and fail.
#![tactic(auto)]

#[cfg(test)]
mod cases;
#[cfg(test)]
mod kit;
#[cfg(test)]
mod tests;
#[cfg(test)]
mod texts;
