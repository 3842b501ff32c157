//! Stamps, the book of flights beside plain lists, observers, and commit wait.
mod books;
mod calls;
mod flagged;
mod numbers;
mod observers;
mod stamps;
mod waits;
