//! The premise of loss: what its monitor keeps of flights and of spoiled rounds (`flights`), and the
//! monitor itself (`rounds`). `sd_premise` stands on it.
pub mod flights;
pub mod rounds;
