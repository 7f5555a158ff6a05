//! The order in which an update is poked: what is due next, and when all processors have serialised.
#![tactic(auto)]

pub mod batch;
pub mod laws;
mod patch;
mod stage;

pub use batch::{Batch, Clash, Due};
