//! What is read of the modules that are written from a plan.
#![tactic(auto)]

pub mod laws;

pub use laws::written_reads_back;
