//! What is known of the modules that are generated: that they are accepted, and what a fixed script says in them.
#![tactic(auto)]

pub mod laws;

pub use laws::{bench_scripts_are_read, generated_are_accepted};
