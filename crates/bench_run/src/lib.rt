//! The run of a generated module by a fixed script, counted and not shown.
#![tactic(auto)]

mod counts;
mod run;

pub use counts::Counts;
pub use run::bench;

#[cfg(test)]
mod tests;
