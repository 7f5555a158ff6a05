//! Tests of tracers that a caller of the program hands in, over a host in memory.
#![tactic(auto)]

#[cfg(test)]
mod tests;
