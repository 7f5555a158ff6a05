//! Tests of `cpu_core`: turns of one processor, and its lines.
#![tactic(auto)]

#[cfg(test)]
mod lines;
#[cfg(test)]
mod tests;
