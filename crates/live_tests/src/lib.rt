//! Tests of `live` over a host in memory: what no contract says, with values from outside.
#![tactic(auto)]

#[cfg(test)]
mod tests;
