//! Tests of `live_engine` as its callers have it: plans, and modules that run on threads.
#![tactic(auto)]

#[cfg(test)]
mod tests;
