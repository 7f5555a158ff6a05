//! Tests of `script_runner`: small modules that run by given events.
#![tactic(auto)]

#[cfg(test)]
mod tests;
