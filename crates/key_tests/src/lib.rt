//! Tests of `key_state`: how updates of small modules end, and what their texts then hold.
#![tactic(auto)]

#[cfg(test)]
mod tests;
