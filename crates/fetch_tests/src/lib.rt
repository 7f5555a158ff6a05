//! Tests of `stale_fetch`: which values a processor may fetch, by both texts.
#![tactic(auto)]

#[cfg(test)]
mod tests;
