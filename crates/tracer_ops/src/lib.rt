//! Tracers: what a caller hands in to be told of calls at traced sites.
#![tactic(auto)]

mod count;
mod last_sites;
mod list;
#[cfg(test)]
mod tests;
mod tracer;

pub use count::Count;
pub use last_sites::LastSites;
pub use list::{NoSuch, drop_at, feed};
pub use tracer::{Tracer, TracerRule};
