//! What is shown of a live run: the walks of its processors, and the sites after it.
#![tactic(auto)]

pub mod laws;
mod sites;
mod walks;

pub use sites::print_live_sites;
pub use walks::print_walks;
