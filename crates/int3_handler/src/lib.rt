//! The breakpoint handler.
#![tactic(auto)]

mod handler;

pub use handler::{Handled, emulate, handle};
