//! Processors on threads of their own: one thread patches the sites of a module while up to 16 processors run it.
//!
//! The threads share the words of `live_text` and nothing else. Each pass of a site that a processor does is one whole
//! version of the site: the one that the processor's last acknowledgement gives, or the next.
#![tactic(auto)]

pub mod cpu;
mod fetch;
pub mod gate;
mod job;
mod last;
pub mod laws;
mod lookup;
pub mod patch;
pub mod plan;
pub mod run;
#[cfg(test)]
mod tests;
mod worker;

pub use cpu::{LiveCpu, Turn};
pub use gate::{Gate, OpenGate};
pub use patch::{Advance, LivePatch};
pub use plan::live_plan;
pub use run::{LiveRun, Walk, run_live};
