//! The words that running threads share: one thread patches the sites while others fetch their bytes.
#![tactic(auto)]

pub mod cpu;
mod laid;
pub mod laws;
mod layout;
pub mod patch;
pub mod plan;
mod rule;
pub mod text;
pub mod view;

pub use cpu::CpuSeat;
pub use patch::PatchSeat;
pub use plan::{LivePlan, LiveSite};
pub use text::{LiveText, Put};
