//! The byte machine and the switching machine, and the theorem that joins them: functions that do nothing, whose contracts are
//! the laws.
#![tactic(auto)]

pub mod choice_laws;
pub mod laws;
pub mod state_laws;
