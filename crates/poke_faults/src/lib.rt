//! Why a command failed, with the status and the complaint of each reason.
#![tactic(auto)]

mod fault;
mod journal_fault;
mod module_fault;
mod script_fault;

pub use fault::{Fault, Refusal};
pub use journal_fault::{JOURNAL_LIMIT, JournalRefused};
pub use module_fault::{MODULE_LIMIT, ModuleRefused};
pub use script_fault::{SCRIPT_LIMIT, ScriptRefused};
