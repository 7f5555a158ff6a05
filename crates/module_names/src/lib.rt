//! The keys that a module's entries name, and what the names of its symbols stand for.
#![tactic(auto)]

mod key_list;
mod name_budget;
mod names;
mod naming;

pub use key_list::{KeyAddresses, place_of};
pub use names::Names;
pub use naming::SymbolNames;
