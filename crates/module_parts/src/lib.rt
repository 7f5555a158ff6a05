//! The plain parts of a module: its entries, keys, sites and units, what may be asked of it, and why it is refused.
#![tactic(auto)]

mod command;
mod entry;
mod key;
mod refused;
mod site;
mod unit;

pub use command::Command;
pub use entry::{Entry, EntryKind};
pub use key::{Key, KeyClass};
pub use refused::Refused;
pub use site::{Site, SiteKind};
pub use unit::{Aim, Unit};
