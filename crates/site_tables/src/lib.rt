//! The tables of a module: jump entries of static keys, static call sites, and traced functions.
#![tactic(auto)]

mod access;
pub mod entries;
pub mod find;
pub mod tables;

pub use entries::{
    BadSize, CallSite, JumpEntry, TableKind, call_site, count, jump_entry, trace_site,
};
pub use find::{find_table, find_tables};
pub use tables::{BadTable, Table, Tables};
