//! ELF64 files: sections, symbols and loaded bytes, or the first thing that is wrong.
#![tactic(auto)]

mod fields;
pub mod file;
mod header;
mod headers;
mod names;
pub mod records;
pub mod refused;
mod sections;
mod symbols;

pub use file::ElfFile;
pub use records::{Section, SectionHeader, Symbol, SymbolEntry};
pub use refused::ElfRefused;
