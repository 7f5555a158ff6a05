//! Why a file isn't read.

use thiserror::Error;

/// The first thing that is wrong with a file. The number says where: an offset in the file, a
/// length in bytes, or the index of a section or symbol.
#[derive(Clone, Copy, Debug, PartialEq, Eq, Error)]
pub enum ElfRefused {
    /// Fewer than 64 bytes: the length.
    #[error("Short {0:x}")]
    Short(u64),
    /// Other first four bytes than those of ELF: 0.
    #[error("Magic {0:x}")]
    Magic(u64),
    /// Not a 64-bit file: offset 4.
    #[error("Class {0:x}")]
    Class(u64),
    /// Not little endian: offset 5.
    #[error("Data {0:x}")]
    Data(u64),
    /// Another version: the offset, 6 or 14 (hexadecimal).
    #[error("Version {0:x}")]
    Version(u64),
    /// Not x86-64: offset 12 (hexadecimal).
    #[error("Machine {0:x}")]
    Machine(u64),
    /// Neither relocatable nor executable: offset 10 (hexadecimal).
    #[error("Kind {0:x}")]
    Kind(u64),
    /// A relocatable file: offset 10 (hexadecimal).
    #[error("Relocatable {0:x}")]
    Relocatable(u64),
    /// The table of section headers: the offset of the field that is wrong.
    #[error("Headers {0:x}")]
    Headers(u64),
    /// A section reaches past the file: the index of the first.
    #[error("Section {0:x}")]
    Section(u64),
    /// The table of names is no string table: its index. Or a section's name isn't in it: the index
    /// of the first.
    #[error("Names {0:x}")]
    Names(u64),
    /// The table of symbols isn't whole or has no string table: 0. Or a symbol's name isn't in it:
    /// the number of the first.
    #[error("Symbols {0:x}")]
    Symbols(u64),
}
