//! Numbers of the System V gABI that a written module has (ELF header, section header, symbol table).

/// The class of 64 bits, the lowest byte first, and the version.
pub const ELFCLASS64: u8 = 2;

pub const ELFDATA2LSB: u8 = 1;

pub const EV_CURRENT: u8 = 1;

/// A file that is loaded where it says, for x86-64.
pub const ET_EXEC: u16 = 2;

pub const EM_X86_64: u16 = 62;

/// How many bytes the ELF header, a section header and a symbol have.
pub const EHDR_SIZE: u16 = 64;

pub const SHDR_SIZE: u16 = 64;

pub const SYM_SIZE: u64 = 24;

/// What a section holds: bytes of the program, symbols, strings.
pub const SHT_PROGBITS: u32 = 1;

pub const SHT_SYMTAB: u32 = 2;

pub const SHT_STRTAB: u32 = 3;

/// What a section's flags say: it is written to, it is loaded, it has instructions.
pub const SHF_WRITE: u64 = 1;

pub const SHF_ALLOC: u64 = 2;

pub const SHF_EXECINSTR: u64 = 4;

/// A symbol that other files see, and what it names: data, a function.
const STB_GLOBAL: u8 = 1;

const STT_OBJECT: u8 = 1;

const STT_FUNC: u8 = 2;

/// What the symbols of functions and of keys say of themselves.
pub const GLOBAL_FUNC: u8 = (STB_GLOBAL << 4) | STT_FUNC;

pub const GLOBAL_OBJECT: u8 = (STB_GLOBAL << 4) | STT_OBJECT;
