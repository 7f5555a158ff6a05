//! The records of an ELF64 file (System V gABI: section header, symbol table).

/// A section. Its name and content are pieces of the file.
#[derive(Clone, Copy, Debug, PartialEq, Eq)]
pub struct Section<'a> {
    /// Its place in the table of section headers.
    pub index: u16,
    pub name: &'a [u8],
    /// `sh_type`: 0 NULL, 1 PROGBITS, 2 SYMTAB, 3 STRTAB, 4 RELA, 8 NOBITS.
    pub kind: u32,
    /// `sh_flags`: 1 WRITE, 2 ALLOC, 4 EXECINSTR.
    pub flags: u64,
    /// The address of its first byte.
    pub addr: u64,
    /// Its size in bytes, as the header says.
    pub size: u64,
    pub link: u32,
    /// Its bytes in the file; none of a NULL or NOBITS section.
    pub content: &'a [u8],
}

/// A section without its name. Its content is a piece of the file.
#[derive(Clone, Copy, Debug, PartialEq, Eq)]
pub struct SectionHeader<'a> {
    /// Its place in the table of section headers.
    pub index: u16,
    /// `sh_type`, as in `Section`.
    pub kind: u32,
    /// `sh_flags`, as in `Section`.
    pub flags: u64,
    /// The address of its first byte.
    pub addr: u64,
    /// Its size in bytes, as the header says.
    pub size: u64,
    pub link: u32,
    /// Its bytes in the file; none of a NULL or NOBITS section.
    pub content: &'a [u8],
}

/// A symbol. Its name is a piece of the file.
#[derive(Clone, Copy, Debug, PartialEq, Eq)]
pub struct Symbol<'a> {
    pub name: &'a [u8],
    /// `st_info`: its lower four bits are the type, 1 OBJECT, 2 FUNC.
    pub info: u8,
    /// The index of the section that it is defined in; 0 where it is undefined.
    pub shndx: u16,
    pub value: u64,
}

/// A symbol without its name.
#[derive(Clone, Copy, Debug, PartialEq, Eq)]
pub struct SymbolEntry {
    /// `st_info`, as in `Symbol`.
    pub info: u8,
    /// The index of the section that it is defined in; 0 where it is undefined.
    pub shndx: u16,
    pub value: u64,
}
