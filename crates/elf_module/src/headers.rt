//! The table of section headers, and the sections' bytes.
ghost use Rattle.std.specs.Prelude.{◌≡◌, ◌≤◌, ◌<◌, ◌+◌, ◌*◌, ◌↔◌, false, IsTrue, [], length, if◌then◌else◌};
ghost use Rattle.elf_module.specs.Elf.{e_shoff, e_shnum, e_shstrndx, is_alloc, is_empty_type, piece};
ghost use Rattle.elf_module.specs.Elf.{sh_name, sh_type, sh_flags, sh_addr, sh_offset, sh_size, sh_link};

use crate::fields::{ends_past, u32_at, u64_at};

/// The size of a section's header.
pub(crate) const HEADER_SIZE: u16 = 64;

pub(crate) const SHT_NULL: u32 = 0;

pub(crate) const SHT_SYMTAB: u32 = 2;

pub(crate) const SHT_STRTAB: u32 = 3;

pub(crate) const SHT_NOBITS: u32 = 8;

/// The flag of a section that is loaded.
const ALLOC: u64 = 2;

/// The table of section headers of a file, which stands in it whole.
#[derive(Clone, Copy)]
pub(crate) struct Headers<'a> {
    /// The file.
    pub(crate) bytes: &'a [u8],
    /// Where the table begins.
    pub(crate) offset: usize,
    /// How many sections there are.
    pub(crate) count: u16,
    /// The index of the section of names.
    pub(crate) names: u16,
    ghost offset_is: { offset ≡ e_shoff bytes.now },
    ghost count_is: { count ≡ e_shnum bytes.now },
    ghost names_is: { names ≡ e_shstrndx bytes.now },
    ghost inside: { offset + 64 * count ≤ length bytes.now },
    ghost names_below: { names < count },
}

/// The fields of a section's header that are read.
#[derive(Clone, Copy)]
pub(crate) struct HeaderFields {
    pub(crate) name: u32,
    pub(crate) kind: u32,
    pub(crate) flags: u64,
    pub(crate) addr: u64,
    pub(crate) offset: u64,
    pub(crate) size: u64,
    pub(crate) link: u32,
}

impl Headers<'_> {
    /// The header of the section with an index.
    pub(crate) fn header(&self, i: u16) -> HeaderFields
        requires { i < self.now.count }
        ensures name { result.name ≡ sh_name self.now.bytes.now i }
        ensures kind { result.kind ≡ sh_type self.now.bytes.now i }
        ensures flags { result.flags ≡ sh_flags self.now.bytes.now i }
        ensures addr { result.addr ≡ sh_addr self.now.bytes.now i }
        ensures offset { result.offset ≡ sh_offset self.now.bytes.now i }
        ensures size { result.size ≡ sh_size self.now.bytes.now i }
        ensures link { result.link ≡ sh_link self.now.bytes.now i }
    {
        let at = self.offset + usize::from(HEADER_SIZE) * usize::from(i);
        HeaderFields {
            name: u32_at(self.bytes, at),
            kind: u32_at(self.bytes, at + 4),
            flags: u64_at(self.bytes, at + 8),
            addr: u64_at(self.bytes, at + 16),
            offset: u64_at(self.bytes, at + 24),
            size: u64_at(self.bytes, at + 32),
            link: u32_at(self.bytes, at + 40),
        }
    }
}

impl HeaderFields {
    /// Whether a section of this type has no bytes in the file.
    pub(crate) fn is_empty(&self) -> bool
        ensures { result ≡ is_empty_type self.now.kind }
    {
        self.kind == SHT_NULL || self.kind == SHT_NOBITS
    }

    /// Whether the section has the flag ALLOC.
    pub(crate) fn is_alloc(&self) -> bool
        ensures { result ≡ is_alloc self.now.flags }
    {
        self.flags & ALLOC != 0
    }

    /// Whether the section has bytes that end past a length. The sum doesn't wrap.
    pub(crate) fn reaches_past(&self, len: u64) -> bool
        ensures { IsTrue result ↔ ((is_empty_type self.now.kind ≡ false) × (len < self.now.offset + self.now.size)) }
    {
        if self.is_empty() {
            return false;
        }
        ends_past(self.offset, self.size, len)
    }

    /// The bytes of the section in its file.
    pub(crate) fn content<'a>(&self, bytes: &'a [u8]) -> &'a [u8]
        requires { is_empty_type self.now.kind ≡ false → self.now.offset + self.now.size ≤ length bytes.now }
        ensures bytes { result.now ≡ (if is_empty_type self.now.kind then [] else piece self.now.offset self.now.size bytes.now) }
        ensures sized { length result.now ≤ self.now.size }
    {
        if self.is_empty() {
            return &[];
        }
        let from = self.offset as usize;
        &bytes[from..from + self.size as usize]
    }
}
