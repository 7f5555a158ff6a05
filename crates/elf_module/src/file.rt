//! Reading an ELF64 file.
use crate::header::{class, data, headers, kind, long, machine, magic, relocatable, version};
use crate::records::{Section, SectionHeader, Symbol, SymbolEntry};
use crate::refused::ElfRefused;
use crate::sections::{Sections, inside, named};
use crate::symbols::{Symbols, find_symbols};
use std::marker::Model;

/// An ELF64 file for x86-64 that was read: its sections and symbols stand in the file as its
/// headers say. It borrows the file's bytes and takes no memory.
#[derive(Drop)]
pub struct ElfFile<'a> {
    sections: Sections<'a>,
    symbols: Symbols<'a>,
}

impl<'a> Model for ElfFile<'a> {
    ghost use Rattle.elf_module.specs.Elf.{Elf};

    ghost Value = { Elf };

    ghost use Rattle.elf_module.specs.Inside.{elf_of, IsSound};

    ghost view = { elf_of };

    ghost invariant = { IsSound };
}

impl<'a> ElfFile<'a> {
    ghost use Rattle.std.specs.Prelude.{◌≡◌, ◌<◌, ◌≤◌, ◌-◌, ◌^◌, ℕ, Some, option_map, find, length, slice_get, IfOk, IfErr, IfSome};
    ghost use Rattle.std.specs.Str.{bytes_eq};
    ghost use Rattle.elf_module.specs.Elf.{SectionRecord, section_of, header_of, unnamed, symbol_of, entry_of, loaded, loaded_from};
    ghost use Rattle.elf_module.specs.Refusals.{IsRefusal, Reads};

    /// Reads a file of fewer than 2^32 - 1 bytes. Sums of offsets and sizes don't wrap.
    ///
    /// # Errors
    /// The first condition that holds, in the order of `ElfRefused`.
    pub fn read(bytes: &'a [u8]) -> Result<ElfFile<'a>, ElfRefused>
        requires { length bytes.now < 2 ^ 32 - 1 }
        ensures reads { IfOk result (Reads bytes.now) }
        ensures refused { IfErr result (IsRefusal bytes.now) }
    {
        long(bytes)?;
        magic(bytes)?;
        class(bytes)?;
        data(bytes)?;
        version(bytes)?;
        machine(bytes)?;
        kind(bytes)?;
        relocatable(bytes)?;
        let headers = headers(bytes)?;
        let sections = inside(headers)?;
        named(&sections)?;
        let symbols = find_symbols(&sections)?;
        Ok(ElfFile { sections, symbols })
    }

    /// How many sections there are, the first of which is NULL.
    pub fn section_count(&self) -> u16
        ensures { result ≡ length self.now.sections }
    {
        self.sections.headers.count
    }

    /// How many symbols there are; none where no section has any.
    pub fn symbol_count(&self) -> u32
        ensures { result ≡ length self.now.symbols }
    {
        self.symbols.count()
    }

    /// The section with an index. `None` exactly for an index that isn't below the count.
    pub fn section(&self, i: u16) -> Option<Section<'a>>
        ensures section { option_map section_of result ≡ slice_get self.now.sections i }
        ensures small { IfSome result (λ section. length section.content.now < 2 ^ 32 - 1) }
        ensures sized { IfSome result (λ section. length section.content.now ≤ section.size) }
    {
        self.sections.get(i)
    }

    /// The symbol with a number. `None` exactly for a number that isn't below the count.
    pub fn symbol(&self, i: u32) -> Option<Symbol<'a>>
        ensures { option_map symbol_of result ≡ slice_get self.now.symbols i }
    {
        self.symbols.get(i)
    }

    /// The section with an index, without its name: its name isn't looked at. `None` exactly for an index that
    /// isn't below the count.
    pub fn section_header(&self, i: u16) -> Option<SectionHeader<'a>>
        ensures section { option_map header_of result ≡ option_map unnamed (slice_get self.now.sections i) }
        ensures small { IfSome result (λ section. length section.content.now < 2 ^ 32 - 1) }
        ensures sized { IfSome result (λ section. length section.content.now ≤ section.size) }
    {
        self.sections.get_header(i)
    }

    /// The symbol with a number, without its name: its name isn't looked at. `None` exactly for a number that
    /// isn't below the count.
    pub fn symbol_entry(&self, i: u32) -> Option<SymbolEntry>
        ensures { result ≡ option_map entry_of (slice_get self.now.symbols i) }
    {
        self.symbols.get_entry(i)
    }

    /// Whether the section with an index has this name. It looks at no more of the file's name than this one is
    /// long, and one byte.
    pub fn is_section_named(&self, i: u16, name: &[u8]) -> bool
        requires { i < length self.now.sections }
        ensures { option_map (λ s. bytes_eq s.name name.now) (slice_get self.now.sections i) ≡ Some result }
    {
        self.sections.is_named(i, name)
    }

    /// Whether the symbol with a number has this name. It looks at no more of the file's name than this one is
    /// long, and one byte.
    pub fn is_symbol_named(&self, i: u32, name: &[u8]) -> bool
        requires { i < length self.now.symbols }
        ensures { option_map (λ s. bytes_eq s.name name.now) (slice_get self.now.symbols i) ≡ Some result }
    {
        self.symbols.is_named(i, name)
    }

    /// The first section of a name, in index order. `None` exactly where there is none.
    pub fn section_named(&self, name: &[u8]) -> Option<Section<'a>>
        ensures first { option_map section_of result ≡ find (λ s. bytes_eq s.name name.now) self.now.sections }
        ensures small { IfSome result (λ section. length section.content.now < 2 ^ 32 - 1) }
        ensures sized { IfSome result (λ section. length section.content.now ≤ section.size) }
    {
        self.sections.find(name)
    }

    /// The byte that is loaded at an address: that of the first section in index order that isn't
    /// NULL, has ALLOC and covers the address; a NOBITS section has zeros. `None` exactly where no
    /// section covers it.
    pub fn load(&self, at: u64) -> Option<u8>
        ensures { result ≡ loaded self.now.sections at }
    {
        self.sections.load(at)
    }

    /// The bytes that are loaded at the 16 addresses from one on, each as `load` says, in one pass over the
    /// sections. Addresses wrap modulo 2^64.
    pub fn load_16(&self, at: u64) -> [Option<u8>; 16]
        ensures { result ≡ loaded_from self.now.sections 16 at }
    {
        self.sections.load_16(at)
    }

    /// How many bytes the file has.
    pub fn byte_count(&self) -> u32
        ensures small { result < 2 ^ 32 - 1 }
        ensures least { (i : ℕ) (s : SectionRecord) → slice_get self.now.sections i ≡ Some s → length s.content ≤ result }
    {
        self.sections.headers.bytes.len() as u32
    }
}
