//! The symbols of a file.
ghost use Rattle.std.specs.Prelude.{◌≡◌, ◌<◌, ◌≤◌, ◌+◌, ◌-◌, ◌*◌, ◌/◌, ◌^◌, ℕ, drop, length, option_map, slice_get, IfOk, MatchOption};
ghost use Rattle.std.specs.Str.{bytes_eq};
ghost use Rattle.elf_module.specs.Elf.{entry_of, field, symbol_in, symbol_of, symbols_from, symtab_of};
ghost use Rattle.elf_module.specs.Refusals.{HasName, IsFirstBelow, LacksNameIn, Passes, SymbolsAre, Tries};

use crate::fields::{u8_at, u16_at, u32_at, u64_at};
use crate::names::{is_name_at, name_at, names_end};
use crate::records::{Symbol, SymbolEntry};
use crate::refused::ElfRefused;
use crate::sections::Sections;

/// The size of a symbol.
const SYMBOL_SIZE: usize = 24;

/// The symbols of a file.
#[derive(Clone, Copy)]
pub(crate) struct Symbols<'a> {
    /// The entries of 24 bytes each.
    pub(crate) entries: &'a [u8],
    /// The string table with their names.
    pub(crate) names: &'a [u8],
    ghost few: { length entries.now < 2 ^ 32 },
}

/// Finds the symbols, and looks for each one's name in their string table.
pub(crate) fn find_symbols<'a>(sections: &Sections<'a>) -> Result<Symbols<'a>, ElfRefused>
    requires passes { Passes sections.now.headers.bytes.now 12 }
    requires short { length sections.now.headers.bytes.now < 2 ^ 32 - 1 }
    ensures tried { Tries sections.now.headers.bytes.now 13 result }
    ensures found { IfOk result (λ symbols. SymbolsAre sections.now.headers.bytes.now (symtab_of sections.now.headers.bytes.now) symbols.entries.now symbols.names.now) }
{
    match sections.symtab() {
        None => Ok(Symbols {
            entries: &[],
            names: &[],
        }),
        Some(symtab) => {
            if symtab.size % SYMBOL_SIZE as u64 != 0 {
                return Err(ElfRefused::Symbols(0));
            }
            match sections.string_table(symtab.link) {
                None => Err(ElfRefused::Symbols(0)),
                Some(names) => {
                    let entries = symtab.content;
                    match unnamed(entries, names) {
                        Some(i) => Err(ElfRefused::Symbols(i as u64)),
                        None => Ok(Symbols { entries, names }),
                    }
                }
            }
        }
    }
}

/// The first symbol whose name doesn't stand in a string table with its ending zero.
fn unnamed(entries: &[u8], names: &[u8]) -> Option<usize>
    ensures { MatchOption result ((k : ℕ) → k < length entries.now / 24 → HasName names.now (field 4 (24 * k) entries.now)) (λ i. IsFirstBelow (LacksNameIn names.now entries.now) (length entries.now / 24) i) }
{
    let end = names_end(names);
    for i in 0..entries.len() / SYMBOL_SIZE {
        if u32_at(entries, SYMBOL_SIZE * i) as usize >= end {
            return Some(i);
        }
    }
    None
}

impl<'a> Symbols<'a> {
    /// How many symbols there are.
    pub(crate) fn count(&self) -> u32
        ensures { result ≡ length self.now.entries.now / 24 }
    {
        (self.entries.len() / SYMBOL_SIZE) as u32
    }

    /// The symbol with a number below the count.
    pub(crate) fn at(&self, i: u32) -> Symbol<'a>
        requires { i < length self.now.entries.now / 24 }
        ensures { symbol_of result ≡ symbol_in self.now.names.now (drop (24 * i) self.now.entries.now) }
    {
        let entry = self.entry(i);
        Symbol {
            name: name_at(self.names, self.name(i)),
            info: entry.info,
            shndx: entry.shndx,
            value: entry.value,
        }
    }

    /// Where the name of the symbol with a number below the count begins in the string table.
    fn name(&self, i: u32) -> usize
        requires { i < length self.now.entries.now / 24 }
        ensures { result ≡ field 4 0 (drop (24 * i) self.now.entries.now) }
    {
        u32_at(&self.entries[SYMBOL_SIZE * i as usize..], 0) as usize
    }

    /// The symbol with a number below the count, without its name.
    fn entry(&self, i: u32) -> SymbolEntry
        requires { i < length self.now.entries.now / 24 }
        ensures { result ≡ entry_of (symbol_in self.now.names.now (drop (24 * i) self.now.entries.now)) }
    {
        let entry = &self.entries[SYMBOL_SIZE * i as usize..];
        SymbolEntry {
            info: u8_at(entry, 4),
            shndx: u16_at(entry, 6),
            value: u64_at(entry, 8),
        }
    }

    /// The symbol with a number, without its name.
    pub(crate) fn get_entry(&self, i: u32) -> Option<SymbolEntry>
        ensures { result ≡ option_map entry_of (slice_get (symbols_from self.now.entries.now self.now.names.now) i) }
    {
        if i < self.count() {
            Some(self.entry(i))
        } else {
            None
        }
    }

    /// Whether the symbol with a number below the count has this name.
    pub(crate) fn is_named(&self, i: u32, name: &[u8]) -> bool
        requires { i < length self.now.entries.now / 24 }
        ensures { result ≡ bytes_eq (symbol_in self.now.names.now (drop (24 * i) self.now.entries.now)).name name.now }
    {
        is_name_at(self.names, self.name(i), name)
    }

    /// The symbol with a number.
    pub(crate) fn get(&self, i: u32) -> Option<Symbol<'a>>
        ensures { option_map symbol_of result ≡ slice_get (symbols_from self.now.entries.now self.now.names.now) i }
    {
        if i < self.count() {
            Some(self.at(i))
        } else {
            None
        }
    }
}
