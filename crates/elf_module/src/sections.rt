//! The sections of a file, each of which stands in it.
ghost use Rattle.std.specs.Prelude.{◌≡◌, ◌<◌, ◌≤◌, ◌+◌, ◌%◌, ◌^◌, ℕ, true, false, None, option_map, find, length, map, slice_get, slice_index_or, IfOk, IfSome, IsTrue, MatchOption};
ghost use Rattle.std.specs.List.{range_with_len};
ghost use Rattle.std.specs.Option.{option_or};
ghost use Rattle.std.specs.Str.{bytes_eq};
ghost use Rattle.elf_module.specs.Elf.{byte_at, byte_over, content, covers, e_shnum, e_shstrndx, header_of, loaded, loaded_from, name_in, section_at, section_of, sections_of, sh_name, symtab_of, unnamed};
ghost use Rattle.elf_module.specs.Refusals.{AreInside, IsStringTable, Passes, Tries};

use crate::headers::{Headers, SHT_NOBITS, SHT_NULL, SHT_STRTAB, SHT_SYMTAB};
use crate::names::{is_name_at, name_at, names_end};
use crate::records::{Section, SectionHeader};
use crate::refused::ElfRefused;
use std::array;

/// The sections of a file, none of which reaches past it.
#[derive(Clone, Copy)]
pub(crate) struct Sections<'a> {
    /// Their headers.
    pub(crate) headers: Headers<'a>,
    /// The string table with their names.
    pub(crate) names: &'a [u8],
    ghost inside: { AreInside headers.bytes.now },
    ghost names_is: { names.now ≡ content headers.bytes.now (e_shstrndx headers.bytes.now) },
}

/// Looks for a section that reaches past the file.
pub(crate) fn inside<'a>(headers: Headers<'a>) -> Result<Sections<'a>, ElfRefused>
    requires { Passes headers.bytes.now 10 }
    ensures tried { Tries headers.entry.bytes.now 11 result }
    ensures same { IfOk result (λ sections. sections.headers ≡ headers.entry) }
{
    let len = headers.bytes.len() as u64;
    for i in 0..headers.count {
        if headers.header(i).reaches_past(len) {
            return Err(ElfRefused::Section(u64::from(i)));
        }
    }
    let names = headers.header(headers.names).content(headers.bytes);
    Ok(Sections { headers, names })
}

/// Looks for a string table of names, and for each section's name in it.
pub(crate) fn named(sections: &Sections<'_>) -> Result<(), ElfRefused>
    requires { Passes sections.now.headers.bytes.now 11 }
    ensures { Tries sections.now.headers.bytes.now 12 result }
{
    let headers = &sections.headers;
    if headers.header(headers.names).kind != SHT_STRTAB {
        return Err(ElfRefused::Names(u64::from(headers.names)));
    }
    let end = names_end(sections.names) as u64;
    for i in 0..headers.count {
        if u64::from(headers.header(i).name) >= end {
            return Err(ElfRefused::Names(u64::from(i)));
        }
    }
    Ok(())
}

impl<'a> Sections<'a> {
    /// The section with an index below the count.
    pub(crate) fn at(&self, index: u16) -> Section<'a>
        requires { index < self.now.headers.count }
        ensures at { section_of result ≡ section_at self.now.headers.bytes.now index }
        ensures within { length result.content.now ≤ length self.now.headers.bytes.now }
        ensures sized { length result.content.now ≤ result.size }
    {
        let header = self.header(index);
        Section {
            index,
            name: self.name(index),
            kind: header.kind,
            flags: header.flags,
            addr: header.addr,
            size: header.size,
            link: header.link,
            content: header.content,
        }
    }

    /// The name of the section with an index below the count.
    fn name(&self, index: u16) -> &'a [u8]
        requires { index < self.now.headers.count }
        ensures { result.now ≡ name_in (content self.now.headers.bytes.now (e_shstrndx self.now.headers.bytes.now)) (sh_name self.now.headers.bytes.now index) }
    {
        name_at(self.names, self.headers.header(index).name as usize)
    }

    /// The section with an index below the count, without its name.
    fn header(&self, index: u16) -> SectionHeader<'a>
        requires { index < self.now.headers.count }
        ensures at { header_of result ≡ unnamed (section_at self.now.headers.bytes.now index) }
        ensures within { length result.content.now ≤ length self.now.headers.bytes.now }
        ensures sized { length result.content.now ≤ result.size }
    {
        let header = self.headers.header(index);
        SectionHeader {
            index,
            kind: header.kind,
            flags: header.flags,
            addr: header.addr,
            size: header.size,
            link: header.link,
            content: header.content(self.headers.bytes),
        }
    }

    /// The section with an index, without its name.
    pub(crate) fn get_header(&self, index: u16) -> Option<SectionHeader<'a>>
        ensures found { option_map header_of result ≡ option_map unnamed (slice_get (sections_of self.now.headers.bytes.now) index) }
        ensures within { IfSome result (λ section. length section.content.now ≤ length self.now.headers.bytes.now) }
        ensures sized { IfSome result (λ section. length section.content.now ≤ section.size) }
    {
        if index < self.headers.count {
            Some(self.header(index))
        } else {
            None
        }
    }

    /// Whether the section with an index below the count has this name.
    pub(crate) fn is_named(&self, index: u16, name: &[u8]) -> bool
        requires { index < self.now.headers.count }
        ensures { result ≡ bytes_eq (section_at self.now.headers.bytes.now index).name name.now }
    {
        is_name_at(self.names, self.headers.header(index).name as usize, name)
    }

    /// The section with an index.
    pub(crate) fn get(&self, index: u16) -> Option<Section<'a>>
        ensures found { option_map section_of result ≡ slice_get (sections_of self.now.headers.bytes.now) index }
        ensures within { IfSome result (λ section. length section.content.now ≤ length self.now.headers.bytes.now) }
        ensures sized { IfSome result (λ section. length section.content.now ≤ section.size) }
    {
        if index < self.headers.count {
            Some(self.at(index))
        } else {
            None
        }
    }

    /// The bytes of the string table with an index.
    pub(crate) fn string_table(&self, index: u32) -> Option<&'a [u8]>
        ensures { MatchOption result (IsStringTable self.now.headers.bytes.now index → ⊥) (λ table. IsStringTable self.now.headers.bytes.now index × (table.now ≡ content self.now.headers.bytes.now index)) }
    {
        if index >= u32::from(self.headers.count) {
            return None;
        }
        let header = self.headers.header(index as u16);
        if header.kind != SHT_STRTAB {
            return None;
        }
        Some(header.content(self.headers.bytes))
    }

    /// The first section of symbols.
    pub(crate) fn symtab(&self) -> Option<Section<'a>>
        ensures found { option_map section_of result ≡ symtab_of self.now.headers.bytes.now }
        ensures within { IfSome result (λ symtab. length symtab.content.now ≤ length self.now.headers.bytes.now) }
    {
        for i in 0..self.headers.count {
            if self.headers.header(i).kind == SHT_SYMTAB {
                return Some(self.at(i));
            }
        }
        None
    }

    /// The first section of a name.
    pub(crate) fn find(&self, name: &[u8]) -> Option<Section<'a>>
        ensures found { option_map section_of result ≡ find (λ s. bytes_eq s.name name.now) (sections_of self.now.headers.bytes.now) }
        ensures within { IfSome result (λ section. length section.content.now ≤ length self.now.headers.bytes.now) }
        ensures sized { IfSome result (λ section. length section.content.now ≤ section.size) }
    {
        for i in 0..self.headers.count {
            if self.is_named(i, name) {
                return Some(self.at(i));
            }
        }
        None
    }

    /// The byte that is loaded at an address.
    pub(crate) fn load(&self, at: u64) -> Option<u8>
        ensures { result ≡ loaded (sections_of self.now.headers.bytes.now) at }
    {
        for i in 0..self.headers.count {
            if self.covers(i, at) {
                return Some(self.byte_at(i, at));
            }
        }
        None
    }

    /// The 16 bytes that are loaded from an address on.
    pub(crate) fn load_16(&self, at: u64) -> [Option<u8>; 16]
        ensures { result ≡ loaded_from (sections_of self.now.headers.bytes.now) 16 at }
    {
        let mut bytes = [None; 16];
        for i in 0..self.headers.count {
            if self.may_add(i, at, &bytes) {
                bytes = self.load_over(i, at, &bytes);
            }
        }
        bytes
    }

    /// Whether one of the bytes from an address on is missing, and the section with an index may have it.
    fn may_add(&self, index: u16, at: u64, bytes: &[Option<u8>; 16]) -> bool
        requires { index < self.now.headers.count }
        ensures { (k : ℕ) → k < 16 → slice_index_or bytes.now k None ≡ None → IsTrue (covers (section_at self.now.headers.bytes.now index) ((at + k) % 2 ^ 64)) → IsTrue result }
    {
        if !is_one_missing(bytes) {
            return false;
        }
        self.may_cover(index, at)
    }

    /// Whether the section with an index may be loaded over one of the 16 bytes from an address on: it has the first,
    /// or begins at one. The difference wraps, as the addresses of the bytes do.
    fn may_cover(&self, index: u16, at: u64) -> bool
        requires { index < self.now.headers.count }
        ensures { (k : ℕ) → k < 16 → IsTrue (covers (section_at self.now.headers.bytes.now index) ((at + k) % 2 ^ 64)) → IsTrue result }
    {
        if self.covers(index, at) {
            return true;
        }
        self.headers.header(index).addr.wrapping_sub(at) < 16
    }

    /// Bytes from an address on, with those of the section with an index where one is missing.
    fn load_over(&self, index: u16, at: u64, bytes: &[Option<u8>; 16]) -> [Option<u8>; 16]
        requires { index < self.now.headers.count }
        ensures { result ≡ map (λ k. option_or (slice_index_or bytes.now k None) (byte_over (section_at self.now.headers.bytes.now index) ((at + k) % 2 ^ 64))) (range_with_len 0 16) }
    {
        array::from_fn(|k| self.byte_or(index, at, bytes, k))
    }

    /// A byte of those from an address on, or where it is missing that of the section with an index.
    fn byte_or(&self, index: u16, at: u64, bytes: &[Option<u8>; 16], k: usize) -> Option<u8>
        requires { index < self.now.headers.count }
        ensures { result ≡ option_or (slice_index_or bytes.now k None) (byte_over (section_at self.now.headers.bytes.now index) ((at + k) % 2 ^ 64)) }
    {
        match bytes.get(k).copied().flatten() {
            Some(byte) => Some(byte),
            None => self.byte_over(index, at.wrapping_add(k as u64)),
        }
    }

    /// The byte of the section with an index at an address, where it is loaded over it.
    fn byte_over(&self, index: u16, at: u64) -> Option<u8>
        requires { index < self.now.headers.count }
        ensures { result ≡ byte_over (section_at self.now.headers.bytes.now index) at }
    {
        if self.covers(index, at) {
            Some(self.byte_at(index, at))
        } else {
            None
        }
    }

    /// Whether the section with an index is loaded over an address.
    fn covers(&self, index: u16, at: u64) -> bool
        requires { index < self.now.headers.count }
        ensures { result ≡ covers (section_at self.now.headers.bytes.now index) at }
    {
        let header = self.headers.header(index);
        if header.kind == SHT_NULL {
            return false;
        }
        if !header.is_alloc() {
            return false;
        }
        header.addr <= at && at - header.addr < header.size
    }

    /// The byte of the section with an index at an address that it covers.
    fn byte_at(&self, index: u16, at: u64) -> u8
        requires below { index < self.now.headers.count }
        requires covers { covers (section_at self.now.headers.bytes.now index) at ≡ true }
        ensures { result ≡ byte_at (section_at self.now.headers.bytes.now index) at }
    {
        let header = self.headers.header(index);
        if header.kind == SHT_NOBITS {
            return 0;
        }
        header.content(self.headers.bytes)[(at - header.addr) as usize]
    }
}

/// Whether one of these bytes is missing.
fn is_one_missing(bytes: &[Option<u8>; 16]) -> bool
    ensures { result ≡ false → (k : ℕ) → k < 16 → slice_index_or bytes.now k None ≡ None → ⊥ }
{
    for byte in bytes {
        if byte.is_none() {
            return true;
        }
    }
    false
}
