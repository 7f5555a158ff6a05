//! Accepted modules.
ghost use Rattle.std.specs.Prelude.{◌≡◌, ◌<◌, ◌^◌, IfSome, length};
ghost use Rattle.module_image.specs.Lent.{IsTraceSite};
ghost use Rattle.module_image.specs.Module.{is_trace_at, trace_at};

use crate::finding::{Found, find_keys};
use crate::lookup::{plain_at, site_at};
use crate::rows::{no_reach, tracer_missing};
use crate::swept::Swept;
use crate::{Key, KeyClass, Refused, Site, SiteKind, Unit};
use elf_module::ElfFile;
use module_names::{Names, SymbolNames};
use std::alloc::Global;
use std::marker::Model;
use x64_subset::Insn;

/// The name of the function that is called at traced sites.
const TRACER_NAME: &[u8] = b"ftrace_caller";

/// How many bytes ENDBR64 has, after which a function's trace site may stand.
const ENDBR64_BYTES: u64 = 4;

/// An accepted module: its text after early writing, its sites and keys, and what its names stand for.
#[derive(Drop)]
pub struct Image {
    base: u64,
    text: Vec<u8>,
    units: Vec<Unit>,
    sites: Vec<Site>,
    keys: Vec<Key>,
    functions: Names<u64>,
    jump_keys: Names<u32>,
    call_keys: Names<u32>,
    /// The address of the function that is called at traced sites.
    tracer: Option<u64>,
}

impl Model for Image {
    ghost use Rattle.module_image.specs.Module.{Module};

    ghost Value = { Module };

    ghost use Rattle.module_image.specs.Inside.{module_of, IsSound};

    ghost view = { module_of };

    ghost invariant = { IsSound };
}

impl Image {
    ghost use Rattle.std.specs.Prelude.{◌≡◌, ◌≤◌, ◌<◌, ◌+◌, ◌^◌, IfOk, IfErr, IfSome, MatchOption, length};
    ghost use Rattle.module_image.specs.First.{HasNone};
    ghost use Rattle.module_image.specs.Layout.{site_at};
    ghost use Rattle.module_image.specs.Lent.{IsInsnAt, IsKeyOf, IsPatchedSite, IsPlaceOf, IsTraceSite, KeysAreKnown};
    ghost use Rattle.module_names.specs.Names.{value_of};
    ghost use Rattle.module_image.specs.Module.{IsAccepted, IsModule, names_of, plain_at, trace_site_of, tracer_of};
    ghost use Rattle.module_image.specs.Refusals.{IsRefusedFor, IsTrace};
    ghost use Rattle.module_image.specs.Text.{AreInside, AreApart};

    /// Accepts the module of a file: finds its sites and keys, writes each site that holds one of its early forms
    /// to what it wants with the keys as the file has them, and sweeps the text. It takes time in O(n log n) of
    /// entries and symbols, linear in the text, and a look through the sections for each key. All names that it reads
    /// have at most four times the file's bytes; past that it is out of memory.
    ///
    /// # Errors
    /// The first condition that holds, in the order of `Refused`, with its numbers; `NoMemory` may come at any place.
    pub fn accept(alloc: Global, file: &ElfFile<'_>) -> Result<Image, Refused>
        ensures accepted { IfOk result (IsModule file.now) }
        ensures refused { IfErr result (IsRefusedFor file.now) }
    {
        let found = Found::of(alloc, file)?;
        let keys = find_keys(alloc, file, &found.addresses)?;
        no_reach(file, &found.sites)?;
        let names = SymbolNames::of(alloc, file, found.text.index, &found.addresses)?;
        let tracer = names.functions.get(TRACER_NAME);
        tracer_missing(file, &found.sites, tracer)?;
        let swept = Swept::of(alloc, file, &found, &keys, &names.addresses)?;
        Ok(Image {
            base: found.text.base,
            text: swept.text,
            units: swept.units,
            sites: found.sites,
            keys,
            functions: names.functions,
            jump_keys: names.jump_keys,
            call_keys: names.call_keys,
            tracer,
        })
    }

    /// A module that is lent is that of some file that was accepted. It does nothing: its clause is what all laws of
    /// accepted modules ask for.
    pub fn accepted(&self)
        ensures { IsAccepted self.now }
    {
        let _base = &self.base;
    }

    /// The address of the text's first byte. No address of the text wraps, and none after it does.
    pub fn base(&self) -> u64
        ensures base { result ≡ self.now.base }
        ensures below { result + length self.now.text < 2 ^ 64 }
    {
        self.base
    }

    /// The text, after early writing: 1 to 65,536 bytes.
    pub fn text(&self) -> &[u8]
        ensures text { result.now ≡ self.now.text }
        ensures some { 1 ≤ length result.now }
        ensures short { length result.now ≤ 65536 }
        ensures below { self.now.base + length result.now < 2 ^ 64 }
    {
        &self.text
    }

    /// The sites, at most 1,024, ascending. No two share a byte, and all their bytes are in the text. The key of each
    /// is one of `keys`, of the class that the site's kind asks for.
    pub fn sites(&self) -> &[Site]
        ensures sites { result.now ≡ self.now.sites }
        ensures inside { AreInside self.now.base (length self.now.text) self.now.sites }
        ensures apart { AreApart self.now.sites }
        ensures few { length result.now ≤ 1024 }
        ensures known { KeysAreKnown result.now self.now.keys }
    {
        &self.sites
    }

    /// The keys, at most 1,024: those of jumps, then those of calls, each ascending by address.
    pub fn keys(&self) -> &[Key]
        ensures keys { result.now ≡ self.now.keys }
        ensures few { length result.now ≤ 1024 }
    {
        &self.keys
    }

    /// The number of the site that isn't foreign and begins at an address. `None` exactly where there is none.
    pub fn site_at(&self, at: u64) -> Option<u32>
        ensures found { result ≡ site_at self.now.sites at }
        ensures site { IfSome result (IsPatchedSite self.now.sites at) }
    {
        site_at(self.base, &self.units, at)
    }

    /// The plain instruction that begins at an address, with its length in bytes, all of which are in the text. `None`
    /// exactly where none does.
    pub fn insn_at(&self, at: u64) -> Option<(Insn, u8)>
        ensures found { result ≡ plain_at self.now at }
        ensures insn { IfSome result (IsInsnAt self.now at) }
    {
        plain_at(self.base, &self.units, at)
    }

    /// The number of the key that the first symbol of a name stands for which names a key of that class. `None`
    /// exactly where there is no such symbol.
    pub fn key_named(&self, class: KeyClass, name: &[u8]) -> Option<u32>
        ensures found { result ≡ value_of name.now (names_of self.now class) }
        ensures key { IfSome result (IsKeyOf self.now.keys class) }
    {
        match class {
            KeyClass::Jump => self.jump_keys.get(name),
            KeyClass::Call => self.call_keys.get(name),
        }
    }

    /// The address of the function that the first symbol of a name stands for which names a function. A unit begins
    /// there. `None` exactly where there is no such symbol.
    pub fn function_named(&self, name: &[u8]) -> Option<u64>
        ensures found { result ≡ value_of name.now self.now.functions }
        ensures place { IfSome result (IsPlaceOf self.now) }
    {
        self.functions.get(name)
    }

    /// The number of the trace site at a function's address, or where there is none of the one four bytes after
    /// it, after ENDBR64. `None` exactly where both are missing.
    pub fn trace_site_of(&self, function: u64) -> Option<u32>
        ensures found { result ≡ trace_site_of self.now function }
        ensures site { IfSome result (IsTraceSite self.now.sites) }
    {
        match trace_at(&self.sites, function) {
            Some(site) => Some(site),
            None => trace_at(&self.sites, function.wrapping_add(ENDBR64_BYTES)),
        }
    }

    /// The address of the function `ftrace_caller`. `None` exactly where there is no such function; no site is a trace
    /// site then.
    pub fn tracer(&self) -> Option<u64>
        ensures found { result ≡ tracer_of self.now }
        ensures place { MatchOption result (HasNone IsTrace self.now.sites) (IsPlaceOf self.now) }
    {
        self.tracer
    }
}

/// The number of the first trace site at an address.
fn trace_at(sites: &[Site], at: u64) -> Option<u32>
    requires { length sites.now < 2 ^ 32 }
    ensures found { result ≡ trace_at sites.now at }
    ensures site { IfSome result (IsTraceSite sites.now) }
{
    let place = sites.iter().position(|site| is_trace_at(site, at))?;
    Some(place as u32)
}

/// Whether a trace site begins at an address.
fn is_trace_at(site: &Site, at: u64) -> bool
    ensures { result ≡ is_trace_at at site.now }
{
    matches!(site.kind, SiteKind::Trace) && site.at == at
}
