//! The names of a module's functions and keys.
ghost use Rattle.std.specs.Prelude.{◌≡◌, ◌≤◌, ◌<◌, ◌+◌, ◌++◌, ℕ, [], length, option_map, slice_get, Some, None, if◌then◌else◌, IfOk, IfErr, IsTrue, OnErr, OnOk};
ghost use Rattle.std.specs.Option.{option_to_list};
ghost use Rattle.elf_module.specs.Elf.{SymbolRecord, entry_of, symbol_of};
ghost use Rattle.module_names.specs.KeyList.{IsRising};
ghost use Rattle.module_names.specs.Names.{is_function};
ghost use Rattle.module_names.specs.NamesGiven.{AreNames, IsGiven, IsNamed, function_of, key_number, nameless};
ghost use Rattle.module_parts.specs.declared.refused.Refused.TheVariants.{NoMemory};

use crate::key_list::{KeyAddresses, place_of};
use crate::name_budget::NameBudget;
use crate::names::Names;
use elf_module::{ElfFile, Symbol, SymbolEntry};
use module_parts::Refused;
use std::alloc::Global;

/// The type of a symbol that is a function (gABI: `STT_FUNC`).
const STT_FUNC: u8 = 2;

/// The index of the section of a symbol that is defined nowhere (gABI: `SHN_UNDEF`).
const SHN_UNDEF: u16 = 0;

/// What the symbols of a file name.
#[derive(Drop)]
pub struct SymbolNames {
    /// The address of the first function of each name.
    pub functions: Names<u64>,
    /// The addresses of all functions, in symbol order.
    pub addresses: Vec<u64>,
    /// The number of the first jump key of each name.
    pub jump_keys: Names<u32>,
    /// The number of the first call key of each name.
    pub call_keys: Names<u32>,
}

impl SymbolNames {
    /// The functions of the text with this section index, and these keys, by the names of a file's symbols, in one
    /// pass. A name is read only where its symbol names one of them, and all names that are read have a budget
    /// (`NameBudget`).
    ///
    /// # Errors
    /// Where there is no memory, or the names' budget is spent.
    pub fn of(
        alloc: Global,
        file: &ElfFile<'_>,
        index: u16,
        keys: &KeyAddresses,
    ) -> Result<SymbolNames, Refused>
        ensures names { IfOk result (AreNames index keys.now.jumps.items keys.now.calls.items file.now.symbols) }
        ensures failed { IfErr result (λ why. why ≡ NoMemory) }
    {
        let mut found = SymbolNames::new(alloc);
        let mut budget = NameBudget::of(file);
        for i in 0..file.symbol_count() {
            found.add_symbol(alloc, file, index, keys, &mut budget, i)?;
        }
        Ok(found)
    }

    /// No names.
    fn new(alloc: Global) -> SymbolNames
        ensures functions { result.functions ≡ [] }
        ensures addresses { result.addresses.items ≡ [] }
        ensures jump_keys { result.jump_keys ≡ [] }
        ensures call_keys { result.call_keys ≡ [] }
    {
        SymbolNames {
            functions: Names::new(alloc),
            addresses: Vec::new(alloc),
            jump_keys: Names::new(alloc),
            call_keys: Names::new(alloc),
        }
    }

    /// Adds what the symbol with a number below the count names.
    fn add_symbol(
        &mut self,
        alloc: Global,
        file: &ElfFile<'_>,
        index: u16,
        keys: &KeyAddresses,
        budget: &mut NameBudget,
        i: u32,
    ) -> Result<(), Refused>
        requires { i < length file.now.symbols }
        ensures named { OnOk result ((s : SymbolRecord) → slice_get file.now.symbols i ≡ Some s → IsNamed index keys.now.jumps.items keys.now.calls.items self.old self.new s) }
        ensures failed { IfErr result (λ why. why ≡ NoMemory) }
    {
        let target = Target::of(index, keys, &entry_at(file, i));
        if target.is_nothing() {
            return Ok(());
        }
        let symbol = symbol_at(file, i);
        self.add(alloc, symbol.name, &target, budget)
    }

    /// Gives a name to what it stands for.
    fn add(
        &mut self,
        alloc: Global,
        name: &[u8],
        target: &Target,
        budget: &mut NameBudget,
    ) -> Result<(), Refused>
        ensures given { OnOk result (IsGiven name.now target.now.function target.now.jump_key target.now.call_key self.old self.new) }
        ensures failed { IfErr result (λ why. why ≡ NoMemory) }
    {
        budget.give(alloc, &mut self.functions, name, target.function)?;
        add_address(&mut self.addresses, target.function)?;
        budget.give(alloc, &mut self.jump_keys, name, target.jump_key)?;
        budget.give(alloc, &mut self.call_keys, name, target.call_key)?;
        Ok(())
    }
}

/// What a symbol names: a function by its address, keys by their numbers.
#[derive(Clone, Copy)]
struct Target {
    function: Option<u64>,
    jump_key: Option<u32>,
    call_key: Option<u32>,
}

impl Target {
    /// What a symbol names: the function of the text with this section index, and these keys.
    fn of(index: u16, keys: &KeyAddresses, entry: &SymbolEntry) -> Target
        ensures function { result.function ≡ function_of index (nameless entry.now) }
        ensures jump_key { result.jump_key ≡ key_number 0 keys.now.jumps.items (nameless entry.now) }
        ensures call_key { result.call_key ≡ key_number (length keys.now.jumps.items) keys.now.calls.items (nameless entry.now) }
    {
        Target {
            function: function_named(index, entry),
            jump_key: key_named(0, &keys.jumps, entry),
            call_key: key_named(keys.jumps.len() as u32, &keys.calls, entry),
        }
    }

    /// Whether it names neither a function nor a key.
    fn is_nothing(&self) -> bool
        ensures function { IsTrue result → self.now.function ≡ None }
        ensures jump_key { IsTrue result → self.now.jump_key ≡ None }
        ensures call_key { IsTrue result → self.now.call_key ≡ None }
    {
        self.function.is_none() && self.jump_key.is_none() && self.call_key.is_none()
    }
}

/// Adds an address, if there is one.
fn add_address(addresses: &mut Vec<u64>, address: Option<u64>) -> Result<(), Refused>
    ensures added { OnOk result (addresses.new.items ≡ addresses.old.items ++ option_to_list address) }
    ensures failed { IfErr result (λ why. why ≡ NoMemory) }
{
    match address {
        Some(address) => Ok(addresses.push(address)?),
        None => Ok(()),
    }
}

/// The address of the function that a symbol names, if it does.
fn function_named(index: u16, entry: &SymbolEntry) -> Option<u64>
    ensures { result ≡ function_of index (nameless entry.now) }
{
    if is_function(index, entry) {
        Some(entry.value)
    } else {
        None
    }
}

/// The number of the key that a symbol names, if it does.
fn key_named(first: u32, keys: &[u64], entry: &SymbolEntry) -> Option<u32>
    requires rising { IsRising keys.now }
    requires few { length keys.now ≤ 1024 }
    requires first { first ≤ 1024 }
    ensures { result ≡ key_number first keys.now (nameless entry.now) }
{
    if entry.shndx == SHN_UNDEF {
        return None;
    }
    let place = place_of(keys, entry.value);
    if place as usize == keys.len() {
        return None;
    }
    Some(first + place)
}

/// Whether a symbol is a function of the section with this index.
fn is_function(index: u16, entry: &SymbolEntry) -> bool
    ensures { result ≡ is_function index (nameless entry.now) }
{
    entry.info % 16 == STT_FUNC && entry.shndx == index
}

/// The symbol with a number below the count, without its name.
fn entry_at(file: &ElfFile<'_>, i: u32) -> SymbolEntry
    requires { i < length file.now.symbols }
    ensures { option_map entry_of (slice_get file.now.symbols i) ≡ Some result }
{
    file.symbol_entry(i).unwrap()
}

/// The symbol with a number below the count.
fn symbol_at<'a>(file: &ElfFile<'a>, i: u32) -> Symbol<'a>
    requires { i < length file.now.symbols }
    ensures { slice_get file.now.symbols i ≡ Some (symbol_of result) }
{
    file.symbol(i).unwrap()
}
