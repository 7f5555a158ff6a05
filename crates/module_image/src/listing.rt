//! The tables of a file, and their entries in one list.
ghost use Rattle.std.specs.Prelude.{◌≡◌, ◌≤◌, ◌+◌, ◌*◌, ◌++◌, length, IfOk, IfErr, OnOk};
ghost use Rattle.module_parts.specs.declared.refused.Refused.TheVariants.{NoMemory};
ghost use Rattle.site_tables.specs.Entry.{entry_size};
ghost use Rattle.site_tables.specs.Found.{AreWhole, IsWhole, section_in};
ghost use Rattle.module_names.specs.Entries.{entries, jump_entry, call_entry};
ghost use Rattle.module_image.specs.Refusals.{Passes, Tries, past_table, past_text_size};
ghost use Rattle.module_image.specs.Tables.{entries_of, entry_in, table_entries};

use crate::{Entry, EntryKind, Refused};
use elf_module::{ElfFile, Section};
use site_tables::{
    CallSite, JumpEntry, Table, TableKind, Tables, call_site, jump_entry, trace_site,
};
use std::alloc::Global;

/// The tables of a file, each of whole entries.
///
/// # Errors
/// `Table` for the first, of jumps, calls and traces, that isn't whole entries.
pub fn find_tables<'a>(file: &ElfFile<'a>) -> Result<Tables<'a>, Refused>
    requires { Passes file.now past_text_size }
    ensures tried { Tries file.now past_table result }
    ensures found { IfOk result (λ tables. entries_of tables ≡ entries file.now) }
    ensures whole { IfOk result AreWhole }
{
    match site_tables::find_tables(file) {
        Ok(tables) => Ok(tables),
        Err(bad) => Err(Refused::Table(bad.kind, bad.size)),
    }
}

/// How many entries the tables have.
pub fn entry_count(tables: &Tables<'_>) -> u64
    requires { AreWhole tables.now }
    ensures { result ≡ length (entries_of tables.now) }
{
    tables.jumps.entry_count() + tables.calls.entry_count() + tables.traces.entry_count()
}

/// All entries: jumps, calls, traces, each in file order.
///
/// # Errors
/// `NoMemory` alone.
pub fn listed(alloc: Global, tables: &Tables<'_>) -> Result<Vec<Entry>, Refused>
    requires { AreWhole tables.now }
    ensures list { IfOk result (λ list. list.items ≡ entries_of tables.now) }
    ensures failed { IfErr result (λ why. why ≡ NoMemory) }
{
    let mut list = Vec::new(alloc);
    add_table(TableKind::Jump, &tables.jumps, &mut list)?;
    add_table(TableKind::Call, &tables.calls, &mut list)?;
    add_table(TableKind::Trace, &tables.traces, &mut list)?;
    Ok(list)
}

/// Adds the entries of the table of a kind to a list.
fn add_table(kind: TableKind, table: &Table<'_>, list: &mut Vec<Entry>) -> Result<(), Refused>
    requires { IsWhole kind table.now }
    ensures added { OnOk result (list.new.items ≡ list.old.items ++ table_entries kind (section_in table.now)) }
    ensures failed { IfErr result (λ why. why ≡ NoMemory) }
{
    let Some(section) = &table.section else {
        return Ok(());
    };
    for i in 0..table.count {
        list.push(entry_at(kind, section, i))?;
    }
    Ok(())
}

/// The entry of the table of a kind with a number below the count.
fn entry_at(kind: TableKind, section: &Section<'_>, i: u32) -> Entry
    requires { entry_size kind * (i + 1) ≤ length section.now.content.now }
    ensures { result ≡ entry_in kind section.now.addr section.now.content.now (entry_size kind * i) }
{
    match kind {
        TableKind::Jump => entry_of_jump(&jump_entry(section, i)),
        TableKind::Call => entry_of_call(&call_site(section, i)),
        TableKind::Trace => Entry {
            at: trace_site(section, i),
            kind: EntryKind::Trace,
        },
    }
}

/// The entry that a jump table has.
fn entry_of_jump(entry: &JumpEntry) -> Entry
    ensures { result ≡ jump_entry entry.now }
{
    Entry {
        at: entry.code,
        kind: EntryKind::Jump {
            target: entry.target,
            key: entry.key,
            likely: entry.likely,
        },
    }
}

/// The entry that a static call site is.
fn entry_of_call(site: &CallSite) -> Entry
    ensures { result ≡ call_entry site.now }
{
    let kind = if site.tail {
        EntryKind::Tail { key: site.key }
    } else {
        EntryKind::Call { key: site.key }
    };
    Entry {
        at: site.addr,
        kind,
    }
}
