//! Finding the tables of a file.
ghost use Rattle.std.specs.Prelude.{◌≡◌};
ghost use Rattle.site_tables.specs.Found.{AreTables, IsTable};
ghost use Rattle.site_tables.specs.Tables.{table_name};

use crate::entries::{TableKind, count};
use crate::tables::{BadTable, Table, Tables};
use elf_module::ElfFile;

/// The tables of a file, each of whole entries.
///
/// # Errors
/// The first, of jumps, calls and traces, that isn't whole entries.
pub fn find_tables<'a>(file: &ElfFile<'a>) -> Result<Tables<'a>, BadTable>
    ensures { AreTables file.now.sections result }
{
    let jumps = find_table(file, TableKind::Jump)?;
    let calls = find_table(file, TableKind::Call)?;
    let traces = find_table(file, TableKind::Trace)?;
    Ok(Tables {
        jumps,
        calls,
        traces,
    })
}

/// The table of a kind in a file; one that is missing has no entries.
///
/// # Errors
/// `BadTable` exactly where its bytes aren't whole entries.
pub fn find_table<'a>(file: &ElfFile<'a>, kind: TableKind) -> Result<Table<'a>, BadTable>
    ensures { IsTable file.now.sections kind result }
{
    let Some(section) = file.section_named(table_name(kind)) else {
        return Ok(Table {
            kind,
            section: None,
            count: 0,
        });
    };
    match count(&section, kind) {
        Ok(count) => Ok(Table {
            kind,
            section: Some(section),
            count,
        }),
        Err(bad) => Err(BadTable {
            kind,
            size: bad.size,
        }),
    }
}

/// The name of the section in which a table stands.
fn table_name(kind: TableKind) -> &'static [u8]
    ensures { result.now ≡ table_name kind }
{
    match kind {
        TableKind::Jump => b"__jump_table",
        TableKind::Call => b".static_call_sites",
        TableKind::Trace => b"__mcount_loc",
    }
}
