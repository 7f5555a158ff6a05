//! The tables of a file.
ghost use Rattle.std.specs.Prelude.{◌≡◌, ◌<◌, ◌*◌, ◌^◌, length, true, option_map};
ghost use Rattle.elf_module.specs.Elf.{section_of};
ghost use Rattle.site_tables.specs.declared.entries.TableKind.TheVariants.{Jump, Call, Trace};
ghost use Rattle.site_tables.specs.Entry.{entry_size};
ghost use Rattle.site_tables.specs.Tables.{content_of, has_table_name};

use crate::entries::TableKind;
use elf_module::Section;
use thiserror::Error;

/// A table of whole entries: its section, where the file has one, and how many entries it has.
#[derive(Clone, Copy, Debug, PartialEq, Eq)]
pub struct Table<'a> {
    pub kind: TableKind,
    pub section: Option<Section<'a>>,
    pub count: u32,
    /// Its bytes are that many entries.
    pub ghost whole: { length (content_of (option_map section_of section)) ≡ count * entry_size kind },
    /// Its section has the name of such a table.
    pub ghost named: { has_table_name kind (option_map section_of section) ≡ true },
}

impl Table<'_> {
    /// How many entries it has.
    pub fn entry_count(&self) -> u64
        ensures same { result ≡ self.now.count }
        ensures small { result < 2 ^ 32 }
    {
        u64::from(self.count)
    }
}

/// The three tables of a file.
#[derive(Clone, Copy, Debug, PartialEq, Eq)]
pub struct Tables<'a> {
    pub jumps: Table<'a>,
    pub calls: Table<'a>,
    pub traces: Table<'a>,
    pub ghost jumps_kind: { jumps.kind ≡ Jump },
    pub ghost calls_kind: { calls.kind ≡ Call },
    pub ghost traces_kind: { traces.kind ≡ Trace },
}

/// The table of a kind isn't whole entries.
#[derive(Clone, Copy, Debug, PartialEq, Eq, Error)]
#[error("a table of {size:x} bytes")]
pub struct BadTable {
    pub kind: TableKind,
    /// How many bytes the table has.
    pub size: u64,
}
