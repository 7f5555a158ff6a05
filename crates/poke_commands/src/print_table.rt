//! Printing the tables of a module.
ghost use Rattle.poke_base.specs.Host.{Prints};
ghost use Rattle.site_tables.specs.Found.{AreWhole, IsWhole, section_in};
ghost use Rattle.poke_commands.specs.Module.{table_text};
ghost use Rattle.poke_commands.specs.Tables.{tables_text};

use crate::entry_lines::entry_line;
use poke_base::{Host, WriteFail};
use site_tables::{Table, TableKind, Tables};

/// Prints a line for each entry: jump entries, then calls, then traces, in file order.
pub fn print_tables<H: Host>(tables: &Tables, host: &mut H) -> Result<(), WriteFail>
    requires { AreWhole tables.now }
    ensures { Prints (H.outside host.old) (H.outside host.new) (tables_text tables.now) result }
{
    print_table(TableKind::Jump, &tables.jumps, host)?;
    print_table(TableKind::Call, &tables.calls, host)?;
    print_table(TableKind::Trace, &tables.traces, host)
}

/// Prints a line for each entry of a table, in file order.
fn print_table<H: Host>(kind: TableKind, table: &Table, host: &mut H) -> Result<(), WriteFail>
    requires { IsWhole kind table.now }
    ensures { Prints (H.outside host.old) (H.outside host.new) (table_text kind (section_in table.now)) result }
{
    let Some(section) = &table.section else {
        return Ok(());
    };
    for i in 0..table.count {
        host.print(&entry_line(kind, section, i))?;
    }
    Ok(())
}
