//! The command `show`: what a module's tables say.
ghost use Rattle.std.specs.Prelude.{◌≤◌, IfOk, length};
ghost use Rattle.site_tables.specs.Found.{AreWhole};
ghost use Rattle.poke_commands.specs.Command.{Show as ShowRow};
ghost use Rattle.poke_commands.specs.Module.{ModuleShows};
ghost use Rattle.poke_commands.specs.Runs.{Does};
ghost use Rattle.poke_commands.specs.Tables.{text_of};

use crate::input::read_input;
use crate::print_table::print_tables;
use elf_module::ElfFile;
use module_image::Refused;
use poke_base::Host;
use poke_faults::{Fault, MODULE_LIMIT, ModuleRefused, Refusal};
use site_tables::{Tables, find_tables};
use std::alloc::Global;

/// Prints the entries of a module's tables, a line each: jump entries, then calls, then traces. The
/// file is read first, once, and no other file is.
///
/// # Errors
/// `Read`, `Refused` for the first thing that is wrong with the file or a table, or `Memory`: nothing
/// was printed. `Write`: a prefix of the text was printed.
pub fn show<H: Host>(alloc: Global, name: &str, host: &mut H) -> Result<(), Fault>
    ensures { Does (ShowRow name.now) (H.outside host.old) (H.outside host.new) result }
{
    let too_long = Refusal::Module(ModuleRefused::TooLong);
    let bytes = read_input(alloc, name, MODULE_LIMIT, too_long, host)?;
    let tables = read_tables(&bytes)?;
    print_tables(&tables, host)?;
    Ok(())
}

/// The tables of a module file.
///
/// # Errors
/// The first thing that is wrong with the file, or with a table: jump entries, then calls, then
/// traces.
fn read_tables(bytes: &[u8]) -> Result<Tables<'_>, ModuleRefused>
    requires { length bytes.now ≤ 67108864 }
    ensures says { ModuleShows bytes.now (text_of result) }
    ensures whole { IfOk result AreWhole }
{
    let file = match ElfFile::read(bytes) {
        Ok(file) => file,
        Err(why) => return Err(ModuleRefused::Elf(why)),
    };
    match find_tables(&file) {
        Ok(tables) => Ok(tables),
        Err(bad) => Err(ModuleRefused::Image(Refused::Table(bad.kind, bad.size))),
    }
}
