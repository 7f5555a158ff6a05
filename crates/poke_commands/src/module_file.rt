//! A module file as a module.
ghost use Rattle.std.specs.Prelude.{◌≤◌, IfErr, IfOk, length};
ghost use Rattle.poke_commands.specs.Check.{Accepts, RefusesAsModule, RefusesFile};
ghost use Rattle.poke_commands.specs.Runs.{ReadsInput};

use crate::input::read_input;
use elf_module::ElfFile;
use module_image::{Image, Refused};
use poke_base::Host;
use poke_faults::{Fault, MODULE_LIMIT, ModuleRefused, Refusal};
use std::alloc::Global;

/// Reads a file as a module.
///
/// # Errors
/// `Read` where the file isn't there or a read failed; the first thing that is wrong with the file or
/// the module; out of memory.
pub fn read_module<H: Host>(alloc: Global, name: &str, host: &mut H) -> Result<Image, Fault>
    ensures { ReadsInput (H.outside host.old) (H.outside host.new) name.now Accepts RefusesAsModule result }
{
    let bytes = read_input(
        alloc,
        name,
        MODULE_LIMIT,
        Refusal::Module(ModuleRefused::TooLong),
        host,
    )?;
    accept_file(alloc, &bytes)
}

/// The module that a file's bytes are.
///
/// # Errors
/// The first thing that is wrong with the file or the module; out of memory.
fn accept_file(alloc: Global, bytes: &[u8]) -> Result<Image, Fault>
    requires { length bytes.now ≤ 67108864 }
    ensures accepted { IfOk result (Accepts bytes.now) }
    ensures refused { IfErr result (RefusesFile bytes.now) }
{
    let file = match ElfFile::read(bytes) {
        Ok(file) => file,
        Err(why) => return Err(Fault::Refused(Refusal::Module(ModuleRefused::Elf(why)))),
    };
    match Image::accept(alloc, &file) {
        Ok(image) => Ok(image),
        Err(Refused::NoMemory) => Err(Fault::Memory),
        Err(why) => Err(Fault::Refused(Refusal::Module(ModuleRefused::Image(why)))),
    }
}
