//! The command `make`: a module to try things on.
ghost use Rattle.std.specs.Prelude.{◌≤◌, IfOk};
ghost use Rattle.poke_commands.specs.Command.{Make as MakeRow};
ghost use Rattle.poke_commands.specs.Runs.{Does};
ghost use Rattle.poke_commands.specs.Saying.{IsModuleOf};

use elf_build::{generated, write};
use poke_base::{Host, NoMemory};
use poke_faults::Fault;
use std::alloc::Global;

/// Makes a file with the module of n blocks, 10 to 1,000. The whole file is built in memory first,
/// made then, and written in one piece; nothing is read or printed.
///
/// # Errors
/// `Write`: the file is as before, or was made and holds a prefix of the module. `Memory`: no file
/// was made.
pub fn make<H: Host>(alloc: Global, blocks: u32, name: &str, host: &mut H) -> Result<(), Fault>
    requires few { 10 ≤ blocks }
    requires many { blocks ≤ 1000 }
    ensures { Does (MakeRow blocks name.now) (H.outside host.old) (H.outside host.new) result }
{
    let bytes = built(alloc, blocks)?;
    host.make_file(name)?;
    host.append(&bytes)?;
    Ok(())
}

/// The file of the module with n blocks.
fn built(alloc: Global, blocks: u32) -> Result<Vec<u8>, NoMemory>
    requires few { 10 ≤ blocks }
    requires many { blocks ≤ 1000 }
    ensures { IfOk result (λ bytes. IsModuleOf blocks bytes.items) }
{
    let plan = generated(alloc, blocks)?;
    let mut bytes = Vec::new(alloc);
    write(&plan, &mut bytes)?;
    Ok(bytes)
}
