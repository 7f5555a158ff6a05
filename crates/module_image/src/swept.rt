//! The text of a module once it is written and swept.
ghost use Rattle.std.specs.Prelude.{◌≡◌, map, IfOk};
ghost use Rattle.module_image.specs.Aims.{function_aim};
ghost use Rattle.module_names.specs.Keys.{keys};
ghost use Rattle.module_names.specs.Names.{functions};
ghost use Rattle.module_image.specs.Refusals.{Passes, Tries, function_aims, past_all, past_tracer_missing};

use crate::checked::{end_falls, find_units, targets};
use crate::finding::Found;
use crate::writing::write_sites;
use crate::{Code, Key, Refused, Unit};
use elf_module::ElfFile;
use std::alloc::Global;

/// The text after early writing, and what begins at each of its bytes.
#[derive(Drop)]
pub struct Swept {
    pub text: Vec<u8>,
    /// By offset, the site or plain instruction that begins there.
    pub units: Vec<Unit>,
}

impl Swept {
    ghost use Rattle.module_image.specs.Found.{IsFound, IsSweptOf};

    /// Writes the sites that were found to what they want at the start, and sweeps the text.
    ///
    /// # Errors
    /// The first that holds of `Undecoded`, `BadTarget` and `EndFalls`; out of memory.
    pub fn of(
        alloc: Global,
        file: &ElfFile<'_>,
        found: &Found<'_>,
        list: &[Key],
        addresses: &[u64],
    ) -> Result<Swept, Refused>
        requires passed { Passes file.now past_tracer_missing }
        requires found { IsFound file.now found.now }
        requires keys { list.now ≡ keys file.now }
        requires functions { map function_aim addresses.now ≡ function_aims (functions file.now) }
        ensures tried { Tries file.now past_all result }
        ensures swept { IfOk result (IsSweptOf file.now) }
    {
        let text = write_sites(alloc, &found.text, list, &found.sites)?;
        let code = Code {
            base: found.text.base,
            bytes: &text,
            sites: &found.sites,
        };
        let units = find_units(alloc, file, &code)?;
        targets(file, &code, &units, list, addresses)?;
        end_falls(file, &code, &units)?;
        Ok(Swept { text, units })
    }
}
