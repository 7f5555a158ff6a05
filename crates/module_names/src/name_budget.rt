//! How many names of a file are read at most.
ghost use Rattle.std.specs.Prelude.{◌≡◌, ◌<◌, ◌+◌, ◌++◌, ℕ, List, length, IfErr, OnErr, OnOk};
ghost use Rattle.module_names.specs.Names.{value_of};
ghost use Rattle.module_names.specs.Naming.{named_by};
ghost use Rattle.module_parts.specs.declared.refused.Refused.TheVariants.{NoMemory};

use crate::names::Names;
use elf_module::ElfFile;
use module_parts::Refused;
use std::alloc::Global;

/// How many times its length the names that are read of a file have at most. Where symbols share no name it is never
/// spent.
const MOST_TIMES: u64 = 4;

/// What a name counts beside its bytes: about what a table takes for it.
const NAME_COST: u64 = 96;

/// How much may still be spent on names. Symbols may share names, and each may run through the whole string table:
/// with no budget a small file would keep the program busy for hours, and take more memory than there is.
#[derive(Drop)]
pub struct NameBudget {
    left: u64,
}

impl NameBudget {
    /// The budget for a file.
    pub fn of(file: &ElfFile<'_>) -> NameBudget {
        NameBudget {
            left: MOST_TIMES * u64::from(file.byte_count()),
        }
    }

    /// Gives a name to a value, if there is one, and takes what it costs from the budget.
    ///
    /// # Errors
    /// Where the budget is spent, or there is no memory.
    pub fn give<T: Copy + Drop>(
        &mut self,
        alloc: Global,
        names: &mut Names<T>,
        name: &[u8],
        value: Option<T>,
    ) -> Result<(), Refused>
        ensures names { OnOk result ((q : List ℕ) → value_of q names.new ≡ value_of q (names.old ++ named_by name.now value)) }
        ensures failed { IfErr result (λ why. why ≡ NoMemory) }
    {
        match value {
            Some(value) => {
                self.spend(name)?;
                names.add(alloc, name, value)
            }
            None => Ok(()),
        }
    }

    /// Takes what a name costs from the budget.
    ///
    /// # Errors
    /// Exactly where the budget is spent.
    fn spend(&mut self, name: &[u8]) -> Result<(), Refused>
        ensures spent { OnOk result (self.new.left + (length name.now + 96) ≡ self.old.left) }
        ensures over { OnErr result (self.old.left < length name.now + 96) }
        ensures failed { IfErr result (λ why. why ≡ NoMemory) }
    {
        match self.left.checked_sub(name.len() as u64 + NAME_COST) {
            Some(left) => {
                self.left = left;
                Ok(())
            }
            None => Err(Refused::NoMemory),
        }
    }
}
