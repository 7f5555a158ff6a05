//! Names and what they stand for.
ghost use Rattle.std.specs.Prelude.{◌≡◌, ℕ, List, [], ◌∷◌, ◌++◌, None, IfErr, OnOk};
ghost use Rattle.module_names.specs.Names.{value_of};
ghost use Rattle.module_names.specs.Naming.{named_in};
ghost use Rattle.module_parts.specs.declared.refused.Refused.TheVariants.{NoMemory};

use indexmap::IndexMap;
use module_parts::Refused;
use std::alloc::{AllocError, Global};
use std::marker::Model;

/// What names stand for: for each name the first thing that it was given to.
#[derive(Drop)]
pub struct Names<T> {
    values: IndexMap<Vec<u8>, T>,
}

impl<T> Model for Names<T> {
    ghost Value = { List (List ℕ × T) };

    ghost view = { λ names. named_in names.values.entries };
}

impl<T: Copy + Drop> Names<T> {
    /// No names.
    pub fn new(alloc: Global) -> Names<T>
        ensures { result ≡ [] }
    {
        Names {
            values: IndexMap::new(alloc),
        }
    }

    /// What a name stands for. `None` exactly where it stands for nothing.
    pub fn get(&self, name: &[u8]) -> Option<T>
        ensures { result ≡ value_of name.now self.now }
    {
        self.values.get(name).copied()
    }

    /// Gives a name to a value, where it stands for nothing yet.
    ///
    /// # Errors
    /// Where there is no memory.
    pub fn add(&mut self, alloc: Global, name: &[u8], value: T) -> Result<(), Refused>
        ensures names { OnOk result ((q : List ℕ) → value_of q self.new ≡ value_of q (self.old ++ (name.now, value) ∷ [])) }
        ensures failed { IfErr result (λ why. why ≡ NoMemory) }
    {
        match self.get(name) {
            Some(_) => Ok(()),
            None => Ok(put_entry(alloc, &mut self.values, name, value)?),
        }
    }
}

/// Puts a copy of a name that isn't there into a map.
fn put_entry<T: Copy + Drop>(
    alloc: Global,
    values: &mut IndexMap<Vec<u8>, T>,
    name: &[u8],
    value: T,
) -> Result<(), AllocError>
    requires { value_of name.now (named_in values.old.entries) ≡ None }
    ensures { OnOk result (named_in values.new.entries ≡ named_in values.old.entries ++ (name.now, value) ∷ []) }
{
    let name = Vec::from_slice(alloc, name)?;
    values.insert(name, value)?;
    Ok(())
}
