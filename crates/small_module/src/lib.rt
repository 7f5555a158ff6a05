//! Small modules for the tests of other crates, written of a text, sites, keys and functions that stand in slices.
#![tactic(auto)]

ghost use Rattle.std.specs.Prelude.{◌≡◌, IfOk};
ghost use Rattle.small_module.specs.SmallModule.{named, written};

mod modules;

use elf_build::{KeyStart, Name, Plan, PlanFunction, PlanKey, PlanSite, write};
pub use modules::{BRANCH, CALL, LOOP, SPIN, TAIL};
use poke_base::NoMemory;
use std::alloc::Global;

/// Where the text of each small module stands.
pub const F: u64 = 0x40_1000;

/// The text of a module, which stands at `F`, its sites, its keys and its functions.
#[derive(Clone, Copy)]
pub struct Small<'a> {
    pub text: &'a [u8],
    pub sites: &'a [PlanSite],
    pub keys: &'a [(&'a [u8], KeyStart)],
    pub functions: &'a [(&'a [u8], u64)],
}

impl Small<'_> {
    ghost use Rattle.std.specs.Prelude.{IfOk};
    ghost use Rattle.small_module.specs.SmallModule.{IsFileOf, IsPlanOf};

    /// Its plan.
    ///
    /// # Errors
    /// Out of memory.
    pub fn plan(&self, alloc: Global) -> Result<Plan, NoMemory>
        ensures { IfOk result (IsPlanOf self.now) }
    {
        let mut keys = Vec::new(alloc);
        for (bytes, start) in self.keys {
            keys.push(PlanKey {
                name: name(bytes),
                start: *start,
            })?;
        }
        let mut functions = Vec::new(alloc);
        for (bytes, at) in self.functions {
            functions.push(PlanFunction {
                name: name(bytes),
                at: *at,
            })?;
        }
        Ok(Plan {
            base: F,
            text: Vec::from_slice(alloc, self.text)?,
            sites: Vec::from_slice(alloc, self.sites)?,
            keys,
            functions,
        })
    }

    /// Its file; empty where none can be written of it.
    ///
    /// # Errors
    /// Out of memory.
    pub fn file(&self, alloc: Global) -> Result<Vec<u8>, NoMemory>
        ensures { IfOk result (λ file. IsFileOf self.now file.items) }
    {
        file_of(alloc, &self.plan(alloc)?)
    }
}

/// A name of these bytes; an empty one where they are more than 64.
pub fn name(bytes: &[u8]) -> Name
    ensures { result.items ≡ named bytes.now }
{
    let mut name = Name::new();
    let _ = name.try_extend_from_slice(bytes);
    name
}

/// The file of a plan; empty where none can be written of it.
///
/// # Errors
/// Out of memory.
pub fn file_of(alloc: Global, plan: &Plan) -> Result<Vec<u8>, NoMemory>
    ensures { IfOk result (λ file. file.items ≡ written plan.now) }
{
    let mut out = Vec::new(alloc);
    if plan.fits() {
        write(plan, &mut out)?;
    }
    Ok(out)
}
