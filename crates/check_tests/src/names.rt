//! `check` of a module whose functions' names are suffixes of one long name: the names that are read have a budget.

use crate::frame::{accepts_file, checks};
use elf_build::PlanFunction;
use small_module::{file_of, name};
use std::alloc::Global;
use std::test::Fail;
use tried_modules::RETURN;

/// A letter, of which all names consist.
const LETTER: u8 = b'a';

/// The file of a return that 2,000 functions name, each by 64 letters.
fn many_functions(alloc: Global) -> Result<Vec<u8>, Fail> {
    let mut plan = RETURN.plan(alloc)?;
    let at = plan.base;
    for _ in 0..2_000 {
        plan.functions.push(PlanFunction {
            name: name(&[LETTER; 64]),
            at,
        })?;
    }
    Ok(file_of(alloc, &plan)?)
}

/// Joins names: the zero between two letters becomes a letter.
fn join_names(file: &mut [u8]) {
    for i in 2..file.len() {
        if file[i - 2] == LETTER && file[i - 1] == 0 && file[i] == LETTER {
            file[i - 1] = LETTER;
        }
    }
}

#[test]
fn names_have_a_budget(rt: HostRuntime) -> Result<(), Fail> {
    let mut file = many_functions(rt.alloc())?;
    let accepted = b"text 401000 1\naccepted\n";
    accepts_file(&rt, "each name by itself", &file, accepted)?;
    join_names(&mut file);
    let memory = b"textpoke: no memory\n";
    checks(&rt, "suffixes of one name", &file, (7, b"", memory))
}
