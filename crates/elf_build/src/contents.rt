//! What stands in the sections of a written module.
ghost use Rattle.std.specs.Prelude.{◌≡◌, ◌≤◌, ◌<◌, ◌+◌, ◌*◌, ◌-◌, ◌^◌, ◌++◌, ◌∷◌, [], replicate, length, true, IfOk, OnOk};
ghost use Rattle.elf_build.specs.Fits.{fits, has_place, is_small, site_fits};
ghost use Rattle.elf_build.specs.File.{data_of, entry_bytes, filled, function_symbols, key_at, named_symbols, key_symbols, symbol_table, table_bytes, names_of, names_of_functions, names_of_keys};

use crate::gabi::{GLOBAL_FUNC, GLOBAL_OBJECT};
use crate::sections::{DATA_SECTION, TEXT_SECTION, symbol};
use crate::tables::{
    KEY_SIZE, PlanTable, call_record, data_at, jump_record, start_record, table_at,
};
use crate::{Name, Plan, PlanFunction, PlanKey, PlanSite};
use poke_base::NoMemory;

/// Adds bytes.
pub fn add(out: &mut Vec<u8>, bytes: &[u8]) -> Result<(), NoMemory>
    ensures { OnOk result (out.new.items ≡ out.old.items ++ bytes.now) }
{
    out.extend_from_slice(bytes)?;
    Ok(())
}

/// Adds zeros up to the next multiple of 16.
pub fn fill(out: &mut Vec<u8>) -> Result<(), NoMemory>
    ensures { OnOk result (out.new.items ≡ filled out.old.items) }
{
    out.resize(out.len().next_multiple_of(16), 0)?;
    Ok(())
}

/// Adds the entry of a table, at its address, for a site; one of another kind has none.
fn add_entry(
    out: &mut Vec<u8>,
    plan: &Plan,
    table: PlanTable,
    field: u64,
    site: &PlanSite,
) -> Result<(), NoMemory>
    requires place { has_place plan.now ≡ true }
    requires small { is_small plan.now ≡ true }
    requires site { site_fits plan.now site.now ≡ true }
    requires field { field + 16 < 2 ^ 64 }
    ensures entry { OnOk result (out.new.items ≡ out.old.items ++ entry_bytes table plan.now field site.now) }
    ensures longer { OnOk result (length out.old.items ≤ length out.new.items) }
    ensures short { OnOk result (length out.new.items ≤ length out.old.items + 16) }
{
    match (table, *site) {
        (
            PlanTable::Jumps,
            PlanSite::Jump {
                at,
                target,
                key,
                likely,
            },
        ) => {
            add(
                out,
                &jump_record(field, at, target, key_at(plan, key) + u64::from(likely)),
            )
        }
        (PlanTable::Calls, PlanSite::Call { at, key, tail }) => {
            add(
                out,
                &call_record(field, at, key_at(plan, key) + u64::from(tail)),
            )
        }
        (PlanTable::Traces, PlanSite::Trace { at }) => add(out, &at.to_le_bytes()),
        _ => Ok(()),
    }
}

/// Adds the entries of a table, in the order of the sites.
pub fn add_table(out: &mut Vec<u8>, plan: &Plan, table: PlanTable) -> Result<(), NoMemory>
    requires { fits plan.now ≡ true }
    ensures { OnOk result (out.new.items ≡ out.old.items ++ table_bytes table plan.now) }
{
    let at = table_at(plan, table);
    let start = out.len();
    for site in plan.sites.as_slice() {
        let field = at + (out.len() - start) as u64;
        add_entry(out, plan, table, field, site)?;
    }
    Ok(())
}

/// The address of a key.
fn key_at(plan: &Plan, key: u32) -> u64
    requires place { has_place plan.now ≡ true }
    requires key { key < 1024 }
    ensures { result ≡ key_at plan.now key }
{
    data_at(plan) + KEY_SIZE * u64::from(key)
}

/// Adds what the keys hold at the start.
pub fn add_data(out: &mut Vec<u8>, keys: &[PlanKey]) -> Result<(), NoMemory>
    ensures { OnOk result (out.new.items ≡ out.old.items ++ data_of keys.now) }
{
    for key in keys {
        add(out, &start_record(key.start))?;
    }
    Ok(())
}

/// Adds the symbols of functions, whose names stand one after the other from a place on.
fn add_function_symbols(out: &mut Vec<u8>, functions: &[PlanFunction]) -> Result<u32, NoMemory>
    requires { length functions.now ≤ 2048 }
    ensures symbols { IfOk result (λ name. out.new.items ≡ out.old.items ++ function_symbols 1 functions.now) }
    ensures name { IfOk result (λ name. name ≡ 1 + length (names_of_functions functions.now)) }
    ensures small { IfOk result (λ name. name ≤ 1 + 65 * 2048) }
{
    let mut name = 1;
    for function in functions {
        add(
            out,
            &symbol(name, GLOBAL_FUNC, TEXT_SECTION, function.at, 0),
        )?;
        name += function.name.len() as u32 + 1;
    }
    Ok(name)
}

/// Adds the symbols of keys, whose names stand one after the other from a place on.
fn add_key_symbols(out: &mut Vec<u8>, first: u32, at: u64, keys: &[PlanKey]) -> Result<(), NoMemory>
    requires few { length keys.now ≤ 1024 }
    requires low { first ≤ 1 + 65 * 2048 }
    requires place { at + 16 * 1024 < 2 ^ 64 }
    ensures { OnOk result (out.new.items ≡ out.old.items ++ key_symbols first at keys.now) }
{
    let mut name = first;
    let mut at = at;
    for key in keys {
        add(
            out,
            &symbol(name, GLOBAL_OBJECT, DATA_SECTION, at, KEY_SIZE),
        )?;
        name += key.name.len() as u32 + 1;
        at += KEY_SIZE;
    }
    Ok(())
}

/// Adds the symbols: one of zeros, the functions, and the keys.
pub fn add_symbols(out: &mut Vec<u8>, plan: &Plan) -> Result<(), NoMemory>
    requires { fits plan.now ≡ true }
    ensures { OnOk result (out.new.items ≡ out.old.items ++ symbol_table plan.now) }
{
    add(out, &symbol(0, 0, 0, 0, 0))?;
    add_named_symbols(out, plan)
}

/// Adds the symbols of the functions and the keys.
fn add_named_symbols(out: &mut Vec<u8>, plan: &Plan) -> Result<(), NoMemory>
    requires { fits plan.now ≡ true }
    ensures { OnOk result (out.new.items ≡ out.old.items ++ named_symbols plan.now) }
{
    let name = add_function_symbols(out, &plan.functions)?;
    add_key_symbols(out, name, data_at(plan), &plan.keys)
}

/// Adds a name and its ending zero.
fn add_name(out: &mut Vec<u8>, name: &Name) -> Result<(), NoMemory>
    ensures { OnOk result (out.new.items ≡ out.old.items ++ (name.now.items ++ 0 ∷ [])) }
{
    add(out, name)?;
    add(out, &[0])
}

/// Adds the names of functions.
fn add_function_names(out: &mut Vec<u8>, functions: &[PlanFunction]) -> Result<(), NoMemory>
    ensures { OnOk result (out.new.items ≡ out.old.items ++ names_of_functions functions.now) }
{
    for function in functions {
        add_name(out, &function.name)?;
    }
    Ok(())
}

/// Adds the names of keys.
fn add_key_names(out: &mut Vec<u8>, keys: &[PlanKey]) -> Result<(), NoMemory>
    ensures { OnOk result (out.new.items ≡ out.old.items ++ names_of_keys keys.now) }
{
    for key in keys {
        add_name(out, &key.name)?;
    }
    Ok(())
}

/// Adds the table of the symbols' names.
pub fn add_names(out: &mut Vec<u8>, plan: &Plan) -> Result<(), NoMemory>
    ensures { OnOk result (out.new.items ≡ out.old.items ++ names_of plan.now) }
{
    add(out, &[0])?;
    add_function_names(out, &plan.functions)?;
    add_key_names(out, &plan.keys)
}
