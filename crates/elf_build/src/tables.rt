//! Entries of the tables, and what keys hold.
ghost use Rattle.std.specs.Prelude.{◌≡◌, ◌≤◌, ◌+◌, ◌<◌, ◌%◌, ◌^◌, ◌++◌, length};
ghost use Rattle.arrayvec.specs.ArrayVec.{array_vec_len};
ghost use Rattle.elf_build.specs.File.{data_at, lead, start_bytes, table_at};

use crate::put::{Record, put_u32, put_u64};
use crate::{KeyStart, Plan};

/// Which table of a module.
#[derive(Clone, Copy, Debug, PartialEq, Eq)]
pub enum PlanTable {
    /// `__jump_table`
    Jumps,
    /// `.static_call_sites`
    Calls,
    /// `__mcount_loc`
    Traces,
}

/// What a key holds at the start.
pub fn start_record(start: KeyStart) -> Record
    ensures { result.items ≡ start_bytes start }
{
    let mut out = Record::new();
    match start {
        KeyStart::Count(count) => {
            put_u32(&mut out, count);
            put_u32(&mut out, 0);
            put_u64(&mut out, u64::from(count > 0));
        }
        KeyStart::Func(at) => {
            put_u64(&mut out, at);
            put_u64(&mut out, 0);
        }
    }
    out
}

/// Adds a field of four bytes at an address, which leads to another.
pub fn put_near(out: &mut Record, field: u64, target: u64)
    requires { array_vec_len out.old ≤ 60 }
    ensures bytes { out.new.items ≡ out.old.items ++ lead 4 field target }
    ensures len { array_vec_len out.new ≡ array_vec_len out.old + 4 }
{
    put_u32(out, low_half(target.wrapping_sub(field)));
}

/// Adds a field of eight bytes at an address, which leads to another.
fn put_far(out: &mut Record, field: u64, target: u64)
    requires { array_vec_len out.old ≤ 56 }
    ensures bytes { out.new.items ≡ out.old.items ++ lead 8 field target }
    ensures len { array_vec_len out.new ≡ array_vec_len out.old + 8 }
{
    put_u64(out, target.wrapping_sub(field));
}

/// The low four bytes.
fn low_half(number: u64) -> u32
    ensures { result ≡ number % 2 ^ 32 }
{
    (number & 0xffff_ffff) as u32
}

/// An entry of the jump table, at its address.
pub fn jump_record(field: u64, at: u64, target: u64, key: u64) -> Record
    requires { field + 16 < 2 ^ 64 }
    ensures { result.items ≡ lead 4 field at ++ lead 4 (field + 4) target ++ lead 8 (field + 8) key }
{
    let mut out = Record::new();
    put_near(&mut out, field, at);
    put_near(&mut out, field + 4, target);
    put_far(&mut out, field + 8, key);
    out
}

/// A static call site, at its address.
pub fn call_record(field: u64, at: u64, key: u64) -> Record
    requires { field + 8 < 2 ^ 64 }
    ensures { result.items ≡ lead 4 field at ++ lead 4 (field + 4) key }
{
    let mut out = Record::new();
    put_near(&mut out, field, at);
    put_near(&mut out, field + 4, key);
    out
}

/// How many bytes a key has.
pub const KEY_SIZE: u64 = 16;

/// How far from the text's address the tables and the keys stand.
const JUMPS: u64 = 0x2_0000;

const CALLS: u64 = 0x3_0000;

const TRACES: u64 = 0x4_0000;

const KEYS: u64 = 0x5_0000;

/// The address of a table.
pub fn table_at(plan: &Plan, table: PlanTable) -> u64
    requires { plan.now.base + 0x50000 < 2 ^ 64 }
    ensures { result ≡ table_at table plan.now }
{
    match table {
        PlanTable::Jumps => plan.base + JUMPS,
        PlanTable::Calls => plan.base + CALLS,
        PlanTable::Traces => plan.base + TRACES,
    }
}

/// The address of the keys.
pub fn data_at(plan: &Plan) -> u64
    requires { plan.now.base + 0x50000 < 2 ^ 64 }
    ensures { result ≡ data_at plan.now }
{
    plan.base + KEYS
}
