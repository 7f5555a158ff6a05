//! Modules to try things on: a loop over blocks, each with one site that is patched.
ghost use Rattle.std.specs.Prelude.{◌≡◌, ◌≤◌, ◌<◌, ◌+◌, ◌*◌, ◌^◌, ◌++◌, ◌∷◌, [], true, IfOk, OnOk, length};
ghost use Rattle.poke_base.specs.Number.{decimal};
ghost use Rattle.elf_build.specs.Fits.{fits};
ghost use Rattle.elf_build.specs.Generated.{IsGenerated, block_bytes, block_len, block_of, block_site, end_bytes, block_functions, first_functions, functions_of, head, keys, sites_of, text_of, trace_name};

use crate::contents::add;
use crate::put::{Record, put};
use crate::tables::put_near;
use crate::{KeyStart, Name, Plan, PlanFunction, PlanKey, PlanSite};
use poke_base::{Line, NoMemory, put_dec, put_text};
use std::alloc::Global;

/// The address of the text, and of its first function.
const BASE: u64 = 0x40_1000;

/// The functions that the blocks call, the one that traced sites call, and the one with the blocks.
const FA: u64 = BASE;

const FB: u64 = BASE + 4;

const FTRACE_CALLER: u64 = BASE + 8;

const MAIN: u64 = BASE + 12;

/// The address of the first block.
const BLOCKS: u64 = BASE + 17;

/// The functions, and how the one with the blocks begins: `add esi, 1; ret`, `add edi, 1; ret`,
/// `add ebx, 1; ret`, `mov ecx, 3`.
const HEAD: [u8; 17] = [
    0x83, 0xc6, 0x01, 0xc3, 0x83, 0xc7, 0x01, 0xc3, 0x83, 0xc3, 0x01, 0xc3, 0xb9, 0x03, 0x00, 0x00,
    0x00,
];

/// A few instructions, of which one is patched.
#[derive(Clone, Copy, Debug, PartialEq, Eq)]
pub enum Block {
    /// A switch of five bytes over `inc eax`.
    FarSwitch,
    /// A switch of two bytes over `inc edx`.
    NearSwitch,
    /// A static call.
    Call,
    /// The begin of a traced function.
    Trace,
    /// A call of a function that ends in a static tail call, and a jump over it.
    TailCall,
}

impl Block {
    /// The block with this number.
    fn of(number: u32) -> Block
        ensures { result ≡ block_of number }
    {
        match number % 5 {
            0 => Block::FarSwitch,
            1 => Block::NearSwitch,
            2 => Block::Call,
            3 => Block::Trace,
            _ => Block::TailCall,
        }
    }

    /// How many bytes it takes.
    fn len(self) -> u64
        ensures { result ≡ block_len self }
    {
        match self {
            Block::FarSwitch => 7,
            Block::NearSwitch => 4,
            Block::Call | Block::Trace => 5,
            Block::TailCall => 12,
        }
    }

    /// Its bytes at an address.
    fn bytes(self, at: u64) -> Record
        requires { at + 12 < 2 ^ 64 }
        ensures { result.items ≡ block_bytes self at }
    {
        let mut out = Record::new();
        match self {
            Block::FarSwitch => put(&mut out, &[0x0f, 0x1f, 0x44, 0x00, 0x00, 0xff, 0xc0]),
            Block::NearSwitch => put(&mut out, &[0x66, 0x90, 0xff, 0xc2]),
            Block::Call => {
                put(&mut out, &[0xe8]);
                put_near(&mut out, at + 5, FA);
            }
            Block::Trace => put(&mut out, &[0x0f, 0x1f, 0x44, 0x00, 0x00]),
            Block::TailCall => {
                put(&mut out, &[0xe8, 0x02, 0x00, 0x00, 0x00, 0xeb, 0x05, 0xe9]);
                put_near(&mut out, at + 12, FB);
            }
        }
        out
    }

    /// The site of the block with this number, at an address.
    fn site(self, number: u32, at: u64) -> PlanSite
        requires { at + 12 < 2 ^ 64 }
        ensures { result ≡ block_site self number at }
    {
        match self {
            Block::FarSwitch | Block::NearSwitch => PlanSite::Jump {
                at,
                target: at + self.len(),
                key: number / 5 % 2,
                likely: number / 10 % 2 == 1,
            },
            Block::Call => PlanSite::Call {
                at,
                key: 2,
                tail: false,
            },
            Block::Trace => PlanSite::Trace { at },
            Block::TailCall => PlanSite::Call {
                at: at + 7,
                key: 3,
                tail: true,
            },
        }
    }
}

/// The plan of a module with `n` blocks, 10 to 1,000, each with one site: jumps of two and of five
/// bytes by two keys, static calls, static tail calls, and traced functions.
///
/// # Errors
/// Out of memory.
pub fn generated(alloc: Global, n: u32) -> Result<Plan, NoMemory>
    requires few { 10 ≤ n }
    requires many { n ≤ 1000 }
    ensures plan { IfOk result (λ plan. IsGenerated n plan) }
    ensures fits { IfOk result (λ plan. fits plan ≡ true) }
{
    Ok(Plan {
        base: BASE,
        text: text(alloc, n)?,
        sites: sites(alloc, n)?,
        keys: keys(alloc)?,
        functions: functions(alloc, n)?,
    })
}

/// The text: the functions, the blocks, and the end of the loop over them.
fn text(alloc: Global, n: u32) -> Result<Vec<u8>, NoMemory>
    requires { n ≤ 1000 }
    ensures { IfOk result (λ text. text.items ≡ text_of n) }
{
    let mut out = Vec::new(alloc);
    add(&mut out, &HEAD)?;
    let mut at = BLOCKS;
    for number in 0..n {
        let block = Block::of(number);
        add(&mut out, &block.bytes(at))?;
        at += block.len();
    }
    add(&mut out, &end(at))?;
    Ok(out)
}

/// What stands after the blocks: `dec ecx`, a jump back while it isn't zero, `out 10, al`, `ret`.
fn end(at: u64) -> Record
    requires { at + 8 < 2 ^ 64 }
    ensures { result.items ≡ end_bytes at }
{
    let mut out = Record::new();
    put(&mut out, &[0xff, 0xc9, 0x0f, 0x85]);
    put_near(&mut out, at + 8, BLOCKS);
    put(&mut out, &[0xe6, 0x10, 0xc3]);
    out
}

/// The sites of the blocks.
fn sites(alloc: Global, n: u32) -> Result<Vec<PlanSite>, NoMemory>
    requires { n ≤ 1000 }
    ensures { IfOk result (λ sites. sites.items ≡ sites_of n) }
{
    let mut out = Vec::new(alloc);
    let mut at = BLOCKS;
    for number in 0..n {
        let block = Block::of(number);
        push(&mut out, block.site(number, at))?;
        at += block.len();
    }
    Ok(out)
}

/// The keys: two static keys, of which the second is enabled, and two of static calls.
fn keys(alloc: Global) -> Result<Vec<PlanKey>, NoMemory>
    ensures { IfOk result (λ out. out.items ≡ keys) }
{
    let mut out = Vec::new(alloc);
    push(&mut out, key(b"jk0", KeyStart::Count(0)))?;
    push(&mut out, key(b"jk1", KeyStart::Count(1)))?;
    push(&mut out, key(b"ca", KeyStart::Func(FA)))?;
    push(&mut out, key(b"cb", KeyStart::Func(FB)))?;
    Ok(out)
}

fn key(bytes: &[u8], start: KeyStart) -> PlanKey
    requires { length bytes.now ≤ 64 }
    ensures { result ≡ record { name = record { items = bytes.now }; start = start } }
{
    PlanKey {
        name: name(bytes),
        start,
    }
}

/// The functions: those that the text begins with, and the traced blocks.
fn functions(alloc: Global, n: u32) -> Result<Vec<PlanFunction>, NoMemory>
    requires { n ≤ 1000 }
    ensures { IfOk result (λ functions. functions.items ≡ functions_of n) }
{
    let mut out = named_functions(alloc)?;
    let mut at = BLOCKS;
    for number in 0..n {
        let block = Block::of(number);
        add_function(&mut out, block, number, at)?;
        at += block.len();
    }
    Ok(out)
}

/// The functions that the text begins with.
fn named_functions(alloc: Global) -> Result<Vec<PlanFunction>, NoMemory>
    ensures { IfOk result (λ functions. functions.items ≡ first_functions) }
{
    let mut out = Vec::new(alloc);
    push(&mut out, function(b"fa", FA))?;
    push(&mut out, function(b"fb", FB))?;
    push(&mut out, function(b"ftrace_caller", FTRACE_CALLER))?;
    push(&mut out, function(b"main", MAIN))?;
    Ok(out)
}

fn function(bytes: &[u8], at: u64) -> PlanFunction
    requires { length bytes.now ≤ 64 }
    ensures { result ≡ record { name = record { items = bytes.now }; at = at } }
{
    PlanFunction {
        name: name(bytes),
        at,
    }
}

/// Adds the function of a block that is traced.
fn add_function(
    out: &mut Vec<PlanFunction>,
    block: Block,
    number: u32,
    at: u64,
) -> Result<(), NoMemory>
    ensures { OnOk result (out.new.items ≡ out.old.items ++ block_functions block number at) }
{
    match block {
        Block::Trace => push(out, function(&traced_name(number), at)),
        _ => Ok(()),
    }
}

/// `t` and the number of a traced block.
#[tactic(auto, using(poke_base::proofs::Numbers::line_room))]
fn traced_name(number: u32) -> Line
    ensures name { result.items ≡ trace_name number }
    ensures short { length result.items ≤ 21 }
{
    let mut line = Line::new();
    put_text(&mut line, b"t");
    put_dec(&mut line, u64::from(number));
    line
}

fn name(bytes: &[u8]) -> Name
    requires { length bytes.now ≤ 64 }
    ensures { result ≡ record { items = bytes.now } }
{
    let mut name = Name::new();
    let _ = name.try_extend_from_slice(bytes);
    name
}

/// Adds one more.
fn push<T: Drop>(out: &mut Vec<T>, item: T) -> Result<(), NoMemory>
    ensures { OnOk result (out.new.items ≡ out.old.items ++ item ∷ []) }
{
    out.push(item)?;
    Ok(())
}
