//! Small modules that the whole program is tried on, written of plans whose text stands at 401000, and changes of their files.
#![tactic(auto)]

ghost use Rattle.std.specs.Prelude.{◌≡◌, false, true, length};
ghost use Rattle.elf_build.specs.declared.plan.PlanSite.TheVariants.{Call as CallSite, Jump as JumpSite};

use elf_build::{KeyStart, Name, Plan, PlanFunction, PlanSite, generated};
use poke_base::{Line, NoMemory, put_dec, put_text};
use small_module::{F, Small, file_of, name};
use std::alloc::Global;

/// No function.
pub const NO_FUNCTION: KeyStart = KeyStart::Func(0);

/// A return, and nothing else.
pub const RETURN: Small<'static> = Small {
    text: b"\xc3",
    sites: &[],
    keys: &[],
    functions: &[],
};

/// A return, which is the function that is called where something is traced.
pub const TRACER: Small<'static> = Small {
    text: b"\xc3",
    sites: &[],
    keys: &[],
    functions: &[(b"ftrace_caller", F)],
};

/// A short switch that isn't likely, whose key isn't enabled, to the return after it.
pub const SWITCH: Small<'static> = Small {
    text: b"f\x90\xc3",
    sites: &[PlanSite::Jump {
        at: F,
        target: F + 2,
        key: 0,
        likely: false,
    }],
    keys: &[(b"k", KeyStart::Count(0))],
    functions: &[],
};

/// A call whose key holds no function, and a return.
pub const CALL: Small<'static> = Small {
    text: b"\x0f\x1fD\0\0\xc3",
    sites: &[PlanSite::Call {
        at: F,
        key: 0,
        tail: false,
    }],
    keys: &[(b"ck", NO_FUNCTION)],
    functions: &[],
};

/// A traced NOP, and the function that it calls when it is traced, a return.
pub const TRACE: Small<'static> = Small {
    text: b"\x0f\x1fD\0\0\xc3",
    sites: &[PlanSite::Trace { at: F }],
    keys: &[],
    functions: &[(b"ftrace_caller", F + 5)],
};

/// A function with two switches of one key, which isn't enabled: the second is likely.
pub const TWO_SWITCHES: Small<'static> = Small {
    text: b"f\x90\x0f\x1fD\0\0\xff\xc0\xc3",
    sites: &[
        PlanSite::Jump {
            at: F,
            target: F + 9,
            key: 0,
            likely: false,
        },
        PlanSite::Jump {
            at: F + 2,
            target: F + 9,
            key: 0,
            likely: true,
        },
    ],
    keys: &[(b"j", KeyStart::Count(0))],
    functions: &[(b"f", F)],
};

/// Two switches of different keys, one after the other, and a jump back.
pub const PAIR: Small<'static> = Small {
    text: b"\x66\x90\x0f\x1fD\0\0\xeb\xf7",
    sites: &[
        PlanSite::Jump {
            at: F,
            target: F + 2,
            key: 0,
            likely: false,
        },
        PlanSite::Jump {
            at: F + 2,
            target: F + 7,
            key: 1,
            likely: false,
        },
    ],
    keys: &[(b"k", KeyStart::Count(0)), (b"l", KeyStart::Count(0))],
    functions: &[(b"f", F)],
};

/// A switch that isn't likely.
pub fn jump(at: u64, target: u64, key: u32) -> PlanSite
    ensures { result ≡ JumpSite at target key false }
{
    PlanSite::Jump {
        at,
        target,
        key,
        likely: false,
    }
}

/// A call.
pub fn call(at: u64, key: u32) -> PlanSite
    ensures { result ≡ CallSite at key false }
{
    PlanSite::Call {
        at,
        key,
        tail: false,
    }
}

/// A tail call.
pub fn tail(at: u64, key: u32) -> PlanSite
    ensures { result ≡ CallSite at key true }
{
    PlanSite::Call {
        at,
        key,
        tail: true,
    }
}

/// The file of the module that `make` makes with ten blocks.
pub fn ten_blocks(alloc: Global) -> Result<Vec<u8>, NoMemory> {
    file_of(alloc, &generated(alloc, 10)?)
}

/// Where a byte of a written file stands.
#[derive(Clone, Copy)]
pub enum Place {
    /// N bytes after the beginning of the file.
    File(usize),
    /// N bytes after the beginning of the header of the section with this index.
    Header(usize, usize),
}

/// Changes some bytes of a written file, whose nine section headers end it.
pub fn change(file: &mut [u8], edits: &[(Place, u8)])
    ensures { length file.new ≡ length file.old }
{
    let headers = file.len().saturating_sub(9 * 64);
    for &(place, byte) in edits {
        let at = match place {
            Place::File(at) => at,
            Place::Header(section, at) => section
                .saturating_mul(64)
                .saturating_add(at)
                .saturating_add(headers),
        };
        if let Some(old) = file.get_mut(at) {
            *old = byte;
        }
    }
}

/// The edits after which the text stands at ffffffffffffff00 or higher, by the last byte of its address.
pub fn text_at(last: u8) -> [(Place, u8); 8] {
    [
        (Place::Header(1, 16), last),
        (Place::Header(1, 17), 0xff),
        (Place::Header(1, 18), 0xff),
        (Place::Header(1, 19), 0xff),
        (Place::Header(1, 20), 0xff),
        (Place::Header(1, 21), 0xff),
        (Place::Header(1, 22), 0xff),
        (Place::Header(1, 23), 0xff),
    ]
}

/// `f` and a number.
#[tactic(auto, using(poke_base::proofs::Numbers::line_room))]
fn numbered(number: u32) -> Name {
    let mut line = Line::new();
    put_text(&mut line, b"f");
    put_dec(&mut line, u64::from(number));
    name(&line)
}

/// 300 functions of a NOP that is traced and a return, after the function that they call when they
/// are; a halt at the end.
pub fn traced(alloc: Global) -> Result<Plan, NoMemory> {
    let mut plan = TRACER.plan(alloc)?;
    let mut at = F + 1;
    for number in 0..300 {
        plan.text.extend_from_slice(b"\x0f\x1fD\0\0\xc3")?;
        plan.sites.push(PlanSite::Trace { at })?;
        plan.functions.push(PlanFunction {
            name: numbered(number),
            at,
        })?;
        at = at.wrapping_add(6);
    }
    plan.text.push(0xf4)?;
    plan.functions.push(PlanFunction {
        name: name(b"h"),
        at,
    })?;
    Ok(plan)
}

/// 1,024 traced NOPs, and the function that is called where they are traced.
pub fn full(alloc: Global) -> Result<Plan, NoMemory> {
    let mut plan = TRACER.plan(alloc)?;
    let mut at = F + 1;
    for _ in 0..1_024 {
        plan.text.extend_from_slice(b"\x0f\x1fD\0\0")?;
        plan.sites.push(PlanSite::Trace { at })?;
        at = at.wrapping_add(5);
    }
    plan.text.push(0xc3)?;
    Ok(plan)
}
