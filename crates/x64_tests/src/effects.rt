//! Tests of `execute`: worked examples of the Intel SDM's rules, for each instruction.
ghost use Rattle.std.specs.Prelude.{◌≡◌, true};
ghost use Rattle.x64_subset.specs.declared.proc.Life.TheVariants.{Running};
ghost use Rattle.x64_subset.specs.Subset.{is_listed};

mod conditions;
mod flags;
mod flow;

use std::process::Abort;
use x64_subset::{Insn, Mark, Proc, execute};

/// Where the processors of the tests stand.
const AT: u64 = 0x40_1000;

/// A processor with these numbers in EAX and ECX, and with those flags set whose letters are named:
/// C carry, Z zero, S sign, O overflow.
fn proc_with(eax: u32, ecx: u32, flags: &str) -> Proc
    ensures running { result.life ≡ Running }
    ensures depth { result.depth ≡ 0 }
{
    let mut proc = Proc::start(AT);
    proc.regs[0] = eax;
    proc.regs[1] = ecx;
    proc.carry = flags.contains('C');
    proc.zero = flags.contains('Z');
    proc.sign = flags.contains('S');
    proc.overflow = flags.contains('O');
    proc
}

/// Checks that the instruction, of two bytes, makes `left` of a processor, but for the address, and
/// goes on after.
fn check(rt: &impl Abort, insn: Insn, mut proc: Proc, mut left: Proc)
    requires listed { is_listed insn ≡ true }
    requires running { proc.life ≡ Running }
    requires depth { proc.depth ≡ 0 }
{
    let mark = execute(&insn, 2, &mut proc);
    left.ip = AT + 2;
    assert_eq!(rt; mark, Mark::None, "{insn:?}");
    assert_eq!(rt; proc, left, "{insn:?}");
}
