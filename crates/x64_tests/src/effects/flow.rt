//! Where a processor goes on, how it ends, and what it shows.
ghost use Rattle.std.specs.Prelude.{◌≡◌, ◌≤◌, true};
ghost use Rattle.x64_subset.specs.declared.proc.Life.TheVariants.{Running};
ghost use Rattle.x64_subset.specs.Subset.{is_listed};

use super::AT;
use std::process::Abort;
use x64_subset::{FaultKind, Insn, Life, Mark, Proc, execute};

/// A processor with numbers in its registers, flags set, and n return addresses.
fn deep(depth: u8) -> Proc
    requires { depth ≤ 64 }
    ensures running { result.life ≡ Running }
    ensures depth { result.depth ≡ depth }
{
    let mut proc = Proc::start(AT);
    proc.regs = [0x1234_5648, 1, 2, 3, 4, 5, 6, 7];
    proc.zero = true;
    proc.overflow = true;
    proc.stack[0] = 0x50_0000;
    proc.stack[1] = 0x50_0001;
    proc.stack[62] = 0x50_003e;
    proc.stack[63] = 0x50_003f;
    proc.depth = depth;
    proc
}

/// `deep` at another address.
fn deep_at(depth: u8, ip: u64) -> Proc
    requires { depth ≤ 64 }
    ensures running { result.life ≡ Running }
    ensures depth { result.depth ≡ depth }
{
    let mut proc = deep(depth);
    proc.ip = ip;
    proc
}

/// `deep` that has ended.
fn ended(depth: u8, ip: u64, life: Life) -> Proc
    requires { depth ≤ 64 }
{
    let mut proc = deep_at(depth, ip);
    proc.life = life;
    proc
}

/// Checks what an instruction of `len` bytes makes of a processor, and what it shows.
fn check(rt: &impl Abort, insn: Insn, len: u8, mut proc: Proc, left: Proc, mark: Mark)
    requires listed { is_listed insn ≡ true }
    requires running { proc.life ≡ Running }
    requires depth { proc.depth ≤ 64 }
{
    let shown = execute(&insn, len, &mut proc);
    assert_eq!(rt; shown, mark, "{insn:?}");
    assert_eq!(rt; proc, left, "{insn:?}");
}

/// Checks an instruction that shows nothing.
fn check_on(rt: &impl Abort, insn: Insn, len: u8, proc: Proc, left: Proc)
    requires listed { is_listed insn ≡ true }
    requires running { proc.life ≡ Running }
    requires depth { proc.depth ≤ 64 }
{
    check(rt, insn, len, proc, left, Mark::None);
}

/// Checks an instruction after which the processor doesn't go on.
fn check_end(rt: &impl Abort, insn: Insn, len: u8, proc: Proc, left: Proc)
    requires listed { is_listed insn ≡ true }
    requires running { proc.life ≡ Running }
    requires depth { proc.depth ≤ 64 }
{
    check(rt, insn, len, proc, left, Mark::Ended);
}

#[test]
fn goes_on_after(rt: HostRuntime) {
    check_on(&rt, Insn::Nop(9), 9, deep(2), deep_at(2, 0x40_1009));
    check_on(&rt, Insn::Endbr64, 4, deep(2), deep_at(2, 0x40_1004));
    check_on(&rt, Insn::Serialize, 3, deep(2), deep_at(2, 0x40_1003));
}

#[test]
fn wraps_addresses(rt: HostRuntime) {
    let near_end = deep_at(2, 0xffff_ffff_ffff_fffe);
    check_on(&rt, Insn::Nop(2), 2, near_end, deep_at(2, 0));
    let last = deep_at(2, 0xffff_ffff_ffff_ffff);
    check_on(&rt, Insn::Nop(9), 9, last, deep_at(2, 8));
    let caller = deep_at(63, 0xffff_ffff_ffff_fffd);
    let mut called = deep_at(64, 0x40_2000);
    called.stack[63] = 2;
    check_on(&rt, Insn::Call(0x40_2000), 5, caller, called);
}

#[test]
fn jumps(rt: HostRuntime) {
    let near = Insn::Jmp8(0x40_1050);
    check_on(&rt, near, 2, deep(2), deep_at(2, 0x40_1050));
    let far = Insn::Jmp32(0x40_2000);
    check_on(&rt, far, 5, deep(2), deep_at(2, 0x40_2000));
}

#[test]
fn calls(rt: HostRuntime) {
    let insn = Insn::Call(0x40_2000);
    let mut first = deep_at(1, 0x40_2000);
    first.stack[0] = 0x40_1005;
    check_on(&rt, insn, 5, deep(0), first);
    let mut last = deep_at(64, 0x40_2000);
    last.stack[63] = 0x40_1005;
    check_on(&rt, insn, 5, deep(63), last);
    let full = ended(64, AT, Life::Fault(FaultKind::Depth));
    check_end(&rt, insn, 5, deep(64), full);
}

#[test]
fn returns(rt: HostRuntime) {
    check_end(&rt, Insn::Ret, 1, deep(0), ended(0, AT, Life::Done));
    check_on(&rt, Insn::Ret, 1, deep(1), deep_at(0, 0x50_0000));
    check_on(&rt, Insn::Ret, 1, deep(2), deep_at(1, 0x50_0001));
    check_on(&rt, Insn::Ret, 1, deep(64), deep_at(63, 0x50_003f));
}

#[test]
fn ends(rt: HostRuntime) {
    check_end(&rt, Insn::Hlt, 1, deep(2), ended(2, AT, Life::Halted));
    let undefined = ended(2, AT, Life::Fault(FaultKind::Undefined));
    check_end(&rt, Insn::Ud2, 2, deep(2), undefined);
    let stopped = ended(2, 0x40_1001, Life::Fault(FaultKind::Breakpoint));
    check_end(&rt, Insn::Int3, 1, deep(2), stopped);
}

#[test]
fn shows_al_at_a_port(rt: HostRuntime) {
    let shown = Mark::Out {
        port: 0xe9,
        value: 0x48,
    };
    let left = deep_at(2, 0x40_1002);
    check(&rt, Insn::Out(0xe9), 2, deep(2), left, shown);
}
