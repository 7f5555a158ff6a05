//! Lines of what processors do and show.
ghost use Rattle.std.specs.Prelude.{◌≤◌};

use cpu_core::{put_mark, put_pass};
use poke_base::Line;
use std::process::Abort;
use x64_subset::{FaultKind, Insn, Life, Mark};

/// Checks the line of an instruction that the last processor did at a patched site.
fn passes(rt: &impl Abort, at: u64, insn: Insn, spelling: &[u8]) {
    let mut line = Line::new();
    put_pass(&mut line, 15, at, &insn);
    assert_eq!(rt; line.as_slice(), spelling);
}

/// Checks the line of what an instruction of a processor showed.
fn shows(rt: &impl Abort, cpu: u8, mark: Mark, life: Life, spelling: &[u8])
    requires { cpu ≤ 15 }
{
    let mut line = Line::new();
    put_mark(&mut line, cpu, mark, life);
    assert_eq!(rt; line.as_slice(), spelling);
}

#[test]
fn instructions_at_sites_have_lines(rt: HostRuntime) {
    let target = 0xffff_ffff_ffff_ffff;
    passes(&rt, 0x40_1000, Insn::Nop(5), b"15 401000 nop\n");
    passes(&rt, 0, Insn::Jmp8(0x40_1002), b"15 0 jmp 401002\n");
    passes(&rt, 0x1f, Insn::Jmp32(0), b"15 1f jmp 0\n");
    passes(
        &rt,
        target,
        Insn::Call(target),
        b"15 ffffffffffffffff call ffffffffffffffff\n",
    );
    passes(&rt, 0x40_1000, Insn::Ret, b"15 401000 ret\n");
    passes(&rt, 0x40_1000, Insn::Inc(0), b"15 401000 other\n");
}

#[test]
fn marks_have_lines(rt: HostRuntime) {
    let out = Mark::Out {
        port: 0x10,
        value: 0x0a,
    };
    shows(&rt, 0, Mark::None, Life::Running, b"");
    shows(&rt, 10, out, Life::Running, b"10 out 10 0a\n");
    shows(&rt, 1, Mark::Ended, Life::Done, b"1 done\n");
    shows(&rt, 1, Mark::Ended, Life::Halted, b"1 halt\n");
    let undefined = Life::Fault(FaultKind::Undefined);
    shows(&rt, 2, Mark::Ended, undefined, b"2 fault undefined\n");
    let breakpoint = Life::Fault(FaultKind::Breakpoint);
    shows(&rt, 15, Mark::Ended, breakpoint, b"15 fault breakpoint\n");
    let depth = Life::Fault(FaultKind::Depth);
    shows(&rt, 9, Mark::Ended, depth, b"9 fault depth\n");
    shows(&rt, 9, Mark::Ended, Life::Running, b"");
}
