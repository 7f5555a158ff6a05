//! Numbers and flags, at the ends of the signed and unsigned ranges.
ghost use Rattle.std.specs.Prelude.{◌≡◌, true};
ghost use Rattle.x64_subset.specs.Subset.{is_listed};

use super::{check, proc_with};
use std::process::Abort;
use x64_subset::{AluOp, Insn};

/// EAX, ECX, EAX + ECX, and the flags that are set; in either order.
const SUMS: [(u32, u32, u32, &str); 15] = [
    (0x0000_0000, 0x0000_0000, 0x0000_0000, "Z"),
    (0x0000_0000, 0x0000_0001, 0x0000_0001, ""),
    (0x0000_0000, 0x7fff_ffff, 0x7fff_ffff, ""),
    (0x0000_0000, 0x8000_0000, 0x8000_0000, "S"),
    (0x0000_0000, 0xffff_ffff, 0xffff_ffff, "S"),
    (0x0000_0001, 0x0000_0001, 0x0000_0002, ""),
    (0x0000_0001, 0x7fff_ffff, 0x8000_0000, "SO"),
    (0x0000_0001, 0x8000_0000, 0x8000_0001, "S"),
    (0x0000_0001, 0xffff_ffff, 0x0000_0000, "CZ"),
    (0x7fff_ffff, 0x7fff_ffff, 0xffff_fffe, "SO"),
    (0x7fff_ffff, 0x8000_0000, 0xffff_ffff, "S"),
    (0x7fff_ffff, 0xffff_ffff, 0x7fff_fffe, "C"),
    (0x8000_0000, 0x8000_0000, 0x0000_0000, "CZO"),
    (0x8000_0000, 0xffff_ffff, 0x7fff_ffff, "CO"),
    (0xffff_ffff, 0xffff_ffff, 0xffff_fffe, "CS"),
];

/// EAX, ECX, EAX - ECX, and the flags that are set, where EAX is small.
const DIFFERENCES_FROM_SMALL: [(u32, u32, u32, &str); 10] = [
    (0x0000_0000, 0x0000_0000, 0x0000_0000, "Z"),
    (0x0000_0000, 0x0000_0001, 0xffff_ffff, "CS"),
    (0x0000_0000, 0x7fff_ffff, 0x8000_0001, "CS"),
    (0x0000_0000, 0x8000_0000, 0x8000_0000, "CSO"),
    (0x0000_0000, 0xffff_ffff, 0x0000_0001, "C"),
    (0x0000_0001, 0x0000_0000, 0x0000_0001, ""),
    (0x0000_0001, 0x0000_0001, 0x0000_0000, "Z"),
    (0x0000_0001, 0x7fff_ffff, 0x8000_0002, "CS"),
    (0x0000_0001, 0x8000_0000, 0x8000_0001, "CSO"),
    (0x0000_0001, 0xffff_ffff, 0x0000_0002, "C"),
];

/// The same, where EAX is large.
const DIFFERENCES_FROM_LARGE: [(u32, u32, u32, &str); 15] = [
    (0x7fff_ffff, 0x0000_0000, 0x7fff_ffff, ""),
    (0x7fff_ffff, 0x0000_0001, 0x7fff_fffe, ""),
    (0x7fff_ffff, 0x7fff_ffff, 0x0000_0000, "Z"),
    (0x7fff_ffff, 0x8000_0000, 0xffff_ffff, "CSO"),
    (0x7fff_ffff, 0xffff_ffff, 0x8000_0000, "CSO"),
    (0x8000_0000, 0x0000_0000, 0x8000_0000, "S"),
    (0x8000_0000, 0x0000_0001, 0x7fff_ffff, "O"),
    (0x8000_0000, 0x7fff_ffff, 0x0000_0001, "O"),
    (0x8000_0000, 0x8000_0000, 0x0000_0000, "Z"),
    (0x8000_0000, 0xffff_ffff, 0x8000_0001, "CS"),
    (0xffff_ffff, 0x0000_0000, 0xffff_ffff, "S"),
    (0xffff_ffff, 0x0000_0001, 0xffff_fffe, "S"),
    (0xffff_ffff, 0x7fff_ffff, 0x8000_0000, "S"),
    (0xffff_ffff, 0x8000_0000, 0x7fff_ffff, ""),
    (0xffff_ffff, 0xffff_ffff, 0x0000_0000, "Z"),
];

/// EAX, ECX, EAX ^ ECX, and the flags that are set; in either order.
const EXCLUSIVE_ORS: [(u32, u32, u32, &str); 15] = [
    (0x0000_0000, 0x0000_0000, 0x0000_0000, "Z"),
    (0x0000_0000, 0x0000_0001, 0x0000_0001, ""),
    (0x0000_0000, 0x7fff_ffff, 0x7fff_ffff, ""),
    (0x0000_0000, 0x8000_0000, 0x8000_0000, "S"),
    (0x0000_0000, 0xffff_ffff, 0xffff_ffff, "S"),
    (0x0000_0001, 0x0000_0001, 0x0000_0000, "Z"),
    (0x0000_0001, 0x7fff_ffff, 0x7fff_fffe, ""),
    (0x0000_0001, 0x8000_0000, 0x8000_0001, "S"),
    (0x0000_0001, 0xffff_ffff, 0xffff_fffe, "S"),
    (0x7fff_ffff, 0x7fff_ffff, 0x0000_0000, "Z"),
    (0x7fff_ffff, 0x8000_0000, 0xffff_ffff, "S"),
    (0x7fff_ffff, 0xffff_ffff, 0x8000_0000, "S"),
    (0x8000_0000, 0x8000_0000, 0x0000_0000, "Z"),
    (0x8000_0000, 0xffff_ffff, 0x7fff_ffff, ""),
    (0xffff_ffff, 0xffff_ffff, 0x0000_0000, "Z"),
];

/// EAX, ECX, and the flags that EAX & ECX sets; in either order.
const COMMON_BITS: [(u32, u32, &str); 15] = [
    (0x0000_0000, 0x0000_0000, "Z"),
    (0x0000_0000, 0x0000_0001, "Z"),
    (0x0000_0000, 0x7fff_ffff, "Z"),
    (0x0000_0000, 0x8000_0000, "Z"),
    (0x0000_0000, 0xffff_ffff, "Z"),
    (0x0000_0001, 0x0000_0001, ""),
    (0x0000_0001, 0x7fff_ffff, ""),
    (0x0000_0001, 0x8000_0000, "Z"),
    (0x0000_0001, 0xffff_ffff, ""),
    (0x7fff_ffff, 0x7fff_ffff, ""),
    (0x7fff_ffff, 0x8000_0000, "Z"),
    (0x7fff_ffff, 0xffff_ffff, ""),
    (0x8000_0000, 0x8000_0000, "S"),
    (0x8000_0000, 0xffff_ffff, "S"),
    (0xffff_ffff, 0xffff_ffff, "S"),
];

/// Checks what an instruction leaves in EAX and the flags, whichever flags were set before.
fn check_flags(rt: &impl Abort, insn: Insn, eax: u32, ecx: u32, left: u32, flags: &str)
    requires { is_listed insn ≡ true }
{
    for before in ["", "CZSO"] {
        let proc = proc_with(eax, ecx, before);
        check(rt, insn, proc, proc_with(left, ecx, flags));
    }
}

/// Checks an operation of EAX with ECX.
fn check_op(rt: &impl Abort, op: AluOp, eax: u32, ecx: u32, left: u32, flags: &str) {
    check_flags(rt, Insn::Alu(op, 0, 1), eax, ecx, left, flags);
}

#[test]
fn adds(rt: HostRuntime) {
    for (eax, ecx, sum, flags) in SUMS {
        check_op(&rt, AluOp::Add, eax, ecx, sum, flags);
        check_op(&rt, AluOp::Add, ecx, eax, sum, flags);
    }
}

#[test]
fn subtracts(rt: HostRuntime) {
    for (eax, ecx, difference, flags) in DIFFERENCES_FROM_SMALL {
        check_op(&rt, AluOp::Sub, eax, ecx, difference, flags);
    }
    for (eax, ecx, difference, flags) in DIFFERENCES_FROM_LARGE {
        check_op(&rt, AluOp::Sub, eax, ecx, difference, flags);
    }
}

#[test]
fn compares_as_it_subtracts_but_stores_nothing(rt: HostRuntime) {
    for (eax, ecx, _, flags) in DIFFERENCES_FROM_SMALL {
        check_op(&rt, AluOp::Cmp, eax, ecx, eax, flags);
    }
    for (eax, ecx, _, flags) in DIFFERENCES_FROM_LARGE {
        check_op(&rt, AluOp::Cmp, eax, ecx, eax, flags);
    }
}

#[test]
fn takes_exclusive_or(rt: HostRuntime) {
    for (eax, ecx, exclusive, flags) in EXCLUSIVE_ORS {
        check_op(&rt, AluOp::Xor, eax, ecx, exclusive, flags);
        check_op(&rt, AluOp::Xor, ecx, eax, exclusive, flags);
    }
}

#[test]
fn tests_common_bits_but_stores_nothing(rt: HostRuntime) {
    for (eax, ecx, flags) in COMMON_BITS {
        check_op(&rt, AluOp::Test, eax, ecx, eax, flags);
        check_op(&rt, AluOp::Test, ecx, eax, ecx, flags);
    }
}

/// Checks what INC and DEC of EAX leave, which flags were set before, and which are set then.
fn check_step(rt: &impl Abort, insn: Insn, eax: u32, before: &str, left: u32, flags: &str)
    requires { is_listed insn ≡ true }
{
    let proc = proc_with(eax, 0, before);
    check(rt, insn, proc, proc_with(left, 0, flags));
}

#[test]
fn counts_up_and_keeps_carry(rt: HostRuntime) {
    let rows = [
        (0x0000_0000, "", 0x0000_0001, ""),
        (0x0000_0001, "", 0x0000_0002, ""),
        (0x7fff_ffff, "", 0x8000_0000, "SO"),
        (0x8000_0000, "", 0x8000_0001, "S"),
        (0xffff_ffff, "", 0x0000_0000, "Z"),
        (0x0000_0000, "CZSO", 0x0000_0001, "C"),
        (0x0000_0001, "CZSO", 0x0000_0002, "C"),
        (0x7fff_ffff, "CZSO", 0x8000_0000, "CSO"),
        (0x8000_0000, "CZSO", 0x8000_0001, "CS"),
        (0xffff_ffff, "CZSO", 0x0000_0000, "CZ"),
    ];
    for (eax, before, left, flags) in rows {
        check_step(&rt, Insn::Inc(0), eax, before, left, flags);
    }
}

#[test]
fn counts_down_and_keeps_carry(rt: HostRuntime) {
    let rows = [
        (0x0000_0000, "", 0xffff_ffff, "S"),
        (0x0000_0001, "", 0x0000_0000, "Z"),
        (0x7fff_ffff, "", 0x7fff_fffe, ""),
        (0x8000_0000, "", 0x7fff_ffff, "O"),
        (0xffff_ffff, "", 0xffff_fffe, "S"),
        (0x0000_0000, "CZSO", 0xffff_ffff, "CS"),
        (0x0000_0001, "CZSO", 0x0000_0000, "CZ"),
        (0x7fff_ffff, "CZSO", 0x7fff_fffe, "C"),
        (0x8000_0000, "CZSO", 0x7fff_ffff, "CO"),
        (0xffff_ffff, "CZSO", 0xffff_fffe, "CS"),
    ];
    for (eax, before, left, flags) in rows {
        check_step(&rt, Insn::Dec(0), eax, before, left, flags);
    }
}

#[test]
fn extends_a_byte_by_its_sign(rt: HostRuntime) {
    let sums = [
        (5, 0xff, 4, "C"),
        (5, 0x7f, 0x84, ""),
        (0, 0x80, 0xffff_ff80, "S"),
        (0x8000_0000, 0xff, 0x7fff_ffff, "CO"),
    ];
    for (eax, byte, sum, flags) in sums {
        check_flags(&rt, Insn::AluImm(AluOp::Add, 0, byte), eax, 0, sum, flags);
    }
    let differences = [
        (0, 0x01, 0xffff_ffff, "CS"),
        (5, 0xff, 6, "C"),
        (0x7fff_ffff, 0x80, 0x8000_007f, "CSO"),
        (0xffff_ffff, 0xff, 0, "Z"),
    ];
    for (eax, byte, difference, flags) in differences {
        let subtract = Insn::AluImm(AluOp::Sub, 0, byte);
        check_flags(&rt, subtract, eax, 0, difference, flags);
        check_flags(&rt, Insn::AluImm(AluOp::Cmp, 0, byte), eax, 0, eax, flags);
    }
}

#[test]
fn moves_and_leaves_flags(rt: HostRuntime) {
    for flags in ["", "CZSO"] {
        let moved = proc_with(0x8000_0000, 0x8000_0000, flags);
        let proc = proc_with(1, 0x8000_0000, flags);
        check(&rt, Insn::Alu(AluOp::Mov, 0, 1), proc, moved);
        let loaded = proc_with(0, 0x8000_0000, flags);
        let proc = proc_with(0, 1, flags);
        check(&rt, Insn::MovImm(1, 0x8000_0000), proc, loaded);
    }
}

#[test]
fn numbers_the_registers(rt: HostRuntime) {
    let mut proc = proc_with(0, 0, "");
    proc.regs = [10, 11, 12, 13, 14, 15, 16, 17];
    let mut left = proc_with(0, 0, "");
    left.regs = [10, 11, 12, 13, 14, 15, 16, 30];
    check(&rt, Insn::Alu(AluOp::Add, 7, 3), proc, left);
}
