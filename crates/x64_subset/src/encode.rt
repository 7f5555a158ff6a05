//! How instructions are spelt.
ghost use Rattle.std.specs.Prelude.{◌≡◌, ◌<◌, ◌≤◌, ◌+◌, ℕ, List, [], ◌∷◌, Some, true, length, IfOk, OnErr, IfSome};
ghost use Rattle.std.specs.Int.{w8, w32, to_le_bytes};
ghost use Rattle.std.specs.Option.{is_some};
ghost use Rattle.x64_subset.specs.Subset.{is_listed, is_register, digit_of};
ghost use Rattle.x64_subset.specs.Spells.{Spells, Leads, nop_bytes, alu_opcode, mod_rm};

use crate::{AluOp, Insn};
use insn_forms::NoReach;
use insn_forms::displacement::{displacement8, displacement32};
use poke_base::{CodeBytes, code_bytes};

impl Insn {
    /// The bytes of the instruction at the address `at`, in its one spelling: 1 to 9 of them (Intel SDM,
    /// volume 2, the opcode page of each instruction). It has to be an instruction of the subset. A
    /// displacement counts from the end of the instruction, and addresses wrap modulo 2^64.
    ///
    /// # Errors
    /// `NoReach` exactly where no displacement of the instruction's width leads to its target.
    #[tactic(auto, unfolding(crate::specs::Spells::Spells))]
    pub fn encode(&self, at: u64) -> Result<CodeBytes, NoReach>
        requires { is_listed self.now ≡ true }
        ensures bytes { IfOk result (λ code. Spells self.now at code.items) }
        ensures no_reach { OnErr result ((code : List ℕ) → Spells self.now at code → ⊥) }
    {
        match *self {
            Insn::Nop(len) => Ok(nop(len)),
            Insn::Int3 => Ok(code_bytes(0xcc, &[])),
            Insn::Jmp8(target) => near(0xeb, at, target),
            Insn::Jmp32(target) => far(0xe9, &[], at, target),
            Insn::Call(target) => far(0xe8, &[], at, target),
            Insn::Ret => Ok(code_bytes(0xc3, &[])),
            Insn::Jcc8(condition, target) => near(0x70 + condition, at, target),
            Insn::Jcc32(condition, target) => far(0x0f, &[0x80 + condition], at, target),
            Insn::Alu(op, rm, reg) => Ok(code_bytes(alu_opcode(op), &[mod_rm(reg, rm)])),
            Insn::AluImm(op, rm, byte) => Ok(alu_imm(op, rm, byte)),
            Insn::Inc(rm) => Ok(code_bytes(0xff, &[mod_rm(0, rm)])),
            Insn::Dec(rm) => Ok(code_bytes(0xff, &[mod_rm(1, rm)])),
            Insn::MovImm(r, number) => Ok(mov_imm(r, number)),
            Insn::Hlt => Ok(code_bytes(0xf4, &[])),
            Insn::Ud2 => Ok(code_bytes(0x0f, &[0x0b])),
            Insn::Out(port) => Ok(out(port)),
            Insn::Endbr64 => Ok(code_bytes(0xf3, &[0x0f, 0x1e, 0xfa])),
            Insn::Serialize => Ok(code_bytes(0x0f, &[0x01, 0xe8])),
        }
    }
}

/// The recommended NOP of a length.
fn nop(len: u8) -> CodeBytes
    requires from { 1 ≤ len }
    requires to { len ≤ 9 }
    ensures { nop_bytes len ≡ Some result.items }
{
    match len {
        1 => code_bytes(0x90, &[]),
        2 => code_bytes(0x66, &[0x90]),
        3 => code_bytes(0x0f, &[0x1f, 0x00]),
        4 => code_bytes(0x0f, &[0x1f, 0x40, 0x00]),
        5 => code_bytes(0x0f, &[0x1f, 0x44, 0x00, 0x00]),
        6 => code_bytes(0x66, &[0x0f, 0x1f, 0x44, 0x00, 0x00]),
        7 => code_bytes(0x0f, &[0x1f, 0x80, 0x00, 0x00, 0x00, 0x00]),
        8 => code_bytes(0x0f, &[0x1f, 0x84, 0x00, 0x00, 0x00, 0x00, 0x00]),
        _ => code_bytes(0x66, &[0x0f, 0x1f, 0x84, 0x00, 0x00, 0x00, 0x00, 0x00]),
    }
}

/// An opcode, and the displacement of one byte to the target.
fn near(opcode: u8, at: u64, target: u64) -> Result<CodeBytes, NoReach>
    ensures bytes { IfOk result (λ code. Leads w8 (opcode ∷ []) at target code.items) }
    ensures no_reach { OnErr result ((code : List ℕ) → Leads w8 (opcode ∷ []) at target code → ⊥) }
{
    match displacement8(at.wrapping_add(2), target) {
        Some(rel8) => Ok(code_bytes(opcode, &rel8)),
        None => Err(NoReach),
    }
}

/// An opcode of one or two bytes, the first and those after it, and the displacement of four bytes to the target.
fn far(first: u8, rest: &[u8], at: u64, target: u64) -> Result<CodeBytes, NoReach>
    requires { length rest.now ≤ 1 }
    ensures bytes { IfOk result (λ code. Leads w32 (first ∷ rest.now) at target code.items) }
    ensures no_reach { OnErr result ((code : List ℕ) → Leads w32 (first ∷ rest.now) at target code → ⊥) }
{
    let mut code = code_bytes(first, rest);
    let len = code.len() as u64 + 4;
    match displacement32(at.wrapping_add(len), target) {
        Some(rel32) => {
            let _ = code.try_extend_from_slice(&rel32);
            Ok(code)
        }
        None => Err(NoReach),
    }
}

/// A number into a register.
fn mov_imm(r: u8, number: u32) -> CodeBytes
    requires { is_register r ≡ true }
    ensures { result.items ≡ (0xb8 + r) ∷ to_le_bytes w32 number }
{
    code_bytes(0xb8 + r, &number.to_le_bytes())
}

/// An operation on a register and a byte.
fn alu_imm(op: AluOp, rm: u8, byte: u8) -> CodeBytes
    requires digit { is_some (digit_of op) ≡ true }
    requires register { is_register rm ≡ true }
    ensures { IfSome (digit_of op) (λ digit. result.items ≡ 0x83 ∷ mod_rm digit rm ∷ byte ∷ []) }
{
    code_bytes(0x83, &[mod_rm(digit(op), rm), byte])
}

/// A byte to a port.
fn out(port: u8) -> CodeBytes
    ensures { result.items ≡ 0xe6 ∷ port ∷ [] }
{
    code_bytes(0xe6, &[port])
}

/// The opcode of an operation on two registers, of which the destination is rm.
fn alu_opcode(op: AluOp) -> u8
    ensures { result ≡ alu_opcode op }
{
    match op {
        AluOp::Add => 0x01,
        AluOp::Sub => 0x29,
        AluOp::Xor => 0x31,
        AluOp::Cmp => 0x39,
        AluOp::Test => 0x85,
        AluOp::Mov => 0x89,
    }
}

/// The digit that stands for an operation with a byte.
fn digit(op: AluOp) -> u8
    requires { is_some (digit_of op) ≡ true }
    ensures { digit_of op ≡ Some result }
{
    match op {
        AluOp::Add => 0,
        AluOp::Sub => 5,
        AluOp::Cmp => 7,
        AluOp::Xor | AluOp::Test | AluOp::Mov => unreachable!(),
    }
}

/// The ModRM byte that names two registers, or a digit and a register.
fn mod_rm(reg: u8, rm: u8) -> u8
    requires reg { reg < 8 }
    requires rm { rm < 8 }
    ensures { result ≡ mod_rm reg rm }
{
    0xc0 + 8 * reg + rm
}
