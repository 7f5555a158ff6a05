//! What an instruction does to a processor (Intel SDM volume 2, "Operation" and "Flags Affected").
ghost use Rattle.std.specs.Prelude.{◌≡◌, ◌≤◌, true};
ghost use Rattle.x64_subset.specs.declared.proc.Life.TheVariants.{Running};
ghost use Rattle.x64_subset.specs.Subset.{is_listed};
ghost use Rattle.x64_subset.specs.Effect.{does};

use crate::arithmetic::{difference, extended, sum};
use crate::{FaultKind, Insn, Life, Mark, Proc};

/// Does one instruction, which is `len` bytes long, on a processor that is running, and says what that
/// shows outside.
///
/// The instruction has to be of the subset: its registers are among the eight, but the stack pointer,
/// number 4, is excluded; its conditions are among the sixteen, but those of parity, numbers 10 and 11,
/// are excluded; a byte as operand goes with Add, Sub or Cmp; a NOP has 1 to 9 bytes. The processor has
/// at most 64 return addresses, before and after.
///
/// The processor goes on at a jump's target or else after the instruction; addresses wrap modulo
/// 2^64. It ends where it executes RET with no return address (`Done`), HLT (`Halted`), UD2
/// (`Undefined`), INT3 (`Breakpoint`) or CALL with 64 return addresses (`Depth`). Then only its `life`
/// is another, but for INT3, after which it stands.
///
/// The mark is `Ended` where the processor ends, the port and AL at OUT, and else `None`.
///
/// The source is the Intel SDM, volume 2: "Operation" and "Flags Affected" of each instruction.
#[tactic(auto, unfolding(crate::specs::Effect::does))]
pub fn execute(insn: &Insn, len: u8, proc: &mut Proc) -> Mark
    requires listed { is_listed insn.now ≡ true }
    requires running { proc.old.life ≡ Running }
    requires depth { proc.old.depth ≤ 64 }
    ensures proc { proc.new ≡ (does insn.now len proc.old).0 }
    ensures mark { result ≡ (does insn.now len proc.old).1 }
    ensures depth { proc.new.depth ≤ 64 }
{
    match *insn {
        Insn::Nop(_) | Insn::Endbr64 | Insn::Serialize => proc.go_on(len),
        Insn::Jmp8(target) | Insn::Jmp32(target) => proc.jump(target),
        Insn::Jcc8(condition, target) | Insn::Jcc32(condition, target) => {
            proc.jump_if(condition, target, len)
        }
        Insn::Call(target) => proc.call(target, len),
        Insn::Ret => proc.ret(),
        Insn::Alu(op, rm, reg) => {
            let source = proc.register(reg);
            proc.operate(op, rm, source);
            proc.go_on(len)
        }
        Insn::AluImm(op, rm, byte) => {
            proc.operate(op, rm, extended(byte));
            proc.go_on(len)
        }
        Insn::Inc(rm) => {
            proc.step(rm, sum(proc.register(rm), 1));
            proc.go_on(len)
        }
        Insn::Dec(rm) => {
            proc.step(rm, difference(proc.register(rm), 1));
            proc.go_on(len)
        }
        Insn::MovImm(r, number) => {
            proc.store(r, number);
            proc.go_on(len)
        }
        Insn::Out(port) => proc.out(port, len),
        Insn::Int3 => {
            proc.go_on(len);
            proc.end(Life::Fault(FaultKind::Breakpoint))
        }
        Insn::Hlt => proc.end(Life::Halted),
        Insn::Ud2 => proc.end(Life::Fault(FaultKind::Undefined)),
    }
}
