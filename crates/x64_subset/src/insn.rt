//! The instructions (Intel SDM volume 2; each in the one spelling that is read here).
use insn_forms::Form;
use thiserror::Error;

/// What is done with two registers, or with a register and a number.
#[derive(Clone, Copy, Debug, PartialEq, Eq)]
pub enum AluOp {
    Add,
    Sub,
    Xor,
    Cmp,
    Test,
    Mov,
}

/// An instruction.
///
/// A register is its number: 0 EAX, 1 ECX, 2 EDX, 3 EBX, 5 EBP, 6 ESI, 7 EDI. 4, the stack pointer ESP, is
/// excluded: the call stack stands apart from data. A condition is the low four bits of the opcodes of
/// Jcc. 0xA and 0xB, those of parity, are excluded: the processors have no parity flag. A target is an
/// address.
#[derive(Clone, Copy, Debug, PartialEq, Eq)]
pub enum Insn {
    /// NOP of 1 to 9 bytes.
    Nop(u8),
    /// `CC`
    Int3,
    /// `EB cb`
    Jmp8(u64),
    /// `E9 cd`
    Jmp32(u64),
    /// `E8 cd`
    Call(u64),
    /// `C3`
    Ret,
    /// `70+cc cb`: the condition and the target.
    Jcc8(u8, u64),
    /// `0F 80+cc cd`: the condition and the target.
    Jcc32(u8, u64),
    /// The operation, the destination and the source.
    Alu(AluOp, u8, u8),
    /// `83 /digit ib`: Add, Sub or Cmp, the destination, and the byte, which is sign-extended.
    AluImm(AluOp, u8, u8),
    /// `FF /0`
    Inc(u8),
    /// `FF /1`
    Dec(u8),
    /// `B8+r id`: the destination and the number.
    MovImm(u8, u32),
    /// `F4`
    Hlt,
    /// `0F 0B`
    Ud2,
    /// `E6 ib`: AL to the port.
    Out(u8),
    /// `F3 0F 1E FA`
    Endbr64,
    /// `0F 01 E8`
    Serialize,
}

impl From<Form> for Insn {
    ghost use Rattle.std.specs.Prelude.{◌≡◌};
    ghost use Rattle.x64_subset.specs.Whole.{insn_of};

    ghost from_gives = { λ form insn. insn ≡ insn_of form };

    /// The instruction that a patched site's form is. Of RET it is that of the first byte.
    fn from(form: Form) -> Insn {
        match form {
            Form::Nop2 => Insn::Nop(2),
            Form::Nop5 => Insn::Nop(5),
            Form::Jmp8(target) => Insn::Jmp8(target),
            Form::Jmp32(target) => Insn::Jmp32(target),
            Form::Call(target) => Insn::Call(target),
            Form::Ret => Insn::Ret,
        }
    }
}

/// Why no instruction is read of some bytes.
#[derive(Clone, Copy, Debug, PartialEq, Eq, Error)]
pub enum Undecoded {
    /// The bytes are how a longer spelling begins.
    #[error("the bytes end in an instruction")]
    Short,
    /// No spelling begins so.
    #[error("no instruction begins so")]
    Unknown,
}
