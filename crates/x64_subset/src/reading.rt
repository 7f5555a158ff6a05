//! How instructions are read.
ghost use Rattle.std.specs.Prelude.{◌≡◌, ◌≤◌, ◌↔◌, ℕ, length, List, [], ◌∷◌, Ok, Err, IfOk, MatchResult, true};
ghost use Rattle.x64_subset.specs.declared.insn.Insn.{Insn};
ghost use Rattle.x64_subset.specs.declared.insn.Undecoded.TheVariants.{Short, Unknown};
ghost use Rattle.x64_subset.specs.Subset.{is_listed, is_register, is_condition};
ghost use Rattle.x64_subset.specs.Spells.{Stands, IsCut, IsUnknown};
ghost use Rattle.x64_subset.specs.Reading.{Reading, read, first, escaped, prefixed, prefixed_nop, long_nop, alu, alu_imm, with_byte, inc_or_dec, mov_imm, jcc8, jcc32, near, far, four, byte, expect, complete, by_mod_rm};

use crate::{AluOp, Insn, Undecoded};
use insn_forms::displacement::{target8, target32};

/// ESP, which no instruction of the subset names.
const STACK_POINTER: u8 = 4;

/// The conditions of parity, which no jump of the subset has.
const PARITY: u8 = 0xa;

const NO_PARITY: u8 = 0xb;

/// An instruction and its length, or why there is none.
type Decoded = Result<(Insn, u8), Undecoded>;

/// Reads the instruction that stands at the address `at`, of which the memory there holds `bytes`: the
/// instruction and its length in bytes. What follows the instruction isn't looked at, so no more than the
/// first nine bytes are. Targets of jumps and calls are addresses, and wrap modulo 2^64. The rules are
/// those of the Intel SDM, volume 2: the opcode page of each instruction, and section 2.1.3 for ModRM.
///
/// # Errors
/// `Short` exactly where the bytes are how a longer spelling begins, as an empty list is. `Unknown` exactly
/// in all other cases in which the bytes don't begin with an instruction.
pub fn decode(at: u64, bytes: &[u8]) -> Result<(Insn, u8), Undecoded>
    ensures reads { result ≡ read at bytes.now }
    ensures stands { (insn : Insn) (len : ℕ) → (result ≡ Ok (insn, len)) ↔ Stands insn len at bytes.now }
    ensures listed { IfOk result (λ found. is_listed found.0 ≡ true) }
    ensures length { IfOk result (λ found. (1 ≤ found.1) × (found.1 ≤ 9) × (found.1 ≤ length bytes.now)) }
    ensures short { (result ≡ Err Short) ↔ IsCut at bytes.now }
    ensures unknown { (result ≡ Err Unknown) ↔ IsUnknown at bytes.now }
{
    let (opcode, rest) = next_byte(bytes)?;
    by_opcode(at, opcode, rest)
}

/// The instruction by its first byte, and the bytes that follow.
fn by_opcode(at: u64, opcode: u8, rest: &[u8]) -> Decoded
    ensures { result ≡ first at opcode rest.now }
{
    match opcode {
        0x01 => alu(AluOp::Add, rest),
        0x0f => escaped(at, rest),
        0x29 => alu(AluOp::Sub, rest),
        0x31 => alu(AluOp::Xor, rest),
        0x39 => alu(AluOp::Cmp, rest),
        0x66 => prefixed(rest),
        0x70..=0x7f => jcc8(at, opcode - 0x70, rest),
        0x83 => alu_imm(rest),
        0x85 => alu(AluOp::Test, rest),
        0x89 => alu(AluOp::Mov, rest),
        0x90 => Ok((Insn::Nop(1), 1)),
        0xb8..=0xbf => mov_imm(opcode - 0xb8, rest),
        0xc3 => Ok((Insn::Ret, 1)),
        0xcc => Ok((Insn::Int3, 1)),
        0xe6 => out(rest),
        0xe8 => Ok((Insn::Call(far_target(at, 5, rest)?), 5)),
        0xe9 => Ok((Insn::Jmp32(far_target(at, 5, rest)?), 5)),
        0xeb => Ok((Insn::Jmp8(near_target(at, rest)?), 2)),
        0xf3 => expect(&[0x0f, 0x1e, 0xfa], rest, Insn::Endbr64, 4),
        0xf4 => Ok((Insn::Hlt, 1)),
        0xff => inc_or_dec(rest),
        _ => Err(Undecoded::Unknown),
    }
}

/// After `0F`.
fn escaped(at: u64, rest: &[u8]) -> Decoded
    ensures { result ≡ byte (escaped at) rest.now }
{
    let (opcode, rest) = next_byte(rest)?;
    match opcode {
        0x01 => expect(&[0xe8], rest, Insn::Serialize, 3),
        0x0b => Ok((Insn::Ud2, 2)),
        0x1f => long_nop(rest),
        0x80..=0x8f => jcc32(at, opcode - 0x80, rest),
        _ => Err(Undecoded::Unknown),
    }
}

/// After `66`.
fn prefixed(rest: &[u8]) -> Decoded
    ensures { result ≡ byte prefixed rest.now }
{
    let (opcode, rest) = next_byte(rest)?;
    match opcode {
        0x90 => Ok((Insn::Nop(2), 2)),
        0x0f => prefixed_nop(rest),
        _ => Err(Undecoded::Unknown),
    }
}

/// After `66 0F`.
fn prefixed_nop(rest: &[u8]) -> Decoded
    ensures { result ≡ expect (0x1f ∷ []) (byte prefixed_nop) rest.now }
{
    let (opcode, rest) = next_byte(rest)?;
    if opcode != 0x1f {
        return Err(Undecoded::Unknown);
    }
    let (mod_rm, rest) = next_byte(rest)?;
    match mod_rm {
        0x44 => expect(&[0x00; 2], rest, Insn::Nop(6), 6),
        0x84 => expect(&[0x00; 5], rest, Insn::Nop(9), 9),
        _ => Err(Undecoded::Unknown),
    }
}

/// After `0F 1F`.
fn long_nop(rest: &[u8]) -> Decoded
    ensures { result ≡ byte long_nop rest.now }
{
    let (mod_rm, rest) = next_byte(rest)?;
    match mod_rm {
        0x00 => Ok((Insn::Nop(3), 3)),
        0x40 => expect(&[0x00], rest, Insn::Nop(4), 4),
        0x44 => expect(&[0x00; 2], rest, Insn::Nop(5), 5),
        0x80 => expect(&[0x00; 4], rest, Insn::Nop(7), 7),
        0x84 => expect(&[0x00; 5], rest, Insn::Nop(8), 8),
        _ => Err(Undecoded::Unknown),
    }
}

/// An operation on two registers, of which the destination is the second.
fn alu(op: AluOp, rest: &[u8]) -> Decoded
    ensures { result ≡ alu op rest.now }
{
    let (reg, rm, _) = operands(rest)?;
    if is_register(reg) {
        Ok((Insn::Alu(op, rm, reg), 2))
    } else {
        Err(Undecoded::Unknown)
    }
}

/// An operation on a register and a byte.
fn alu_imm(rest: &[u8]) -> Decoded
    ensures { result ≡ alu_imm rest.now }
{
    let (digit, rm, rest) = operands(rest)?;
    match digit {
        0 => with_byte(AluOp::Add, rm, rest),
        5 => with_byte(AluOp::Sub, rm, rest),
        7 => with_byte(AluOp::Cmp, rm, rest),
        _ => Err(Undecoded::Unknown),
    }
}

/// The byte of such an operation.
fn with_byte(op: AluOp, rm: u8, rest: &[u8]) -> Decoded
    ensures { result ≡ with_byte op rm rest.now }
{
    let (number, _) = next_byte(rest)?;
    Ok((Insn::AluImm(op, rm, number), 3))
}

/// One more or one less.
fn inc_or_dec(rest: &[u8]) -> Decoded
    ensures { result ≡ inc_or_dec rest.now }
{
    let (digit, rm, _) = operands(rest)?;
    match digit {
        0 => Ok((Insn::Inc(rm), 2)),
        1 => Ok((Insn::Dec(rm), 2)),
        _ => Err(Undecoded::Unknown),
    }
}

/// A number into a register.
fn mov_imm(r: u8, rest: &[u8]) -> Decoded
    ensures { result ≡ mov_imm r rest.now }
{
    if is_register(r) {
        let number = u32::from_le_bytes(four_bytes(rest)?);
        Ok((Insn::MovImm(r, number), 5))
    } else {
        Err(Undecoded::Unknown)
    }
}

/// A byte to a port.
fn out(rest: &[u8]) -> Decoded
    ensures { result ≡ byte (λ port. complete (Insn.Out port) 2) rest.now }
{
    let (port, _) = next_byte(rest)?;
    Ok((Insn::Out(port), 2))
}

/// A jump on a condition, with a displacement of one byte.
fn jcc8(at: u64, condition: u8, rest: &[u8]) -> Decoded
    ensures { result ≡ jcc8 at condition rest.now }
{
    if is_condition(condition) {
        Ok((Insn::Jcc8(condition, near_target(at, rest)?), 2))
    } else {
        Err(Undecoded::Unknown)
    }
}

/// A jump on a condition, with a displacement of four bytes.
fn jcc32(at: u64, condition: u8, rest: &[u8]) -> Decoded
    ensures { result ≡ jcc32 at condition rest.now }
{
    if is_condition(condition) {
        Ok((Insn::Jcc32(condition, far_target(at, 6, rest)?), 6))
    } else {
        Err(Undecoded::Unknown)
    }
}

/// Where a displacement of one byte leads, which ends an instruction of two bytes.
fn near_target(at: u64, rest: &[u8]) -> Result<u64, Undecoded>
    ensures { MatchResult result (λ target. (insn : ℕ → Insn) → near at 2 insn rest.now ≡ Ok (insn target, 2))
        (λ fail. (insn : ℕ → Insn) → near at 2 insn rest.now ≡ Err fail) }
{
    let (rel8, _) = next_byte(rest)?;
    Ok(target8(at.wrapping_add(2), rel8))
}

/// Where a displacement of four bytes leads, which ends an instruction of `len` bytes.
fn far_target(at: u64, len: u8, rest: &[u8]) -> Result<u64, Undecoded>
    ensures { MatchResult result (λ target. (insn : ℕ → Insn) → far at len insn rest.now ≡ Ok (insn target, len))
        (λ fail. (insn : ℕ → Insn) → far at len insn rest.now ≡ Err fail) }
{
    let rel32 = four_bytes(rest)?;
    Ok(target32(at.wrapping_add(u64::from(len)), rel32))
}

/// A digit or a register, a register, and the bytes after the ModRM byte that names them.
fn operands(rest: &[u8]) -> Result<(u8, u8, &[u8]), Undecoded>
    ensures { MatchResult result (λ found. (next : ℕ → ℕ → Reading) → by_mod_rm next rest.now ≡ next found.0 found.1 found.2.now)
        (λ fail. (next : ℕ → ℕ → Reading) → by_mod_rm next rest.now ≡ Err fail) }
{
    let (byte, rest) = next_byte(rest)?;
    let rm = byte % 8;
    if byte >= 0xc0 && is_register(rm) {
        Ok(((byte - 0xc0) / 8, rm, rest))
    } else {
        Err(Undecoded::Unknown)
    }
}

/// The instruction, if these bytes follow.
fn expect(code: &[u8], rest: &[u8], insn: Insn, len: u8) -> Decoded
    ensures { result ≡ expect code.now (complete insn len) rest.now }
{
    if rest.starts_with(code) {
        Ok((insn, len))
    } else if code.starts_with(rest) {
        Err(Undecoded::Short)
    } else {
        Err(Undecoded::Unknown)
    }
}

/// One byte, and the bytes after it.
fn next_byte(rest: &[u8]) -> Result<(u8, &[u8]), Undecoded>
    ensures { MatchResult result (λ found. rest.now ≡ found.0 ∷ found.1.now) (λ fail. (rest.now ≡ []) × (fail ≡ Short)) }
{
    match rest.split_first() {
        Some((byte, rest)) => Ok((*byte, rest)),
        None => Err(Undecoded::Short),
    }
}

/// Four bytes.
fn four_bytes(rest: &[u8]) -> Result<[u8; 4], Undecoded>
    ensures { MatchResult result (λ bytes. (insn : List ℕ → Insn) (len : ℕ) → four (λ id. complete (insn id) len) rest.now ≡ Ok (insn bytes, len))
        (λ fail. (insn : List ℕ → Insn) (len : ℕ) → four (λ id. complete (insn id) len) rest.now ≡ Err fail) }
{
    match rest.first_chunk() {
        Some(bytes) => Ok(*bytes),
        None => Err(Undecoded::Short),
    }
}

/// Whether an instruction may name the register: any but the stack pointer.
fn is_register(r: u8) -> bool
    ensures { result ≡ is_register r }
{
    r < 8 && r != STACK_POINTER
}

/// Whether the condition is one of a jump: any but those of parity.
fn is_condition(condition: u8) -> bool
    ensures { result ≡ is_condition condition }
{
    condition < 16 && condition != PARITY && condition != NO_PARITY
}
