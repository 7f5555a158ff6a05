//! The forms that a patched site may hold (Intel SDM volume 2: NOP, JMP, CALL and RET).
ghost use Rattle.std.specs.Prelude.{◌≡◌, ◌≤◌, ◌↔◌, ◌∷◌, [], Some, None, IfOk, OnErr, length, slice_index, slice_range};
ghost use Rattle.std.specs.Int.{w8, w32};
ghost use Rattle.std.specs.Option.{SomeIff};
ghost use Rattle.insn_forms.specs.Displacement.{leads};
ghost use Rattle.insn_forms.specs.Spelling.{size, after, spell, BeginsWith};

use crate::displacement::{displacement8, displacement32, target8, target32};
use poke_base::{CodeBytes, code_bytes};
use thiserror::Error;

/// An instruction that a patched site may hold. A jump or call has its target, an address.
#[derive(Clone, Copy, Debug, PartialEq, Eq)]
pub enum Form {
    /// `66 90`
    Nop2,
    /// `0F 1F 44 00 00`
    Nop5,
    /// `EB cb`
    Jmp8(u64),
    /// `E9 cd`
    Jmp32(u64),
    /// `E8 cd`
    Call(u64),
    /// `C3`, filled up to five bytes with `CC`
    Ret,
}

/// No displacement of the form's width leads to its target.
#[derive(Clone, Copy, Debug, PartialEq, Eq, Error)]
#[error("no displacement reaches the target")]
pub struct NoReach;

/// The change of one site: its address, the form that it holds, and the form that it is to hold.
#[derive(Clone, Copy, Debug, PartialEq, Eq)]
pub struct Change {
    pub at: u64,
    pub old: Form,
    pub new: Form,
}

impl Form {
    /// How many bytes the form takes: 2 for `Nop2` and `Jmp8`, else 5.
    pub fn size(&self) -> u8
        ensures { result ≡ size self.now }
    {
        match self {
            Form::Nop2 | Form::Jmp8(_) => 2,
            Form::Nop5 | Form::Jmp32(_) | Form::Call(_) | Form::Ret => 5,
        }
    }

    /// The bytes of the form at the address `at`. A displacement counts from the end of the
    /// instruction, and addresses wrap modulo 2^64.
    ///
    /// # Errors
    /// `NoReach` exactly where no displacement of the form's width leads to its target.
    #[tactic(auto, unfolding(crate::specs::Spelling::spell))]
    pub fn encode(&self, at: u64) -> Result<CodeBytes, NoReach>
        ensures bytes { IfOk result (λ code. spell self.now at ≡ Some code.items) }
        ensures length { IfOk result (λ code. length code.items ≡ size self.now) }
        ensures no_reach { OnErr result (spell self.now at ≡ None) }
    {
        match *self {
            Form::Nop2 => Ok(code_bytes(0x66, &[0x90])),
            Form::Nop5 => Ok(code_bytes(0x0f, &[0x1f, 0x44, 0x00, 0x00])),
            Form::Jmp8(target) => match displacement8(at.wrapping_add(2), target) {
                Some(rel8) => Ok(code_bytes(0xeb, &rel8)),
                None => Err(NoReach),
            },
            Form::Jmp32(target) => match displacement32(at.wrapping_add(5), target) {
                Some(rel32) => Ok(code_bytes(0xe9, &rel32)),
                None => Err(NoReach),
            },
            Form::Call(target) => match displacement32(at.wrapping_add(5), target) {
                Some(rel32) => Ok(code_bytes(0xe8, &rel32)),
                None => Err(NoReach),
            },
            Form::Ret => Ok(code_bytes(0xc3, &[0xcc, 0xcc, 0xcc, 0xcc])),
        }
    }
}

/// The form whose spelling at the address `at` is how the bytes begin. `None` exactly where there
/// is none.
pub fn decode_form(at: u64, bytes: &[u8]) -> Option<Form>
    ensures { (form : Form) → (result ≡ Some form) ↔ BeginsWith form at bytes.now }
{
    let form = candidate(at, bytes)?;
    let Ok(code) = form.encode(at) else {
        return None;
    };
    if bytes.starts_with(&code) {
        Some(form)
    } else {
        None
    }
}

/// The one form that the bytes may begin with, judged by the first of them alone.
fn candidate(at: u64, bytes: &[u8]) -> Option<Form>
    ensures { (form : Form) → BeginsWith form at bytes.now → result ≡ Some form }
{
    match *bytes.first()? {
        0x66 => Some(Form::Nop2),
        0x0f => Some(Form::Nop5),
        0xeb => Some(Form::Jmp8(near_target(at, bytes)?)),
        0xe9 => Some(Form::Jmp32(far_target(at, bytes)?)),
        0xe8 => Some(Form::Call(far_target(at, bytes)?)),
        0xc3 => Some(Form::Ret),
        _ => None,
    }
}

/// Where a displacement of one byte, the second of an instruction, leads. `None` exactly where the
/// bytes end before it.
fn near_target(at: u64, bytes: &[u8]) -> Option<u64>
    ensures { SomeIff result (2 ≤ length bytes.now) (leads w8 (after at 2) (slice_index bytes.now 1 ∷ [])) }
{
    let rel8 = bytes.get(1)?;
    Some(target8(at.wrapping_add(2), *rel8))
}

/// Where a displacement of four bytes, those after the first of an instruction, leads. `None`
/// exactly where the bytes end before it does.
fn far_target(at: u64, bytes: &[u8]) -> Option<u64>
    ensures { SomeIff result (5 ≤ length bytes.now) (leads w32 (after at 5) (slice_range bytes.now 1 5)) }
{
    let rel32 = bytes.get(1..5)?.try_into().ok()?;
    Some(target32(at.wrapping_add(5), rel32))
}

#[cfg(test)]
mod tests {
    use super::*;
    use crate::Changes;
    use std::test::Fail;

    #[test]
    fn spells_and_decodes(rt: HostRuntime) -> Result<(), Fail> {
        let rows: [(u64, Form, &[u8]); 7] = [
            (0x401000, Form::Nop2, &[0x66, 0x90]),
            (0x401000, Form::Nop5, &[0x0f, 0x1f, 0x44, 0x00, 0x00]),
            (0x1000, Form::Jmp8(0x1081), &[0xeb, 0x7f]),
            (0x1000, Form::Jmp8(0xf82), &[0xeb, 0x80]),
            (
                0x401000,
                Form::Jmp32(0x402000),
                &[0xe9, 0xfb, 0x0f, 0x00, 0x00],
            ),
            (
                0x402000,
                Form::Call(0x401000),
                &[0xe8, 0xfb, 0xef, 0xff, 0xff],
            ),
            (0x401000, Form::Ret, &[0xc3, 0xcc, 0xcc, 0xcc, 0xcc]),
        ];
        for (at, form, bytes) in rows {
            let code = form.encode(at)?;
            assert_eq!(rt; code.as_slice(), bytes, "at {at:x}");
            assert_eq!(rt; decode_form(at, bytes), Some(form), "at {at:x}");
            let mut longer = Vec::from_slice(rt.alloc(), bytes)?;
            longer.push(0xeb)?;
            assert_eq!(rt; decode_form(at, &longer), Some(form), "longer at {at:x}");
            if let Some((_, cut)) = bytes.split_last() {
                assert_eq!(rt; decode_form(at, cut), None, "cut at {at:x}");
            }
        }
        assert!(rt; Form::Jmp8(0x1082).encode(0x1000).is_err());
        assert!(rt; Form::Jmp8(0xf81).encode(0x1000).is_err());
        assert_eq!(rt; decode_form(0x1000, &[0xeb]), None);
        assert_eq!(rt; decode_form(0x1000, &[0x0e, 0x1f, 0x44, 0x00, 0x00]), None);
        Ok(())
    }

    #[test]
    fn lists_changes(rt: HostRuntime) -> Result<(), Fail> {
        let first = Change {
            at: 0x401000,
            old: Form::Nop5,
            new: Form::Jmp32(0x402000),
        };
        let second = Change {
            at: 0x401010,
            old: Form::Nop2,
            new: Form::Jmp8(0x401020),
        };
        let mut changes = Changes::with_room(rt.alloc(), 2)?;
        changes.push(first);
        changes.push(second);
        assert_eq!(rt; changes.list(), [first, second].as_slice());
        changes.clear();
        changes.push(second);
        assert_eq!(rt; changes.list(), [second].as_slice());
        Ok(())
    }
}
