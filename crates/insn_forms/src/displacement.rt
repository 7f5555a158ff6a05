//! Relative displacements (Intel SDM volume 2, JMP, CALL and Jcc: "rel8" and "rel32").
ghost use Rattle.std.specs.Prelude.{◌≡◌, ◌↔◌, [], ◌∷◌, None, IfSome};
ghost use Rattle.std.specs.Int.{w8, w32};
ghost use Rattle.insn_forms.specs.Displacement.{leads, displacement, sign_extended, LeadsTo, NoneLeads};

/// The address to which a displacement of one byte leads from `from`, the end of its instruction.
pub fn target8(from: u64, rel8: u8) -> u64
    ensures { result ≡ leads w8 from (rel8 ∷ []) }
{
    from.wrapping_add(sign_extended8(rel8))
}

/// The address to which a displacement of four bytes, the lowest first, leads from `from`, the end
/// of its instruction.
pub fn target32(from: u64, rel32: [u8; 4]) -> u64
    ensures { result ≡ leads w32 from rel32 }
{
    from.wrapping_add(sign_extended32(u32::from_le_bytes(rel32)))
}

/// The displacement of one byte that leads from `from` to `to`. `None` exactly where none does.
pub fn displacement8(from: u64, to: u64) -> Option<[u8; 1]>
    ensures is { result ≡ displacement w8 from to }
    ensures leads { IfSome result (λ rel. LeadsTo w8 from to rel) }
    ensures none { (result ≡ None) ↔ NoneLeads w8 from to }
{
    let low = to.wrapping_sub(from).to_le_bytes();
    let rel8 = low[0];
    if target8(from, rel8) == to {
        Some([rel8])
    } else {
        None
    }
}

/// The displacement of four bytes, the lowest first, that leads from `from` to `to`. `None` exactly
/// where none does.
pub fn displacement32(from: u64, to: u64) -> Option<[u8; 4]>
    ensures is { result ≡ displacement w32 from to }
    ensures leads { IfSome result (λ rel. LeadsTo w32 from to rel) }
    ensures none { (result ≡ None) ↔ NoneLeads w32 from to }
{
    let low = to.wrapping_sub(from).to_le_bytes();
    let rel32 = [low[0], low[1], low[2], low[3]];
    if target32(from, rel32) == to {
        Some(rel32)
    } else {
        None
    }
}

/// A number of one byte, read as two's complement, in eight bytes.
fn sign_extended8(rel8: u8) -> u64
    ensures { result ≡ sign_extended w8 rel8 }
{
    i64::from(rel8.cast_signed()).cast_unsigned()
}

/// A number of four bytes, read as two's complement, in eight bytes.
fn sign_extended32(rel32: u32) -> u64
    ensures { result ≡ sign_extended w32 rel32 }
{
    i64::from(rel32.cast_signed()).cast_unsigned()
}
