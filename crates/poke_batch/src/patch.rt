//! The change of one site, with the bytes that are written for it.
ghost use Rattle.std.specs.Prelude.{◌≡◌, ◌≤◌, ◌<◌, ◌+◌, ◌^◌, ◌++◌, [], ◌∷◌, length, map, All, IfOk, OnOk, IfErr, None, true, slice_index, vec_capacity};
ghost use Rattle.arrayvec.specs.ArrayVec.{array_vec_len};
ghost use Rattle.poke_batch.specs.Poke.{spelled};
ghost use Rattle.poke_batch.specs.Patch.{IsSpelt};
ghost use Rattle.poke_batch.specs.Inside.{change_of};
ghost use Rattle.poke_batch.specs.Clash.{IsPatchable, ClashesAt, NamesClash, first_clash, held_bytes, holds_old};

use crate::batch::{Clash, Due};
use insn_forms::{Change, Form, Held};
use poke_base::CodeBytes;

/// The change of a site whose bytes are those of its old form.
#[derive(Drop)]
pub struct Patch {
    /// The change.
    pub change: Change,
    /// The bytes of its new form.
    pub code: CodeBytes,
}

impl Patch {
    /// The write of the new byte at a place of the site.
    pub fn write_at(&self, place: u8) -> Due
        requires in_site { place < array_vec_len self.now.code }
        requires below { self.now.change.at + array_vec_len self.now.code ≤ 2 ^ 64 }
        ensures { result ≡ Due.Write (self.now.change.at + place) (slice_index self.now.code.items place) }
    {
        Due::Write {
            at: self.change.at + u64::from(place),
            byte: self.code[usize::from(place)],
        }
    }
}

/// Replaces the patches of a list by those of the changes. It has room for them.
///
/// # Errors
/// The first site that holds other bytes than those of its old form.
pub fn patch_all<T: Held>(
    patches: &mut Vec<Patch>,
    changes: &[Change],
    text: &T,
) -> Result<(), Clash>
    requires room { length changes.now ≤ vec_capacity patches.old }
    requires ready { All (IsPatchable (T.held_byte text.now)) changes.now }
    ensures capacity { vec_capacity patches.new ≡ vec_capacity patches.old }
    ensures spelt { All IsSpelt patches.new.items }
    ensures made { OnOk result (map change_of patches.new.items ≡ changes.now) }
    ensures no_clash { OnOk result (first_clash (T.held_byte text.now) changes.now ≡ None) }
    ensures clash { IfErr result (NamesClash (T.held_byte text.now) changes.now) }
{
    patches.clear();
    for change in changes {
        let patch = patch_of(*change, text)?;
        patches.push_reserved(patch);
    }
    Ok(())
}

/// The patch of a change of a site that holds the bytes of its old form.
///
/// # Errors
/// The site holds other bytes.
fn patch_of<T: Held>(change: Change, text: &T) -> Result<Patch, Clash>
    requires { IsPatchable (T.held_byte text.now) change }
    ensures change { IfOk result (λ patch. patch.change ≡ change) }
    ensures spelt { IfOk result IsSpelt }
    ensures holds { OnOk result (holds_old (T.held_byte text.now) change ≡ true) }
    ensures clash { IfErr result (ClashesAt (T.held_byte text.now) change) }
{
    expect_old(change, text)?;
    let code = spelled(change.new, change.at);
    Ok(Patch { change, code })
}

/// Looks whether the site of a change holds the bytes of its old form.
///
/// # Errors
/// The site holds other bytes.
fn expect_old<T: Held>(change: Change, text: &T) -> Result<(), Clash>
    requires { IsPatchable (T.held_byte text.now) change }
    ensures holds { OnOk result (holds_old (T.held_byte text.now) change ≡ true) }
    ensures clash { IfErr result (ClashesAt (T.held_byte text.now) change) }
{
    let found = held_bytes(text, change.at, change.old.size());
    let expected = spelled(change.old, change.at);
    if found.as_slice() == expected.as_slice() {
        Ok(())
    } else {
        Err(Clash {
            at: change.at,
            found,
            expected,
        })
    }
}

/// The bytes of a form at an address, or none where its displacement doesn't reach its target.
fn spelled(form: Form, at: u64) -> CodeBytes
    ensures { result.items ≡ spelled form at }
{
    match form.encode(at) {
        Ok(code) => code,
        Err(_) => CodeBytes::new(),
    }
}

/// N bytes of a text from an address on.
fn held_bytes<T: Held>(text: &T, at: u64, size: u8) -> CodeBytes
    requires short { size ≤ 9 }
    requires below { at + size ≤ 2 ^ 64 }
    ensures { result.items ≡ held_bytes (T.held_byte text.now) at size }
{
    let mut bytes = CodeBytes::new();
    for i in 0..size {
        put_byte(&mut bytes, text.held(at + u64::from(i)).unwrap_or(0));
    }
    bytes
}

/// Adds a byte, for which there has to be room.
fn put_byte(bytes: &mut CodeBytes, byte: u8)
    requires { array_vec_len bytes.old < 9 }
    ensures { bytes.new.items ≡ bytes.old.items ++ byte ∷ [] }
{
    bytes.push(byte);
}
