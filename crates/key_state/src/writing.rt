//! The bytes of changes: what a text holds at them, and their new forms written into it.
ghost use Rattle.std.specs.Prelude.{◌≡◌, ◌≤◌, ◌+◌, drop, length, take};
ghost use Rattle.std.specs.List.{All};
ghost use Rattle.insn_forms.specs.Spelling.{size};
ghost use Rattle.module_image.specs.Sites.{code_at, put_at};
ghost use Rattle.poke_batch.specs.Poke.{spelled};
ghost use Rattle.key_state.specs.Writing.{IsInText, change_written, changes_written};

use insn_forms::{Change, Form};
use poke_base::CodeBytes;
use poke_batch::Clash;

/// The clash at the site of a change, which holds other bytes than those of its old form.
pub fn clash_at(text: &[u8], base: u64, change: Change) -> Clash
    requires { IsInText base (length text.now) change }
    ensures at { result.at ≡ change.at }
    ensures found { result.found.items ≡ code_at base text.now change.at (size change.old) }
    ensures expected { result.expected.items ≡ spelled change.old change.at }
{
    Clash {
        at: change.at,
        found: bytes_at(text, (change.at - base) as usize, change.old.size()),
        expected: spelled(change.old, change.at),
    }
}

/// The bytes of a form at an address, or none where its displacement doesn't reach its target.
fn spelled(form: Form, at: u64) -> CodeBytes
    ensures code { result.items ≡ spelled form at }
    ensures length { length result.items ≤ size form }
{
    match form.encode(at) {
        Ok(code) => code,
        Err(_) => CodeBytes::new(),
    }
}

/// N bytes of a text from an offset on.
fn bytes_at(text: &[u8], offset: usize, size: u8) -> CodeBytes
    requires short { size ≤ 5 }
    requires inside { offset + size ≤ length text.now }
    ensures { result.items ≡ take size (drop offset text.now) }
{
    let mut bytes = CodeBytes::new();
    let _ = bytes.try_extend_from_slice(&text[offset..offset + usize::from(size)]);
    bytes
}

/// Writes the new forms of changes into a text at an address.
pub fn write_changes(text: &mut [u8], base: u64, changes: &[Change])
    requires { All (IsInText base (length text.old)) changes.now }
    ensures bytes { text.new ≡ changes_written base changes.now text.old }
    ensures length { length text.new ≡ length text.old }
{
    for change in changes {
        write_change(text, base, *change);
    }
}

/// Writes the new form of a change.
fn write_change(text: &mut [u8], base: u64, change: Change)
    requires { IsInText base (length text.old) change }
    ensures bytes { text.new ≡ change_written base change text.old }
    ensures length { length text.new ≡ length text.old }
{
    let code = spelled(change.new, change.at);
    put(text, (change.at - base) as usize, &code);
}

/// Writes bytes at an offset.
fn put(text: &mut [u8], offset: usize, code: &[u8])
    requires { offset + length code.now ≤ length text.old }
    ensures bytes { text.new ≡ put_at text.old offset code.now }
    ensures length { length text.new ≡ length text.old }
{
    text[offset..offset + code.len()].copy_from_slice(code);
}
