//! What may stand at a site in the file, and what it wants at the start.
ghost use Rattle.std.specs.Prelude.{◌≡◌, slice_index};
ghost use Rattle.module_image.specs.Sites.{holds, is_early, opens, starts_of};
ghost use Rattle.module_image.specs.Wants.{called, jump_of, nop_of, state_of, switched, tail_called, traced, wanted};

use crate::{Key, Site, SiteKind};
use insn_forms::Form;

/// The opcodes of CALL and JMP with a displacement of four bytes (Intel SDM volume 2).
const CALL_OPCODE: u8 = 0xe8;

const JUMP_OPCODE: u8 = 0xe9;

/// Whether the bytes at a site are one of its early forms.
pub fn is_early(at: u64, len: u8, kind: SiteKind, code: &[u8]) -> bool
    ensures { result ≡ is_early at len kind code.now }
{
    match kind {
        SiteKind::Jump { target, .. } => {
            holds(nop_of(len), at, code) || holds(jump_of(len, target), at, code)
        }
        SiteKind::Call { .. } => holds(Form::Nop5, at, code) || opens(CALL_OPCODE, code),
        SiteKind::Tail { .. } => holds(Form::Ret, at, code) || opens(JUMP_OPCODE, code),
        SiteKind::Trace => holds(Form::Nop5, at, code) || opens(CALL_OPCODE, code),
    }
}

/// The form that a site wants, where its key has this state, a count or a function's address; `on` says
/// whether a trace site is traced, and `tracer` is the function that is called there.
pub fn wanted_form(site: &Site, state: u64, on: bool, tracer: u64) -> Form
    ensures { result ≡ wanted tracer state on site.now.len site.now.kind }
{
    match site.kind {
        SiteKind::Jump { target, likely, .. } => switched(site.len, target, likely, state),
        SiteKind::Call { .. } => called(state),
        SiteKind::Tail { .. } => tail_called(state),
        SiteKind::Trace => traced(tracer, on),
    }
}

/// What the key of a site holds in the file; 0 for a trace site, which has none.
pub fn key_state(keys: &[Key], kind: SiteKind) -> u64
    ensures { result ≡ state_of (starts_of keys.now) kind }
{
    match kind {
        SiteKind::Jump { key, .. } => start_of(keys, key),
        SiteKind::Call { key } => start_of(keys, key),
        SiteKind::Tail { key } => start_of(keys, key),
        SiteKind::Trace => 0,
    }
}

/// What the key with a number holds in the file; 0 where no key has the number.
fn start_of(keys: &[Key], number: u32) -> u64
    ensures { result ≡ slice_index (starts_of keys.now) number }
{
    keys.get(number as usize).map_or(0, |key| key.start)
}

/// Whether bytes are those of a form at an address; never where it doesn't reach its target.
fn holds(form: Form, at: u64, code: &[u8]) -> bool
    ensures { result ≡ holds form at code.now }
{
    match form.encode(at) {
        Ok(bytes) => code == bytes.as_slice(),
        Err(_) => false,
    }
}

/// Whether bytes begin with an opcode.
fn opens(opcode: u8, code: &[u8]) -> bool
    ensures { result ≡ opens opcode code.now }
{
    match code.first() {
        Some(byte) => *byte == opcode,
        None => false,
    }
}

/// A NOP of 2 or 5 bytes.
fn nop_of(len: u8) -> Form
    ensures { result ≡ nop_of len }
{
    if len == 2 { Form::Nop2 } else { Form::Nop5 }
}

/// A jump of 2 or 5 bytes.
fn jump_of(len: u8, target: u64) -> Form
    ensures { result ≡ jump_of len target }
{
    if len == 2 {
        Form::Jmp8(target)
    } else {
        Form::Jmp32(target)
    }
}

/// What a switched jump wants: the jump where the key's count is above 0, else a NOP; a likely one the other way
/// round.
fn switched(len: u8, target: u64, likely: bool, count: u64) -> Form
    ensures { result ≡ switched len target likely count }
{
    if likely != (count > 0) {
        jump_of(len, target)
    } else {
        nop_of(len)
    }
}

/// What a call of a key's function wants: a NOP where it has none, which is the address 0.
fn called(func: u64) -> Form
    ensures { result ≡ called func }
{
    if func == 0 {
        Form::Nop5
    } else {
        Form::Call(func)
    }
}

/// What such a call in tail position wants: RET where the key has no function.
fn tail_called(func: u64) -> Form
    ensures { result ≡ tail_called func }
{
    if func == 0 {
        Form::Ret
    } else {
        Form::Jmp32(func)
    }
}

/// What a trace site wants: a call of the tracer while it is on.
fn traced(tracer: u64, on: bool) -> Form
    ensures { result ≡ traced tracer on }
{
    if on { Form::Call(tracer) } else { Form::Nop5 }
}
