//! Reading a plan file: one line `ADDRESS OLDHEX FORM`.
ghost use Rattle.std.specs.Prelude.{◌≡◌, ◌≤◌, ◌↔◌, Some, IfOk, IfSome, option_map, length};
ghost use Rattle.std.specs.List.{position_or_len};
ghost use Rattle.poke_base.specs.Text.{words};
ghost use Rattle.poke_plan.specs.PlanLine.{PokeLine, IsPlan, IsOldForm, change_of, wish_of, wish_of_words, is_line_feed, only_line, address_of, bytes_of, form_of, plain_form, form_to};

use arrayvec::ArrayVec;
use insn_forms::{Change, Form, Held, decode_form};
use poke_base::{next_word, read_hex};
use thiserror::Error;

/// The greatest address that a plan may name.
const HIGHEST_ADDRESS: u64 = 0xffff_ffff_ffff_ff00;

/// The bytes of one word of a plan file: at most 128, since the file has at most 256 bytes.
pub type OldBytes = ArrayVec<u8, 128>;

/// Why a plan file was refused. The first of these that holds is the answer.
#[derive(Clone, Copy, Debug, PartialEq, Eq, Error)]
pub enum PlanRefused {
    /// The file has more than 256 bytes.
    #[error("more than 256 bytes")]
    TooLong,
    /// The file isn't one line of the grammar.
    #[error("the file isn't one line of an address, bytes and a form")]
    Line,
    /// The new form doesn't reach its target.
    #[error("the new form doesn't reach its target")]
    NoReach,
    /// The old bytes are no form of the new form's size.
    #[error("the old bytes are no form of the new form's size")]
    Old,
}

/// What the words of a plan file say.
#[derive(Debug, PartialEq, Eq, Drop)]
pub struct Wish {
    /// The address of the site.
    pub at: u64,
    /// The bytes that stand there.
    pub bytes: OldBytes,
    /// The form that is wanted there.
    pub form: Form,
}

/// The bytes of one site, which are all the text that a plan file tells of.
#[derive(Debug, PartialEq, Eq, Drop)]
pub struct SiteBytes {
    /// The address of the first byte.
    pub at: u64,
    pub bytes: OldBytes,
}

impl Held for SiteBytes {
    ghost use Rattle.poke_plan.specs.SiteBytes.{site_byte};

    ghost held_byte = { site_byte };

    fn held(&self, at: u64) -> Option<u8> {
        let place = at.checked_sub(self.at)?;
        self.bytes.get(place as usize).copied()
    }
}

/// What a plan file asks for: a change, and the bytes that the site holds before it.
#[derive(Debug, PartialEq, Eq, Drop)]
pub struct Plan {
    pub change: Change,
    pub held: SiteBytes,
}

/// Reads a plan file of at most 256 bytes.
///
/// # Errors
/// `Line` where the text isn't one line of the grammar, `NoReach` where the new form doesn't reach
/// its target, `Old` where the old bytes aren't the spelling of a form of the new form's size.
pub fn read_plan(text: &[u8]) -> Result<Plan, PlanRefused>
    requires { length text.now ≤ 256 }
    ensures says { PokeLine text.now (change_of result) }
    ensures plan { IfOk result IsPlan }
{
    let Some(wish) = read_wish(text) else {
        return Err(PlanRefused::Line);
    };
    if wish.form.encode(wish.at).is_err() {
        return Err(PlanRefused::NoReach);
    }
    let Some(old) = old_form(&wish) else {
        return Err(PlanRefused::Old);
    };
    let Wish { at, bytes, form } = wish;
    Ok(Plan {
        change: Change { at, old, new: form },
        held: SiteBytes { at, bytes },
    })
}

/// The form of the wanted form's size that the old bytes spell. `None` exactly where there is none.
fn old_form(wish: &Wish) -> Option<Form>
    ensures { (old : Form) → (result ≡ Some old) ↔ IsOldForm wish.now old }
{
    let old = decode_form(wish.at, &wish.bytes)?;
    if old.size() != wish.form.size() {
        return None;
    }
    if wish.bytes.len() != usize::from(old.size()) {
        return None;
    }
    Some(old)
}

/// What the text says, where it is one line of the grammar.
#[tactic(auto, unfolding(crate::specs::PlanLine::wish_of))]
fn read_wish(text: &[u8]) -> Option<Wish>
    requires { length text.now ≤ 256 }
    ensures wish { result ≡ wish_of text.now }
    ensures below { IfSome result (λ wish. wish.at ≤ 0xffffffffffffff00) }
{
    read_words(only_line(text)?)
}

/// How many bytes stand before the first line feed.
fn line_len(text: &[u8]) -> usize
    ensures { result ≡ position_or_len is_line_feed text.now }
{
    text.iter()
        .position(|byte| *byte == b'\n')
        .unwrap_or(text.len())
}

/// The only line of a text, with a line feed at its end or without.
fn only_line(text: &[u8]) -> Option<&[u8]>
    ensures line { option_map (λ line. line.now) result ≡ only_line text.now }
    ensures within { IfSome result (λ line. length line.now ≤ length text.now) }
{
    let (line, end) = text.split_at(line_len(text));
    if end.len() > 1 {
        return None;
    }
    Some(line)
}

/// What the words of a line say.
fn read_words(line: &[u8]) -> Option<Wish>
    requires { length line.now ≤ 256 }
    ensures wish { result ≡ wish_of_words (words line.now) }
    ensures below { IfSome result (λ wish. wish.at ≤ 0xffffffffffffff00) }
{
    let (address, rest) = next_word(line)?;
    let (bytes, rest) = next_word(rest)?;
    let at = read_address(address)?;
    let bytes = read_bytes(bytes)?;
    let form = read_form(rest)?;
    Some(Wish { at, bytes, form })
}

/// An address in hexadecimal, at most `HIGHEST_ADDRESS`.
fn read_address(word: &[u8]) -> Option<u64>
    ensures address { result ≡ address_of word.now }
    ensures below { IfSome result (λ at. at ≤ 0xffffffffffffff00) }
{
    let at = read_hex(word)?;
    if at <= HIGHEST_ADDRESS {
        Some(at)
    } else {
        None
    }
}

/// Bytes of two hexadecimal digits each.
fn read_bytes(word: &[u8]) -> Option<OldBytes>
    requires { length word.now ≤ 256 }
    ensures { option_map (λ bytes. bytes.items) result ≡ bytes_of word.now }
{
    let mut buffer = [0; 128];
    let bytes = &mut buffer[..word.len() / 2];
    hex::decode_to_slice(word, bytes).ok()?;
    let mut old = OldBytes::new();
    let _ = old.try_extend_from_slice(bytes);
    Some(old)
}

/// The form that the last words of a line name.
fn read_form(line: &[u8]) -> Option<Form>
    ensures { result ≡ form_of (words line.now) }
{
    let (name, rest) = next_word(line)?;
    let Some((target, rest)) = next_word(rest) else {
        return plain_form(name);
    };
    let None = next_word(rest) else {
        return None;
    };
    form_to(name, read_hex(target)?)
}

/// A form without a target.
fn plain_form(name: &[u8]) -> Option<Form>
    ensures { result ≡ plain_form name.now }
{
    match name {
        b"nop2" => Some(Form::Nop2),
        b"nop5" => Some(Form::Nop5),
        b"ret" => Some(Form::Ret),
        _ => None,
    }
}

/// A form with a target.
fn form_to(name: &[u8], target: u64) -> Option<Form>
    ensures { result ≡ form_to name.now target }
{
    match name {
        b"jmp8" => Some(Form::Jmp8(target)),
        b"jmp32" => Some(Form::Jmp32(target)),
        b"call" => Some(Form::Call(target)),
        _ => None,
    }
}
