//! What a processor may fetch at an address.
ghost use Rattle.std.specs.Prelude.{◌≡◌, ◌≤◌, ◌<◌, ◌↔◌, ◌+◌, ◌%◌, ℕ, IsTrue, Err, length, slice_index};
ghost use Rattle.std.specs.List.{Contains};
ghost use Rattle.stale_fetch.specs.Past.{Past, candidates};
ghost use Rattle.stale_fetch.specs.Text.{Covers};
ghost use Rattle.x64_subset.specs.declared.insn.Undecoded.TheVariants.{Short};
ghost use Rattle.x64_subset.specs.Reading.{read};
ghost use Rattle.cpu_core.specs.Fetch.{IsFetch};
ghost use Rattle.cpu_core.specs.Standing.{IsStanding, HasShortPrefixes, ArePicked, AreIts, end_of};

use insn_forms::Held;
use poke_base::CodeBytes;
use stale_fetch::Text;
use x64_subset::{Undecoded, decode};

/// How many bytes the longest form of a patched site has.
const FORM: usize = 5;

/// What a processor fetches at an address inside of the text, where a word picks each byte: mostly it is a form, so as many
/// bytes as the longest has are picked first, and what follows the instruction is left.
pub(crate) fn fetch<T: Text>(cpu: u8, text: &T, at: u64, word: u64) -> CodeBytes
    requires stands { IsStanding (T.stands text.now) }
    requires known { cpu < (T.shape text.now).cpus }
    requires inside { Covers (T.shape text.now) at }
    ensures fetch { (p : Past) → T.stands text.now p → IsFetch (end_of p) at result.items }
    ensures picked { (p : Past) → T.stands text.now p → ArePicked word p cpu at result.items }
    ensures some { 1 ≤ length result.items }
{
    let mut bytes = pick_form(cpu, text, at, word);
    match decode(at, &bytes) {
        Ok((_, len)) => {
            bytes.truncate(usize::from(len));
            bytes
        }
        Err(_) => fetch_each(cpu, text, at, word),
    }
}

/// The bytes that a word picks at an address inside of the text: as many as the longest form has, or fewer where the text ends
/// before.
fn pick_form<T: Text>(cpu: u8, text: &T, at: u64, word: u64) -> CodeBytes
    requires stands { IsStanding (T.stands text.now) }
    requires known { cpu < (T.shape text.now).cpus }
    requires inside { Covers (T.shape text.now) at }
    ensures inside { (p : Past) → T.stands text.now p → at + length result.items ≤ end_of p }
    ensures picked { (p : Past) → T.stands text.now p → ArePicked word p cpu at result.items }
{
    let mut bytes = CodeBytes::new();
    let mut choices = word;
    'bytes: while bytes.len() < FORM {
        if !goes_on(text, at, &bytes) {
            break 'bytes;
        }
        let place = at + bytes.len() as u64;
        bytes.push(pick(cpu, text, place, low_byte(choices)));
        choices >>= 8;
    }
    bytes
}

/// What a processor fetches at an address inside of the text, where a word picks each byte: one after the other, until they tell
/// what they are.
fn fetch_each<T: Text>(cpu: u8, text: &T, at: u64, word: u64) -> CodeBytes
    requires stands { IsStanding (T.stands text.now) }
    requires known { cpu < (T.shape text.now).cpus }
    requires inside { Covers (T.shape text.now) at }
    ensures fetch { (p : Past) → T.stands text.now p → IsFetch (end_of p) at result.items }
    ensures picked { (p : Past) → T.stands text.now p → ArePicked word p cpu at result.items }
    ensures some { 1 ≤ length result.items }
{
    let mut bytes = CodeBytes::new();
    let mut choices = word;
    'bytes: while wants_more(text, at, &bytes) {
        let place = at + bytes.len() as u64;
        bytes.push(pick(cpu, text, place, low_byte(choices)));
        choices >>= 8;
    }
    bytes
}

/// The lowest eight bits.
fn low_byte(word: u64) -> u8
    ensures { result ≡ word % 256 }
{
    (word & 0xff) as u8
}

/// Whether the bytes at an address are too few to tell what they are, and the text goes on after them.
fn wants_more<T: Text>(text: &T, at: u64, bytes: &[u8]) -> bool
    requires stands { IsStanding (T.stands text.now) }
    requires from { (T.shape text.now).base ≤ at }
    requires to { at + length bytes.now ≤ (T.shape text.now).base + (T.shape text.now).size }
    ensures { IsTrue result ↔ ((read at bytes.now ≡ Err Short) × Covers (T.shape text.now) (at + length bytes.now)) }
{
    is_short(at, bytes) && goes_on(text, at, bytes)
}

/// Whether the text goes on after the bytes from an address on.
fn goes_on<T: Text>(text: &T, at: u64, bytes: &[u8]) -> bool
    requires stands { IsStanding (T.stands text.now) }
    requires from { (T.shape text.now).base ≤ at }
    requires to { at + length bytes.now ≤ (T.shape text.now).base + (T.shape text.now).size }
    ensures { IsTrue result ↔ Covers (T.shape text.now) (at + length bytes.now) }
{
    text.held(at + bytes.len() as u64).is_some()
}

/// Whether the bytes are too few to tell which instruction they are.
fn is_short(at: u64, bytes: &[u8]) -> bool
    ensures { IsTrue result ↔ (read at bytes.now ≡ Err Short) }
{
    matches!(decode(at, bytes), Err(Undecoded::Short))
}

/// The candidate of a processor at an address inside of the text that a number picks, modulo how many
/// there are.
fn pick<T: Text>(cpu: u8, text: &T, at: u64, number: u8) -> u8
    requires known { cpu < (T.shape text.now).cpus }
    requires inside { Covers (T.shape text.now) at }
    ensures { (p : Past) → T.stands text.now p → result ≡ slice_index (candidates p cpu at) (number % length (candidates p cpu at)) }
{
    let count = text.count(cpu, at);
    text.candidate(cpu, at, u16::from(number) % count)
}

/// Whether a processor may fetch the bytes at an address inside of the text.
pub(crate) fn may_fetch<T: Text>(cpu: u8, text: &T, at: u64, bytes: &[u8]) -> bool
    requires stands { IsStanding (T.stands text.now) }
    requires known { cpu < (T.shape text.now).cpus }
    requires inside { Covers (T.shape text.now) at }
    ensures { (p : Past) → T.stands text.now p → (IsTrue result ↔ (IsFetch (end_of p) at bytes.now × AreIts p cpu at bytes.now)) }
{
    if !are_candidates(cpu, text, at, bytes) {
        return false;
    }
    match decode(at, bytes) {
        Ok((_, len)) => usize::from(len) == bytes.len(),
        Err(Undecoded::Unknown) => has_short_prefixes(at, bytes),
        Err(Undecoded::Short) => text.held(at + bytes.len() as u64).is_none(),
    }
}

/// Whether the bytes from an address on are inside of the text, and each is a candidate of the processor.
fn are_candidates<T: Text>(cpu: u8, text: &T, at: u64, bytes: &[u8]) -> bool
    requires stands { IsStanding (T.stands text.now) }
    requires known { cpu < (T.shape text.now).cpus }
    requires inside { Covers (T.shape text.now) at }
    ensures { (p : Past) → T.stands text.now p → (IsTrue result ↔ ((at + length bytes.now ≤ end_of p) × AreIts p cpu at bytes.now)) }
{
    let mut place = at;
    for byte in bytes {
        if !is_candidate(cpu, text, place, *byte) {
            return false;
        }
        place += 1;
    }
    true
}

/// Whether an address is inside of the text, and the byte a candidate of the processor there.
fn is_candidate<T: Text>(cpu: u8, text: &T, at: u64, byte: u8) -> bool
    requires stands { IsStanding (T.stands text.now) }
    requires known { cpu < (T.shape text.now).cpus }
    ensures inside { IsTrue result → Covers (T.shape text.now) at }
    ensures candidate { (p : Past) → T.stands text.now p → (IsTrue result ↔ (Covers (T.shape text.now) at × Contains (candidates p cpu at) byte)) }
{
    if text.held(at).is_none() {
        return false;
    }
    text.allows(cpu, at, byte)
}

/// Whether the bytes without the last one are too few to tell which instruction they are.
fn has_short_prefixes(at: u64, bytes: &[u8]) -> bool
    ensures { IsTrue result ↔ HasShortPrefixes at bytes.now }
{
    match bytes.split_last() {
        Some((_, rest)) => is_short(at, rest),
        None => true,
    }
}
