//! The conditions on a module's sites and keys, each tried where those before it don't hold. Where the code has no
//! use for `file`, the contract speaks of it.
ghost use Rattle.std.specs.Prelude.{◌≡◌, ◌≤◌, ◌<◌, ◌+◌, ◌^◌, ◌↔◌, length, IsTrue, None, OnOk};
ghost use Rattle.insn_forms.specs.Spelling.{spell};
ghost use Rattle.insn_forms.specs.declared.forms.Form.TheVariants.{Jmp8};
ghost use Rattle.module_names.specs.Entries.{entries, length_at};
ghost use Rattle.module_names.specs.Keys.{keys};
ghost use Rattle.module_names.specs.Names.{tracer};
ghost use Rattle.module_image.specs.Refusals.{HasBadState, IsBadLength, IsOutOfReach, IsOutsideOf, IsTrace, Passes, Tries, past_key_state, past_no_reach, past_site_count, past_site_length, past_site_outside, past_table, room_of, past_key_outside, past_tracer_missing};
ghost use Rattle.module_image.specs.Sites.{sites};
ghost use Rattle.module_image.specs.Text.{IsText};

use crate::{Entry, EntryKind, Key, KeyClass, Refused, Site, SiteKind, Text};
use elf_module::ElfFile;
use insn_forms::Form;

/// How many entries the tables have at most.
const MOST_SITES: u64 = 1024;

/// The greatest count of a static key, as a signed number of 32 bits.
const MOST_COUNT: u64 = 0x7fff_ffff;

/// Tries whether there are too many entries.
///
/// # Errors
/// `SiteCount`.
pub fn site_count(file: &ElfFile<'_>, count: u64) -> Result<(), Refused>
    requires passed { Passes file.now past_table }
    requires counted { count ≡ length (entries file.now) }
    ensures tried { Tries file.now past_site_count result }
    ensures few { OnOk result (length (entries file.now) ≤ 1024) }
{
    if count > MOST_SITES {
        return Err(Refused::SiteCount(count));
    }
    Ok(())
}

/// Looks for an entry that isn't in the text.
///
/// # Errors
/// `SiteOutside` at the first.
pub fn sites_outside(file: &ElfFile<'_>, text: &Text<'_>, list: &[Entry]) -> Result<(), Refused>
    requires passed { Passes file.now past_site_count }
    requires text { IsText file.now text.now }
    requires list { list.now ≡ entries file.now }
    ensures { Tries file.now past_site_outside result }
{
    for entry in list {
        if is_outside(text, entry) {
            return Err(Refused::SiteOutside(entry.at));
        }
    }
    Ok(())
}

/// Looks for a jump entry at which no instruction of 2 or 5 bytes stands.
///
/// # Errors
/// `SiteLength` at the first.
pub fn sites_length(file: &ElfFile<'_>, text: &Text<'_>, list: &[Entry]) -> Result<(), Refused>
    requires passed { Passes file.now past_site_outside }
    requires text { IsText file.now text.now }
    requires list { list.now ≡ entries file.now }
    ensures { Tries file.now past_site_length result }
{
    for entry in list {
        if has_bad_length(text, entry) {
            return Err(Refused::SiteLength(entry.at));
        }
    }
    Ok(())
}

/// Looks for a static key whose count is negative.
///
/// # Errors
/// `KeyState` at the first.
pub fn keys_state(file: &ElfFile<'_>, found: &[Key]) -> Result<(), Refused>
    requires passed { Passes file.now past_key_outside }
    requires keys { found.now ≡ keys file.now }
    ensures { Tries file.now past_key_state result }
{
    for key in found {
        if has_bad_state(key) {
            return Err(Refused::KeyState(key.at));
        }
    }
    Ok(())
}

/// Looks for a jump of two bytes that doesn't reach its target.
///
/// # Errors
/// `NoReach` at the first.
pub fn no_reach(file: &ElfFile<'_>, found: &[Site]) -> Result<(), Refused>
    requires passed { Passes file.now past_key_state }
    requires sites { found.now ≡ sites file.now }
    ensures { Tries file.now past_no_reach result }
{
    for site in found {
        if is_out_of_reach(site) {
            return Err(Refused::NoReach(site.at));
        }
    }
    Ok(())
}

/// Looks for a trace site, where there is no function that traced sites call.
///
/// # Errors
/// `TracerMissing` at the first.
pub fn tracer_missing(
    file: &ElfFile<'_>,
    found: &[Site],
    function: Option<u64>,
) -> Result<(), Refused>
    requires passed { Passes file.now past_no_reach }
    requires sites { found.now ≡ sites file.now }
    requires tracer { function ≡ tracer file.now }
    ensures { Tries file.now past_tracer_missing result }
{
    if function.is_some() {
        return Ok(());
    }
    for site in found {
        if is_trace(site) {
            return Err(Refused::TracerMissing(site.at));
        }
    }
    Ok(())
}

/// How many bytes an entry has in the text at least: a jump's length isn't known yet.
fn room(kind: EntryKind) -> u64
    ensures { result ≡ room_of kind }
{
    match kind {
        EntryKind::Jump { .. } => 1,
        EntryKind::Call { .. } | EntryKind::Tail { .. } | EntryKind::Trace => 5,
    }
}

/// Whether an entry isn't in the text. Sums don't wrap.
fn is_outside(text: &Text<'_>, entry: &Entry) -> bool
    ensures { IsTrue result ↔ IsOutsideOf text.now.base (length text.now.bytes.now) entry.now }
{
    if entry.at < text.base {
        return true;
    }
    let size = text.bytes.len() as u64;
    let before = entry.at - text.base;
    before > size || size - before < room(entry.kind)
}

/// Whether an entry is a jump at which no instruction of 2 or 5 bytes stands.
fn has_bad_length(text: &Text<'_>, entry: &Entry) -> bool
    requires { IsOutsideOf text.now.base (length text.now.bytes.now) entry.now → ⊥ }
    ensures { IsTrue result ↔ IsBadLength (length_at text.now.base text.now.bytes.now entry.now.at) entry.now.kind }
{
    match entry.kind {
        EntryKind::Jump { .. } => !matches!(text.length_at(entry.at), 2 | 5),
        EntryKind::Call { .. } | EntryKind::Tail { .. } | EntryKind::Trace => false,
    }
}

/// Whether a key is a static key with a negative count, as a signed number of 32 bits.
fn has_bad_state(key: &Key) -> bool
    ensures { IsTrue result ↔ HasBadState key.now }
{
    match key.class {
        KeyClass::Jump => key.start > MOST_COUNT,
        KeyClass::Call => false,
    }
}

/// Whether a site is a jump of two bytes that doesn't reach its target.
fn is_out_of_reach(site: &Site) -> bool
    ensures { IsTrue result ↔ IsOutOfReach site.now }
{
    match site.kind {
        SiteKind::Jump { target, .. } => site.len == 2 && is_too_far(site.at, target),
        SiteKind::Call { .. } | SiteKind::Tail { .. } | SiteKind::Trace => false,
    }
}

/// Whether a jump of two bytes at an address doesn't reach its target.
fn is_too_far(at: u64, target: u64) -> bool
    ensures { IsTrue result ↔ (spell (Jmp8 target) at ≡ None) }
{
    Form::Jmp8(target).encode(at).is_err()
}

/// Whether a site is a trace site.
fn is_trace(site: &Site) -> bool
    ensures { IsTrue result ↔ IsTrace site.now }
{
    site.kind == SiteKind::Trace
}
