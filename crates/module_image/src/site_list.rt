//! The sites of a module, ascending.
ghost use Rattle.std.specs.Prelude.{◌≡◌, ◌≤◌, ◌<◌, ◌+◌, ◌^◌, ℕ, Some, IfOk, IfErr, OnOk, length, map, slice_get};
ghost use Rattle.module_parts.specs.declared.refused.Refused.TheVariants.{NoMemory};
ghost use Rattle.module_image.specs.Refusals.{IsOutsideOf, Passes, Tries, past_site_length, past_site_overlap, room_of};
ghost use Rattle.module_image.specs.Sites.{ascending, code_at, entry_len, kind_of, site_of, sites};

use crate::early::is_early;
use crate::{Entry, EntryKind, KeyClass, Refused, Site, SiteKind, Text};
use elf_module::ElfFile;
use module_names::KeyAddresses;
use std::alloc::Global;

/// How many bytes the sites of calls and traces have.
const CALL_LEN: u8 = 5;

/// The sites of the entries, ascending; those with one address in the entries' order.
///
/// # Errors
/// Out of memory.
pub fn site_list(
    alloc: Global,
    text: &Text<'_>,
    keys: &KeyAddresses,
    list: &[Entry],
) -> Result<Vec<Site>, Refused>
    requires below { text.now.base + length text.now.bytes.now < 2 ^ 64 }
    requires inside { (i : ℕ) (e : Entry) → slice_get list.now i ≡ Some e → ¬ IsOutsideOf text.now.base (length text.now.bytes.now) e }
    ensures list { IfOk result (λ sites. sites.items ≡ ascending (map (site_of text.now.base text.now.bytes.now keys.now.jumps.items keys.now.calls.items) list.now)) }
    ensures failed { IfErr result (λ why. why ≡ NoMemory) }
{
    let mut sites = made_list(alloc, text, keys, list)?;
    ascend(&mut sites)?;
    Ok(sites)
}

/// The first site that begins before the one before it ends.
///
/// # Errors
/// `SiteOverlap` for that site.
pub fn overlap(file: &ElfFile<'_>, list: &[Site]) -> Result<(), Refused>
    requires passed { Passes file.now past_site_length }
    requires sites { list.now ≡ sites file.now }
    ensures { Tries file.now past_site_overlap result }
{
    let mut end = 0;
    for site in list {
        if u128::from(site.at) < end {
            return Err(Refused::SiteOverlap(site.at));
        }
        end = u128::from(site.at) + u128::from(site.len);
    }
    Ok(())
}

/// The sites of the entries, in the entries' order.
fn made_list(
    alloc: Global,
    text: &Text<'_>,
    keys: &KeyAddresses,
    list: &[Entry],
) -> Result<Vec<Site>, Refused>
    requires below { text.now.base + length text.now.bytes.now < 2 ^ 64 }
    requires inside { (i : ℕ) (e : Entry) → slice_get list.now i ≡ Some e → ¬ IsOutsideOf text.now.base (length text.now.bytes.now) e }
    ensures list { IfOk result (λ sites. sites.items ≡ map (site_of text.now.base text.now.bytes.now keys.now.jumps.items keys.now.calls.items) list.now) }
    ensures failed { IfErr result (λ why. why ≡ NoMemory) }
{
    let mut sites = Vec::new(alloc);
    for entry in list {
        sites.push(site_of(text, keys, entry))?;
    }
    Ok(sites)
}

/// Puts sites into ascending order; those with one address stay in theirs.
fn ascend(sites: &mut Vec<Site>) -> Result<(), Refused>
    ensures list { OnOk result (sites.new.items ≡ ascending sites.old.items) }
    ensures failed { IfErr result (λ why. why ≡ NoMemory) }
{
    sites.sort_by_key(|site| site.at)?;
    Ok(())
}

/// The site of an entry.
fn site_of(text: &Text<'_>, keys: &KeyAddresses, entry: &Entry) -> Site
    requires below { text.now.base + length text.now.bytes.now < 2 ^ 64 }
    requires from { text.now.base ≤ entry.now.at }
    requires to { entry.now.at + room_of entry.now.kind ≤ text.now.base + length text.now.bytes.now }
    ensures { result ≡ site_of text.now.base text.now.bytes.now keys.now.jumps.items keys.now.calls.items entry.now }
{
    let at = entry.at;
    let len = entry_len(text, at, entry.kind);
    let kind = kind_of(keys, entry.kind);
    let foreign = !is_early(at, len, kind, code_at(text, at, len));
    Site {
        at,
        len,
        kind,
        foreign,
    }
}

/// How many bytes a site has: a jump those of the instruction that stands there, which is 0 where none does.
fn entry_len(text: &Text<'_>, at: u64, kind: EntryKind) -> u8
    requires from { text.now.base ≤ at }
    requires to { at ≤ text.now.base + length text.now.bytes.now }
    ensures { result ≡ entry_len text.now.base text.now.bytes.now at kind }
{
    match kind {
        EntryKind::Jump { .. } => text.length_at(at),
        EntryKind::Call { .. } | EntryKind::Tail { .. } | EntryKind::Trace => CALL_LEN,
    }
}

/// What a site is patched to, with its key's number among the keys of jumps and of calls.
fn kind_of(keys: &KeyAddresses, kind: EntryKind) -> SiteKind
    ensures { result ≡ kind_of keys.now.jumps.items keys.now.calls.items kind }
{
    match kind {
        EntryKind::Jump {
            target,
            key,
            likely,
        } => SiteKind::Jump {
            target,
            key: keys.number(KeyClass::Jump, key),
            likely,
        },
        EntryKind::Call { key } => SiteKind::Call {
            key: keys.number(KeyClass::Call, key),
        },
        EntryKind::Tail { key } => SiteKind::Tail {
            key: keys.number(KeyClass::Call, key),
        },
        EntryKind::Trace => SiteKind::Trace,
    }
}

/// N bytes at an address of the text; fewer where it ends before them.
fn code_at<'a>(text: &Text<'a>, at: u64, len: u8) -> &'a [u8]
    requires from { text.now.base ≤ at }
    requires to { at ≤ text.now.base + length text.now.bytes.now }
    ensures { result.now ≡ code_at text.now.base text.now.bytes.now at len }
{
    let rest = &text.bytes[(at - text.base) as usize..];
    &rest[..rest.len().min(len as usize)]
}
