//! What the keys of a module hold in its file.
ghost use Rattle.std.specs.Prelude.{◌≡◌, ◌<◌, ℕ, false, None, Some, length, map, slice_index_or, IfOk, IsTrue, MatchOption};
ghost use Rattle.std.specs.List.{range_with_len};
ghost use Rattle.std.specs.Option.{unwrap_or};
ghost use Rattle.module_names.specs.Keys.{IsUnloaded, key_addresses, key_of, keys};
ghost use Rattle.module_image.specs.KeyStarts.{start_in};
ghost use Rattle.module_image.specs.Refusals.{Passes, Tries, past_key_outside, past_site_overlap};
ghost use Rattle.module_parts.specs.declared.key.KeyClass.TheVariants.{Jump, Call};

use crate::{Key, KeyClass, Refused};
use byteorder::{ByteOrder, LittleEndian};
use elf_module::ElfFile;
use module_names::KeyAddresses;
use std::alloc::Global;
use std::array;

/// The keys at these addresses with what the file has there: those of jumps, then those of calls.
///
/// # Errors
/// `KeyOutside` at the first of which a byte isn't loaded; out of memory.
pub fn read_keys(
    alloc: Global,
    file: &ElfFile<'_>,
    addresses: &KeyAddresses,
) -> Result<Vec<Key>, Refused>
    requires passed { Passes file.now past_site_overlap }
    requires jumps { addresses.now.jumps.items ≡ key_addresses file.now Jump }
    requires calls { addresses.now.calls.items ≡ key_addresses file.now Call }
    ensures tried { Tries file.now past_key_outside result }
    ensures found { IfOk result (λ found. found.items ≡ keys file.now) }
{
    let mut found = Vec::new(alloc);
    for i in 0..addresses.count() {
        let (class, at) = addresses.key(i);
        match read_key(file, class, at) {
            Some(key) => found.push(key)?,
            None => return Err(Refused::KeyOutside(at)),
        }
    }
    Ok(found)
}

/// The key of a class at an address, with what the file has there. `None` exactly where one of its bytes isn't loaded.
fn read_key(file: &ElfFile<'_>, class: KeyClass, at: u64) -> Option<Key>
    ensures { MatchOption result (IsUnloaded file.now.sections at) (λ key. (key ≡ key_of file.now.sections class at) × (IsUnloaded file.now.sections at → ⊥)) }
{
    let bytes = file.load_16(at);
    if is_one_missing(&bytes) {
        return None;
    }
    Some(Key {
        class,
        at,
        start: start_of(class, &bytes),
    })
}

/// Whether one of a key's bytes isn't loaded.
fn is_one_missing(bytes: &[Option<u8>; 16]) -> bool
    ensures missing { IsTrue result → (k : ℕ) × (k < 16) × (slice_index_or bytes.now k None ≡ None) }
    ensures whole { result ≡ false → (k : ℕ) → k < 16 → slice_index_or bytes.now k None ≡ None → ⊥ }
{
    for byte in bytes {
        if byte.is_none() {
            return true;
        }
    }
    false
}

/// What a key with these bytes holds: a count in 4 bytes, or an address in 8.
fn start_of(class: KeyClass, bytes: &[Option<u8>; 16]) -> u64
    ensures { result ≡ start_in class bytes.now }
{
    let bytes = first_bytes(bytes);
    match class {
        KeyClass::Jump => u64::from(LittleEndian::read_u32(&bytes[..4])),
        KeyClass::Call => LittleEndian::read_u64(&bytes),
    }
}

/// The first eight of a key's bytes; one that isn't loaded counts as 0.
fn first_bytes(bytes: &[Option<u8>; 16]) -> [u8; 8]
    ensures { result ≡ map (λ i. unwrap_or (slice_index_or bytes.now i None) 0) (range_with_len 0 8) }
{
    array::from_fn(|i| byte_or_zero(bytes, i))
}

/// A byte of a key; one that isn't loaded counts as 0.
fn byte_or_zero(bytes: &[Option<u8>; 16], i: usize) -> u8
    ensures { result ≡ unwrap_or (slice_index_or bytes.now i None) 0 }
{
    bytes.get(i).copied().flatten().unwrap_or(0)
}
