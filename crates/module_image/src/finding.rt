//! The sites and keys of a file.
ghost use Rattle.std.specs.Prelude.{◌≡◌, IfOk};
ghost use Rattle.module_parts.specs.declared.key.KeyClass.TheVariants.{Jump, Call};
ghost use Rattle.module_names.specs.Keys.{key_addresses, keys};
ghost use Rattle.module_image.specs.Refusals.{Passes, Tries, past_site_overlap, past_key_state};

use crate::key_starts::read_keys;
use crate::listing::{entry_count, find_tables, listed};
use crate::rows::{keys_state, site_count, sites_length, sites_outside};
use crate::site_list::{overlap, site_list};
use crate::text_section::find_text;
use crate::{Key, Refused, Site, Text};
use elf_module::ElfFile;
use module_names::KeyAddresses;
use std::alloc::Global;

/// The text of a file, its sites, ascending, and the addresses of the keys that they have.
#[derive(Drop)]
pub struct Found<'a> {
    pub text: Text<'a>,
    pub addresses: KeyAddresses,
    pub sites: Vec<Site>,
}

impl<'a> Found<'a> {
    ghost use Rattle.module_image.specs.Found.{IsFound};

    /// Finds them in a file.
    ///
    /// # Errors
    /// The first that holds of `TextCount`, `TextSize`, `Table`, `SiteCount`, `SiteOutside`, `SiteLength` and
    /// `SiteOverlap`; out of memory.
    pub fn of(alloc: Global, file: &ElfFile<'a>) -> Result<Found<'a>, Refused>
        ensures tried { Tries file.now past_site_overlap result }
        ensures found { IfOk result (IsFound file.now) }
    {
        let text = find_text(file)?;
        let tables = find_tables(file)?;
        site_count(file, entry_count(&tables))?;
        let entries = listed(alloc, &tables)?;
        sites_outside(file, &text, &entries)?;
        sites_length(file, &text, &entries)?;
        let addresses = KeyAddresses::of(alloc, &entries)?;
        let sites = site_list(alloc, &text, &addresses, &entries)?;
        overlap(file, &sites)?;
        Ok(Found {
            text,
            addresses,
            sites,
        })
    }
}

/// The keys of a file, with what it has there.
///
/// # Errors
/// The first that holds of `KeyOutside` and `KeyState`; out of memory.
pub fn find_keys(
    alloc: Global,
    file: &ElfFile<'_>,
    addresses: &KeyAddresses,
) -> Result<Vec<Key>, Refused>
    requires passed { Passes file.now past_site_overlap }
    requires jumps { addresses.now.jumps.items ≡ key_addresses file.now Jump }
    requires calls { addresses.now.calls.items ≡ key_addresses file.now Call }
    ensures tried { Tries file.now past_key_state result }
    ensures found { IfOk result (λ found. found.items ≡ keys file.now) }
{
    let found = read_keys(alloc, file, addresses)?;
    keys_state(file, &found)?;
    Ok(found)
}
