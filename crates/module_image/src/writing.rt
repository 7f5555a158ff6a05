//! The text with its early forms written.
ghost use Rattle.std.specs.Prelude.{◌≡◌, ◌≤◌, ◌<◌, ◌+◌, IfOk, IfErr, length};
ghost use Rattle.std.specs.List.{All};
ghost use Rattle.insn_forms.specs.Spelling.{size};
ghost use Rattle.module_image.specs.Early.{HasCallLen, HaveCallLens};
ghost use Rattle.module_image.specs.Sites.{early_form, form_code, put_at, site_written, starts_of, written};
ghost use Rattle.module_image.specs.Text.{AreInside, IsInside};
ghost use Rattle.module_parts.specs.declared.refused.Refused.TheVariants.{NoMemory};

use crate::early::{key_state, wanted_form};
use crate::{Key, Refused, Site, Text};
use insn_forms::Form;
use std::alloc::Global;

/// The text with each site that isn't foreign written to the form that it wants at the start.
///
/// # Errors
/// Out of memory.
pub fn write_sites(
    alloc: Global,
    text: &Text<'_>,
    keys: &[Key],
    sites: &[Site],
) -> Result<Vec<u8>, Refused>
    requires inside { AreInside text.now.base (length text.now.bytes.now) sites.now }
    requires call_lens { HaveCallLens sites.now }
    ensures bytes { IfOk result (λ out. out.items ≡ written text.now.base (starts_of keys.now) sites.now text.now.bytes.now) }
    ensures length { IfOk result (λ out. length out.items ≡ length text.now.bytes.now) }
    ensures small { IfOk result (λ out. All (λ byte. byte < 256) out.items) }
    ensures failed { IfErr result (λ why. why ≡ NoMemory) }
{
    let mut out = Vec::from_slice(alloc, text.bytes)?;
    write_all(&mut out, text.base, keys, sites);
    are_bytes(&out);
    Ok(out)
}

/// Each byte of a text is below 256. It does nothing: its clause is what the text's type says.
fn are_bytes(text: &[u8])
    ensures { All (λ byte. byte < 256) text.now }
{
    let _length = text.len();
}

/// Writes the sites, one after the other, into the text at an address.
fn write_all(text: &mut [u8], base: u64, keys: &[Key], sites: &[Site])
    requires inside { AreInside base (length text.old) sites.now }
    requires call_lens { HaveCallLens sites.now }
    ensures bytes { text.new ≡ written base (starts_of keys.now) sites.now text.old }
    ensures length { length text.new ≡ length text.old }
{
    for site in sites {
        write_site(text, base, keys, site);
    }
}

/// Writes a site to the form that it wants at the start, unless it is foreign.
fn write_site(text: &mut [u8], base: u64, keys: &[Key], site: &Site)
    requires inside { IsInside base (length text.old) site.now }
    requires call_len { HasCallLen site.now.len site.now.kind }
    ensures bytes { text.new ≡ site_written base (starts_of keys.now) site.now text.old }
    ensures length { length text.new ≡ length text.old }
{
    if site.foreign {
        return;
    }
    let form = early_form(keys, site);
    put_form(text, (site.at - base) as usize, form, site.at);
}

/// The form that a site wants at the start, when no site is traced.
fn early_form(keys: &[Key], site: &Site) -> Form
    ensures { result ≡ early_form (starts_of keys.now) site.now }
{
    let no_tracer = 0;
    wanted_form(site, key_state(keys, site.kind), false, no_tracer)
}

/// Writes a form at the address `at`, which has this offset in the text; nothing where it doesn't reach its target.
fn put_form(text: &mut [u8], offset: usize, form: Form, at: u64)
    requires { offset + size form ≤ length text.old }
    ensures bytes { text.new ≡ put_at text.old offset (form_code form at) }
    ensures length { length text.new ≡ length text.old }
{
    match form.encode(at) {
        Ok(code) => put(text, offset, &code),
        Err(_) => (),
    }
}

/// Writes bytes at an offset.
fn put(text: &mut [u8], offset: usize, code: &[u8])
    requires { offset + length code.now ≤ length text.old }
    ensures bytes { text.new ≡ put_at text.old offset code.now }
    ensures length { length text.new ≡ length text.old }
{
    text[offset..offset + code.len()].copy_from_slice(code);
}
