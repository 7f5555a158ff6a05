//! What a command makes of keys and sites.
ghost use Rattle.std.specs.Prelude.{◌≡◌, ◌≤◌, ◌<◌, length, slice_index, slice_index_or, false};
ghost use Rattle.module_image.specs.Wants.{state_of};
ghost use Rattle.key_state.specs.Effects.{HasKey, HasSite, key_of, keys_after, traced_after};

use module_image::SiteKind;

/// What a command that isn't refused makes of keys and sites.
#[derive(Clone, Copy, Debug, PartialEq, Eq)]
pub enum Effect {
    /// The key with this number holds this count or function.
    Key(u32, u64),
    /// The site with this number is traced, or isn't.
    Site(u32, bool),
    /// All sites are traced, or none is.
    Sites(bool),
}

/// The number of a site's key; a trace site has none.
fn key_of(kind: SiteKind) -> Option<u32>
    ensures { result ≡ key_of kind }
{
    match kind {
        SiteKind::Jump { key, .. } => Some(key),
        SiteKind::Call { key } => Some(key),
        SiteKind::Tail { key } => Some(key),
        SiteKind::Trace => None,
    }
}

/// What the key with a number holds; 0 where no key has the number.
pub fn held(keys: &[u64], key: u32) -> u64
    ensures { result ≡ slice_index keys.now key }
{
    keys.get(key as usize).copied().unwrap_or(0)
}

/// What the key of a site holds; 0 for a trace site, which has none.
pub fn state_of(keys: &[u64], kind: SiteKind) -> u64
    ensures { result ≡ state_of keys.now kind }
{
    match key_of(kind) {
        Some(key) => held(keys, key),
        None => 0,
    }
}

/// What the key of a site holds after an effect.
pub fn state_after(keys: &[u64], effect: Effect, kind: SiteKind) -> u64
    requires { HasKey keys.now effect }
    ensures { result ≡ state_of (keys_after keys.now effect) kind }
{
    match effect {
        Effect::Key(key, state) => {
            if key_of(kind) == Some(key) {
                state
            } else {
                state_of(keys, kind)
            }
        }
        Effect::Site(_, _) => state_of(keys, kind),
        Effect::Sites(_) => state_of(keys, kind),
    }
}

/// Whether the site with a number is traced.
pub fn is_traced(traced: &[bool], site: u32) -> bool
    ensures { result ≡ slice_index_or traced.now site false }
{
    traced.get(site as usize).copied().unwrap_or(false)
}

/// Whether the site with a number is traced after an effect.
pub fn traced_after(traced: &[bool], effect: Effect, site: u32) -> bool
    requires site { site < length traced.now }
    requires changed { HasSite traced.now effect }
    ensures { result ≡ slice_index_or (traced_after traced.now effect) site false }
{
    match effect {
        Effect::Key(_, _) => is_traced(traced, site),
        Effect::Site(changed, on) => {
            if changed == site {
                on
            } else {
                is_traced(traced, site)
            }
        }
        Effect::Sites(on) => on,
    }
}
